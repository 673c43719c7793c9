//! Previews of objects, written without a tree (Chrome DevTools Protocol 1.3, `Runtime.ObjectPreview` and
//! `Runtime.PropertyPreview`).

ghost use Rattle.std.specs.Prelude.{◌≡◌, List, ℕ, [], map, take, codes, option_copied, OnOk};
ghost use Rattle.std.specs.Fmt.{signed_decimal};
ghost use Rattle.cdp_json.specs.Compact.{compact_text, string_text, with_commas};
ghost use Rattle.cdp_json.specs.Pieces.{Wrote};
ghost use Rattle.js_heap.specs.Values.{bool_text, shown};
ghost use Rattle.js_heap.specs.World.{read_cell};
ghost use Rattle.js_heap_memory.specs.Cells.{cell_at};
ghost use Rattle.js_heap_parts.specs.Shown.{key_text, part_shown};
ghost use Rattle.remote_objects.specs.Previews as previews;
ghost use Rattle.remote_objects.specs.Slots.{part_entry};
ghost use Rattle.remote_objects.specs.Values.{array_text};
ghost use Rattle.remote_objects.specs.Written as written;

use crate::describer::Describer;
use crate::function_sources::FunctionSources;
use crate::previews::{MOST_ELEMENTS, MOST_PROPERTIES, MOST_UNITS, has_preview, shortened};
use crate::remote_text::back_of;
use cdp_json::pen::Pen;
use js_heap::value::{Addr, Value};
use js_heap_memory::stored::Stored;
use js_heap_memory::world::World;
use js_heap_parts::{EnumerableParts, Key, Part, Parts};
use js_machine_actions::seen::units_at;
use js_machine_actions::shown::shown;
use std::alloc::{AllocError, Global};

// ---- texts

/// Writes a text, cut where it is long.
fn write_short(alloc: Global, units: &[u16], pen: &mut Pen) -> Result<(), AllocError>
    ensures { OnOk result (Wrote pen.old (string_text (previews.shortened units.now)) pen.new) }
{
    if units.len() <= MOST_UNITS {
        return pen.quoted(units);
    }
    let short = shortened(alloc, units)?;
    pen.quoted(short.as_slice())
}

/// Writes the name of an entry, cut where it is long.
fn write_short_key(alloc: Global, key: Key<'_>, pen: &mut Pen) -> Result<(), AllocError>
    ensures { OnOk result (Wrote pen.old (string_text (previews.shortened (key_text key.entry))) pen.new) }
{
    match key {
        Key::Index(index) => pen.quoted_natural(index as u64),
        Key::Name(name) => write_short(alloc, name, pen),
        Key::Known(name) => write_short(alloc, name.text()?, pen),
    }
}

/// Writes what is shown of a truth value.
fn write_shown_truth(truth: bool, pen: &mut Pen) -> Result<(), AllocError>
    ensures { OnOk result (Wrote pen.old (string_text (previews.shortened (bool_text truth))) pen.new) }
{
    if truth {
        pen.put("\"true\"")
    } else {
        pen.put("\"false\"")
    }
}

/// Writes what is shown of a number.
fn write_shown_number(z: i64, pen: &mut Pen) -> Result<(), AllocError>
    ensures { OnOk result (Wrote pen.old (string_text (previews.shortened (signed_decimal z))) pen.new) }
{
    pen.quoted_number(z)
}

/// Writes what is shown of a function: nothing.
fn write_shown_function(pen: &mut Pen) -> Result<(), AllocError>
    ensures { OnOk result (Wrote pen.old (string_text (previews.shortened [])) pen.new) }
{
    pen.put("\"\"")
}

/// Writes what is shown of a plain object.
fn write_shown_object(pen: &mut Pen) -> Result<(), AllocError>
    ensures { OnOk result (Wrote pen.old (string_text (previews.shortened (codes "Object"))) pen.new) }
{
    pen.put("\"Object\"")
}

/// Writes what is shown of an array of this length.
fn write_shown_array(len: usize, pen: &mut Pen) -> Result<(), AllocError>
    ensures { OnOk result (Wrote pen.old (string_text (previews.shortened (array_text len))) pen.new) }
{
    pen.put("\"Array(")?;
    pen.natural(len as u64)?;
    pen.put(")\"")
}

// ---- cells

/// Behind the name of an entry, the kind of an object with this cell: its subtype, where it has one, and its type; and
/// the key of its value.
fn cell_kind(cell: Option<&Stored>) -> &'static str
    ensures { (names : List (List ℕ)) → result.now ≡ written.cell_kind (cell_at names (option_copied cell.entry)) }
{
    match cell {
        Some(Stored::Error { .. }) => ",\"subtype\":\"error\",\"type\":\"object\",\"value\":",
        Some(Stored::Array { .. }) => ",\"subtype\":\"array\",\"type\":\"object\",\"value\":",
        Some(Stored::Function(_)) => ",\"type\":\"function\",\"value\":",
        _ => ",\"type\":\"object\",\"value\":",
    }
}

/// So many properties of an object with this cell are listed.
fn most_listed(cell: Option<&Stored>) -> usize
    ensures { (names : List (List ℕ)) → result ≡ previews.most_listed (cell_at names (option_copied cell.entry)) }
{
    match cell {
        Some(Stored::Array { .. }) => MOST_ELEMENTS,
        _ => MOST_PROPERTIES,
    }
}

/// The enumerable own properties of an object with this cell.
fn entries_of(cell: Option<&Stored>) -> EnumerableParts<'_>
    ensures { (names : List (List ℕ)) → map part_entry result ≡ previews.entries (cell_at names (option_copied cell.entry)) }
{
    Parts::of_object(cell).enumerable()
}

impl<'w, W: World, S: FunctionSources> Describer<'w, W, S> {
    // ---- values

    /// Writes what is shown of an error at an address, cut where it is long.
    fn write_shown_error(&self, a: Addr, pen: &mut Pen) -> Result<(), AllocError>
        ensures { OnOk result (Wrote pen.old (string_text (previews.shortened (shown (W.world self.now.names.now self.now.world.now) (Value.Object a)))) pen.new) }
    {
        let text = shown(self.alloc, self.world, self.names, Value::Object(a))?;
        write_short(self.alloc, text.as_slice(), pen)
    }

    /// Writes what is shown of the cell at an address, cut where it is long; of a function nothing.
    fn write_description(&self, a: Addr, pen: &mut Pen) -> Result<(), AllocError>
        ensures { OnOk result (Wrote pen.old (string_text (previews.shortened (previews.cell_description (W.world self.now.names.now self.now.world.now) (read_cell (W.world self.now.names.now self.now.world.now) a)))) pen.new) }
    {
        match self.world.find(a) {
            Some(Stored::Error { .. }) => self.write_shown_error(a, pen),
            Some(Stored::Array { elements }) => write_shown_array(elements.slice().len(), pen),
            Some(Stored::Function(_)) => write_shown_function(pen),
            _ => write_shown_object(pen),
        }
    }

    /// Writes what is shown of a value, cut where it is long.
    fn write_value_text(&self, value: Value, pen: &mut Pen) -> Result<(), AllocError>
        ensures { OnOk result (Wrote pen.old (string_text (previews.shortened (previews.value_text (W.world self.now.names.now self.now.world.now) value))) pen.new) }
    {
        match value {
            Value::Undefined => pen.put("\"undefined\""),
            Value::Null => pen.put("\"null\""),
            Value::Bool(truth) => write_shown_truth(truth, pen),
            Value::Number(z) => write_shown_number(z, pen),
            Value::Text(a) => write_short(self.alloc, units_at(self.world, self.names, a), pen),
            Value::Object(a) => self.write_description(a, pen),
        }
    }

    /// Behind the name of an entry, the kind of its value: its subtype, where it has one, and its type; and the key of
    /// the value.
    fn value_kind(&self, value: Value) -> &'static str
        ensures { result.now ≡ written.value_kind (W.world self.now.names.now self.now.world.now) value }
    {
        match value {
            Value::Undefined => ",\"type\":\"undefined\",\"value\":",
            Value::Null => ",\"subtype\":\"null\",\"type\":\"object\",\"value\":",
            Value::Bool(_) => ",\"type\":\"boolean\",\"value\":",
            Value::Number(_) => ",\"type\":\"number\",\"value\":",
            Value::Text(_) => ",\"type\":\"string\",\"value\":",
            Value::Object(a) => cell_kind(self.world.find(a)),
        }
    }

    // ---- entries

    /// Writes a property in short.
    fn write_entry(&self, part: Part<'_>, pen: &mut Pen) -> Result<(), AllocError>
        ensures { OnOk result (Wrote pen.old (compact_text (previews.property_preview (W.world self.now.names.now self.now.world.now) (part_entry (part_shown part.entry)))) pen.new) }
    {
        pen.put("{\"name\":")?;
        write_short_key(self.alloc, part.key, pen)?;
        pen.put(self.value_kind(part.value))?;
        self.write_value_text(part.value, pen)?;
        pen.put("}")
    }

    /// Writes the first so many properties in short, with commas between them.
    fn write_first(
        &self,
        mut parts: EnumerableParts<'_>,
        most: usize,
        pen: &mut Pen,
    ) -> Result<(), AllocError>
        ensures { OnOk result (Wrote pen.old (with_commas (map compact_text (take most (map (previews.property_preview (W.world self.now.names.now self.now.world.now)) (map part_entry parts.entry))))) pen.new) }
    {
        for turn in 0..most {
            let Some(part) = parts.next() else {
                return Ok(());
            };
            pen.comma(turn > 0)?;
            self.write_entry(part, pen)?;
        }
        Ok(())
    }

    // ---- objects

    /// Writes the first properties of an object with this cell, and before them whether there are more.
    fn write_listed(&self, cell: Option<&Stored>, pen: &mut Pen) -> Result<(), AllocError>
        ensures { OnOk result (Wrote pen.old (written.listed_entries (previews.listed (W.world self.now.names.now self.now.world.now) (cell_at self.now.names.now (option_copied cell.entry)))) pen.new) }
    {
        let most = most_listed(cell);
        pen.put(",\"overflow\":")?;
        pen.boolean(entries_of(cell).are_more_than(most))?;
        pen.put(",\"properties\":[")?;
        self.write_first(entries_of(cell), most, pen)?;
        pen.put("]")
    }

    /// Writes a preview of the object at an address, which is no function.
    fn write_preview(&self, a: Addr, pen: &mut Pen) -> Result<(), AllocError>
        ensures { OnOk result (Wrote pen.old (written.preview_pieces (W.world self.now.names.now self.now.world.now) (read_cell (W.world self.now.names.now self.now.world.now) a)) pen.new) }
    {
        let cell = self.world.find(a);
        pen.put(",\"preview\":{\"description\":")?;
        self.write_description(a, pen)?;
        self.write_listed(cell, pen)?;
        pen.put(back_of(cell))
    }

    /// Writes the preview of the object at an address behind other members, where it has one.
    pub(crate) fn write_preview_of(&self, a: Addr, pen: &mut Pen) -> Result<(), AllocError>
        ensures { OnOk result (Wrote pen.old (written.preview_text (W.world self.now.names.now self.now.world.now) (read_cell (W.world self.now.names.now self.now.world.now) a)) pen.new) }
    {
        if !has_preview(self.world.find(a)) {
            return Ok(());
        }
        self.write_preview(a, pen)
    }
}
