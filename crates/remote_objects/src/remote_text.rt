//! Values as remote objects, written without a tree (Chrome DevTools Protocol 1.3, `Runtime.RemoteObject`).

ghost use Rattle.std.specs.Prelude.{◌≡◌, List, ℕ, Some, codes, option_copied, OnOk};
ghost use Rattle.js_heap.specs.Values.{class_text, shown};
ghost use Rattle.js_heap.specs.World.{read_cell};
ghost use Rattle.js_heap_memory.specs.Cells.{cell_at, name_text};
ghost use Rattle.cdp_json.specs.Compact.{compact_text};
ghost use Rattle.cdp_json.specs.Parts.{object_of};
ghost use Rattle.cdp_json.specs.Pieces.{Wrote};
ghost use Rattle.remote_objects.specs.Remote as remotes;
ghost use Rattle.remote_objects.specs.Values as values;
ghost use Rattle.remote_objects.specs.Views.{sight_of};
ghost use Rattle.remote_objects.specs.Written as written;

use crate::describer::Describer;
use crate::detail::Detail;
use crate::function_sources::FunctionSources;
use crate::remote::handle_on;
use cdp_json::pen::Pen;
use cdp_text::units::ascii;
use js_heap::built_in::ErrorClass;
use js_heap::value::{Addr, Value};
use js_heap_memory::stored::{FunctionCell, Stored};
use js_heap_memory::world::World;
use js_heap_operators::values::class_text;
use js_machine_actions::seen::{name_text, units_at};
use js_machine_actions::shown::shown;
use object_groups::{Handles, Target};
use std::alloc::AllocError;

// ---- primitive values

/// Writes `undefined`.
fn write_undefined(pen: &mut Pen) -> Result<(), AllocError>
    ensures { OnOk result (Wrote pen.old (compact_text (object_of values.undefined_pairs)) pen.new) }
{
    pen.put("{\"type\":\"undefined\"}")
}

/// Writes `null`.
fn write_null(pen: &mut Pen) -> Result<(), AllocError>
    ensures { OnOk result (Wrote pen.old (compact_text (object_of values.null_pairs)) pen.new) }
{
    pen.put("{\"subtype\":\"null\",\"type\":\"object\",\"value\":null}")
}

/// Writes a truth value.
fn write_truth(truth: bool, pen: &mut Pen) -> Result<(), AllocError>
    ensures { OnOk result (Wrote pen.old (compact_text (object_of (values.truth_pairs truth))) pen.new) }
{
    pen.put("{\"type\":\"boolean\",\"value\":")?;
    pen.boolean(truth)?;
    pen.put("}")
}

/// Writes a number.
fn write_number(z: i64, pen: &mut Pen) -> Result<(), AllocError>
    ensures { OnOk result (Wrote pen.old (compact_text (object_of (values.number_pairs z))) pen.new) }
{
    pen.put("{\"description\":")?;
    pen.quoted_number(z)?;
    pen.put(",\"type\":\"number\",\"value\":")?;
    pen.number(z)?;
    pen.put("}")
}

/// Writes a text.
pub(crate) fn write_text(units: &[u16], pen: &mut Pen) -> Result<(), AllocError>
    ensures { OnOk result (Wrote pen.old (compact_text (object_of (values.text_pairs units.now))) pen.new) }
{
    pen.put("{\"type\":\"string\",\"value\":")?;
    pen.quoted(units)?;
    pen.put("}")
}

// ---- parts of objects

/// Writes the id of an object behind its other members: the number of its session and that of its handle.
fn write_handle_id(session: u64, number: u64, pen: &mut Pen) -> Result<(), AllocError>
    ensures { OnOk result (Wrote pen.old (written.id_text session (Some number)) pen.new) }
{
    pen.put(",\"objectId\":\"")?;
    pen.natural(session)?;
    pen.put(".")?;
    pen.natural(number)?;
    pen.put("\"")
}

/// Writes the id of an object behind its other members, where it has a handle.
pub(crate) fn write_id(session: u64, number: Option<u64>, pen: &mut Pen) -> Result<(), AllocError>
    ensures { OnOk result (Wrote pen.old (written.id_text session number) pen.new) }
{
    match number {
        None => Ok(()),
        Some(number) => write_handle_id(session, number, pen),
    }
}

/// Writes the beginning of a plain object, a scope among them.
pub(crate) fn write_plain_front(pen: &mut Pen) -> Result<(), AllocError>
    ensures { OnOk result (Wrote pen.old (written.front_of (codes "Object") (codes "Object")) pen.new) }
{
    pen.put("{\"className\":\"Object\",\"description\":\"Object\"")
}

/// Writes the beginning of an array of this length.
fn write_array_front(len: usize, pen: &mut Pen) -> Result<(), AllocError>
    ensures { OnOk result (Wrote pen.old (written.front_of (codes "Array") (values.array_text len)) pen.new) }
{
    pen.put("{\"className\":\"Array\",\"description\":\"Array(")?;
    pen.natural(len as u64)?;
    pen.put(")\"")
}

/// Writes the beginning of an object of this class of which this is shown.
fn write_front_of(class: &[u16], shown: &[u16], pen: &mut Pen) -> Result<(), AllocError>
    ensures { OnOk result (Wrote pen.old (written.front_of class.now shown.now) pen.new) }
{
    pen.put("{\"className\":")?;
    pen.quoted(class)?;
    pen.put(",\"description\":")?;
    pen.quoted(shown)
}

/// The end of an object with this cell: its subtype, where it has one, and its type.
pub(crate) fn back_of(cell: Option<&Stored>) -> &'static str
    ensures { (names : List (List ℕ)) → result.now ≡ written.cell_back (cell_at names (option_copied cell.entry)) }
{
    match cell {
        Some(Stored::Error { .. }) => ",\"subtype\":\"error\",\"type\":\"object\"}",
        Some(Stored::Array { .. }) => ",\"subtype\":\"array\",\"type\":\"object\"}",
        Some(Stored::Function(_)) => ",\"type\":\"function\"}",
        _ => ",\"type\":\"object\"}",
    }
}

impl<'w, W: World, S: FunctionSources> Describer<'w, W, S> {
    // ---- objects

    /// Writes the beginning of an error at an address.
    fn write_error_front(&self, class: ErrorClass, a: Addr, pen: &mut Pen) -> Result<(), AllocError>
        ensures { OnOk result (Wrote pen.old (written.front_of (class_text class) (shown (W.world self.now.names.now self.now.world.now) (Value.Object a))) pen.new) }
    {
        let text = shown(self.alloc, self.world, self.names, Value::Object(a))?;
        let class = ascii(self.alloc, class_text(class))?;
        write_front_of(class.as_slice(), text.as_slice(), pen)
    }

    /// Writes the beginning of a function.
    fn write_function_front(&self, function: &FunctionCell, pen: &mut Pen) -> Result<(), AllocError>
        ensures { OnOk result (Wrote pen.old (written.front_of (codes "Function") (values.function_text (sight_of S.node_text (W.world self.now.names.now self.now.world.now) self.now.scripts.now self.now.session) function.now.code (name_text self.now.names.now function.now.name))) pen.new) }
    {
        let name = name_text(self.names, &function.name)?;
        let source = self.function_text(function.code, name)?;
        pen.put("{\"className\":\"Function\",\"description\":")?;
        pen.quoted(source.as_slice())
    }

    /// Writes the beginning of the cell at an address as an object.
    fn write_front(&self, a: Addr, pen: &mut Pen) -> Result<(), AllocError>
        ensures { OnOk result (Wrote pen.old (written.cell_front (sight_of S.node_text (W.world self.now.names.now self.now.world.now) self.now.scripts.now self.now.session) (read_cell (W.world self.now.names.now self.now.world.now) a)) pen.new) }
    {
        match self.world.find(a) {
            Some(Stored::Error { class, .. }) => self.write_error_front(*class, a, pen),
            Some(Stored::Array { elements }) => write_array_front(elements.slice().len(), pen),
            Some(Stored::Function(function)) => self.write_function_front(function, pen),
            _ => write_plain_front(pen),
        }
    }

    /// Writes an object with a handle, where one can be made, in this group or in none.
    fn write_plain_object(
        &self,
        a: Addr,
        handles: &mut Handles,
        group: Option<&[u16]>,
        pen: &mut Pen,
    ) -> Result<(), AllocError>
        ensures text { OnOk result (Wrote pen.old (compact_text (remotes.remote (sight_of S.node_text (W.world self.now.names.now self.now.world.now) self.now.scripts.now self.now.session) (option_copied group.entry) (Value.Object a) handles.old).made) pen.new) }
        ensures handles { OnOk result (handles.new ≡ (remotes.remote (sight_of S.node_text (W.world self.now.names.now self.now.world.now) self.now.scripts.now self.now.session) (option_copied group.entry) (Value.Object a) handles.old).handles) }
    {
        self.write_front(a, pen)?;
        let number = handle_on(Target::Object(a), group, handles)?;
        write_id(self.session, number, pen)?;
        pen.put(back_of(self.world.find(a)))
    }

    /// Writes an object with a handle, where one can be made, in this group or in none, and with its preview.
    fn write_previewed(
        &self,
        a: Addr,
        handles: &mut Handles,
        group: Option<&[u16]>,
        pen: &mut Pen,
    ) -> Result<(), AllocError>
        ensures text { OnOk result (Wrote pen.old (compact_text (remotes.previewed_object (sight_of S.node_text (W.world self.now.names.now self.now.world.now) self.now.scripts.now self.now.session) (option_copied group.entry) a handles.old).made) pen.new) }
        ensures handles { OnOk result (handles.new ≡ (remotes.previewed_object (sight_of S.node_text (W.world self.now.names.now self.now.world.now) self.now.scripts.now self.now.session) (option_copied group.entry) a handles.old).handles) }
    {
        self.write_front(a, pen)?;
        let number = handle_on(Target::Object(a), group, handles)?;
        write_id(self.session, number, pen)?;
        self.write_preview_of(a, pen)?;
        pen.put(back_of(self.world.find(a)))
    }

    /// Writes an object with a handle, where one can be made, and with its preview, where that is asked for.
    fn write_object(
        &self,
        a: Addr,
        detail: Detail,
        handles: &mut Handles,
        group: Option<&[u16]>,
        pen: &mut Pen,
    ) -> Result<(), AllocError>
        ensures text { OnOk result (Wrote pen.old (compact_text (remotes.remote_with (sight_of S.node_text (W.world self.now.names.now self.now.world.now) self.now.scripts.now self.now.session) detail (option_copied group.entry) (Value.Object a) handles.old).made) pen.new) }
        ensures handles { OnOk result (handles.new ≡ (remotes.remote_with (sight_of S.node_text (W.world self.now.names.now self.now.world.now) self.now.scripts.now self.now.session) detail (option_copied group.entry) (Value.Object a) handles.old).handles) }
    {
        match detail {
            Detail::Plain => self.write_plain_object(a, handles, group, pen),
            Detail::Previewed => self.write_previewed(a, handles, group, pen),
        }
    }

    // ---- values

    /// Writes a value as a remote object, with or without a preview; its handle, if it is an object, is in this group
    /// or in none.
    ///
    /// # Errors
    ///
    /// There is no memory for it. A part of it may have been written, and its handle may have been made.
    pub fn write_remote(
        &self,
        value: Value,
        detail: Detail,
        handles: &mut Handles,
        group: Option<&[u16]>,
        pen: &mut Pen,
    ) -> Result<(), AllocError>
        ensures text { OnOk result (Wrote pen.old (compact_text (remotes.remote_with (sight_of S.node_text (W.world self.now.names.now self.now.world.now) self.now.scripts.now self.now.session) detail (option_copied group.entry) value handles.old).made) pen.new) }
        ensures handles { OnOk result (handles.new ≡ (remotes.remote_with (sight_of S.node_text (W.world self.now.names.now self.now.world.now) self.now.scripts.now self.now.session) detail (option_copied group.entry) value handles.old).handles) }
    {
        match value {
            Value::Undefined => write_undefined(pen),
            Value::Null => write_null(pen),
            Value::Bool(truth) => write_truth(truth, pen),
            Value::Number(z) => write_number(z, pen),
            Value::Text(a) => write_text(units_at(self.world, self.names, a), pen),
            Value::Object(a) => self.write_object(a, detail, handles, group, pen),
        }
    }
}
