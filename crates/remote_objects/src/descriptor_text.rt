//! The own properties of what a handle stands for, written without a tree (Chrome DevTools Protocol 1.3,
//! `Runtime.PropertyDescriptor`).

ghost use Rattle.std.specs.Prelude.{◌≡◌, codes, map, pos, option_copied, OnOk};
ghost use Rattle.cdp_json.specs.Compact.{compact_text, string_text};
ghost use Rattle.cdp_json.specs.Parts.{list_of, object_of};
ghost use Rattle.cdp_json.specs.Pieces.{Wrote};
ghost use Rattle.js_heap_memory.specs.Cells.{cell_at, name_text};
ghost use Rattle.js_heap_parts.specs.Shown.{key_text, part_shown};
ghost use Rattle.remote_objects.specs.Descriptors as descriptors;
ghost use Rattle.remote_objects.specs.Making.{made_all};
ghost use Rattle.remote_objects.specs.Remote as remotes;
ghost use Rattle.remote_objects.specs.Slots.{part_slot, text_slot, value_slot};
ghost use Rattle.remote_objects.specs.Values.{text_pairs};
ghost use Rattle.remote_objects.specs.Views.{sight_of};
ghost use Rattle.remote_objects.specs.Written as written;

use crate::describer::Describer;
use crate::detail::Detail;
use crate::function_sources::FunctionSources;
use crate::remote_text::write_text;
use crate::slots::Flags;
use cdp_json::pen::Pen;
use js_heap::value::Value;
use js_heap_memory::stored::{FunctionCell, Stored};
use js_heap_memory::world::World;
use js_heap_parts::{Key, Part, Parts};
use js_machine_actions::seen::name_text;
use object_groups::{Handles, Target};
use std::alloc::AllocError;

/// `length`
static LENGTH: [u16; 6] = [108, 101, 110, 103, 116, 104];

/// `name`
static NAME: [u16; 4] = [110, 97, 109, 101];

/// The key of a length.
fn length_key() -> &'static [u16]
    ensures { result.now ≡ codes "length" }
{
    &LENGTH
}

/// The key of a name.
fn name_key() -> &'static [u16]
    ensures { result.now ≡ codes "name" }
{
    &NAME
}

// ---- parts of a property

/// Writes the beginning of a property, up to its name.
fn write_flags(flags: Flags, pen: &mut Pen) -> Result<(), AllocError>
    ensures { OnOk result (Wrote pen.old (written.flags_front flags.configurable flags.enumerable) pen.new) }
{
    pen.put("{\"configurable\":")?;
    pen.boolean(flags.configurable)?;
    pen.put(",\"enumerable\":")?;
    pen.boolean(flags.enumerable)?;
    pen.put(",\"isOwn\":true,\"name\":")
}

/// Writes the name of a part.
fn write_key(key: Key<'_>, pen: &mut Pen) -> Result<(), AllocError>
    ensures { OnOk result (Wrote pen.old (string_text (key_text key.entry)) pen.new) }
{
    match key {
        Key::Index(index) => pen.quoted_natural(index as u64),
        Key::Name(name) => pen.quoted(name),
        Key::Known(name) => pen.quoted(name.text()?),
    }
}

/// Writes the end of a property, behind its value.
fn write_writable(flags: Flags, pen: &mut Pen) -> Result<(), AllocError>
    ensures { OnOk result (Wrote pen.old (written.writable_back flags.writable) pen.new) }
{
    pen.put(",\"writable\":")?;
    pen.boolean(flags.writable)?;
    pen.put("}")
}

/// Writes a property that holds a text without a cell.
fn write_text_property(
    name: &[u16],
    units: &[u16],
    flags: Flags,
    pen: &mut Pen,
) -> Result<(), AllocError>
    ensures { OnOk result (Wrote pen.old (compact_text (descriptors.descriptor_of (text_slot name.now units.now flags) (object_of (text_pairs units.now)))) pen.new) }
{
    write_flags(flags, pen)?;
    pen.quoted(name)?;
    pen.put(",\"value\":")?;
    write_text(units, pen)?;
    write_writable(flags, pen)
}

impl<'w, W: World, S: FunctionSources> Describer<'w, W, S> {
    // ---- one property

    /// Writes the value of a property, and its end.
    fn write_held(
        &self,
        value: Value,
        flags: Flags,
        detail: Detail,
        group: Option<&[u16]>,
        handles: &mut Handles,
        pen: &mut Pen,
    ) -> Result<(), AllocError>
        ensures text { OnOk result (Wrote pen.old (written.value_back flags.writable (compact_text (remotes.remote_with (sight_of S.node_text (W.world self.now.names.now self.now.world.now) self.now.scripts.now self.now.session) detail (option_copied group.entry) value handles.old).made)) pen.new) }
        ensures handles { OnOk result (handles.new ≡ (remotes.remote_with (sight_of S.node_text (W.world self.now.names.now self.now.world.now) self.now.scripts.now self.now.session) detail (option_copied group.entry) value handles.old).handles) }
    {
        pen.put(",\"value\":")?;
        self.write_remote(value, detail, handles, group, pen)?;
        write_writable(flags, pen)
    }

    /// Writes a property of this name that holds a value.
    fn write_property(
        &self,
        name: &[u16],
        value: Value,
        flags: Flags,
        detail: Detail,
        group: Option<&[u16]>,
        handles: &mut Handles,
        pen: &mut Pen,
    ) -> Result<(), AllocError>
        ensures text { OnOk result (Wrote pen.old (compact_text (descriptors.descriptor (sight_of S.node_text (W.world self.now.names.now self.now.world.now) self.now.scripts.now self.now.session) detail (option_copied group.entry) (value_slot name.now value flags) handles.old).made) pen.new) }
        ensures handles { OnOk result (handles.new ≡ (descriptors.descriptor (sight_of S.node_text (W.world self.now.names.now self.now.world.now) self.now.scripts.now self.now.session) detail (option_copied group.entry) (value_slot name.now value flags) handles.old).handles) }
    {
        write_flags(flags, pen)?;
        pen.quoted(name)?;
        self.write_held(value, flags, detail, group, handles, pen)
    }

    /// Writes a part of a cell.
    fn write_part(
        &self,
        part: Part<'_>,
        detail: Detail,
        group: Option<&[u16]>,
        handles: &mut Handles,
        pen: &mut Pen,
    ) -> Result<(), AllocError>
        ensures text { OnOk result (Wrote pen.old (compact_text (descriptors.descriptor (sight_of S.node_text (W.world self.now.names.now self.now.world.now) self.now.scripts.now self.now.session) detail (option_copied group.entry) (part_slot (part_shown part.entry)) handles.old).made) pen.new) }
        ensures handles { OnOk result (handles.new ≡ (descriptors.descriptor (sight_of S.node_text (W.world self.now.names.now self.now.world.now) self.now.scripts.now self.now.session) detail (option_copied group.entry) (part_slot (part_shown part.entry)) handles.old).handles) }
    {
        let flags = Flags {
            writable: part.writable,
            enumerable: part.enumerable,
            configurable: part.configurable,
        };
        write_flags(flags, pen)?;
        write_key(part.key, pen)?;
        self.write_held(part.value, flags, detail, group, handles, pen)
    }

    // ---- all of them, with commas between them

    /// Writes the parts of a cell, in order.
    fn write_parts(
        &self,
        parts: Parts<'_>,
        detail: Detail,
        group: Option<&[u16]>,
        handles: &mut Handles,
        pen: &mut Pen,
    ) -> Result<(), AllocError>
        ensures text { OnOk result (Wrote pen.old (written.listed_text (made_all (descriptors.descriptor (sight_of S.node_text (W.world self.now.names.now self.now.world.now) self.now.scripts.now self.now.session) detail (option_copied group.entry)) (map part_slot parts.entry) handles.old)) pen.new) }
        ensures handles { OnOk result (handles.new ≡ (made_all (descriptors.descriptor (sight_of S.node_text (W.world self.now.names.now self.now.world.now) self.now.scripts.now self.now.session) detail (option_copied group.entry)) (map part_slot parts.entry) handles.old).handles) }
    {
        let mut behind = false;
        for part in parts {
            pen.comma(behind)?;
            self.write_part(part, detail, group, handles, pen)?;
            behind = true;
        }
        Ok(())
    }

    /// Writes the length of a function.
    fn write_function_length(
        &self,
        len: u32,
        detail: Detail,
        group: Option<&[u16]>,
        handles: &mut Handles,
        pen: &mut Pen,
    ) -> Result<(), AllocError>
        ensures text { OnOk result (Wrote pen.old (compact_text (descriptors.descriptor (sight_of S.node_text (W.world self.now.names.now self.now.world.now) self.now.scripts.now self.now.session) detail (option_copied group.entry) (descriptors.fixed_slot (codes "length") (descriptors.a_value (Value.Number (pos len)))) handles.old).made) pen.new) }
        ensures handles { OnOk result (handles.new ≡ (descriptors.descriptor (sight_of S.node_text (W.world self.now.names.now self.now.world.now) self.now.scripts.now self.now.session) detail (option_copied group.entry) (descriptors.fixed_slot (codes "length") (descriptors.a_value (Value.Number (pos len)))) handles.old).handles) }
    {
        let flags = Flags {
            writable: false,
            enumerable: false,
            configurable: true,
        };
        let value = Value::Number(i64::from(len));
        self.write_property(length_key(), value, flags, detail, group, handles, pen)
    }

    /// Writes the length and the name of a function.
    fn write_function_slots(
        &self,
        function: &FunctionCell,
        detail: Detail,
        group: Option<&[u16]>,
        handles: &mut Handles,
        pen: &mut Pen,
    ) -> Result<(), AllocError>
        ensures text { OnOk result (Wrote pen.old (written.listed_text (made_all (descriptors.descriptor (sight_of S.node_text (W.world self.now.names.now self.now.world.now) self.now.scripts.now self.now.session) detail (option_copied group.entry)) (descriptors.function_slots function.now.length (name_text self.now.names.now function.now.name)) handles.old)) pen.new) }
        ensures handles { OnOk result (handles.new ≡ (made_all (descriptors.descriptor (sight_of S.node_text (W.world self.now.names.now self.now.world.now) self.now.scripts.now self.now.session) detail (option_copied group.entry)) (descriptors.function_slots function.now.length (name_text self.now.names.now function.now.name)) handles.old).handles) }
    {
        let flags = Flags {
            writable: false,
            enumerable: false,
            configurable: true,
        };
        let name = name_text(self.names, &function.name)?;
        self.write_function_length(function.length, detail, group, handles, pen)?;
        pen.put(",")?;
        write_text_property(name_key(), name, flags, pen)
    }

    // ---- cells

    /// Writes the properties of an object with this cell; what isn't an object has none.
    fn write_object_slots(
        &self,
        cell: Option<&Stored>,
        detail: Detail,
        group: Option<&[u16]>,
        handles: &mut Handles,
        pen: &mut Pen,
    ) -> Result<(), AllocError>
        ensures text { OnOk result (Wrote pen.old (written.listed_text (made_all (descriptors.descriptor (sight_of S.node_text (W.world self.now.names.now self.now.world.now) self.now.scripts.now self.now.session) detail (option_copied group.entry)) (descriptors.object_slots (cell_at self.now.names.now (option_copied cell.entry))) handles.old)) pen.new) }
        ensures handles { OnOk result (handles.new ≡ (made_all (descriptors.descriptor (sight_of S.node_text (W.world self.now.names.now self.now.world.now) self.now.scripts.now self.now.session) detail (option_copied group.entry)) (descriptors.object_slots (cell_at self.now.names.now (option_copied cell.entry))) handles.old).handles) }
    {
        match cell {
            Some(Stored::Function(function)) => self.write_function_slots(
                function, detail, group, handles, pen,
            ),
            _ => self.write_parts(Parts::of_object(cell), detail, group, handles, pen),
        }
    }

    /// Writes the properties of a target, with commas between them.
    fn write_slots(
        &self,
        target: Target,
        detail: Detail,
        group: Option<&[u16]>,
        handles: &mut Handles,
        pen: &mut Pen,
    ) -> Result<(), AllocError>
        ensures text { OnOk result (Wrote pen.old (written.listed_text (descriptors.descriptors_with (sight_of S.node_text (W.world self.now.names.now self.now.world.now) self.now.scripts.now self.now.session) detail (option_copied group.entry) target handles.old)) pen.new) }
        ensures handles { OnOk result (handles.new ≡ (descriptors.descriptors_with (sight_of S.node_text (W.world self.now.names.now self.now.world.now) self.now.scripts.now self.now.session) detail (option_copied group.entry) target handles.old).handles) }
    {
        match target {
            Target::Object(a) => self.write_object_slots(
                self.world.find(a),
                detail,
                group,
                handles,
                pen,
            ),
            Target::Scope(a) => self.write_parts(
                Parts::of_scope(self.names, self.world.find(a)),
                detail,
                group,
                handles,
                pen,
            ),
        }
    }

    /// Writes the list of the properties of a target, in order, with or without previews of their values; new handles
    /// are in this group or in none.
    ///
    /// # Errors
    ///
    /// There is no memory for it. A part of it may have been written, and handles may have been made.
    pub fn write_descriptors(
        &self,
        target: Target,
        detail: Detail,
        group: Option<&[u16]>,
        handles: &mut Handles,
        pen: &mut Pen,
    ) -> Result<(), AllocError>
        ensures text { OnOk result (Wrote pen.old (compact_text (list_of (descriptors.descriptors_with (sight_of S.node_text (W.world self.now.names.now self.now.world.now) self.now.scripts.now self.now.session) detail (option_copied group.entry) target handles.old).made)) pen.new) }
        ensures handles { OnOk result (handles.new ≡ (descriptors.descriptors_with (sight_of S.node_text (W.world self.now.names.now self.now.world.now) self.now.scripts.now self.now.session) detail (option_copied group.entry) target handles.old).handles) }
    {
        pen.put("[")?;
        self.write_slots(target, detail, group, handles, pen)?;
        pen.put("]")
    }
}
