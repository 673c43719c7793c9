//! Parts.

ghost use Rattle.std.specs.Prelude.{◌≡◌, ◌<◌, ◌^◌};
ghost use Rattle.js_heap_memory.specs.Cells.{binding_at};
ghost use Rattle.js_heap_parts.specs.Parts.{bound_part, element_part, length_part, property_part};
ghost use Rattle.js_heap_parts.specs.Shown.{part_shown};

use crate::key::{Key, KnownName};
use js_heap::cell::Property;
use js_heap::value::Value;
use js_heap_memory::names::NameTable;
use js_heap_memory::stored::Slot;

/// A part of a cell: an own property with what may be done with it (ECMA-262, 6.1.7.1), or a name of a scope that has a
/// value.
#[derive(Clone, Copy)]
pub struct Part<'w> {
    /// Its key.
    pub key: Key<'w>,
    /// Its value.
    pub value: Value,
    /// Whether it is listed by `Object.keys`; a name of a scope is.
    pub enumerable: bool,
    /// Whether it can be written; a constant can't.
    pub writable: bool,
    /// Whether it can be removed and its flags changed; a name of a scope is described so.
    pub configurable: bool,
}

/// `length`
static LENGTH: [u16; 6] = [108, 101, 110, 103, 116, 104];

/// A property of an object.
pub(crate) fn property_part(property: &Property) -> Part<'_>
    ensures { part_shown result ≡ property_part property.now }
{
    Part {
        key: Key::Name(property.key.as_slice()),
        value: property.value,
        enumerable: property.enumerable,
        writable: property.writable,
        configurable: property.configurable,
    }
}

/// An element of an array.
pub(crate) fn element_part(index: usize, value: Value) -> Part<'static>
    ensures { part_shown result ≡ element_part index value }
{
    Part {
        key: Key::Index(index),
        value,
        enumerable: true,
        writable: true,
        configurable: true,
    }
}

/// The length of an array.
pub(crate) fn length_part(len: usize) -> Part<'static>
    requires { len < 2 ^ 63 }
    ensures { part_shown result ≡ length_part len }
{
    Part {
        key: Key::Name(&LENGTH),
        value: Value::Number(len as i64),
        enumerable: false,
        writable: true,
        configurable: false,
    }
}

/// A name of a scope with its value.
pub(crate) fn bound_part<'w>(names: &'w NameTable, slot: Slot, value: Value) -> Part<'w>
    ensures { part_shown result ≡ bound_part (binding_at names.now slot).name slot.constant value }
{
    Part {
        key: Key::Known(KnownName {
            names,
            id: slot.name,
        }),
        value,
        enumerable: true,
        writable: !slot.constant,
        configurable: true,
    }
}
