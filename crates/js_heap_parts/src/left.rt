//! What is left of a cell's parts.

ghost use Rattle.std.specs.Prelude.{◌≡◌, List, ℕ, option_copied};
ghost use Rattle.js_heap_memory.specs.Cells.{bindings, cell_at};
ghost use Rattle.js_heap_parts.specs.Parts.{names_parts, object_parts, scope_parts};
ghost use Rattle.js_heap_parts.specs.Left.{Splits, SplitsOff, elements_left, parts_left, properties_left};

use crate::part::{Part, bound_part, element_part, length_part, property_part};
use js_heap::value::Value;
use js_heap_memory::names::NameTable;
use js_heap_memory::properties::PropertyMap;
use js_heap_memory::stored::{Slot, Stored};

/// Names of a scope, with the table of their texts.
#[derive(Clone, Copy)]
pub struct NamesLeft<'w> {
    pub names: &'w NameTable,
    pub slots: &'w [Slot],
}

/// The parts of a cell that are still to come.
#[derive(Clone, Copy)]
pub enum Left<'w> {
    Nothing,
    /// The properties from a place on.
    Properties(&'w PropertyMap, usize),
    /// The elements from an index on, and then the length.
    Elements(&'w [Value], usize),
    Names(NamesLeft<'w>),
}

/// All parts of an object with this cell; a scope has none.
pub fn parts_of_object(cell: Option<&Stored>) -> Left<'_>
    ensures { (names : List (List ℕ)) → parts_left result ≡ object_parts (cell_at names (option_copied cell.entry)) }
{
    match cell {
        Some(Stored::Object { properties }) => Left::Properties(properties, 0),
        Some(Stored::Error { properties, .. }) => Left::Properties(properties, 0),
        Some(Stored::Array { elements }) => Left::Elements(elements.slice(), 0),
        _ => Left::Nothing,
    }
}

/// All parts of a scope with this cell; what is no scope has none.
pub fn parts_of_scope<'w>(names: &'w NameTable, cell: Option<&'w Stored>) -> Left<'w>
    ensures { parts_left result ≡ scope_parts (cell_at names.now (option_copied cell.entry)) }
{
    match cell {
        Some(Stored::Scope { slots, .. }) => Left::Names(NamesLeft {
            names,
            slots: slots.slice(),
        }),
        _ => Left::Nothing,
    }
}

/// The property at a place, and those behind it.
fn split_properties<'w>(properties: &'w PropertyMap, place: usize) -> Option<(Part<'w>, Left<'w>)>
    ensures { Splits (properties_left properties.now place) result }
{
    if place >= properties.len() {
        return None;
    }
    let property = properties.get(place)?;
    let left = Left::Properties(properties, place + 1);
    Some((property_part(property), left))
}

/// The element at an index or, behind all of them, the length; and what is left then.
fn split_elements<'w>(elements: &'w [Value], index: usize) -> (Part<'w>, Left<'w>)
    ensures { SplitsOff (elements_left elements.now index) result }
{
    if index < elements.len() {
        let left = Left::Elements(elements, index + 1);
        (element_part(index, elements[index]), left)
    } else {
        (length_part(elements.len()), Left::Nothing)
    }
}

/// The first name that has a value, and the names behind it.
fn split_names<'w>(names: &'w NameTable, slots: &'w [Slot]) -> Option<(Part<'w>, Left<'w>)>
    ensures { Splits (names_parts (bindings names.now slots.now)) result }
{
    let mut left = slots;
    while let Some((slot, others)) = left.split_first() {
        left = others;
        if let Some(value) = slot.value {
            let left = Left::Names(NamesLeft {
                names,
                slots: others,
            });
            return Some((bound_part(names, *slot, value), left));
        }
    }
    None
}

/// The first part, and those behind it.
pub fn split<'w>(left: Left<'w>) -> Option<(Part<'w>, Left<'w>)>
    ensures { Splits (parts_left left.entry) result }
{
    match left {
        Left::Nothing => None,
        Left::Properties(properties, place) => split_properties(properties, place),
        Left::Elements(elements, index) => Some(split_elements(elements, index)),
        Left::Names(left) => split_names(left.names, left.slots),
    }
}
