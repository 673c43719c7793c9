//! Changes of one cell. What it counts is kept by what changes, so no cell is weighed as a whole.

ghost use Rattle.std.specs.Prelude.{◌≡◌, ◌<◌, ◌≤◌, ◌+◌, ◌∷◌, ◌++◌, [], List, ℕ, Some, OnErr, length, slice_get, take, nat_lt, not, ◌&&◌};
ghost use Rattle.js_heap.specs.Keys.{has_key, put_property, without_key};
ghost use Rattle.js_heap.specs.Cells.{properties_weight, weight, changed, declared};
ghost use Rattle.js_heap_memory.specs.Names.{name_of};
ghost use Rattle.js_heap_memory.specs.Cells.{bindings, cell_of, cells_of, SlotsWithin, Within, AllWithin};
ghost use Rattle.js_heap_memory.specs.Changes.{change_of, Distinguishes, ChangeWithin, Weighed, WeighedAt, eight_each, element_put, cut_to, changed_properties, changed_elements, changed_names};

use crate::names::NameId;
use crate::properties::PropertyMap;
use crate::slots;
use crate::stored::{Slots, Stored};
use crate::weight::{eight_each, given_back, key_weight, taken};
use crate::world::Refused;
use js_heap::cell::Values;
use js_heap::change::Counted;
use js_heap::value::Value;

/// A change of one cell.
#[derive(Clone, Copy)]
pub enum CellChange<'a> {
    /// Of an object or an error: the property of this key has this value.
    Put { key: &'a [u16], value: Value },
    /// Of an object or an error: there is no property of this key.
    Remove { key: &'a [u16] },
    /// Of an array: the element at an index up to the length.
    Element { index: u32, value: Value },
    /// Of an array: a length up to the present one.
    Length(u32),
    /// Of a scope: one more name, without a value.
    Declare { name: NameId, constant: bool },
    /// Of a scope: the value of a declared name.
    Bind { name: NameId, value: Value },
}

/// Whether there is a property of a key.
fn has_key(properties: &PropertyMap, key: &[u16]) -> bool
    ensures { result ≡ has_key properties.now key.now }
{
    properties.find(key).is_some()
}

/// Whether a property of a key would be one more for which there is no room.
fn lacks_room(properties: &PropertyMap, key: &[u16], units_left: u32) -> bool
    ensures { result ≡ nat_lt units_left (8 + length key.now) && not (has_key properties.now key.now) }
{
    u64::from(units_left) < key_weight(key) && !has_key(properties, key)
}

/// The property of a key has this value.
fn put_in(
    properties: &mut PropertyMap,
    key: &[u16],
    value: Value,
    units_left: u32,
) -> Result<u32, Refused>
    ensures value { Weighed properties_weight properties.old (Some (put_property properties.old key.now value)) units_left result properties.new }
    ensures kept { OnErr result (properties.new ≡ properties.old) }
{
    if lacks_room(properties, key, units_left) {
        return Err(Refused::Full(Counted::Units));
    }
    let before = properties.len();
    properties.put(key, value)?;
    if properties.len() == before {
        return Ok(units_left);
    }
    Ok(units_left - key_weight(key) as u32)
}

/// There is no property of the key.
fn remove_in(properties: &mut PropertyMap, key: &[u16], units_left: u32) -> Result<u32, Refused>
    ensures value { Weighed properties_weight properties.old (Some (without_key properties.old key.now)) units_left result properties.new }
    ensures kept { OnErr result (properties.new ≡ properties.old) }
{
    let more = given_back(units_left, key_weight(key))?;
    let before = properties.len();
    properties.remove(key);
    if properties.len() == before {
        return Ok(units_left);
    }
    Ok(more)
}

/// The element at an index up to the length; at the length it is one more.
fn put_element_in(
    elements: &mut Values,
    index: u32,
    value: Value,
    units_left: u32,
) -> Result<u32, Refused>
    ensures value { Weighed eight_each elements.old (element_put elements.old index value) units_left result elements.new }
    ensures kept { OnErr result (elements.new ≡ elements.old) }
{
    let len = elements.slice().len();
    let at = index as usize;
    if at > len {
        return Ok(units_left);
    }
    let left = if at < len {
        units_left
    } else {
        taken(units_left, 8)?
    };
    elements.put(index, value)?;
    Ok(left)
}

/// A length up to the present one.
fn cut_in(elements: &mut Values, length: u32, units_left: u32) -> Result<u32, Refused>
    ensures value { Weighed eight_each elements.old (cut_to elements.old length) units_left result elements.new }
    ensures kept { OnErr result (elements.new ≡ elements.old) }
{
    let len = elements.slice().len();
    let at = length as usize;
    if at > len {
        return Ok(units_left);
    }
    let left = given_back(units_left, eight_each(len - at))?;
    elements.cut(length);
    Ok(left)
}

/// One more name, without a value.
fn declare_in(
    slots: &mut Slots,
    name: NameId,
    constant: bool,
    units_left: u32,
) -> Result<u32, Refused>
    ensures value { (names : List (List ℕ)) → Weighed eight_each (bindings names slots.old) (Some (bindings names slots.old ++ declared (name_of names name.number) constant ∷ [])) units_left result (bindings names slots.new) }
    ensures within { (end : ℕ) → name.number < end → SlotsWithin end slots.old → SlotsWithin end slots.new }
    ensures kept { OnErr result (slots.new ≡ slots.old) }
{
    let left = taken(units_left, 8)?;
    slots::declare(slots, name, constant)?;
    Ok(left)
}

/// The change of an object's or an error's properties.
fn change_properties(
    properties: &mut PropertyMap,
    change: CellChange<'_>,
    units_left: u32,
) -> Result<u32, Refused>
    ensures value { Weighed properties_weight properties.old (changed_properties properties.old change.entry) units_left result properties.new }
    ensures kept { OnErr result (properties.new ≡ properties.old) }
{
    match change {
        CellChange::Put { key, value } => put_in(properties, key, value, units_left),
        CellChange::Remove { key } => remove_in(properties, key, units_left),
        _ => Ok(units_left),
    }
}

/// The change of an array's elements.
fn change_elements(
    elements: &mut Values,
    change: CellChange<'_>,
    units_left: u32,
) -> Result<u32, Refused>
    ensures value { Weighed eight_each elements.old (changed_elements elements.old change.entry) units_left result elements.new }
    ensures kept { OnErr result (elements.new ≡ elements.old) }
{
    match change {
        CellChange::Element { index, value } => put_element_in(elements, index, value, units_left),
        CellChange::Length(length) => cut_in(elements, length, units_left),
        _ => Ok(units_left),
    }
}

/// The change of a scope's names.
fn change_slots(slots: &mut Slots, change: CellChange<'_>, units_left: u32) -> Result<u32, Refused>
    ensures value { (names : List (List ℕ)) → Distinguishes names change.entry → Weighed eight_each (bindings names slots.old) (changed_names names (bindings names slots.old) change.entry) units_left result (bindings names slots.new) }
    ensures within { (end : ℕ) → ChangeWithin end change.entry → SlotsWithin end slots.old → SlotsWithin end slots.new }
    ensures kept { OnErr result (slots.new ≡ slots.old) }
{
    match change {
        CellChange::Declare { name, constant } => declare_in(slots, name, constant, units_left),
        CellChange::Bind { name, value } => {
            slots::bind(slots, name, value);
            Ok(units_left)
        }
        _ => Ok(units_left),
    }
}

/// The change of a cell, and how many units are then left; what is no change of its kind changes nothing.
pub fn change_cell(
    cell: &mut Stored,
    change: CellChange<'_>,
    units_left: u32,
) -> Result<u32, Refused>
    ensures value { (names : List (List ℕ)) → Distinguishes names change.entry → Weighed weight (cell_of names cell.old) (changed (cell_of names cell.old) (change_of names change.entry)) units_left result (cell_of names cell.new) }
    ensures within { (end : ℕ) → ChangeWithin end change.entry → Within end cell.old → Within end cell.new }
    ensures kept { OnErr result (cell.new ≡ cell.old) }
{
    match cell {
        Stored::Object { properties } => change_properties(properties, change, units_left),
        Stored::Error { properties, .. } => change_properties(properties, change, units_left),
        Stored::Array { elements } => change_elements(elements, change, units_left),
        Stored::Scope { slots, .. } => change_slots(slots, change, units_left),
        Stored::Text { .. } => Ok(units_left),
        Stored::Function(_) => Ok(units_left),
    }
}

/// The change of the cell at a place, if there is one.
pub fn change_in(
    cells: &mut Vec<Stored>,
    at: usize,
    change: CellChange<'_>,
    units_left: u32,
) -> Result<u32, Refused>
    ensures value { (names : List (List ℕ)) → Distinguishes names change.entry → WeighedAt (cells_of names cells.old.items) at (slice_get (cells_of names cells.old.items) at) (change_of names change.entry) units_left result (cells_of names cells.new.items) }
    ensures within { (end : ℕ) → ChangeWithin end change.entry → AllWithin end cells.old.items → AllWithin end cells.new.items }
    ensures others { (place : ℕ) → place ≤ at → take place cells.new.items ≡ take place cells.old.items }
    ensures len { length cells.new.items ≡ length cells.old.items }
    ensures kept { OnErr result (cells.new.items ≡ cells.old.items) }
{
    if at < cells.len() {
        change_cell(&mut cells[at], change, units_left)
    } else {
        Ok(units_left)
    }
}
