//! What built-in functions compute on lists and texts.

ghost use Rattle.std.specs.Prelude.{◌≡◌, ◌≤◌, ◌-◌, ◌++◌, IfOk, IfSome, OnOk, List, ℕ, length, take, drop, option_copied};
ghost use Rattle.js_heap.specs.World.{read_cell};
ghost use Rattle.js_semantics.specs.BuiltIns.{argument, last_of, keys_of_cell, enumerable_keys, indices_from, is_array_cell, is_array, first_same, joined_part, joined_parts, place, begins_with, first_occurrence};
ghost use Rattle.js_heap_memory.specs.Cells.{cell_at};
ghost use Rattle.js_machine_actions.specs.Texts.{elements_at, elements_of_cell, both_places, unit_of, key_if};

use cdp_text::units::{Units, decimal_units};
use js_heap::cell::Property;
use js_heap::reading::Cells;
use js_heap::value::{Addr, Value};
use js_heap_memory::names::NameTable;
use js_heap_memory::properties::PropertyMap;
use js_heap_memory::slots::argument;
use js_heap_memory::stored::Stored;
use js_heap_memory::world::World;
use js_heap_operators::operators::text_of;
use js_heap_operators::values::is_same;
use std::alloc::{AllocError, Global};
use std::marker::Model;

/// Texts in order. Contracts see their list.
#[derive(Drop)]
pub struct Texts {
    items: Vec<Units>,
}

impl Model for Texts {
    ghost use Rattle.std.specs.Prelude.{List, ℕ};

    ghost Value = { List (List ℕ) };

    ghost view = { λ texts. texts.items.items };
}

impl Texts {
    /// The texts.
    pub fn slice(&self) -> &[Units]
        ensures { result.now ≡ self.now }
    {
        self.items.as_slice()
    }
}

/// The last value; undefined where there is none.
#[tactic(auto, using(crate::proofs::ListLemmas::last_rules))]
pub fn last_of(values: &[Value]) -> Value
    ensures { result ≡ last_of values.now }
{
    if values.is_empty() {
        return Value::Undefined;
    }
    values[values.len() - 1]
}

// ---- keys

/// Adds the key of a property, if there is one that is enumerable.
fn add_key(keys: &mut Vec<Units>, property: Option<&Property>) -> Result<(), AllocError>
    ensures { OnOk result (keys.new.items ≡ keys.old.items ++ key_if (option_copied property.entry)) }
{
    let Some(property) = property else {
        return Ok(());
    };
    if property.enumerable {
        keys.push(property.key.clone()?)?;
    }
    Ok(())
}

/// The keys of the enumerable properties, in order.
fn enumerable_keys(alloc: Global, properties: &PropertyMap) -> Result<Vec<Units>, AllocError>
    ensures { IfOk result (λ keys. keys.items ≡ enumerable_keys properties.now) }
{
    let mut keys = Vec::new(alloc);
    for i in 0..properties.len() {
        add_key(&mut keys, properties.get(i))?;
    }
    Ok(keys)
}

/// The indices of a list as texts.
fn indices(alloc: Global, values: &[Value]) -> Result<Vec<Units>, AllocError>
    ensures { IfOk result (λ keys. keys.items ≡ indices_from 0 values.now) }
{
    let mut keys = Vec::new(alloc);
    for i in 0..values.len() {
        keys.push(decimal_units(alloc, i)?)?;
    }
    Ok(keys)
}

/// The enumerable own keys in order (ECMA-262, 20.1.2.18).
fn keys_of_stored(alloc: Global, cell: Option<&Stored>) -> Result<Vec<Units>, AllocError>
    ensures { IfOk result (λ keys. (names : List (List ℕ)) → keys.items ≡ keys_of_cell (cell_at names (option_copied cell.entry))) }
{
    match cell {
        Some(Stored::Object { properties }) => enumerable_keys(alloc, properties),
        Some(Stored::Error { properties, .. }) => enumerable_keys(alloc, properties),
        Some(Stored::Array { elements }) => indices(alloc, elements.slice()),
        _ => Ok(Vec::new(alloc)),
    }
}

/// The enumerable own keys of the object at an address in order (20.1.2.18).
pub(crate) fn keys_at<W: World>(
    alloc: Global,
    world: &W,
    names: &NameTable,
    a: Addr,
) -> Result<Vec<Units>, AllocError>
    ensures { IfOk result (λ keys. keys.items ≡ keys_of_cell (read_cell (W.world names.now world.now) a)) }
{
    keys_of_stored(alloc, world.find(a))
}

// ---- arrays

/// Whether a cell is an array's.
fn is_array_cell(cell: Option<&Stored>) -> bool
    ensures { (names : List (List ℕ)) → result ≡ is_array_cell (cell_at names (option_copied cell.entry)) }
{
    match cell {
        Some(Stored::Array { .. }) => true,
        _ => false,
    }
}

/// Whether a value is an array (23.1.2.2).
pub fn is_array<W: World>(world: &W, names: &NameTable, value: Value) -> bool
    ensures { result ≡ is_array (W.world names.now world.now) value }
{
    match value {
        Value::Object(a) => is_array_cell(world.find(a)),
        _ => false,
    }
}

/// The elements of an array's cell; of another cell none.
fn elements_of(cell: Option<&Stored>) -> &[Value]
    ensures { (names : List (List ℕ)) → result.now ≡ elements_of_cell (cell_at names (option_copied cell.entry)) }
{
    match cell {
        Some(Stored::Array { elements }) => elements.slice(),
        _ => &[],
    }
}

/// The elements of the array at an address; of another cell none.
pub(crate) fn elements_at<'a, W: World>(world: &'a W, names: &NameTable, a: Addr) -> &'a [Value]
    ensures { result.now ≡ elements_at (W.world names.now world.now) a }
{
    elements_of(world.find(a))
}

/// The index of the first element that is the same as a value, or -1 (23.1.3.17).
pub(crate) fn first_same<C: Cells>(cells: &C, elements: &[Value], value: Value) -> i64
    ensures { result ≡ first_same (C.world cells.now) 0 elements.now value }
{
    for i in 0..elements.len() {
        if is_same(cells, elements[i], value) {
            return i as i64;
        }
    }
    -1
}

// a part of a join (23.1.3.18)
fn joined_part<C: Cells>(
    alloc: Global,
    cells: &C,
    value: Value,
) -> Result<Option<Units>, AllocError>
    ensures { IfOk result (λ text. text ≡ joined_part (C.world cells.now) value) }
{
    match value {
        Value::Undefined | Value::Null => Ok(Some(Units::from_vec(Vec::new(alloc)))),
        _ => text_of(alloc, cells, value),
    }
}

/// The texts of elements that are joined; none where one is an object (23.1.3.18).
#[tactic(auto, using(crate::proofs::ListLemmas::part_rules))]
pub(crate) fn joined_parts<C: Cells>(
    alloc: Global,
    cells: &C,
    elements: &[Value],
) -> Result<Option<Texts>, AllocError>
    ensures { IfOk result (λ texts. texts ≡ joined_parts (C.world cells.now) elements.now) }
{
    let mut texts = Vec::new(alloc);
    for element in elements {
        let Some(text) = joined_part(alloc, cells, *element)? else {
            return Ok(None);
        };
        texts.push(text)?;
    }
    Ok(Some(Texts { items: texts }))
}

// ---- parts of lists and texts

/// The place that an argument names in so many (23.1.3.28); none where it is no number.
pub fn place(count: usize, default: usize, argument: Value) -> Option<usize>
    requires { default ≤ count }
    ensures place { result ≡ place count default argument }
    ensures within { IfSome result (λ at. at ≤ count) }
{
    match argument {
        Value::Undefined => Some(default),
        Value::Number(n) => {
            if n < 0 {
                Some(count.saturating_sub(n.unsigned_abs() as usize))
            } else {
                Some((n as usize).min(count))
            }
        }
        _ => None,
    }
}

/// The places that two arguments name in so many; none where one is no number.
pub(crate) fn slice_places(count: usize, arguments: &[Value]) -> Option<(usize, usize)>
    ensures places { result ≡ both_places (place count 0 (argument arguments.now 0)) (place count count (argument arguments.now 1)) }
    ensures within { IfSome result (λ places. (places.0 ≤ count) × (places.1 ≤ count)) }
{
    let from = place(count, 0, argument(arguments, 0))?;
    let to = place(count, count, argument(arguments, 1))?;
    Some((from, to))
}

/// The items between two places.
pub(crate) fn items_between<T>(items: &[T], from: usize, to: usize) -> &[T]
    requires first { from ≤ length items.now }
    requires second { to ≤ length items.now }
    ensures { result.now ≡ take (to - from) (drop from items.now) }
{
    if to <= from {
        return &[];
    }
    &items[from..to]
}

/// Whether a text begins with another.
#[tactic(auto, using(crate::proofs::ListLemmas::begin_rules))]
pub fn begins_with(text: &[u16], start: &[u16]) -> bool
    ensures { result ≡ begins_with text.now start.now }
{
    if text.len() < start.len() {
        return false;
    }
    for i in 0..start.len() {
        if text[i] != start[i] {
            return false;
        }
    }
    true
}

/// The index of the first occurrence of a text, or -1 (22.1.3.9).
pub(crate) fn first_occurrence(text: &[u16], of: &[u16]) -> i64
    ensures { result ≡ first_occurrence 0 text.now of.now }
{
    for i in 0..text.len() {
        if begins_with(&text[i..], of) {
            return i as i64;
        }
    }
    if of.is_empty() {
        return text.len() as i64;
    }
    -1
}

/// The unit of an index.
pub(crate) fn unit_of(text: &[u16], index: i64) -> Option<u16>
    ensures { result ≡ unit_of text.now index }
{
    if index < 0 {
        return None;
    }
    text.get(index as usize).copied()
}
