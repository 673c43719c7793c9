//! Properties whose keys are array indices, in ascending order.

ghost use Rattle.std.specs.Prelude.{◌≡◌, ◌<◌, ◌^◌, ℕ, [], false, Some, length, slice_get, slice_index, option_copied, remove, IsTrue, IfOk, OnOk, OnErr};
ghost use Rattle.js_heap.specs.Keys.{has_key, index_of_key, placed};
ghost use Rattle.js_heap.specs.Places.{key_place};
ghost use Rattle.js_heap_memory.specs.PropertyOrder.{with_value_at, AreInOrder, AreIndicesOf, AreLeading, Ascend, IsSearched};

use super::list;
use js_heap::cell::Property;
use js_heap::keys::index_of_key;
use js_heap::value::Value;
use std::alloc::{AllocError, Global};
use std::marker::Model;

/// Properties and, apart from them, the indices that their keys are. Contracts see the list of the properties.
#[derive(Drop)]
pub struct Elements {
    items: Vec<Property>,
    indices: Vec<u32>,
}

impl Model for Elements {
    ghost use Rattle.std.specs.Prelude.{List};
    ghost use Rattle.js_heap.specs.declared.cell.Property.{Property};
    ghost use Rattle.js_heap.specs.contracts.cell.Property as property;

    ghost Value = { List Property };

    ghost use Rattle.js_heap_memory.specs.PropertyOrder.{AreIndicesOf, Ascend};

    ghost view = { λ elements. elements.items.items };

    ghost invariant = { λ elements. AreIndicesOf elements.indices.items elements.items.items × Ascend elements.indices.items };
}

impl Elements {
    /// Properties and the ascending indices that their keys are.
    pub fn from_parts(items: Vec<Property>, indices: Vec<u32>) -> Elements
        requires indices { AreIndicesOf indices.items items.items }
        requires order { Ascend indices.items }
        ensures { result ≡ items.items }
    {
        Elements { items, indices }
    }

    /// No property.
    pub fn new(alloc: Global) -> Elements
        ensures { result ≡ [] }
    {
        Elements {
            items: Vec::new(alloc),
            indices: Vec::new(alloc),
        }
    }

    /// How many properties there are.
    pub fn len(&self) -> usize
        ensures len { result ≡ length self.now }
        ensures small { result < 2 ^ 63 }
    {
        self.items.len()
    }

    /// The property at a place.
    pub fn get(&self, place: usize) -> Option<&Property>
        ensures { option_copied result ≡ slice_get self.now place }
    {
        self.items.get(place)
    }

    /// The place of a key's property; the length where there is none.
    pub fn place(&self, key: &[u16]) -> usize
        ensures place { result ≡ key_place self.now key.now }
        ensures small { result < 2 ^ 63 }
    {
        let Some(index) = index_of_key(key) else {
            return self.items.len();
        };
        match search(self.indices.as_slice(), index) {
            Ok(place) => place,
            Err(_) => self.items.len(),
        }
    }

    /// One more property, whose key is this index, at its place in the order.
    pub fn add(&mut self, property: Property, index: u32) -> Result<(), AllocError>
        requires index { index_of_key property.key ≡ Some index }
        requires fresh { has_key self.old property.key ≡ false }
        ensures value { OnOk result (self.new ≡ placed self.old property) }
        ensures kept { OnErr result (self.new ≡ self.old) }
    {
        self.items.reserve(1)?;
        let Err(place) = search(self.indices.as_slice(), index) else {
            unreachable!();
        };
        self.indices.insert(place, index)?;
        self.items.insert(place, property).unwrap();
        Ok(())
    }

    /// Gives the property at a place a value.
    pub fn set_value(&mut self, place: usize, value: Value)
        requires { place < length self.old }
        ensures { self.new ≡ with_value_at self.old place value }
    {
        list::set_value(&mut self.items, place, value);
    }

    /// Removes the property at a place.
    pub fn remove(&mut self, place: usize)
        requires { place < length self.old }
        ensures { self.new ≡ remove self.old place }
    {
        self.indices.remove(place);
        self.items.remove(place);
    }
}

/// The indices that the keys of the first properties are, up to one whose key is none.
pub fn leading_indices(alloc: Global, properties: &[Property]) -> Result<Vec<u32>, AllocError>
    requires { AreInOrder properties.now }
    ensures { IfOk result (λ indices. AreLeading indices.items properties.now) }
{
    let mut indices = Vec::new(alloc);
    for property in properties {
        let Some(index) = index_of_key(property.key.as_slice()) else {
            return Ok(indices);
        };
        indices.push(index)?;
    }
    Ok(indices)
}

/// The place of an index among ascending ones; where it isn't there, the place at which it would stand.
fn search(indices: &[u32], index: u32) -> Result<usize, usize>
    requires { Ascend indices.now }
    ensures { IsSearched indices.now index result }
{
    if is_above_last(indices, index) {
        return Err(indices.len());
    }
    indices.binary_search(&index)
}

/// Whether an index is above the last of ascending ones.
fn is_above_last(indices: &[u32], index: u32) -> bool
    requires { Ascend indices.now }
    ensures { IsTrue result → (k : ℕ) → k < length indices.now → slice_index indices.now k < index }
{
    match indices.last() {
        Some(last) => *last < index,
        None => true,
    }
}
