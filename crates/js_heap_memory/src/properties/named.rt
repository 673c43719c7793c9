//! Properties in the order in which they were added, found by a hash of the key.

ghost use Rattle.std.specs.Prelude.{◌≡◌, ◌<◌, ◌^◌, [], ◌∷◌, ◌++◌, false, length, slice_get, option_copied, remove, IfOk, OnOk, OnErr};
ghost use Rattle.js_heap.specs.Keys.{has_key};
ghost use Rattle.js_heap.specs.Places.{key_place};
ghost use Rattle.js_heap_memory.specs.PropertyOrder.{with_value_at, AreInOrder, AreKeysOf};

use super::list;
use indexmap::IndexSet;
use js_heap::cell::Property;
use js_heap::value::Value;
use std::alloc::{AllocError, Global};
use std::marker::Model;

/// Properties and, apart from them, their keys with their places. Contracts see the list of the properties.
#[derive(Drop)]
pub struct NamedProperties {
    items: Vec<Property>,
    keys: IndexSet<Vec<u16>>,
}

impl Model for NamedProperties {
    ghost use Rattle.std.specs.Prelude.{List};
    ghost use Rattle.js_heap.specs.declared.cell.Property.{Property};
    ghost use Rattle.js_heap.specs.contracts.cell.Property as property;

    ghost Value = { List Property };

    ghost use Rattle.js_heap_memory.specs.PropertyOrder.{AreKeysOf};

    ghost view = { λ named. named.items.items };

    ghost invariant = { λ named. AreKeysOf named.keys.keys named.items.items };
}

impl NamedProperties {
    /// Properties and their keys.
    pub fn from_parts(items: Vec<Property>, keys: IndexSet<Vec<u16>>) -> NamedProperties
        requires { AreKeysOf keys.keys items.items }
        ensures { result ≡ items.items }
    {
        NamedProperties { items, keys }
    }

    /// No property.
    pub fn new(alloc: Global) -> NamedProperties
        ensures { result ≡ [] }
    {
        NamedProperties {
            items: Vec::new(alloc),
            keys: IndexSet::new(alloc),
        }
    }

    /// How many properties there are.
    pub fn len(&self) -> usize
        ensures len { result ≡ length self.now }
        ensures small { result < 2 ^ 63 }
    {
        self.items.len()
    }

    /// The property at a place.
    pub fn get(&self, place: usize) -> Option<&Property>
        ensures { option_copied result ≡ slice_get self.now place }
    {
        self.items.get(place)
    }

    /// The place of a key's property; the length where there is none.
    pub fn place(&self, key: &[u16]) -> usize
        ensures place { result ≡ key_place self.now key.now }
        ensures small { result < 2 ^ 63 }
    {
        match self.keys.get_index_of(key) {
            Some(place) => place,
            None => self.items.len(),
        }
    }

    /// One more property, behind the others.
    pub fn push(&mut self, property: Property) -> Result<(), AllocError>
        requires { has_key self.old property.key ≡ false }
        ensures value { OnOk result (self.new ≡ self.old ++ property ∷ []) }
        ensures kept { OnErr result (self.new ≡ self.old) }
    {
        let alloc = *self.items.allocator();
        self.items.reserve(1)?;
        let key = Vec::from_slice(alloc, property.key.as_slice())?;
        self.keys.insert_full(key)?;
        self.items.push(property).unwrap();
        Ok(())
    }

    /// Gives the property at a place a value.
    pub fn set_value(&mut self, place: usize, value: Value)
        requires { place < length self.old }
        ensures { self.new ≡ with_value_at self.old place value }
    {
        list::set_value(&mut self.items, place, value);
    }

    /// Removes the property at a place.
    pub fn remove(&mut self, place: usize)
        requires { place < length self.old }
        ensures { self.new ≡ remove self.old place }
    {
        self.keys.shift_remove_index(place);
        self.items.remove(place);
    }
}

/// The keys of properties.
pub fn names_of(alloc: Global, properties: &[Property]) -> Result<IndexSet<Vec<u16>>, AllocError>
    requires { AreInOrder properties.now }
    ensures { IfOk result (λ keys. AreKeysOf keys.keys properties.now) }
{
    let mut keys = IndexSet::new(alloc);
    for property in properties {
        let key = Vec::from_slice(alloc, property.key.as_slice())?;
        keys.insert_full(key)?;
    }
    Ok(keys)
}
