//! The properties of an object that has few.

ghost use Rattle.std.specs.Prelude.{◌≡◌, ◌<◌, [], false, length, slice_get, option_copied, remove, IfOk, OnOk, OnErr};
ghost use Rattle.js_heap.specs.Keys.{has_key, placed};
ghost use Rattle.js_heap.specs.Places.{key_place};
ghost use Rattle.js_heap_memory.specs.PropertyOrder.{with_value_at};

use super::list;
use super::many::ManyProperties;
use js_heap::cell::Property;
use js_heap::keys::index_of_key;
use js_heap::properties::{key_place, new_place};
use js_heap::value::Value;
use std::alloc::{AllocError, Global};
use std::marker::Model;

/// Properties whose keys are compared one after another. Contracts see their list.
#[derive(Drop)]
pub struct FewProperties {
    items: Vec<Property>,
}

impl Model for FewProperties {
    ghost use Rattle.std.specs.Prelude.{List};
    ghost use Rattle.js_heap.specs.declared.cell.Property.{Property};
    ghost use Rattle.js_heap.specs.contracts.cell.Property as property;

    ghost Value = { List Property };

    ghost use Rattle.js_heap_memory.specs.PropertyOrder.{AreInOrder};

    ghost view = { λ few. few.items.items };

    ghost invariant = { λ few. AreInOrder few.items.items };
}

impl FewProperties {
    /// No property.
    pub fn new(alloc: Global) -> FewProperties
        ensures { result ≡ [] }
    {
        FewProperties {
            items: Vec::new(alloc),
        }
    }

    /// Takes the properties out, into the form of many.
    pub fn take(&mut self) -> Result<Box<ManyProperties>, AllocError>
        ensures value { IfOk result (λ many. many.value ≡ self.old) }
        ensures kept { OnErr result (self.new ≡ self.old) }
    {
        let alloc = *self.items.allocator();
        ManyProperties::from_vec(alloc, &mut self.items)
    }

    /// How many properties there are.
    pub fn len(&self) -> usize
        ensures { result ≡ length self.now }
    {
        self.items.len()
    }

    /// The property at a place.
    pub fn get(&self, place: usize) -> Option<&Property>
        ensures { option_copied result ≡ slice_get self.now place }
    {
        self.items.get(place)
    }

    /// The place of a key's property; the length where there is none.
    pub fn place(&self, key: &[u16]) -> usize
        ensures { result ≡ key_place self.now key.now }
    {
        key_place(self.items.as_slice(), key)
    }

    /// One more property, at its place in the order.
    #[tactic(auto, using(js_heap::proofs::PlaceLemmas::placed_place))]
    pub fn add(&mut self, property: Property) -> Result<(), AllocError>
        requires { has_key self.old property.key ≡ false }
        ensures value { OnOk result (self.new ≡ placed self.old property) }
        ensures kept { OnErr result (self.new ≡ self.old) }
    {
        let index = index_of_key(property.key.as_slice());
        let place = new_place(self.items.as_slice(), index);
        self.items.insert(place, property)?;
        Ok(())
    }

    /// Gives the property at a place a value.
    pub fn set_value(&mut self, place: usize, value: Value)
        requires { place < length self.old }
        ensures { self.new ≡ with_value_at self.old place value }
    {
        list::set_value(&mut self.items, place, value);
    }

    /// Removes the property at a place.
    pub fn remove(&mut self, place: usize)
        requires { place < length self.old }
        ensures { self.new ≡ remove self.old place }
    {
        self.items.remove(place);
    }
}
