//! The properties of an object that has many.

ghost use Rattle.std.specs.Prelude.{◌≡◌, ◌<◌, [], ◌++◌, false, length, slice_get, option_copied, remove, IfOk, OnOk, OnErr};
ghost use Rattle.js_heap.specs.Keys.{has_key, placed};
ghost use Rattle.js_heap.specs.Places.{key_place};
ghost use Rattle.js_heap_memory.specs.PropertyOrder.{with_value_at, AreInOrder};

use super::elements::{Elements, leading_indices};
use super::named::{NamedProperties, names_of};
use js_heap::cell::Property;
use js_heap::keys::index_of_key;
use js_heap::value::Value;
use std::alloc::{AllocError, Global};
use std::marker::Model;
use std::mem;

/// The properties whose keys are array indices, and behind them the others. Contracts see the list of all.
#[derive(Drop)]
pub struct ManyProperties {
    elements: Elements,
    named: NamedProperties,
}

impl Model for ManyProperties {
    ghost use Rattle.std.specs.Prelude.{List, ◌++◌};
    ghost use Rattle.js_heap.specs.declared.cell.Property.{Property};
    ghost use Rattle.js_heap.specs.contracts.cell.Property as property;

    ghost Value = { List Property };

    ghost use Rattle.js_heap_memory.specs.PropertyOrder.{AreNames};

    ghost view = { λ many. many.elements ++ many.named };

    ghost invariant = { λ many. AreNames many.named };
}

impl ManyProperties {
    /// No property.
    pub fn new(alloc: Global) -> ManyProperties
        ensures { result ≡ [] }
    {
        ManyProperties {
            elements: Elements::new(alloc),
            named: NamedProperties::new(alloc),
        }
    }

    /// Takes properties out of a vector.
    pub fn from_vec(
        alloc: Global,
        items: &mut Vec<Property>,
    ) -> Result<Box<ManyProperties>, AllocError>
        requires { AreInOrder items.old.items }
        ensures value { IfOk result (λ many. many.value ≡ items.old.items) }
        ensures taken { OnOk result (items.new.items ≡ []) }
        ensures kept { OnErr result (items.new.items ≡ items.old.items) }
    {
        let indices = leading_indices(alloc, items.as_slice())?;
        let keys = names_of(alloc, &items[indices.len()..])?;
        let mut many = Box::new(alloc, ManyProperties::new(alloc))?;
        let named = items.split_off(indices.len())?;
        let elements = mem::replace(items, Vec::new(alloc));
        *many = ManyProperties {
            elements: Elements::from_parts(elements, indices),
            named: NamedProperties::from_parts(named, keys),
        };
        Ok(many)
    }

    /// How many properties there are.
    pub fn len(&self) -> usize
        ensures { result ≡ length self.now }
    {
        self.elements.len() + self.named.len()
    }

    /// The property at a place.
    pub fn get(&self, place: usize) -> Option<&Property>
        ensures { option_copied result ≡ slice_get self.now place }
    {
        let before = self.elements.len();
        if place < before {
            self.elements.get(place)
        } else {
            self.named.get(place - before)
        }
    }

    /// The place of a key's property; the length where there is none.
    pub fn place(&self, key: &[u16]) -> usize
        ensures { result ≡ key_place self.now key.now }
    {
        let before = self.elements.len();
        let place = self.elements.place(key);
        if place < before {
            place
        } else {
            before + self.named.place(key)
        }
    }

    /// One more property, at its place in the order.
    pub fn add(&mut self, property: Property) -> Result<(), AllocError>
        requires { has_key self.old property.key ≡ false }
        ensures value { OnOk result (self.new ≡ placed self.old property) }
        ensures kept { OnErr result (self.new ≡ self.old) }
    {
        match index_of_key(property.key.as_slice()) {
            Some(index) => self.elements.add(property, index),
            None => self.named.push(property),
        }
    }

    /// Gives the property at a place a value.
    pub fn set_value(&mut self, place: usize, value: Value)
        requires { place < length self.old }
        ensures { self.new ≡ with_value_at self.old place value }
    {
        let before = self.elements.len();
        if place < before {
            self.elements.set_value(place, value);
        } else {
            self.named.set_value(place - before, value);
        }
    }

    /// Removes the property at a place.
    pub fn remove(&mut self, place: usize)
        requires { place < length self.old }
        ensures { self.new ≡ remove self.old place }
    {
        let before = self.elements.len();
        if place < before {
            self.elements.remove(place);
        } else {
            self.named.remove(place - before);
        }
    }
}
