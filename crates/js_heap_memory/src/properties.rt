//! The own properties of an object, found by their keys.

ghost use Rattle.std.specs.Prelude.{◌≡◌, ◌<◌, [], false, length, slice_get, option_copied, remove, OnOk, OnErr};
ghost use Rattle.js_heap.specs.Keys.{property_at, has_key, put_property, placed, without_key, assigned};
ghost use Rattle.js_heap.specs.Places.{key_place};
ghost use Rattle.js_heap_memory.specs.PropertyOrder.{with_value_at};

mod elements;
mod few;
mod list;
mod many;
mod named;

use cdp_text::units::Units;
use few::FewProperties;
use js_heap::cell::Property;
use js_heap::value::Value;
use many::ManyProperties;
use std::alloc::{AllocError, Global};
use std::marker::Model;

/// The own properties of an object in order (ECMA-262, 10.1.11). Contracts see their list.
///
/// To find a key, or to add a key that is no array index, takes as long in an object of many properties as in one of few.
#[derive(Drop)]
pub struct PropertyMap {
    alloc: Global,
    form: Form,
}

/// Up to this many properties stand in a plain list, in which the keys are compared one after another.
const FEW: usize = 8;

#[derive(Drop)]
enum Form {
    Few(FewProperties),
    Many(Box<ManyProperties>),
}

impl Model for PropertyMap {
    ghost use Rattle.std.specs.Prelude.{List};
    ghost use Rattle.js_heap.specs.declared.cell.Property.{Property};
    ghost use Rattle.js_heap.specs.contracts.cell.Property as property;

    ghost Value = { List Property };

    ghost use Rattle.js_heap_memory.specs.PropertyForm.{listed};

    ghost view = { λ map. listed map.form };
}

impl PropertyMap {
    /// No property.
    pub fn new(alloc: Global) -> PropertyMap
        ensures { result ≡ [] }
    {
        PropertyMap {
            alloc,
            form: Form::Few(FewProperties::new(alloc)),
        }
    }

    /// How many properties there are.
    pub fn len(&self) -> usize
        ensures { result ≡ length self.now }
    {
        match &self.form {
            Form::Few(few) => few.len(),
            Form::Many(many) => many.len(),
        }
    }

    /// The property at a place in the order.
    pub fn get(&self, place: usize) -> Option<&Property>
        ensures { option_copied result ≡ slice_get self.now place }
    {
        match &self.form {
            Form::Few(few) => few.get(place),
            Form::Many(many) => many.get(place),
        }
    }

    /// The place of a key's property; the length where there is none.
    fn place(&self, key: &[u16]) -> usize
        ensures { result ≡ key_place self.now key.now }
    {
        match &self.form {
            Form::Few(few) => few.place(key),
            Form::Many(many) => many.place(key),
        }
    }

    /// The property of a key.
    pub fn find(&self, key: &[u16]) -> Option<&Property>
        ensures { option_copied result ≡ property_at self.now key.now }
    {
        self.get(self.place(key))
    }

    /// One more property, at its place in the order.
    pub fn add(&mut self, property: Property) -> Result<(), AllocError>
        requires { has_key self.old property.key ≡ false }
        ensures value { OnOk result (self.new ≡ placed self.old property) }
        ensures kept { OnErr result (self.new ≡ self.old) }
    {
        self.make_room()?;
        match &mut self.form {
            Form::Few(few) => few.add(property),
            Form::Many(many) => many.add(property),
        }
    }

    /// Gives the property of a key a value; a new one stands at its place in the order (ECMA-262, 10.1.9.2, 10.1.11).
    pub fn put(&mut self, key: &[u16], value: Value) -> Result<(), AllocError>
        ensures value { OnOk result (self.new ≡ put_property self.old key.now value) }
        ensures kept { OnErr result (self.new ≡ self.old) }
    {
        let place = self.place(key);
        if place < self.len() {
            self.set_value(place, value);
            return Ok(());
        }
        let alloc = self.alloc;
        self.add(assigned(Units::from_slice(alloc, key)?, value))
    }

    /// Gives the property at a place a value.
    fn set_value(&mut self, place: usize, value: Value)
        requires { place < length self.old }
        ensures { self.new ≡ with_value_at self.old place value }
    {
        match &mut self.form {
            Form::Few(few) => few.set_value(place, value),
            Form::Many(many) => many.set_value(place, value),
        }
    }

    /// Removes the property of a key, if there is one (10.1.10).
    pub fn remove(&mut self, key: &[u16])
        ensures { self.new ≡ without_key self.old key.now }
    {
        let place = self.place(key);
        if place < self.len() {
            self.remove_at(place);
        }
    }

    /// Removes the property at a place.
    fn remove_at(&mut self, place: usize)
        requires { place < length self.old }
        ensures { self.new ≡ remove self.old place }
    {
        match &mut self.form {
            Form::Few(few) => few.remove(place),
            Form::Many(many) => many.remove(place),
        }
    }

    /// Makes room for one more property than a plain list is to hold.
    fn make_room(&mut self) -> Result<(), AllocError>
        ensures { self.new ≡ self.old }
    {
        if let Form::Few(few) = &mut self.form
            && FEW <= few.len()
        {
            self.form = Form::Many(few.take()?);
        }
        Ok(())
    }
}

/// A property as assignment makes it (10.1.9.2).
fn assigned(key: Units, value: Value) -> Property
    ensures { result ≡ assigned key value }
{
    Property {
        key,
        value,
        writable: true,
        enumerable: true,
        configurable: true,
    }
}
