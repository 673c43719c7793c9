//! The names of a scope that has many, found by a hash of their numbers.

ghost use Rattle.std.specs.Prelude.{◌≡◌, ◌++◌, ◌∷◌, [], IfOk, OnOk, OnErr};
ghost use Rattle.js_heap_memory.specs.Places.{slot_place, with_value_at, IsPlaceIndex, Enters};

use crate::names::NameId;
use crate::slot_list;
use crate::stored::Slot;
use js_heap::value::Value;
use std::alloc::{AllocError, Global};
use std::collections::HashMap;
use std::marker::Model;
use std::mem;

/// Names in order and, apart from them, the first place of each number. Contracts see the list of the names.
#[derive(Drop)]
pub struct WideSlots {
    items: Vec<Slot>,
    places: HashMap<u32, usize>,
}

impl Model for WideSlots {
    ghost use Rattle.std.specs.Prelude.{List};
    ghost use Rattle.js_heap_memory.specs.declared.stored.Slot.{Slot as AnySlot};
    ghost use Rattle.js_heap_memory.specs.Places.{IsPlaceIndex};

    ghost Value = { List AnySlot };

    ghost view = { λ wide. wide.items.items };

    ghost invariant = { λ wide. IsPlaceIndex wide.items.items wide.places };
}

/// The place of one more name, unless its number has one.
fn enter(places: &mut HashMap<u32, usize>, slot: Slot, place: usize) -> Result<(), AllocError>
    ensures entered { OnOk result (Enters slot place places.old places.new) }
    ensures kept { OnErr result (places.new.entries ≡ places.old.entries) }
{
    let number = slot.name.number;
    if places.contains_key(&number) {
        return Ok(());
    }
    places.insert(number, place)?;
    Ok(())
}

/// The first place of each number.
fn places_of(alloc: Global, slots: &[Slot]) -> Result<HashMap<u32, usize>, AllocError>
    ensures { IfOk result (λ places. IsPlaceIndex slots.now places) }
{
    let mut places = HashMap::with_capacity(alloc, slots.len())?;
    for i in 0..slots.len() {
        enter(&mut places, slots[i], i)?;
    }
    Ok(places)
}

impl WideSlots {
    /// No names.
    fn new(alloc: Global) -> WideSlots
        ensures { result ≡ [] }
    {
        WideSlots {
            items: Vec::new(alloc),
            places: HashMap::new(alloc),
        }
    }

    /// Takes names out of a vector.
    ///
    /// # Errors
    ///
    /// There is no memory for the places.
    pub fn from_vec(items: &mut Vec<Slot>) -> Result<Box<WideSlots>, AllocError>
        ensures value { IfOk result (λ wide. wide.value ≡ items.old.items) }
        ensures kept { OnErr result (items.new.items ≡ items.old.items) }
    {
        let alloc = *items.allocator();
        let places = places_of(alloc, items.as_slice())?;
        let mut wide = Box::new(alloc, WideSlots::new(alloc))?;
        *wide = WideSlots {
            items: mem::replace(items, Vec::new(alloc)),
            places,
        };
        Ok(wide)
    }

    /// The names.
    pub fn slice(&self) -> &[Slot]
        ensures { result.now ≡ self.now }
    {
        self.items.as_slice()
    }

    /// The place of a name; the length where there is none.
    #[inline(never)]
    pub fn place(&self, name: NameId) -> usize
        ensures { result ≡ slot_place self.now name.number }
    {
        match self.places.get(&name.number) {
            Some(place) => *place,
            None => self.items.len(),
        }
    }

    /// One more name.
    ///
    /// # Errors
    ///
    /// There is no memory for it.
    pub fn push(&mut self, slot: Slot) -> Result<(), AllocError>
        ensures value { OnOk result (self.new ≡ self.old ++ slot ∷ []) }
        ensures kept { OnErr result (self.new ≡ self.old) }
    {
        self.items.reserve(1)?;
        enter(&mut self.places, slot, self.items.len())?;
        self.items.push(slot).unwrap();
        Ok(())
    }

    /// A value for the name at a place, if there is one.
    pub fn set(&mut self, place: usize, value: Value)
        ensures { self.new ≡ with_value_at self.old place value }
    {
        slot_list::set_value(&mut self.items, place, value);
    }
}
