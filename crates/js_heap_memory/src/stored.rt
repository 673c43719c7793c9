//! What a heap keeps at an address: names are numbers of a table.

ghost use Rattle.std.specs.Prelude.{◌≡◌, ◌∷◌, [], ◌++◌, OnOk, OnErr};
ghost use Rattle.js_heap_memory.specs.Places.{slot_place, with_value_at};

use crate::names::NameId;
use crate::properties::PropertyMap;
use crate::slot_list::{push_slot, set_value, slot_place};
use crate::wide::WideSlots;
use cdp_text::units::Units;
use js_heap::built_in::{Code, ErrorClass};
use js_heap::cell::{ScopeKind, Values};
use js_heap::value::{Addr, Value};
use std::alloc::AllocError;
use std::marker::Model;

/// A name of a scope, with its value once it is initialised (ECMA-262, 9.1.1.1).
#[derive(Clone, Copy)]
pub struct Slot {
    pub name: NameId,
    pub constant: bool,
    pub value: Option<Value>,
}

/// The names of a scope in order. Contracts see their list.
///
/// Many names have their places kept, once one more name or a value is put into them.
#[derive(Drop)]
pub struct Slots {
    form: Form,
}

/// From so many names on their places are kept: to compare half of them takes about as long as a hash.
/// Most scopes have fewer, and are made anew for each call and each block.
const MANY: usize = 32;

#[derive(Drop)]
enum Form {
    Few(Vec<Slot>),
    Many(Box<WideSlots>),
}

impl Model for Slots {
    ghost use Rattle.std.specs.Prelude.{List};
    ghost use Rattle.js_heap_memory.specs.declared.stored.Slot.{Slot as AnySlot};

    ghost Value = { List AnySlot };

    ghost use Rattle.js_heap_memory.specs.SlotForm.{listed};

    ghost view = { λ slots. listed slots.form };
}

impl Slots {
    /// The names in the memory of the vector, in its order.
    pub fn from_vec(items: Vec<Slot>) -> Slots
        ensures { result ≡ items.items }
    {
        Slots {
            form: Form::Few(items),
        }
    }

    /// The names.
    pub fn slice(&self) -> &[Slot]
        ensures { result.now ≡ self.now }
    {
        match &self.form {
            Form::Few(items) => items.as_slice(),
            Form::Many(wide) => wide.slice(),
        }
    }

    /// The place of a name; the length where there is none.
    #[inline(always)]
    pub(crate) fn place(&self, name: NameId) -> usize
        ensures { result ≡ slot_place self.now name.number }
    {
        match &self.form {
            Form::Few(items) => slot_place(items.as_slice(), name),
            Form::Many(wide) => wide.place(name),
        }
    }

    /// One more name.
    pub fn push(&mut self, slot: Slot) -> Result<(), AllocError>
        ensures value { OnOk result (self.new ≡ self.old ++ slot ∷ []) }
        ensures kept { OnErr result (self.new ≡ self.old) }
    {
        self.widen()?;
        match &mut self.form {
            Form::Few(items) => push_slot(items, slot),
            Form::Many(wide) => wide.push(slot),
        }
    }

    /// A value for the name at a place, if there is one. Many names without memory for their places are searched.
    pub fn set(&mut self, place: usize, value: Value)
        ensures { self.new ≡ with_value_at self.old place value }
    {
        let _ = self.widen();
        match &mut self.form {
            Form::Few(items) => set_value(items, place, value),
            Form::Many(wide) => wide.set(place, value),
        }
    }

    /// Keeps the places of the names, where there are many.
    fn widen(&mut self) -> Result<(), AllocError>
        ensures { self.new ≡ self.old }
    {
        if let Form::Few(items) = &mut self.form
            && MANY <= items.len()
        {
            self.form = Form::Many(WideSlots::from_vec(items)?);
        }
        Ok(())
    }
}

/// The name of a function (ECMA-262, 20.2.4.2). A computed key may be a text that no table has.
#[derive(Drop)]
pub enum FunctionName {
    Empty,
    Known(NameId),
    Made(Box<Units>),
}

/// A function; `this` is the enclosing one of an arrow function, else undefined.
#[derive(Drop)]
pub struct FunctionCell {
    pub code: Code,
    pub name: FunctionName,
    pub length: u32,
    pub scope: Option<Addr>,
    pub this: Value,
}

/// What is at an address.
#[derive(Drop)]
pub enum Stored {
    Object {
        properties: PropertyMap,
    },
    Error {
        class: ErrorClass,
        properties: PropertyMap,
    },
    Array {
        elements: Values,
    },
    Text {
        units: Units,
    },
    Function(Box<FunctionCell>),
    /// A scope; `name` is the function's, where it has one.
    Scope {
        kind: ScopeKind,
        name: FunctionName,
        outer: Option<Addr>,
        slots: Slots,
    },
}

/// A name that was found: its scope, its place there, and its binding's flag and value.
#[derive(Clone, Copy)]
pub struct FoundSlot {
    pub scope: Addr,
    pub place: usize,
    pub constant: bool,
    pub value: Option<Value>,
}
