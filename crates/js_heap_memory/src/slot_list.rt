//! Names of a scope in a plain list.

ghost use Rattle.std.specs.Prelude.{◌≡◌, ◌∷◌, [], ◌++◌, OnOk, OnErr};
ghost use Rattle.js_heap_memory.specs.Places.{slot_place, with_value_at};

use crate::names::NameId;
use crate::stored::Slot;
use js_heap::value::Value;
use std::alloc::AllocError;

/// The place of a name; the length where there is none.
#[inline(always)]
pub(crate) fn slot_place(slots: &[Slot], name: NameId) -> usize
    ensures { result ≡ slot_place slots.now name.number }
{
    for i in 0..slots.len() {
        if slots[i].name == name {
            return i;
        }
    }
    slots.len()
}

/// One more name.
pub(crate) fn push_slot(slots: &mut Vec<Slot>, slot: Slot) -> Result<(), AllocError>
    ensures value { OnOk result (slots.new.items ≡ slots.old.items ++ slot ∷ []) }
    ensures kept { OnErr result (slots.new.items ≡ slots.old.items) }
{
    slots.push(slot)?;
    Ok(())
}

/// A value for the name at a place, if there is one.
#[tactic(auto, using(crate::proofs::ScopeLemmas::value_rules))]
pub(crate) fn set_value(slots: &mut Vec<Slot>, place: usize, value: Value)
    ensures { slots.new.items ≡ with_value_at slots.old.items place value }
{
    if place < slots.len() {
        slots[place].value = Some(value);
    }
}
