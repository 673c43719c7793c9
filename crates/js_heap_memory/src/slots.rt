//! The names of a scope, by their numbers.

ghost use Rattle.std.specs.Prelude.{◌≡◌, ◌<◌, [], ◌∷◌, ◌++◌, OnOk, OnErr, IfOk, Option, List, ℕ, option_copied};
ghost use Rattle.js_heap.specs.Cells.{declared, bound, binding_of};
ghost use Rattle.js_heap.specs.declared.value.Addr.{Addr as AnyAddr};
ghost use Rattle.js_heap_memory.specs.Names.{name_of, Differ};
ghost use Rattle.js_heap_memory.specs.Cells.{bindings, SlotsWithin, cell_at, texts_of, slots_from};
ghost use Rattle.js_heap.specs.Scopes.{Found, found_in, found_here, found_outward};
ghost use Rattle.js_heap.specs.Arguments.{argument, parameters_from as definition_parameters};
ghost use Rattle.js_heap_memory.specs.Calls.{kept_found};
ghost use Rattle.js_heap_memory.specs.Looks.{looked_on, IsPlaced, IsPlacedIn, IsNotHere};

use crate::names::NameId;
use crate::stored::{FoundSlot, Slot, Slots, Stored};
use js_heap::value::{Addr, Value};
use std::alloc::{AllocError, Global};

/// One more name, without a value.
pub fn declare(slots: &mut Slots, name: NameId, constant: bool) -> Result<(), AllocError>
    ensures value { OnOk result ((names : List (List ℕ)) → bindings names slots.new ≡ bindings names slots.old ++ declared (name_of names name.number) constant ∷ []) }
    ensures within { (end : ℕ) → name.number < end → SlotsWithin end slots.old → SlotsWithin end slots.new }
    ensures kept { OnErr result (slots.new ≡ slots.old) }
{
    slots.push(Slot {
        name,
        constant,
        value: None,
    })?;
    Ok(())
}

/// Gives a declared name a value (9.1.1.1.4).
pub fn bind(slots: &mut Slots, name: NameId, value: Value)
    ensures within { (end : ℕ) → SlotsWithin end slots.old → SlotsWithin end slots.new }
    ensures value { (names : List (List ℕ)) → Differ names → bindings names slots.new ≡ bound (bindings names slots.old) (name_of names name.number) value }
{
    let at = slots.place(name);
    slots.set(at, value);
}

/// What a scope says of a name.
#[derive(Clone, Copy)]
pub enum SlotLookup {
    Here(FoundSlot),
    Outward(Addr),
    Nowhere,
}

/// A name that isn't in a scope is looked for in the scope around, if there is one.
fn outward(outer: Option<Addr>) -> SlotLookup
    ensures place { IsNotHere result }
    ensures value { (further : AnyAddr → Option Found) → kept_found (found_outward outer further) ≡ looked_on result (λ a. kept_found (further a)) }
{
    match outer {
        Some(a) => SlotLookup::Outward(a),
        None => SlotLookup::Nowhere,
    }
}

/// Looks for a name in the names of the scope at an address.
fn look_in(slots: &Slots, at: Addr, outer: Option<Addr>, name: NameId) -> SlotLookup
    ensures place { (names : List (List ℕ)) → Differ names → IsPlacedIn result at (bindings names slots.now) (name_of names name.number) }
    ensures value { (names : List (List ℕ)) → Differ names → (further : AnyAddr → Option Found) → kept_found (found_here at (binding_of (bindings names slots.now) (name_of names name.number)) (found_outward outer further)) ≡ looked_on result (λ a. kept_found (further a)) }
{
    let place = slots.place(name);
    let slots = slots.slice();
    if place < slots.len() {
        let slot = slots[place];
        return SlotLookup::Here(FoundSlot {
            scope: at,
            place,
            constant: slot.constant,
            value: slot.value,
        });
    }
    outward(outer)
}

/// Looks for a name in the scope at an address.
pub(crate) fn look(cell: Option<&Stored>, at: Addr, name: NameId) -> SlotLookup
    ensures place { (names : List (List ℕ)) → Differ names → IsPlaced result at (cell_at names (option_copied cell.entry)) (name_of names name.number) }
    ensures value { (names : List (List ℕ)) → Differ names → (further : AnyAddr → Option Found) → kept_found (found_in at (cell_at names (option_copied cell.entry)) (name_of names name.number) further) ≡ looked_on result (λ a. kept_found (further a)) }
{
    match cell {
        Some(Stored::Scope { outer, slots, .. }) => { look_in(slots, at, *outer, name) }
        _ => SlotLookup::Nowhere,
    }
}

/// Parameters with their arguments, and other names behind them (10.2.11).
pub fn call_slots(
    alloc: Global,
    parameters: &[NameId],
    arguments: &[Value],
    others: &[Slot],
) -> Result<Vec<Slot>, AllocError>
    ensures { IfOk result (λ slots. (names : List (List ℕ)) → bindings names slots.items ≡ definition_parameters 0 (texts_of names parameters.now) arguments.now ++ bindings names others.now) }
{
    let room = parameters.len().saturating_add(others.len());
    let mut slots = parameters_from(alloc, parameters, arguments, room)?;
    slots.extend_from_slice(others)?;
    Ok(slots)
}

/// Parameters with their arguments, in memory for so many names.
fn parameters_from(
    alloc: Global,
    parameters: &[NameId],
    arguments: &[Value],
    room: usize,
) -> Result<Vec<Slot>, AllocError>
    ensures { IfOk result (λ slots. slots.items ≡ slots_from 0 parameters.now arguments.now) }
{
    let mut slots = Vec::with_capacity(alloc, room)?;
    for i in 0..parameters.len() {
        slots.push(Slot {
            name: parameters[i],
            constant: false,
            value: Some(argument(arguments, i)),
        })?;
    }
    Ok(slots)
}

/// An argument; a missing one is undefined.
#[tactic(auto, using(crate::proofs::ScopeLemmas::argument_rules))]
pub fn argument(arguments: &[Value], index: usize) -> Value
    ensures { result ≡ argument arguments.now index }
{
    if index < arguments.len() {
        arguments[index]
    } else {
        Value::Undefined
    }
}
