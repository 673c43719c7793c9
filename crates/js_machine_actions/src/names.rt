//! Names in their scopes.

ghost use Rattle.std.specs.Prelude.{◌≡◌, ◌++◌, IfOk, codes};
ghost use Rattle.js_heap.specs.declared.built_in.ErrorClass.TheVariants as classes;
ghost use Rattle.js_semantics.specs.State.{fail};
ghost use Rattle.js_semantics.specs.References.{found, value_of_found, name_written, with_result, with_written};
ghost use Rattle.js_semantics.specs.Rows.{type_of_found};
ghost use Rattle.js_heap_memory.specs.Names.{name_of};
ghost use Rattle.js_machine_actions.specs.Names.{value_of_slot, slot_written, type_of_bound, type_of_slot, StandsWhereFound};
ghost use Rattle.js_machine_actions.specs.Flow.{Ends, Yields, Passes, Gives};

use crate::action_end::ActionEnd;
use crate::cells::{bind_at, make_text};
use crate::errors::{fail, fail_with, with_result};
use crate::seen::NamedWorld;
use cdp_text::units::{Units, ascii};
use js_heap::built_in::ErrorClass;
use js_heap::computed::Computed;
use js_heap::value::{Addr, Value};
use js_heap_memory::lookup::lookup;
use js_heap_memory::names::{NameId, NameTable};
use js_heap_memory::stored::FoundSlot;
use js_heap_memory::world::World;
use js_heap_operators::text::quoted;
use js_heap_operators::values::type_text;
use std::alloc::{AllocError, Global};

/// The message of a name that isn't defined.
fn not_defined(alloc: Global, names: &NameTable, name: NameId) -> Result<Units, AllocError>
    ensures { IfOk result (λ units. units ≡ name_of names.now name.number ++ codes " is not defined") }
{
    let text = names.text(name)?;
    quoted(alloc, b"", text, b" is not defined")
}

/// The message of a name without a value.
fn not_initialized(alloc: Global, names: &NameTable, name: NameId) -> Result<Units, AllocError>
    ensures { IfOk result (λ units. units ≡ codes "Cannot access '" ++ name_of names.now name.number ++ codes "' before initialization") }
{
    let text = names.text(name)?;
    quoted(alloc, b"Cannot access '", text, b"' before initialization")
}

/// The value of a name that was found or not (ECMA-262, 9.1.1.1.6).
fn value_of_slot(
    alloc: Global,
    names: &NameTable,
    name: NameId,
    found: Option<FoundSlot>,
) -> Result<Computed, AllocError>
    ensures { IfOk result (λ r. r ≡ value_of_slot (name_of names.now name.number) found) }
{
    let Some(found) = found else {
        let message = not_defined(alloc, names, name)?;
        return Ok(Computed::Error(ErrorClass::ReferenceError, message));
    };
    let Some(value) = found.value else {
        let message = not_initialized(alloc, names, name)?;
        return Ok(Computed::Error(ErrorClass::ReferenceError, message));
    };
    Ok(Computed::Value(value))
}

/// The value of a name (9.1.1.1.6).
#[tactic(auto, using(crate::proofs::NameLemmas::kept_rules))]
pub fn get_name<W: World>(
    alloc: Global,
    world: &mut W,
    names: &NameTable,
    scope: Addr,
    name: NameId,
) -> Result<Value, ActionEnd>
    ensures { Yields (with_result (value_of_found (name_of names.now name.number) (found (W.world names.now world.old) scope (name_of names.now name.number)))) (W.world names.now world.old) result (W.world names.now world.new) }
{
    let found = lookup(world, names, scope, name);
    let value = value_of_slot(alloc, names, name, found)?;
    with_result(alloc, world, names, value)
}

/// The error of a name that isn't defined.
fn fail_undefined<W: World>(
    alloc: Global,
    world: &mut W,
    names: &NameTable,
    name: NameId,
) -> ActionEnd
    ensures { Ends (fail classes.ReferenceError (name_of names.now name.number ++ codes " is not defined")) (W.world names.now world.old) result (W.world names.now world.new) }
{
    match not_defined(alloc, names, name) {
        Ok(message) => fail(alloc, world, names, ErrorClass::ReferenceError, message),
        Err(_) => ActionEnd::Memory,
    }
}

/// The error of a name without a value.
fn fail_uninitialized<W: World>(
    alloc: Global,
    world: &mut W,
    names: &NameTable,
    name: NameId,
) -> ActionEnd
    ensures { Ends (fail classes.ReferenceError (codes "Cannot access '" ++ name_of names.now name.number ++ codes "' before initialization")) (W.world names.now world.old) result (W.world names.now world.new) }
{
    match not_initialized(alloc, names, name) {
        Ok(message) => fail(alloc, world, names, ErrorClass::ReferenceError, message),
        Err(_) => ActionEnd::Memory,
    }
}

/// Writes the value of a name that was found or not (9.1.1.1.5).
fn put_slot<W: World>(
    alloc: Global,
    world: &mut W,
    names: &NameTable,
    name: NameId,
    found: Option<FoundSlot>,
    value: Value,
) -> Result<(), ActionEnd>
    requires { StandsWhereFound (W.world names.now world.old) found (name_of names.now name.number) }
    ensures { Passes (with_written (slot_written (name_of names.now name.number) found value)) (W.world names.now world.old) result (W.world names.now world.new) }
{
    let Some(found) = found else {
        return Err(fail_undefined(alloc, world, names, name));
    };
    if found.value.is_none() {
        return Err(fail_uninitialized(alloc, world, names, name));
    }
    if found.constant {
        return Err(fail_with(
            alloc,
            world,
            names,
            ErrorClass::TypeError,
            b"Assignment to constant variable.",
        ));
    }
    bind_at(world, names, found.scope, found.place, name, value)
}

/// Writes the value of a name (9.1.1.1.5).
#[tactic(auto, using(crate::proofs::NameLemmas::kept_rules))]
pub fn put_name<W: World>(
    alloc: Global,
    world: &mut W,
    names: &NameTable,
    scope: Addr,
    name: NameId,
    value: Value,
) -> Result<(), ActionEnd>
    ensures { Passes (with_written (name_written (name_of names.now name.number) (found (W.world names.now world.old) scope (name_of names.now name.number)) value)) (W.world names.now world.old) result (W.world names.now world.new) }
{
    let found = lookup(world, names, scope, name);
    put_slot(alloc, world, names, name, found, value)
}

/// The type of a name's value.
fn type_of_value<W: World>(
    alloc: Global,
    world: &mut W,
    names: &NameTable,
    name: NameId,
    value: Option<Value>,
) -> Result<Value, ActionEnd>
    ensures { Gives (type_of_bound (W.world names.now world.old) (name_of names.now name.number) value) (W.world names.now world.old) result (W.world names.now world.new) }
{
    match value {
        Some(value) => {
            let seen = NamedWorld {
                names,
                world: &*world,
            };
            let text = ascii(alloc, type_text(&seen, value))?;
            make_text(world, names, text)
        }
        None => Err(fail_uninitialized(alloc, world, names, name)),
    }
}

/// The type of a name that was found or not.
fn type_of_slot<W: World>(
    alloc: Global,
    world: &mut W,
    names: &NameTable,
    name: NameId,
    found: Option<FoundSlot>,
) -> Result<Value, ActionEnd>
    ensures { Gives (type_of_slot (W.world names.now world.old) (name_of names.now name.number) found) (W.world names.now world.old) result (W.world names.now world.new) }
{
    match found {
        Some(found) => type_of_value(alloc, world, names, name, found.value),
        None => {
            let text = ascii(alloc, b"undefined")?;
            make_text(world, names, text)
        }
    }
}

/// `typeof` of a name; `undefined` where the name isn't defined (13.5.3.1).
#[tactic(auto, using(crate::proofs::NameLemmas::kept_rules))]
pub fn type_of_name<W: World>(
    alloc: Global,
    world: &mut W,
    names: &NameTable,
    scope: Addr,
    name: NameId,
) -> Result<Value, ActionEnd>
    ensures { Gives (type_of_found (W.world names.now world.old) (name_of names.now name.number) (found (W.world names.now world.old) scope (name_of names.now name.number))) (W.world names.now world.old) result (W.world names.now world.new) }
{
    let found = lookup(world, names, scope, name);
    type_of_slot(alloc, world, names, name, found)
}
