//! Rows of names.

ghost use Rattle.std.specs.Prelude.{◌≡◌, IfSome, []};
ghost use Rattle.js_heap.specs.declared.computed.Computed.TheVariants.{Value as a_value};
ghost use Rattle.js_semantics.specs.State.{give};
ghost use Rattle.js_semantics.specs.References.{found, name_written, with_result, with_written};
ghost use Rattle.js_semantics.specs.Rows.{type_of_found};
ghost use Rattle.js_heap_memory.specs.Names.{name_of};
ghost use Rattle.js_machine_rows.specs.Does.{Replies};
ghost use Rattle.js_machine_rows.specs.Quick.{slot_value, open_slot};
ghost use Rattle.js_machine_rows.specs.References.{name_result};

use crate::answers::{replied, replied_with};
use js_heap::value::{Addr, Value};
use js_heap_memory::lookup::lookup;
use js_heap_memory::names::{NameId, NameTable};
use js_heap_memory::stored::FoundSlot;
use js_heap_memory::world::World;
use js_machine_actions::cells::bind_at;
use js_machine_actions::names::{get_name, put_name, type_of_name};
use js_machine_engine::reduced::Reduced;
use std::alloc::Global;

// ---- reading

/// The value of a name that was found and has one.
#[inline(always)]
fn slot_value(found: Option<FoundSlot>) -> Option<Value>
    ensures { result ≡ slot_value found }
{
    match found {
        Some(found) => found.value,
        None => None,
    }
}

/// The value of a name; none where it isn't defined or has no value yet (ECMA-262, 9.1.1.1.6).
#[inline(always)]
pub fn value_of_name<W: World>(
    world: &W,
    names: &NameTable,
    scope: Addr,
    name: NameId,
) -> Option<Value>
    ensures { IfSome result (λ v. name_result (W.world names.now world.now) scope (name_of names.now name.number) ≡ a_value v) }
{
    slot_value(lookup(world, names, scope, name))
}

/// A name that is read by the general call, which makes the error of a name without a value.
#[cold]
#[inline(never)]
fn read_name_slowly<W: World>(
    alloc: Global,
    world: &mut W,
    names: &NameTable,
    scope: Addr,
    name: NameId,
) -> Reduced
    ensures { Replies names.now (with_result (name_result (W.world names.now world.old) scope (name_of names.now name.number)) give) (W.world names.now world.old) result (W.world names.now world.new) }
{
    replied(get_name(alloc, world, names, scope, name))
}

/// A name that is read (6.2.5.5).
#[inline(always)]
#[tactic(auto, using(crate::proofs::AnswerLemmas::read_rules))]
pub fn read_name<W: World>(
    alloc: Global,
    world: &mut W,
    names: &NameTable,
    scope: Addr,
    name: NameId,
) -> Reduced
    ensures { Replies names.now (with_result (name_result (W.world names.now world.old) scope (name_of names.now name.number)) give) (W.world names.now world.old) result (W.world names.now world.new) }
{
    match value_of_name(world, names, scope, name) {
        Some(value) => Reduced::Gives(value),
        None => read_name_slowly(alloc, world, names, scope, name),
    }
}

/// `typeof` of a name; `undefined` where the name isn't defined (13.5.3.1).
pub fn typeof_name<W: World>(
    alloc: Global,
    world: &mut W,
    names: &NameTable,
    scope: Addr,
    name: NameId,
) -> Reduced
    ensures { Replies names.now (type_of_found (W.world names.now world.old) (name_of names.now name.number) (found (W.world names.now world.old) scope (name_of names.now name.number))) (W.world names.now world.old) result (W.world names.now world.new) }
{
    replied(type_of_name(alloc, world, names, scope, name))
}

// ---- assigning

/// The place of a name that may be given a value: one that isn't constant and has a value (9.1.1.1.5).
#[inline(always)]
pub fn open_slot(found: Option<FoundSlot>) -> Option<FoundSlot>
    ensures { result ≡ open_slot found }
{
    match found {
        Some(found) => {
            if found.value.is_some() && !found.constant {
                Some(found)
            } else {
                None
            }
        }
        None => None,
    }
}

/// `=` to a name by the general call, which makes the error of a name that takes no value.
#[cold]
#[inline(never)]
fn assign_name_slowly<W: World>(
    alloc: Global,
    world: &mut W,
    names: &NameTable,
    scope: Addr,
    name: NameId,
    value: Value,
) -> Reduced
    ensures { Replies names.now (with_written (name_written (name_of names.now name.number) (found (W.world names.now world.old) scope (name_of names.now name.number)) value) (give value)) (W.world names.now world.old) result (W.world names.now world.new) }
{
    replied_with(put_name(alloc, world, names, scope, name, value), value)
}

/// `=` to a name (13.15.2).
#[inline(always)]
pub fn assign_name<W: World>(
    alloc: Global,
    world: &mut W,
    names: &NameTable,
    scope: Addr,
    name: NameId,
    value: Value,
) -> Reduced
    ensures { Replies names.now (with_written (name_written (name_of names.now name.number) (found (W.world names.now world.old) scope (name_of names.now name.number)) value) (give value)) (W.world names.now world.old) result (W.world names.now world.new) }
{
    let found = lookup(world, names, scope, name);
    match open_slot(found) {
        Some(slot) => {
            let written = bind_at(world, names, slot.scope, slot.place, name, value);
            replied_with(written, value)
        }
        None => assign_name_slowly(alloc, world, names, scope, name, value),
    }
}
