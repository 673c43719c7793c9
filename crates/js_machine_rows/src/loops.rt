//! Rows of loops.

ghost use Rattle.std.specs.Prelude.{◌≡◌, [], List, ℕ, Some, None, option_copied, slice_get};
ghost use Rattle.js_heap.specs.declared.value.Value.{Value as AnyValue};
ghost use Rattle.js_semantics.specs.declared.form.Stage.TheVariants as stages;
ghost use Rattle.js_semantics.specs.Terms.{done, one};
ghost use Rattle.js_semantics.specs.Rows.{only, loop_row, enter_for_row, enter_for_of_row, list_row, element_of, elements_of};
ghost use Rattle.js_machine_nodes.specs.declared.table.NodeTable.{NodeTable as AnyTable};
ghost use Rattle.js_heap_memory.specs.Cells.{binding_at, bindings, cell_at};
ghost use Rattle.js_machine_engine.specs.declared.reduced.Reduced.TheVariants as reduced;
ghost use Rattle.js_machine_engine.specs.declared.task.Extra.TheVariants as extras;
ghost use Rattle.js_machine_engine.specs.Answers.{own_scope};
ghost use Rattle.js_machine_engine.specs.Rows.{redex};
ghost use Rattle.js_machine_engine.specs.Tasks.{Wide as AnyWide, turn_scope, later_of};
ghost use Rattle.js_machine_rows.specs.Does.{DoesIn, DoesWith};
ghost use Rattle.js_machine_rows.specs.Over.{kept_parts, OfEntry, IsTurn, answered_by, tested};

use crate::answers::stopped;
use crate::entries::for_entry;
use crate::parts::part_at;
use crate::scopes::nameless_scope;
use crate::statements::only;
use js_heap::built_in::ErrorClass;
use js_heap::cell::ScopeKind;
use js_heap::value::{Addr, Value};
use js_heap_memory::names::NameTable;
use js_heap_memory::stored::{Slot, Stored};
use js_heap_memory::world::World;
use js_heap_operators::values::is_truthy;
use js_machine_actions::action_end::ActionEnd;
use js_machine_actions::context::Context;
use js_machine_actions::errors::fail_with;
use js_machine_actions::functions::copied;
use js_machine_actions::lists::is_array;
use js_machine_actions::seen::NamedWorld;
use js_machine_engine::code::RunningCode;
use js_machine_engine::reduced::Reduced;
use js_machine_engine::task::Redex;
use js_machine_nodes::node::{ForEntry, ForOfEntry};
use js_semantics::form::Mark;
use std::alloc::Global;

// ---- loops with a test

/// A turn, or the loop's end.
#[inline(always)]
fn tested(test: bool) -> Reduced
    ensures { result ≡ tested test }
{
    if test {
        Reduced::Turns
    } else {
        Reduced::Gives(Value::Undefined)
    }
}

/// A loop at its test (ECMA-262, 14.7).
#[inline(always)]
pub fn loop_test<W: World>(names: &NameTable, world: &W, values: &[Value]) -> Reduced
    ensures { (t : AnyTable) (e : AnyWide) → DoesIn names.now t e (loop_row (W.world names.now world.now) stages.Testing (own_scope e) values.now (later_of names.now t e)) (W.world names.now world.now) result (W.world names.now world.now) }
{
    tested(is_truthy(&NamedWorld { names, world }, only(values)))
}

/// A test in a new scope that is made.
fn tests_in(outcome: Result<Addr, ActionEnd>) -> Reduced
    ensures { result ≡ answered_by (λ a. reduced.Tests a) outcome }
{
    match outcome {
        Ok(scope) => Reduced::Tests(scope),
        Err(stop) => stopped(stop),
    }
}

/// An update in a new scope that is made.
fn updates_in(outcome: Result<Addr, ActionEnd>) -> Reduced
    ensures { result ≡ answered_by (λ a. reduced.Updates a) outcome }
{
    match outcome {
        Ok(scope) => Reduced::Updates(scope),
        Err(stop) => stopped(stop),
    }
}

/// A loop behind its initialiser: where it has a scope for each turn, the first one (14.7.4.4).
pub fn loop_first<W: World>(
    alloc: Global,
    names: &NameTable,
    world: &mut W,
    info: u32,
    inner: Addr,
) -> Reduced
    ensures { (t : AnyTable) (e : AnyWide) (vs : List AnyValue) → DoesIn names.now t e (loop_row (W.world names.now world.old) stages.First (turn_scope info inner) vs (later_of names.now t e)) (W.world names.now world.old) result (W.world names.now world.new) }
{
    if info == 0 {
        return Reduced::Gives(Value::Undefined);
    }
    tests_in(copied(alloc, world, names, inner))
}

/// A loop behind its body: where it has a scope for each turn, the next one.
pub fn loop_body<W: World>(
    alloc: Global,
    names: &NameTable,
    world: &mut W,
    info: u32,
    inner: Addr,
) -> Reduced
    ensures { (t : AnyTable) (e : AnyWide) (vs : List AnyValue) → DoesIn names.now t e (loop_row (W.world names.now world.old) stages.Body (turn_scope info inner) vs (later_of names.now t e)) (W.world names.now world.old) result (W.world names.now world.new) }
{
    if info == 0 {
        return Reduced::Gives(Value::Undefined);
    }
    updates_in(copied(alloc, world, names, inner))
}

// ---- for

/// An initialiser in the scope of the names that is made.
fn initializes_in(outcome: Result<Addr, ActionEnd>, constant: bool) -> Reduced
    ensures { result ≡ answered_by (λ a. reduced.Initializes constant a) outcome }
{
    match outcome {
        Ok(scope) => Reduced::Initializes { constant, scope },
        Err(stop) => stopped(stop),
    }
}

/// Entering the `for` of an entry.
fn enter_for_with<W: World>(
    alloc: Global,
    names: &NameTable,
    context: &mut Context,
    world: &mut W,
    scope: Addr,
    entry: &ForEntry,
) -> Reduced
    ensures { (t : AnyTable) (e : AnyWide) → DoesWith names.now t e (enter_for_row scope entry.now.node entry.now.constant (bindings names.now entry.now.names) (later_of names.now t e)) (W.world names.now world.old) context.old result (W.world names.now world.new) context.new }
{
    context.set_here(Mark::Start(entry.node));
    let slots = entry.names.slice();
    let own = nameless_scope(alloc, names, world, ScopeKind::Block, scope, slots);
    initializes_in(own, entry.constant)
}

/// Entering a `for` with names makes their scope (14.7.4.2).
pub fn enter_for<W: World>(
    code: &RunningCode<'_, '_>,
    context: &mut Context,
    world: &mut W,
    form: Redex,
) -> Reduced
    ensures { OfEntry (slice_get code.now.table.now.fors.items form.info) result (λ entry. (t : AnyTable) (e : AnyWide) → DoesWith code.now.names.now t e (enter_for_row form.inner entry.node entry.constant (bindings code.now.names.now entry.names) (later_of code.now.names.now t e)) (W.world code.now.names.now world.old) context.old result (W.world code.now.names.now world.new) context.new) }
{
    match for_entry(code.table, form.info) {
        Some(entry) => enter_for_with(code.alloc, code.names, context, world, form.inner, entry),
        None => Reduced::Memory,
    }
}

// ---- for .. of

/// A list in a scope that is made.
fn lists_in(outcome: Result<Addr, ActionEnd>) -> Reduced
    ensures { result ≡ answered_by (λ a. reduced.Lists a) outcome }
{
    match outcome {
        Ok(scope) => Reduced::Lists(scope),
        Err(stop) => stopped(stop),
    }
}

/// Entering the `for .. of` of an entry.
fn enter_for_of_with<W: World>(
    code: &RunningCode<'_, '_>,
    context: &mut Context,
    world: &mut W,
    form: Redex,
    entry: ForOfEntry,
) -> Reduced
    requires { Some entry ≡ slice_get code.now.table.now.for_ofs.items form.info }
    ensures { (values : List AnyValue) → DoesWith code.now.names.now code.now.table.now (redex form values None) (enter_for_of_row form.inner entry.node (binding_at code.now.names.now entry.slot) (kept_parts code.now form)) (W.world code.now.names.now world.old) context.old result (W.world code.now.names.now world.new) context.new }
{
    let Some(_) = part_at(code.table, form.mid, form.end, 0) else {
        return Reduced::Gives(Value::Undefined);
    };
    context.set_here(Mark::Start(entry.node));
    let own = nameless_scope(
        code.alloc,
        code.names,
        world,
        ScopeKind::Block,
        form.inner,
        &[entry.slot],
    );
    lists_in(own)
}

/// Entering a `for .. of` makes a scope in which its list is evaluated (14.7.5.6).
pub fn enter_for_of<W: World>(
    code: &RunningCode<'_, '_>,
    context: &mut Context,
    world: &mut W,
    form: Redex,
) -> Reduced
    ensures { OfEntry (slice_get code.now.table.now.for_ofs.items form.info) result (λ entry. (values : List AnyValue) → DoesWith code.now.names.now code.now.table.now (redex form values None) (enter_for_of_row form.inner entry.node (binding_at code.now.names.now entry.slot) (kept_parts code.now form)) (W.world code.now.names.now world.old) context.old result (W.world code.now.names.now world.new) context.new) }
{
    match code.table.for_of(form.info) {
        Some(entry) => enter_for_of_with(code, context, world, form, entry),
        None => Reduced::Memory,
    }
}

/// The `for .. of` of an entry with the value that it goes over; a TypeError where that is no array.
fn list_with<W: World>(
    code: &RunningCode<'_, '_>,
    world: &mut W,
    form: Redex,
    entry: ForOfEntry,
    values: &[Value],
) -> Reduced
    requires { Some entry ≡ slice_get code.now.table.now.for_ofs.items form.info }
    ensures { (e : AnyWide) → e.info ≡ form.info → DoesIn code.now.names.now code.now.table.now e (list_row (W.world code.now.names.now world.old) (binding_at code.now.names.now entry.slot) (only values.now) (later_of code.now.names.now code.now.table.now e)) (W.world code.now.names.now world.old) result (W.world code.now.names.now world.new) }
{
    let list = only(values);
    if is_array(world, code.names, list) {
        return Reduced::Iterates(list);
    }
    stopped(fail_with(
        code.alloc,
        world,
        code.names,
        ErrorClass::TypeError,
        b"Value is not an array",
    ))
}

/// `for .. of` with its value is for arrays.
pub fn list_of<W: World>(
    code: &RunningCode<'_, '_>,
    world: &mut W,
    form: Redex,
    values: &[Value],
) -> Reduced
    ensures { OfEntry (slice_get code.now.table.now.for_ofs.items form.info) result (λ entry. (e : AnyWide) → e.info ≡ form.info → DoesIn code.now.names.now code.now.table.now e (list_row (W.world code.now.names.now world.old) (binding_at code.now.names.now entry.slot) (only values.now) (later_of code.now.names.now code.now.table.now e)) (W.world code.now.names.now world.old) result (W.world code.now.names.now world.new)) }
{
    match code.table.for_of(form.info) {
        Some(entry) => list_with(code, world, form, entry, values),
        None => Reduced::Memory,
    }
}

/// The element at an index of an array.
fn element_of(cell: Option<&Stored>, index: u32) -> Option<Value>
    ensures { (names : List (List ℕ)) → result ≡ element_of (cell_at names (option_copied cell.entry)) index }
{
    match cell {
        Some(Stored::Array { elements }) => elements.slice().get(index as usize).copied(),
        _ => None,
    }
}

/// The element at an index of a list.
fn element_at<W: World>(names: &NameTable, world: &W, list: Value, index: u32) -> Option<Value>
    ensures { result ≡ elements_of (W.world names.now world.now) (one (done list)) index }
{
    match list {
        Value::Object(a) => element_of(world.find(a), index),
        _ => None,
    }
}

/// The name of a turn, with its value.
fn turn_slot(slot: Slot, value: Value) -> Slot
    ensures { result ≡ record slot { value = Some value } }
{
    Slot {
        name: slot.name,
        constant: slot.constant,
        value: Some(value),
    }
}

/// A turn in a scope that is made.
fn iterated_in(outcome: Result<Addr, ActionEnd>) -> Reduced
    ensures { result ≡ answered_by (λ a. reduced.Iterated a) outcome }
{
    match outcome {
        Ok(scope) => Reduced::Iterated(scope),
        Err(stop) => stopped(stop),
    }
}

/// A turn of the `for .. of` of an entry with the element at an index, or its end where there is no such element.
fn turn_with<W: World>(
    code: &RunningCode<'_, '_>,
    world: &mut W,
    form: Redex,
    entry: ForOfEntry,
    list: Value,
    index: u32,
) -> Reduced
    requires { Some entry ≡ slice_get code.now.table.now.for_ofs.items form.info }
    ensures { (values : List AnyValue) → IsTurn code.now.names.now code.now.table.now (redex form values (Some (extras.Turn list index))) (binding_at code.now.names.now entry.slot) (W.world code.now.names.now world.old) result (W.world code.now.names.now world.new) }
{
    let Some(value) = element_at(code.names, world, list, index) else {
        return Reduced::Gives(Value::Undefined);
    };
    let slot = turn_slot(entry.slot, value);
    let own = nameless_scope(
        code.alloc,
        code.names,
        world,
        ScopeKind::Block,
        form.inner,
        &[slot],
    );
    iterated_in(own)
}

/// A turn with the next element below the present length in a new scope, or the loop's end (14.7.5.7).
pub fn turn_of<W: World>(
    code: &RunningCode<'_, '_>,
    world: &mut W,
    form: Redex,
    list: Value,
    index: u32,
) -> Reduced
    ensures { OfEntry (slice_get code.now.table.now.for_ofs.items form.info) result (λ entry. (values : List AnyValue) → IsTurn code.now.names.now code.now.table.now (redex form values (Some (extras.Turn list index))) (binding_at code.now.names.now entry.slot) (W.world code.now.names.now world.old) result (W.world code.now.names.now world.new)) }
{
    match code.table.for_of(form.info) {
        Some(entry) => turn_with(code, world, form, entry, list, index),
        None => Reduced::Memory,
    }
}
