//! Rows of scripts, statements, blocks, tests and catches.

ghost use Rattle.std.specs.Prelude.{◌≡◌, Some, None, OnOk, slice_get};
ghost use Rattle.js_heap.specs.declared.value.Value.{Value as AnyValue};
ghost use Rattle.js_machine_nodes.specs.Trees.{trees};
ghost use Rattle.js_semantics.specs.Rows.{only, script_frame, script_row, enter_row, block_row, initialize_row, choose_row, both_row, either_row, catch_row};
ghost use Rattle.js_heap_memory.specs.Cells.{bindings};
ghost use Rattle.js_heap_memory.specs.Names.{name_of};
ghost use Rattle.js_machine_actions.specs.Contexts.{Turns};
ghost use Rattle.js_machine_actions.specs.Flow.{Passes};
ghost use Rattle.js_machine_engine.specs.declared.reduced.Reduced.TheVariants as reduced;
ghost use Rattle.js_machine_rows.specs.Does.{Replies};
ghost use Rattle.js_machine_rows.specs.Over.{kept_parts, RepliesOf, RepliesOverWith, RepliesInside, RepliesAnywhere, OfEntry, answered_by, uncovered, gone_to, entered_script, script_declared};

use crate::answers::{replied_with, stopped};
use crate::declared::with_functions;
use crate::entries::{block_entry, script_entry};
use crate::parts::part_at;
use crate::scopes::{block_scope, nameless_scope};
use js_heap::cell::ScopeKind;
use js_heap::value::{Addr, Value};
use js_heap_memory::names::{NameId, NameTable};
use js_heap_memory::stored::Slot;
use js_heap_memory::world::World;
use js_heap_operators::values::is_truthy;
use js_machine_actions::action_end::ActionEnd;
use js_machine_actions::cells::bind;
use js_machine_actions::context::Context;
use js_machine_actions::frame::Frame;
use js_machine_actions::functions::with_names;
use js_machine_actions::seen::NamedWorld;
use js_machine_engine::code::RunningCode;
use js_machine_engine::reduced::Reduced;
use js_machine_engine::task::Redex;
use js_machine_nodes::node::ScriptEntry;
use js_machine_nodes::table::NodeTable;
use js_semantics::form::{Mark, Source};
use std::alloc::AllocError;

/// The value of a form's only part; undefined where it has none.
#[inline(always)]
pub fn only(values: &[Value]) -> Value
    ensures { result ≡ only values.now }
{
    match values {
        [] => Value::Undefined,
        [value, ..] => *value,
    }
}

// ---- answers of kept parts

/// A kept part that is uncovered; undefined where it isn't there.
#[inline(always)]
pub fn uncovered(part: Option<u32>) -> Reduced
    ensures { result ≡ uncovered part }
{
    match part {
        Some(node) => Reduced::Uncovers(node),
        None => Reduced::Gives(Value::Undefined),
    }
}

/// A kept part; a value where it isn't there.
#[inline(always)]
fn gone_to(part: Option<u32>, value: Value) -> Reduced
    ensures { result ≡ gone_to part value }
{
    match part {
        Some(node) => Reduced::Goes(node),
        None => Reduced::Gives(value),
    }
}

// ---- statements

/// An untouched statement, or an arrow's expression body (ECMA-262, 14.1).
#[inline(always)]
pub fn enter(table: &NodeTable, context: &mut Context, form: Redex) -> Reduced
    ensures { RepliesAnywhere table.now (λ ts. enter_row form.info (trees ts table.now form.mid form.end)) context.old result context.new }
{
    match part_at(table, form.mid, form.end, 0) {
        Some(entered) => {
            context.set_here(Mark::Start(form.info));
            Reduced::Uncovers(entered)
        }
        None => Reduced::Gives(Value::Undefined),
    }
}

/// A declarator, whose initialiser may be absent (14.3.1.2).
pub fn initialize<W: World>(
    world: &mut W,
    names: &NameTable,
    scope: Addr,
    name: NameId,
    values: &[Value],
) -> Reduced
    ensures { Replies names.now (initialize_row scope (name_of names.now name.number) values.now) (W.world names.now world.old) result (W.world names.now world.new) }
{
    let value = only(values);
    let bound = bind(world, names, scope, name, value);
    replied_with(bound, Value::Undefined)
}

// ---- tests

/// `if` and `? :` (14.6.2, 13.14.1).
#[inline(always)]
pub fn choose<W: World>(
    code: &RunningCode<'_, '_>,
    world: &W,
    form: Redex,
    values: &[Value],
) -> Reduced
    ensures { RepliesOf W.world code.now (λ w. choose_row w (only values.now) (kept_parts code.now form)) world.now result world.now }
{
    if is_truthy(
        &NamedWorld {
            names: code.names,
            world,
        },
        only(values),
    ) {
        uncovered(part_at(code.table, form.mid, form.end, 0))
    } else {
        uncovered(part_at(code.table, form.mid, form.end, 1))
    }
}

/// `&&` (13.13.1).
pub fn both<W: World>(
    code: &RunningCode<'_, '_>,
    world: &W,
    form: Redex,
    values: &[Value],
) -> Reduced
    ensures { RepliesOf W.world code.now (λ w. both_row w (only values.now) (kept_parts code.now form)) world.now result world.now }
{
    let value = only(values);
    if is_truthy(
        &NamedWorld {
            names: code.names,
            world,
        },
        value,
    ) {
        gone_to(part_at(code.table, form.mid, form.end, 0), value)
    } else {
        Reduced::Gives(value)
    }
}

/// `||` (13.13.1).
pub fn either<W: World>(
    code: &RunningCode<'_, '_>,
    world: &W,
    form: Redex,
    values: &[Value],
) -> Reduced
    ensures { RepliesOf W.world code.now (λ w. either_row w (only values.now) (kept_parts code.now form)) world.now result world.now }
{
    let value = only(values);
    if is_truthy(
        &NamedWorld {
            names: code.names,
            world,
        },
        value,
    ) {
        Reduced::Gives(value)
    } else {
        gone_to(part_at(code.table, form.mid, form.end, 0), value)
    }
}

// ---- scripts and blocks

/// A kept part that is uncovered once something is done.
fn uncovered_after(outcome: Result<(), ActionEnd>, part: u32) -> Reduced
    ensures { result ≡ answered_by (λ _. reduced.Uncovers part) outcome }
{
    match outcome {
        Ok(()) => Reduced::Uncovers(part),
        Err(stop) => stopped(stop),
    }
}

/// A kept part that is uncovered in a scope that is made.
fn scoped(outcome: Result<Addr, ActionEnd>, part: u32) -> Reduced
    ensures { result ≡ answered_by (λ a. reduced.Scopes a part) outcome }
{
    match outcome {
        Ok(scope) => Reduced::Scopes(scope, part),
        Err(stop) => stopped(stop),
    }
}

/// The bottom frame of a script, at its beginning.
fn script_frame(number: u32) -> Frame
    ensures { result ≡ script_frame number }
{
    Frame::new(
        None,
        Source::Script(number),
        Value::Undefined,
        Addr::Base(1),
        Mark::Beginning,
    )
}

/// The bottom frame is that of a script from now on.
fn enter_script(context: &mut Context, number: u32) -> Result<(), AllocError>
    ensures { OnOk result (Turns (entered_script number) context.old context.new) }
{
    context.pop_frame();
    context.push_frame(script_frame(number))?;
    Ok(())
}

/// Adds the names of a script to its scope, and makes its functions.
fn declare_script<W: World>(
    code: &RunningCode<'_, '_>,
    world: &mut W,
    slots: &[Slot],
    from: u32,
    to: u32,
) -> Result<(), ActionEnd>
    ensures { Passes (script_declared (bindings code.now.names.now slots.now) (trees code.now.names.now code.now.table.now from to)) (W.world code.now.names.now world.old) result (W.world code.now.names.now world.new) }
{
    let scope = Addr::Base(1);
    with_names(world, code.names, scope, slots)?;
    with_functions(code, world, scope, from, to)
}

/// The script of an entry.
fn script_of<W: World>(
    code: &RunningCode<'_, '_>,
    context: &mut Context,
    world: &mut W,
    form: Redex,
    entry: &ScriptEntry,
) -> Reduced
    ensures { RepliesOverWith code.now.names.now code.now.table.now (script_row entry.now.number (bindings code.now.names.now entry.now.names) (kept_parts code.now form)) (W.world code.now.names.now world.old) context.old result (W.world code.now.names.now world.new) context.new }
{
    let Some(statements) = part_at(code.table, form.mid, form.end, 0) else {
        return Reduced::Gives(Value::Undefined);
    };
    let first = form.mid + 1;
    match enter_script(context, entry.number) {
        Ok(()) => {
            let slots = entry.names.slice();
            let declared = declare_script(code, world, slots, first, form.end);
            uncovered_after(declared, statements)
        }
        Err(_) => Reduced::Memory,
    }
}

/// A script: the bottom frame is its own from now on; its names, its functions, then its statements (16.1.7).
pub fn script<W: World>(
    code: &RunningCode<'_, '_>,
    context: &mut Context,
    world: &mut W,
    form: Redex,
) -> Reduced
    ensures { OfEntry (slice_get code.now.table.now.scripts.items form.info) result (λ entry. RepliesOverWith code.now.names.now code.now.table.now (script_row entry.number (bindings code.now.names.now entry.names) (kept_parts code.now form)) (W.world code.now.names.now world.old) context.old result (W.world code.now.names.now world.new) context.new) }
{
    match script_entry(code.table, form.info) {
        Some(entry) => script_of(code, context, world, form, entry),
        None => Reduced::Memory,
    }
}

/// A block that declares these names; with none of them it needs no scope.
fn block_of<W: World>(
    code: &RunningCode<'_, '_>,
    world: &mut W,
    form: Redex,
    slots: &[Slot],
) -> Reduced
    ensures { RepliesOf W.world code.now (λ _. block_row form.inner (bindings code.now.names.now slots.now) (kept_parts code.now form)) world.old result world.new }
{
    let Some(statements) = part_at(code.table, form.mid, form.end, 0) else {
        return Reduced::Gives(Value::Undefined);
    };
    if slots.is_empty() {
        return Reduced::Uncovers(statements);
    }
    let own = block_scope(code, world, form.inner, slots, form.mid + 1, form.end);
    scoped(own, statements)
}

/// A block: a scope where it declares a name, with its functions (14.2.2).
pub fn block<W: World>(code: &RunningCode<'_, '_>, world: &mut W, form: Redex) -> Reduced
    ensures { OfEntry (slice_get code.now.table.now.blocks.items form.info) result (λ slots. RepliesOf W.world code.now (λ _. block_row form.inner (bindings code.now.names.now slots) (kept_parts code.now form)) world.old result world.new) }
{
    match block_entry(code.table, form.info) {
        Some(slots) => block_of(code, world, form, slots.slice()),
        None => Reduced::Memory,
    }
}

// ---- catch

/// A throw reaches a catch without a name (14.15.3).
pub fn catch_nameless(table: &NodeTable, form: Redex) -> Reduced
    ensures { (thrown : AnyValue) → RepliesInside table.now (λ ts. catch_row form.inner None thrown (trees ts table.now form.mid form.end)) result }
{
    uncovered(part_at(table, form.mid, form.end, 0))
}

/// A throw reaches a catch with a name, which has a scope of its own (14.15.2, 14.15.3).
pub fn catch_named<W: World>(
    code: &RunningCode<'_, '_>,
    world: &mut W,
    form: Redex,
    thrown: Value,
) -> Reduced
    ensures { RepliesOf W.world code.now (λ _. catch_row form.inner (Some (name_of code.now.names.now form.info)) thrown (kept_parts code.now form)) world.old result world.new }
{
    let Some(handler) = part_at(code.table, form.mid, form.end, 0) else {
        return Reduced::Gives(Value::Undefined);
    };
    let name = Slot {
        name: NameId { number: form.info },
        constant: false,
        value: Some(thrown),
    };
    let own = nameless_scope(
        code.alloc,
        code.names,
        world,
        ScopeKind::Catch,
        form.inner,
        &[name],
    );
    scoped(own, handler)
}
