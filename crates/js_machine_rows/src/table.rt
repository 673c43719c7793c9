//! The table of steps, over the rows.

ghost use Rattle.std.specs.Prelude.{◌≡◌, Some, None, slice_get};
ghost use Rattle.js_machine_nodes.specs.Codes.{HasFunctions};
ghost use Rattle.js_machine_nodes.specs.Trees.{kids_between};
ghost use Rattle.js_machine_engine.specs.declared.task.Extra.TheVariants as extras;
ghost use Rattle.js_machine_rows.specs.Table.{IsCalling, IsCompound, IsRowAnywhere, IsRowOf, IsRowOver, IsTurnDone};

use crate::answers::{assigning, calling, replied};
use crate::calls::call;
use crate::entries::call_entry;
use crate::literals::{array, function, object};
use crate::loops::{enter_for, enter_for_of, list_of, loop_body, loop_first, loop_test, turn_of};
use crate::names::{assign_name, read_name, typeof_name};
use crate::operators::{binary, unary};
use crate::parts::part_at;
use crate::properties::{assign_index, assign_member, delete_index, delete_member};
use crate::reading::{name_value, read_index, read_member};
use crate::simple::{comma, frame, last, returned, this, throw};
use crate::statements::{
    block, both, catch_named, catch_nameless, choose, either, enter, initialize, script,
};
use crate::updates::{rule_of, update_index, update_member, update_name};
use js_heap::value::Value;
use js_heap_memory::names::NameId;
use js_heap_memory::world::World;
use js_machine_actions::context::Context;
use js_machine_actions::lists::last_of;
use js_machine_engine::code::RunningCode;
use js_machine_engine::reduced::Reduced;
use js_machine_engine::rows::Rows;
use js_machine_engine::task::{Extra, Redex};
use js_machine_nodes::node::CallEntry;
use js_machine_nodes::op::Op;
use js_machine_nodes::table::NodeTable;
use js_semantics::form::Completion;

/// The table of steps: one row for each form (see [`Rows`]).
#[derive(Clone, Copy)]
pub struct StepTable;

/// What is reduced most often.
#[inline(always)]
fn frequent<W: World>(
    code: &RunningCode<'_, '_>,
    context: &mut Context,
    world: &mut W,
    form: Redex,
    values: &[Value],
) -> Reduced
    requires { HasFunctions code.now.table.now }
    ensures { IsRowOf W.world code.now form values.now None world.old context.old result world.new context.new }
{
    let name = NameId { number: form.info };
    match form.op {
        Op::ReadName => read_name(code.alloc, world, code.names, form.inner, name),
        Op::Binary(operator) => binary(code.alloc, world, code.names, operator, values),
        Op::Enter => enter(code.table, context, form),
        Op::AssignName => assign_name(
            code.alloc,
            world,
            code.names,
            form.inner,
            name,
            last_of(values),
        ),
        Op::UpdateName(kind) => update_name(code, world, rule_of(kind), form.inner, name),
        Op::ReadMember => replied(read_member(code.alloc, world, code.names, values, name)),
        Op::ReadIndex => replied(read_index(code.alloc, world, code.names, values)),
        Op::AssignIndex => assign_index(code.alloc, world, code.names, values),
        Op::Choose => choose(code, &*world, form, values),
        Op::LoopTesting => loop_test(code.names, &*world, values),
        Op::Return => returned(values),
        Op::Call | Op::CallOfName | Op::CallOfMember | Op::CallOfIndex => call_or_callee(
            code, context, world, form, values,
        ),
        _ => expression(code, context, world, form, values),
    }
}

/// Expressions: operators, literals and functions.
#[inline(never)]
fn expression<W: World>(
    code: &RunningCode<'_, '_>,
    context: &mut Context,
    world: &mut W,
    form: Redex,
    values: &[Value],
) -> Reduced
    ensures { IsRowOf W.world code.now form values.now None world.old context.old result world.new context.new }
{
    let name = NameId { number: form.info };
    match form.op {
        Op::Unary(operator) => unary(code.alloc, world, code.names, operator, values),
        Op::This => this(&*context),
        Op::TypeofName => typeof_name(code.alloc, world, code.names, form.inner, name),
        Op::Both => both(code, &*world, form, values),
        Op::Either => either(code, &*world, form, values),
        Op::Comma => comma(code.table, form),
        Op::Array => array(code.alloc, code.names, world, values),
        Op::Function => function(code, &*context, world, form),
        Op::Object => object(code, world, form, form.mid, values),
        _ => writing(code, context, world, form, values),
    }
}

/// Assignments, updates and deletions.
#[inline(never)]
fn writing<W: World>(
    code: &RunningCode<'_, '_>,
    context: &mut Context,
    world: &mut W,
    form: Redex,
    values: &[Value],
) -> Reduced
    ensures { IsRowOf W.world code.now form values.now None world.old context.old result world.new context.new }
{
    let name = NameId { number: form.info };
    match form.op {
        Op::AssignMember => assign_member(code.alloc, world, code.names, values, name),
        Op::UpdateMember(kind) => update_member(code, world, rule_of(kind), values, name),
        Op::UpdateIndex(kind) => update_index(code, world, rule_of(kind), values),
        Op::DeleteName => Reduced::Gives(Value::Undefined),
        Op::DeleteMember => delete_member(code.alloc, world, code.names, values, name),
        Op::DeleteIndex => delete_index(code.alloc, world, code.names, values),
        Op::CompoundName(_) | Op::CompoundMember(_) | Op::CompoundIndex(_) => compound(
            code, context, world, form, values,
        ),
        _ => statement(code, context, world, form, values),
    }
}

/// Scripts, blocks and declarations, and completions that travel outward.
#[inline(always)]
fn statement<W: World>(
    code: &RunningCode<'_, '_>,
    context: &mut Context,
    world: &mut W,
    form: Redex,
    values: &[Value],
) -> Reduced
    ensures { IsRowOf W.world code.now form values.now None world.old context.old result world.new context.new }
{
    let name = NameId { number: form.info };
    match form.op {
        Op::Frame => frame(context),
        Op::Block => block(code, world, form),
        Op::Initialize => initialize(world, code.names, form.inner, name, values),
        Op::Break => Reduced::Breaks,
        Op::Continue => Reduced::Continues,
        Op::Throw => throw(context, form.info, values),
        Op::EnterDebugger => enter(code.table, context, form),
        Op::Script => script(code, context, world, form),
        Op::Ending => Reduced::Gives(Value::Undefined),
        _ => looping(code, context, world, form, values),
    }
}

/// Loops.
#[inline(always)]
fn looping<W: World>(
    code: &RunningCode<'_, '_>,
    context: &mut Context,
    world: &mut W,
    form: Redex,
    values: &[Value],
) -> Reduced
    ensures { IsRowOf W.world code.now form values.now None world.old context.old result world.new context.new }
{
    match form.op {
        Op::LoopBody => loop_body(code.alloc, code.names, world, form.info, form.inner),
        Op::LoopFirst => loop_first(code.alloc, code.names, world, form.info, form.inner),
        Op::LoopDoing => Reduced::Gives(Value::Undefined),
        Op::LoopUpdating => Reduced::Gives(Value::Undefined),
        Op::EnterFor => enter_for(code, context, world, form),
        Op::EnterForOf => enter_for_of(code, context, world, form),
        Op::ListOf => list_of(code, world, form, values),
        _ => valued(code, context, world, form, values),
    }
}

/// Forms that have no row of their own: they give their last value. Of all else there is no answer.
fn valued<W: World>(
    code: &RunningCode<'_, '_>,
    context: &mut Context,
    world: &mut W,
    form: Redex,
    values: &[Value],
) -> Reduced
    ensures { IsRowOf W.world code.now form values.now None world.old context.old result world.new context.new }
{
    match form.op {
        Op::Sequence => last(values),
        Op::Scoped => last(values),
        Op::Scripts => last(values),
        Op::Catching => last(values),
        Op::CatchingName => last(values),
        Op::Finishing => last(values),
        _ => Reduced::Memory,
    }
}

/// A call, or the callee that is read before it (ECMA-262, 13.3.6), with its entry.
#[inline(always)]
fn call_or_callee_with<W: World>(
    code: &RunningCode<'_, '_>,
    context: &mut Context,
    world: &mut W,
    form: Redex,
    values: &[Value],
    entry: CallEntry,
) -> Reduced
    requires functions { HasFunctions code.now.table.now }
    requires calls { IsCalling form.op }
    requires found { Some entry ≡ slice_get code.now.table.now.calls.items form.info }
    ensures { IsRowOf W.world code.now form values.now None world.old context.old result world.new context.new }
{
    let name = entry.name;
    match form.op {
        Op::Call => call(code, context, world, entry.place, values),
        Op::CallOfName => { calling(name_value(code.alloc, world, code.names, form.inner, name)) }
        Op::CallOfMember => calling(read_member(code.alloc, world, code.names, values, name)),
        Op::CallOfIndex => calling(read_index(code.alloc, world, code.names, values)),
        _ => unreachable!(),
    }
}

/// A call, or the callee that is read before it, by its entry.
#[inline(always)]
fn call_or_callee<W: World>(
    code: &RunningCode<'_, '_>,
    context: &mut Context,
    world: &mut W,
    form: Redex,
    values: &[Value],
) -> Reduced
    requires functions { HasFunctions code.now.table.now }
    requires calls { IsCalling form.op }
    ensures { IsRowOf W.world code.now form values.now None world.old context.old result world.new context.new }
{
    match call_entry(code.table, form.info) {
        Some(entry) => call_or_callee_with(code, context, world, form, values, entry),
        None => Reduced::Memory,
    }
}

/// The old value of an assignment with an operator (13.15.2), with the part that has the value of its right side.
#[inline(always)]
fn compound_with<W: World>(
    code: &RunningCode<'_, '_>,
    context: &mut Context,
    world: &mut W,
    form: Redex,
    values: &[Value],
    part: u32,
) -> Reduced
    requires compound { IsCompound form.op }
    requires part { Some part ≡ slice_get (kids_between code.now.table.now form.mid form.end) 0 }
    ensures { IsRowOf W.world code.now form values.now None world.old context.old result world.new context.new }
{
    let name = NameId { number: form.info };
    match form.op {
        Op::CompoundName(_) => {
            assigning(name_value(code.alloc, world, code.names, form.inner, name))
        }
        Op::CompoundMember(_) => {
            assigning(read_member(code.alloc, world, code.names, values, name))
        }
        Op::CompoundIndex(_) => assigning(read_index(code.alloc, world, code.names, values)),
        _ => unreachable!(),
    }
}

/// An assignment with an operator, by the part that has the value of its right side; undefined of one without it.
#[inline(always)]
fn compound<W: World>(
    code: &RunningCode<'_, '_>,
    context: &mut Context,
    world: &mut W,
    form: Redex,
    values: &[Value],
) -> Reduced
    requires { IsCompound form.op }
    ensures { IsRowOf W.world code.now form values.now None world.old context.old result world.new context.new }
{
    match part_at(code.table, form.mid, form.end, 0) {
        Some(part) => compound_with(code, context, world, form, values, part),
        None => Reduced::Gives(Value::Undefined),
    }
}

/// A `finally` that ran, and that keeps a completion.
fn resumed(form: Redex, completion: Completion) -> Reduced
    ensures { IsRowAnywhere form (Some (extras.Kept completion)) result }
{
    match form.op {
        Op::Ending => Reduced::Resumes,
        _ => Reduced::Memory,
    }
}

/// A turn of a `for .. of` that is done gives its last value.
fn turn_done(table: &NodeTable, form: Redex, values: &[Value]) -> Reduced
    ensures { IsTurnDone table.now form values.now result }
{
    match table.for_of(form.info) {
        Some(_) => last(values),
        None => Reduced::Memory,
    }
}

/// A `for .. of`, before a turn or behind one.
fn turning<W: World>(
    code: &RunningCode<'_, '_>,
    world: &mut W,
    form: Redex,
    values: &[Value],
    list: Value,
    index: u32,
) -> Reduced
    ensures { IsRowOver W.world code.now form values.now (Some (extras.Turn list index)) world.old result world.new }
{
    match form.op {
        Op::TurnOf => turn_of(code, world, form, list, index),
        Op::BodyOf => turn_done(code.table, form, values),
        _ => Reduced::Memory,
    }
}

/// An object literal behind a method with a computed key.
fn behind_method<W: World>(
    code: &RunningCode<'_, '_>,
    world: &mut W,
    form: Redex,
    values: &[Value],
    from: u32,
) -> Reduced
    ensures { IsRowOver W.world code.now form values.now (Some (extras.Rest from)) world.old result world.new }
{
    match form.op {
        Op::ObjectRest => object(code, world, form, from, values),
        _ => Reduced::Memory,
    }
}

/// What owns something apart from its values.
#[inline(never)]
fn owning<W: World>(
    code: &RunningCode<'_, '_>,
    context: &mut Context,
    world: &mut W,
    form: Redex,
    values: &[Value],
    extra: Extra,
) -> Reduced
    ensures { IsRowOf W.world code.now form values.now (Some extra) world.old context.old result world.new context.new }
{
    match extra {
        Extra::Kept(completion) => resumed(form, completion),
        Extra::Turn(list, index) => turning(code, world, form, values, list, index),
        Extra::Rest(from) => behind_method(code, world, form, values, from),
    }
}

impl Rows for StepTable {
    #[inline(always)]
    fn reduce<W: World>(
        code: &RunningCode<'_, '_>,
        context: &mut Context,
        world: &mut W,
        form: Redex,
        values: &[Value],
        extra: Option<Extra>,
    ) -> Reduced {
        match extra {
            None => frequent(code, context, world, form, values),
            Some(extra) => owning(code, context, world, form, values, extra),
        }
    }

    fn catch<W: World>(
        code: &RunningCode<'_, '_>,
        context: &Context,
        world: &mut W,
        form: Redex,
        thrown: Value,
    ) -> Reduced {
        let _ = context;
        match form.op {
            Op::Catching => catch_nameless(code.table, form),
            Op::CatchingName => catch_named(code, world, form, thrown),
            _ => unreachable!(),
        }
    }
}
