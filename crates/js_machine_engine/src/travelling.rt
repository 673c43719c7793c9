//! A completion travels outward, to the form that takes it or out of the run.

ghost use Rattle.std.specs.Prelude.{◌≡◌, ℕ, List, Some, OnOk};
ghost use Rattle.js_heap.specs.declared.value.Addr.{Addr as AnyAddr};
ghost use Rattle.js_semantics.specs.declared.form.Form.TheVariants.{Ending as ending};
ghost use Rattle.js_semantics.specs.Terms.{end, settled};
ghost use Rattle.js_semantics.specs.State.{travels};
ghost use Rattle.js_machine_actions.specs.Contexts.{state_of};
ghost use Rattle.js_machine_nodes.specs.Trees.{IsTable};
ghost use Rattle.js_machine_engine.specs.declared.passing.Taking.TheVariants as takings;
ghost use Rattle.js_machine_engine.specs.Gaps.{resettled};
ghost use Rattle.js_machine_engine.specs.Tasks.{gaps_of, task_form, later_of, InScopes};
ghost use Rattle.js_machine_engine.specs.Points.{term_at, IsAt};
ghost use Rattle.js_machine_engine.specs.Stacks.{outer_of};
ghost use Rattle.js_machine_engine.specs.Following.{innermost};
ghost use Rattle.js_machine_engine.specs.Passing.{TakesSo};
ghost use Rattle.js_machine_engine.specs.Stepping.{TellsWithin, IfGoesOn, StandsIn};

use crate::answer::{demand_of, finished_by, went_of};
use crate::code::RunningCode;
use crate::concluding::conclude;
use crate::following::parts::follow_value;
use crate::passing::{Taking, pass_outward};
use crate::position::Position;
use crate::rows::Rows;
use crate::settling::{proceed, settle_row};
use crate::stack::Stack;
use crate::stepped::Stepped;
use crate::task::{Extra, NewTask, Redex};
use js_heap::value::Value;
use js_heap_memory::world::World;
use js_machine_actions::context::Context;
use js_machine_nodes::op::Op;
use js_machine_nodes::table::NodeTable;
use js_semantics::form::Completion;
use std::alloc::AllocError;

/// The `finally` of the innermost task runs, and keeps the completion (ECMA-262, 14.15.3).
fn keep(
    table: &NodeTable,
    stack: &mut Stack,
    point: &mut Position,
    completion: Completion,
) -> Result<(), AllocError>
    requires table { IsTable table.now }
    requires takes { TakesSo table.now stack.old completion (Some takings.Keeps) }
    ensures term { OnOk result ((ts : List (List ℕ)) → resettled (gaps_of ts table.now (outer_of stack.old)) (settled (ending (Some completion)) (later_of ts table.now (innermost stack.old)) end) ≡ term_at ts table.now stack.new point.new) }
    ensures at { OnOk result (IsAt table.now stack.new point.new) }
    ensures scoped { OnOk result ((root : AnyAddr) → InScopes table.now root stack.old → InScopes table.now root stack.new) }
{
    let Some(task) = stack.last() else {
        return Err(AllocError);
    };
    stack.pop();
    let kept = Extra::Kept(completion);
    stack.push_with(
        NewTask {
            op: Op::Ending,
            info: 1,
            at: task.mid,
            mid: task.end,
            end: task.end,
            inner: task.inner,
        },
        kept,
    )?;
    proceed(table, stack, point)
}

/// The loop of the innermost task is behind its body.
fn end_turn(table: &NodeTable, stack: &mut Stack, point: &mut Position) -> Result<(), AllocError>
    requires { IsTable table.now }
    ensures term { OnOk result ((ts : List (List ℕ)) → resettled (gaps_of ts table.now (outer_of stack.old)) (settled (task_form ts table.now (innermost stack.old)) end (later_of ts table.now (innermost stack.old))) ≡ term_at ts table.now stack.new point.new) }
    ensures at { OnOk result (IsAt table.now stack.new point.new) }
    ensures scoped { OnOk result ((root : AnyAddr) → InScopes table.now root stack.old → InScopes table.now root stack.new) }
{
    let Some(task) = stack.last() else {
        return Err(AllocError);
    };
    stack.clear_values();
    stack.set_at(task.mid);
    settle_row(table, stack, point)
}

/// The `catch` of the innermost task takes a throw.
fn catch_throw<T: Rows, W: World>(
    code: &RunningCode<'_, '_>,
    context: &Context,
    world: &mut W,
    stack: &mut Stack,
    point: &mut Position,
    completion: Completion,
    thrown: Value,
) -> Stepped
    requires table { IsTable code.now.table.now }
    requires scoped { InScopes code.now.table.now code.now.root stack.old }
    requires takes { TakesSo code.now.table.now stack.old completion (Some (takings.Catches thrown)) }
    ensures told { (taken : List (List ℕ)) → TellsWithin code.now.names.now code.now.table.now code.now.root stack.old (travels completion (state_of (W.world code.now.names.now world.old) context.now taken)) result stack.new point.new (state_of (W.world code.now.names.now world.new) context.now taken) }
    ensures stands { IfGoesOn result (StandsIn code.now.table.now code.now.root stack.new point.new) }
{
    let Some(task) = stack.last() else {
        return Stepped::Memory;
    };
    stack.set_at(task.mid);
    let form = Redex {
        op: task.op,
        info: task.info,
        mid: task.mid,
        end: task.end,
        inner: task.inner,
    };
    let reduced = T::catch(code, context, world, form, thrown);
    conclude(code, context, stack, point, reduced, demand_of(reduced))
}

/// What the innermost task makes of a completion that it takes so.
fn take<T: Rows, W: World>(
    code: &RunningCode<'_, '_>,
    context: &mut Context,
    world: &mut W,
    stack: &mut Stack,
    point: &mut Position,
    completion: Completion,
    taking: Taking,
) -> Stepped
    requires table { IsTable code.now.table.now }
    requires scoped { InScopes code.now.table.now code.now.root stack.old }
    requires takes { TakesSo code.now.table.now stack.old completion (Some taking) }
    ensures told { (taken : List (List ℕ)) → TellsWithin code.now.names.now code.now.table.now code.now.root stack.old (travels completion (state_of (W.world code.now.names.now world.old) context.old taken)) result stack.new point.new (state_of (W.world code.now.names.now world.new) context.new taken) }
    ensures stands { IfGoesOn result (StandsIn code.now.table.now code.now.root stack.new point.new) }
{
    match taking {
        Taking::Returns(value) => {
            context.pop_frame();
            went_of(follow_value(code.table, code.root, stack, point, value))
        }
        Taking::Breaks => went_of(follow_value(
            code.table,
            code.root,
            stack,
            point,
            Value::Undefined,
        )),
        Taking::Turns => went_of(end_turn(code.table, stack, point)),
        Taking::Keeps => went_of(keep(code.table, stack, point, completion)),
        Taking::Catches(thrown) => catch_throw::<T, W>(
            code, context, world, stack, point, completion, thrown,
        ),
    }
}

/// A completion travels outward from the innermost gap, to the form that takes it or out of the run.
pub fn travel<T: Rows, W: World>(
    code: &RunningCode<'_, '_>,
    context: &mut Context,
    world: &mut W,
    stack: &mut Stack,
    point: &mut Position,
    completion: Completion,
) -> Stepped
    requires table { IsTable code.now.table.now }
    requires scoped { InScopes code.now.table.now code.now.root stack.old }
    ensures told { (taken : List (List ℕ)) → TellsWithin code.now.names.now code.now.table.now code.now.root stack.old (travels completion (state_of (W.world code.now.names.now world.old) context.old taken)) result stack.new point.new (state_of (W.world code.now.names.now world.new) context.new taken) }
    ensures stands { IfGoesOn result (StandsIn code.now.table.now code.now.root stack.new point.new) }
{
    match pass_outward(code.table, context, stack, completion) {
        None => Stepped::Over(finished_by(completion)),
        Some(taking) => take::<T, W>(code, context, world, stack, point, completion, taking),
    }
}
