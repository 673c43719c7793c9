//! What becomes of a task whose parts all have their values.

ghost use Rattle.std.specs.Prelude.{◌≡◌, Some, None, IfOk, is_some};
ghost use Rattle.js_machine_nodes.specs.declared.op.Op.TheVariants as ops;
ghost use Rattle.js_semantics.specs.Terms.{last_value as last_of_terms, dones};
ghost use Rattle.js_heap.specs.declared.value.Value.TheVariants.{Undefined as undefined};
ghost use Rattle.js_machine_engine.specs.Tasks.{kept_of};
ghost use Rattle.js_machine_engine.specs.Points.{IsAtRow};
ghost use Rattle.js_machine_engine.specs.Stacks.{extra_of, outer_of};
ghost use Rattle.js_machine_engine.specs.Settling.{settled_row, Comes, IsInnermost};

use crate::closing::{Closing, Next, closing_of};
use crate::parts::next_part;
use crate::stack::Stack;
use crate::stages::{at_body, at_test, behind_body, behind_first, restage};
use crate::task::{Extra, Task};
use js_heap::value::Value;
use js_machine_nodes::op::Op;
use js_machine_nodes::table::NodeTable;
use std::alloc::AllocError;

/// The last of some values; undefined where there is none.
#[inline(always)]
fn last_value(values: &[Value]) -> Value
    ensures { result ≡ last_of_terms undefined (dones values.now) }
{
    match values.last() {
        Some(value) => *value,
        None => Value::Undefined,
    }
}

/// Whether a `finally` keeps a completion.
fn keeps(extra: Option<Extra>) -> bool
    ensures { result ≡ is_some (kept_of extra) }
{
    match extra {
        Some(Extra::Kept(_)) => true,
        _ => false,
    }
}

/// The innermost task is taken away, and has this value.
#[inline(always)]
fn leave(stack: &mut Stack, value: Value) -> Next
    ensures outer { stack.new ≡ outer_of stack.old }
    ensures value { result ≡ Next.Value value }
{
    stack.pop();
    Next::Value(value)
}

/// A `for .. of` is behind a turn.
fn finish_turn(table: &NodeTable, stack: &mut Stack, task: Task) -> Next
    requires task { IsInnermost task (extra_of stack.old) stack.old }
    requires turn { task.op ≡ ops.BodyOf }
    requires row { IsAtRow stack.old }
    ensures { Comes table.now stack.old stack.new (λ ts. settled_row ts table.now stack.old) result }
{
    match table.for_of(task.info) {
        Some(_) => {
            restage(stack, Op::TurnOf);
            Next::Row
        }
        None => Next::Row,
    }
}

/// The `finally` of a `try` runs, without a completion that is kept.
fn finish_try(table: &NodeTable, stack: &mut Stack, task: Task) -> Result<Next, AllocError>
    requires task { IsInnermost task None stack.old }
    requires finishing { task.op ≡ ops.Finishing }
    ensures { IfOk result (Comes table.now stack.old stack.new (λ ts. settled_row ts table.now stack.old)) }
{
    stack.change(Op::Ending, 0, task.mid, task.end);
    stack.clear_values();
    let mut part = 0;
    if next_part(table, stack, &mut part)? {
        return Ok(Next::Part(part));
    }
    Ok(Next::Row)
}

/// What becomes of the innermost task, whose parts all have their values.
#[inline(always)]
pub fn finish(table: &NodeTable, stack: &mut Stack) -> Result<Next, AllocError>
    requires { IsAtRow stack.old }
    ensures { IfOk result (Comes table.now stack.old stack.new (λ ts. settled_row ts table.now stack.old)) }
{
    let Some(task) = stack.last() else {
        return Ok(Next::Row);
    };
    match closing_of(task.op) {
        Closing::Waits => Ok(Next::Row),
        Closing::Undefined => Ok(leave(stack, Value::Undefined)),
        Closing::Last => {
            let value = last_value(stack.values());
            Ok(leave(stack, value))
        }
        Closing::First => behind_first(table, stack, task),
        Closing::Doing => at_body(table, stack, task),
        Closing::Body => behind_body(table, stack, task),
        Closing::Updating => at_test(table, stack, task),
        Closing::Turn => Ok(finish_turn(table, stack, task)),
        Closing::Finally => finish_try(table, stack, task),
        Closing::Ending => {
            if keeps(stack.extra()) {
                Ok(Next::Row)
            } else {
                Ok(leave(stack, Value::Undefined))
            }
        }
    }
}
