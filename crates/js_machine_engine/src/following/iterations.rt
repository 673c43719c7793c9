//! `for .. of`

ghost use Rattle.std.specs.Prelude.{◌≡◌, ◌<◌, ◌∷◌, true, false, List, ℕ, OnOk, IfSome, IsTrue, Some, None};
ghost use Rattle.js_machine_nodes.specs.declared.op.Op.TheVariants as ops;
ghost use Rattle.js_machine_nodes.specs.Trees.{IsTable};
ghost use Rattle.js_machine_engine.specs.declared.reduced.Reduced.TheVariants as answers;
ghost use Rattle.js_machine_engine.specs.Tasks.{InScopes};
ghost use Rattle.js_machine_engine.specs.Points.{IsAt};
ghost use Rattle.js_machine_engine.specs.Stacks.{wide, values_of, extra_of, outer_of, OwnsOnly};
ghost use Rattle.js_machine_engine.specs.Following.{Follows, HasTurn};

use crate::following::parts::kept_part;
use crate::position::Position;
use crate::settling::go;
use crate::stack::Stack;
use crate::task::{Extra, NewTask, Task};
use js_heap::value::{Addr, Value};
use js_machine_nodes::op::Op;
use js_machine_nodes::table::NodeTable;
use std::alloc::AllocError;

/// The innermost task, where it is a `for .. of`.
fn for_of_task(stack: &Stack) -> Option<Task>
    ensures task { IfSome result (λ t. (stack.now ≡ wide t (values_of stack.now) (extra_of stack.now) ∷ outer_of stack.now) × (t.op ≡ ops.EnterForOf)) }
    ensures owned { OwnsOnly stack.now }
{
    let task = stack.last()?;
    match task.op {
        Op::EnterForOf => Some(task),
        _ => None,
    }
}

/// The innermost task, where it is the list of a `for .. of`.
fn list_task(stack: &Stack) -> Option<Task>
    ensures task { IfSome result (λ t. (stack.now ≡ wide t (values_of stack.now) (extra_of stack.now) ∷ outer_of stack.now) × (t.op ≡ ops.ListOf)) }
    ensures owned { OwnsOnly stack.now }
{
    let task = stack.last()?;
    match task.op {
        Op::ListOf => Some(task),
        _ => None,
    }
}

/// The innermost task, where it is a `for .. of` before a turn.
fn turn_task(stack: &Stack) -> Option<Task>
    ensures task { IfSome result (λ t. (stack.now ≡ wide t (values_of stack.now) (extra_of stack.now) ∷ outer_of stack.now) × (t.op ≡ ops.TurnOf)) }
    ensures owned { OwnsOnly stack.now }
{
    let task = stack.last()?;
    match task.op {
        Op::TurnOf => Some(task),
        _ => None,
    }
}

/// Whether the innermost task owns a list with an index.
fn has_turn(stack: &Stack) -> bool
    ensures { IsTrue result → HasTurn (extra_of stack.now) }
{
    match stack.extra() {
        Some(Extra::Turn(_, _)) => true,
        _ => false,
    }
}

/// A `for .. of` goes on with its list, in a scope.
pub fn follow_list(
    table: &NodeTable,
    root: Addr,
    stack: &mut Stack,
    point: &mut Position,
    scope: Addr,
) -> Result<(), AllocError>
    requires { IsTable table.now }
    ensures term { OnOk result ((ts : List (List ℕ)) → Follows ts table.now stack.old (answers.Lists scope) stack.new point.new) }
    ensures at { OnOk result (IsAt table.now stack.new point.new) }
    ensures scoped { OnOk result (InScopes table.now root stack.old → InScopes table.now root stack.new) }
{
    let Some(task) = for_of_task(stack) else {
        return Err(AllocError);
    };
    let list = kept_part(table, task.mid, task.end)?;
    let rest = task.mid + 1;
    stack.pop();
    stack.push(NewTask {
        op: Op::ListOf,
        info: task.info,
        at: rest,
        mid: rest,
        end: task.end,
        inner: task.inner,
    })?;
    stack.push(NewTask {
        op: Op::Scoped,
        info: 0,
        at: 0,
        mid: 0,
        end: 0,
        inner: scope,
    })?;
    go(table, root, stack, point, list)
}

/// A `for .. of` goes on with its first turn, over this list.
pub fn follow_first_turn(
    table: &NodeTable,
    root: Addr,
    stack: &mut Stack,
    point: &mut Position,
    list: Value,
) -> Result<(), AllocError>
    requires { IsTable table.now }
    ensures term { OnOk result ((ts : List (List ℕ)) → Follows ts table.now stack.old (answers.Iterates list) stack.new point.new) }
    ensures at { OnOk result (IsAt table.now stack.new point.new) }
    ensures scoped { OnOk result (InScopes table.now root stack.old → InScopes table.now root stack.new) }
{
    let Some(task) = list_task(stack) else {
        return Err(AllocError);
    };
    stack.pop();
    let turn = Extra::Turn(list, 0);
    stack.push_with(
        NewTask {
            op: Op::TurnOf,
            info: task.info,
            at: task.mid,
            mid: task.mid,
            end: task.end,
            inner: task.inner,
        },
        turn,
    )?;
    point.set_row();
    Ok(())
}

/// A `for .. of` goes on with a turn, in a scope.
pub fn follow_turn(
    table: &NodeTable,
    root: Addr,
    stack: &mut Stack,
    point: &mut Position,
    scope: Addr,
) -> Result<(), AllocError>
    requires { IsTable table.now }
    ensures term { OnOk result ((ts : List (List ℕ)) → Follows ts table.now stack.old (answers.Iterated scope) stack.new point.new) }
    ensures at { OnOk result (IsAt table.now stack.new point.new) }
    ensures scoped { OnOk result (InScopes table.now root stack.old → InScopes table.now root stack.new) }
{
    let Some(task) = turn_task(stack) else {
        return Err(AllocError);
    };
    if !has_turn(stack) {
        return Err(AllocError);
    }
    let body = kept_part(table, task.mid, task.end)?;
    stack.clear_values();
    stack.change(Op::BodyOf, task.info, task.mid, task.mid);
    stack.count_turn()?;
    stack.push(NewTask {
        op: Op::Scoped,
        info: 0,
        at: 0,
        mid: 0,
        end: 0,
        inner: scope,
    })?;
    go(table, root, stack, point, body)
}
