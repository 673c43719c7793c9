//! Loops and `for` with names.

ghost use Rattle.std.specs.Prelude.{◌≡◌, ◌<◌, ◌∷◌, true, false, List, ℕ, OnOk, IfSome, Some, None};
ghost use Rattle.js_machine_nodes.specs.declared.op.Op.TheVariants as ops;
ghost use Rattle.js_machine_nodes.specs.Ops.{is_loop};
ghost use Rattle.js_machine_nodes.specs.Trees.{IsTable};
ghost use Rattle.js_machine_engine.specs.declared.reduced.Reduced.TheVariants as answers;
ghost use Rattle.js_machine_engine.specs.Tasks.{InScopes};
ghost use Rattle.js_machine_engine.specs.Points.{IsAt};
ghost use Rattle.js_machine_engine.specs.Stacks.{wide, values_of, extra_of, outer_of, OwnsOnly};
ghost use Rattle.js_machine_engine.specs.Settling.{IsInnermost};
ghost use Rattle.js_machine_engine.specs.Following.{Follows};

use crate::following::parts::kept_part;
use crate::position::Position;
use crate::settling::{take_up, uncover_part};
use crate::stack::Stack;
use crate::stages::{at_body, at_test, at_update};
use crate::task::{NewTask, Task};
use js_heap::value::Addr;
use js_machine_nodes::op::{Op, is_loop};
use js_machine_nodes::table::NodeTable;
use std::alloc::AllocError;

/// The innermost task, where it is a loop.
fn loop_task(stack: &Stack) -> Option<Task>
    ensures { IfSome result (λ t. IsInnermost t None stack.now × (is_loop t.op ≡ true)) }
{
    let task = stack.last()?;
    if is_loop(task.op) { Some(task) } else { None }
}

/// The innermost task, a loop, has a new scope for its turn.
fn turn_in(stack: &mut Stack, task: Task, scope: Addr) -> Task
    requires task { IsInnermost task None stack.old }
    requires loops { is_loop task.op ≡ true }
    ensures task { IsInnermost result None stack.new }
    ensures same { (result.op ≡ task.op) × (result.info ≡ 1) × (result.inner ≡ scope) × (result.mid ≡ task.mid) × (result.end ≡ task.end) }
    ensures outer { outer_of stack.new ≡ outer_of stack.old }
{
    stack.change(task.op, 1, task.mid, task.mid);
    stack.set_inner(scope);
    Task {
        op: task.op,
        info: 1,
        at: task.mid,
        mid: task.mid,
        end: task.end,
        base: task.base,
        inner: scope,
    }
}

/// A loop goes on with its test, in a new scope.
pub fn follow_test(
    table: &NodeTable,
    root: Addr,
    stack: &mut Stack,
    point: &mut Position,
    scope: Addr,
) -> Result<(), AllocError>
    requires { IsTable table.now }
    ensures term { OnOk result ((ts : List (List ℕ)) → Follows ts table.now stack.old (answers.Tests scope) stack.new point.new) }
    ensures at { OnOk result (IsAt table.now stack.new point.new) }
    ensures scoped { OnOk result (InScopes table.now root stack.old → InScopes table.now root stack.new) }
{
    let Some(task) = loop_task(stack) else {
        return Err(AllocError);
    };
    let turned = turn_in(stack, task, scope);
    let next = at_test(table, stack, turned)?;
    take_up(table, stack, scope, point, next)
}

/// A loop goes on with its update, in a new scope.
pub fn follow_update(
    table: &NodeTable,
    root: Addr,
    stack: &mut Stack,
    point: &mut Position,
    scope: Addr,
) -> Result<(), AllocError>
    requires { IsTable table.now }
    ensures term { OnOk result ((ts : List (List ℕ)) → Follows ts table.now stack.old (answers.Updates scope) stack.new point.new) }
    ensures at { OnOk result (IsAt table.now stack.new point.new) }
    ensures scoped { OnOk result (InScopes table.now root stack.old → InScopes table.now root stack.new) }
{
    let Some(task) = loop_task(stack) else {
        return Err(AllocError);
    };
    let turned = turn_in(stack, task, scope);
    let next = at_update(table, stack, turned)?;
    take_up(table, stack, scope, point, next)
}

/// A loop goes on with its body.
pub fn follow_loop_body(
    table: &NodeTable,
    root: Addr,
    stack: &mut Stack,
    point: &mut Position,
) -> Result<(), AllocError>
    requires { IsTable table.now }
    ensures term { OnOk result ((ts : List (List ℕ)) → Follows ts table.now stack.old answers.Turns stack.new point.new) }
    ensures at { OnOk result (IsAt table.now stack.new point.new) }
    ensures scoped { OnOk result (InScopes table.now root stack.old → InScopes table.now root stack.new) }
{
    let Some(task) = loop_task(stack) else {
        return Err(AllocError);
    };
    let next = at_body(table, stack, task)?;
    take_up(table, stack, task.inner, point, next)
}

/// The innermost task, where it is a `for` with names.
fn for_task(stack: &Stack) -> Option<Task>
    ensures task { IfSome result (λ t. (stack.now ≡ wide t (values_of stack.now) (extra_of stack.now) ∷ outer_of stack.now) × (t.op ≡ ops.EnterFor)) }
    ensures owned { OwnsOnly stack.now }
{
    let task = stack.last()?;
    match task.op {
        Op::EnterFor => Some(task),
        _ => None,
    }
}

/// A `for` with constant names goes on with its initialiser, in their scope.
fn follow_constants(
    table: &NodeTable,
    root: Addr,
    stack: &mut Stack,
    point: &mut Position,
    scope: Addr,
) -> Result<(), AllocError>
    requires { IsTable table.now }
    ensures term { OnOk result ((ts : List (List ℕ)) → Follows ts table.now stack.old (answers.Initializes true scope) stack.new point.new) }
    ensures at { OnOk result (IsAt table.now stack.new point.new) }
    ensures scoped { OnOk result (InScopes table.now root stack.old → InScopes table.now root stack.new) }
{
    let Some(task) = for_task(stack) else {
        return Err(AllocError);
    };
    let initializer = kept_part(table, task.mid, task.end)?;
    let rest = task.mid + 1;
    stack.pop();
    stack.push(NewTask {
        op: Op::Scoped,
        info: 0,
        at: 0,
        mid: 0,
        end: 0,
        inner: scope,
    })?;
    stack.push(NewTask {
        op: Op::LoopFirst,
        info: 0,
        at: rest,
        mid: rest,
        end: task.end,
        inner: scope,
    })?;
    uncover_part(table, root, stack, point, initializer)
}

/// A `for` with other names goes on with its initialiser, in a scope that each turn has anew.
fn follow_variables(
    table: &NodeTable,
    root: Addr,
    stack: &mut Stack,
    point: &mut Position,
    scope: Addr,
) -> Result<(), AllocError>
    requires { IsTable table.now }
    ensures term { OnOk result ((ts : List (List ℕ)) → Follows ts table.now stack.old (answers.Initializes false scope) stack.new point.new) }
    ensures at { OnOk result (IsAt table.now stack.new point.new) }
    ensures scoped { OnOk result (InScopes table.now root stack.old → InScopes table.now root stack.new) }
{
    let Some(task) = for_task(stack) else {
        return Err(AllocError);
    };
    let initializer = kept_part(table, task.mid, task.end)?;
    let rest = task.mid + 1;
    stack.pop();
    stack.push(NewTask {
        op: Op::LoopFirst,
        info: 1,
        at: rest,
        mid: rest,
        end: task.end,
        inner: scope,
    })?;
    uncover_part(table, root, stack, point, initializer)
}

/// A `for` with names goes on with its initialiser.
pub fn follow_names(
    table: &NodeTable,
    root: Addr,
    stack: &mut Stack,
    point: &mut Position,
    constant: bool,
    scope: Addr,
) -> Result<(), AllocError>
    requires { IsTable table.now }
    ensures term { OnOk result ((ts : List (List ℕ)) → Follows ts table.now stack.old (answers.Initializes constant scope) stack.new point.new) }
    ensures at { OnOk result (IsAt table.now stack.new point.new) }
    ensures scoped { OnOk result (InScopes table.now root stack.old → InScopes table.now root stack.new) }
{
    if constant {
        return follow_constants(table, root, stack, point, scope);
    }
    follow_variables(table, root, stack, point, scope)
}
