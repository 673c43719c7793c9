//! Comma lists, and object literals behind methods with computed keys.

ghost use Rattle.std.specs.Prelude.{◌≡◌, ◌<◌, ◌∷◌, false, List, ℕ, OnOk, IfSome, Some, None, slice_get};
ghost use Rattle.js_machine_nodes.specs.declared.op.Op.TheVariants as ops;
ghost use Rattle.js_machine_nodes.specs.Ops.{is_literal};
ghost use Rattle.js_machine_nodes.specs.Trees.{IsTable};
ghost use Rattle.js_machine_engine.specs.declared.reduced.Reduced.TheVariants as answers;
ghost use Rattle.js_machine_engine.specs.Tasks.{InScopes};
ghost use Rattle.js_machine_engine.specs.Points.{IsAt};
ghost use Rattle.js_machine_engine.specs.Stacks.{wide, values_of, extra_of, outer_of, OwnsOnly};
ghost use Rattle.js_machine_engine.specs.Following.{Follows, RestsAt};

use crate::following::parts::kept_part;
use crate::position::Position;
use crate::settling::{go, proceed};
use crate::stack::Stack;
use crate::task::{Extra, Task};
use js_heap::value::{Addr, Value};
use js_machine_nodes::node::Node;
use js_machine_nodes::op::{Op, is_literal};
use js_machine_nodes::table::NodeTable;
use std::alloc::AllocError;

/// The innermost task, where it is a comma list.
fn comma_task(stack: &Stack) -> Option<Task>
    ensures task { IfSome result (λ t. (stack.now ≡ wide t (values_of stack.now) (extra_of stack.now) ∷ outer_of stack.now) × (t.op ≡ ops.Comma)) }
    ensures owned { OwnsOnly stack.now }
{
    let task = stack.last()?;
    match task.op {
        Op::Comma => Some(task),
        _ => None,
    }
}

/// Where the kept parts of an object literal begin; None where the task is none.
fn kept_place(task: Task, extra: Option<Extra>) -> Option<u32>
    ensures { IfSome result (RestsAt task.op extra task.mid) }
{
    match (task.op, extra) {
        (Op::Object, None) => Some(task.mid),
        (Op::ObjectRest, Some(Extra::Rest(from))) => Some(from),
        _ => None,
    }
}

/// The node of a number, where it is no value.
fn open_node(table: &NodeTable, n: u32) -> Option<Node>
    ensures { IfSome result (λ node. (slice_get table.now.nodes.items n ≡ Some node) × (is_literal node.op ≡ false)) }
{
    let node = table.node(n)?;
    if is_literal(node.op) {
        return None;
    }
    Some(node)
}

/// A comma list goes on with its next part.
pub fn follow_comma(
    table: &NodeTable,
    root: Addr,
    stack: &mut Stack,
    point: &mut Position,
) -> Result<(), AllocError>
    requires { IsTable table.now }
    ensures term { OnOk result ((ts : List (List ℕ)) → Follows ts table.now stack.old answers.Commas stack.new point.new) }
    ensures at { OnOk result (IsAt table.now stack.new point.new) }
    ensures scoped { OnOk result (InScopes table.now root stack.old → InScopes table.now root stack.new) }
{
    let Some(task) = comma_task(stack) else {
        return Err(AllocError);
    };
    let next = kept_part(table, task.mid, task.end)?;
    let rest = task.mid + 1;
    stack.clear_values();
    stack.change(Op::Comma, task.info, rest, rest);
    go(table, root, stack, point, next)
}

/// An object literal goes on behind this method.
pub fn follow_method(
    table: &NodeTable,
    root: Addr,
    stack: &mut Stack,
    point: &mut Position,
    method: Value,
) -> Result<(), AllocError>
    requires { IsTable table.now }
    ensures term { OnOk result ((ts : List (List ℕ)) → Follows ts table.now stack.old (answers.Adds method) stack.new point.new) }
    ensures at { OnOk result (IsAt table.now stack.new point.new) }
    ensures scoped { OnOk result (InScopes table.now root stack.old → InScopes table.now root stack.new) }
{
    let Some(task) = stack.last() else {
        return Err(AllocError);
    };
    let Some(from) = kept_place(task, stack.extra()) else {
        return Err(AllocError);
    };
    let part = kept_part(table, from, task.end)?;
    let Some(node) = open_node(table, part) else {
        return Err(AllocError);
    };
    let rest = Extra::Rest(from + 1);
    stack.push_value(method)?;
    stack.own(Op::ObjectRest, task.info, node.first, node.mid, rest)?;
    proceed(table, stack, point)
}
