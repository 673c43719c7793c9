//! Calls whose callee was read, and compound assignments whose target was read.

ghost use Rattle.std.specs.Prelude.{◌≡◌, ◌<◌, List, ℕ, OnOk, IfSome, Some, None};
ghost use Rattle.js_semantics.specs.Rows.{only};
ghost use Rattle.js_machine_nodes.specs.Trees.{IsTable};
ghost use Rattle.js_machine_engine.specs.declared.reduced.Reduced.TheVariants as answers;
ghost use Rattle.js_machine_engine.specs.Tasks.{InScopes};
ghost use Rattle.js_machine_engine.specs.Points.{IsAt};
ghost use Rattle.js_machine_engine.specs.Answers.{this_of_call};
ghost use Rattle.js_machine_engine.specs.Following.{Follows, IsCallOf, Compounds};

use crate::following::parts::kept_part;
use crate::position::Position;
use crate::settling::proceed;
use crate::stack::Stack;
use crate::task::NewTask;
use js_heap::value::{Addr, Value};
use js_machine_nodes::op::Op;
use js_machine_nodes::table::NodeTable;
use js_tree_operators::operator::BinaryOperator;
use std::alloc::AllocError;

/// The `this` of a call whose callee was a name, or a property of its first value; None where it is no such call.
fn this_of_call(op: Op, values: &[Value]) -> Option<Value>
    ensures { IfSome result (λ this. IsCallOf op × (this ≡ this_of_call op values.now)) }
{
    match op {
        Op::CallOfName => Some(Value::Undefined),
        Op::CallOfMember => Some(first_of(values)),
        Op::CallOfIndex => Some(first_of(values)),
        _ => None,
    }
}

/// The first value; undefined where there is none.
fn first_of(values: &[Value]) -> Value
    ensures { result ≡ only values.now }
{
    match values {
        [] => Value::Undefined,
        [first, ..] => *first,
    }
}

/// A compound assignment, as the assignment that follows the operator.
#[derive(Clone, Copy)]
struct Compound {
    assignment: Op,
    operator: BinaryOperator,
}

/// The assignment and the operator of a compound assignment.
fn compound_of(op: Op) -> Option<Compound>
    ensures { IfSome result (λ c. Compounds op c.assignment c.operator) }
{
    match op {
        Op::CompoundName(operator) => Some(Compound {
            assignment: Op::AssignName,
            operator,
        }),
        Op::CompoundMember(operator) => Some(Compound {
            assignment: Op::AssignMember,
            operator,
        }),
        Op::CompoundIndex(operator) => Some(Compound {
            assignment: Op::AssignIndex,
            operator,
        }),
        _ => None,
    }
}

/// A call of this value stands in its place, whose arguments come.
pub fn follow_call(
    table: &NodeTable,
    root: Addr,
    stack: &mut Stack,
    point: &mut Position,
    callee: Value,
) -> Result<(), AllocError>
    requires { IsTable table.now }
    ensures term { OnOk result ((ts : List (List ℕ)) → Follows ts table.now stack.old (answers.Calls callee) stack.new point.new) }
    ensures at { OnOk result (IsAt table.now stack.new point.new) }
    ensures scoped { OnOk result (InScopes table.now root stack.old → InScopes table.now root stack.new) }
{
    let Some(task) = stack.last() else {
        return Err(AllocError);
    };
    let Some(this) = this_of_call(task.op, stack.values()) else {
        return Err(AllocError);
    };
    stack.clear_values();
    stack.change(Op::Call, task.info, task.mid, task.end);
    stack.push_value(this)?;
    stack.push_value(callee)?;
    proceed(table, stack, point)
}

/// An assignment stands in its place, of an operator on this old value and the kept part.
pub fn follow_operand(
    table: &NodeTable,
    root: Addr,
    stack: &mut Stack,
    point: &mut Position,
    old: Value,
) -> Result<(), AllocError>
    requires { IsTable table.now }
    ensures term { OnOk result ((ts : List (List ℕ)) → Follows ts table.now stack.old (answers.Assigns old) stack.new point.new) }
    ensures at { OnOk result (IsAt table.now stack.new point.new) }
    ensures scoped { OnOk result (InScopes table.now root stack.old → InScopes table.now root stack.new) }
{
    let Some(task) = stack.last() else {
        return Err(AllocError);
    };
    let Some(compound) = compound_of(task.op) else {
        return Err(AllocError);
    };
    kept_part(table, task.mid, task.end)?;
    stack.change(compound.assignment, task.info, task.end, task.end);
    let operation = Op::Binary(compound.operator);
    stack.push(NewTask {
        op: operation,
        info: task.info,
        at: task.mid,
        mid: task.mid + 1,
        end: task.mid + 1,
        inner: task.inner,
    })?;
    stack.push_value(old)?;
    proceed(table, stack, point)
}
