//! What a step comes to whose row's answer doesn't travel.

ghost use Rattle.std.specs.Prelude.{◌≡◌, ℕ, List, drop, IfOk};
ghost use Rattle.js_heap.specs.declared.value.Addr.{Addr as AnyAddr};
ghost use Rattle.js_heap.specs.declared.value.Value.TheVariants.{Undefined as undefined};
ghost use Rattle.js_heap.specs.World.{World as AnyWorld};
ghost use Rattle.js_semantics.specs.Terms.{Term, done};
ghost use Rattle.js_semantics.specs.State.{State, Move, goes, printed_values};
ghost use Rattle.js_machine_actions.specs.Contexts.{state_of};
ghost use Rattle.js_machine_nodes.specs.Trees.{IsTable};
ghost use Rattle.js_machine_engine.specs.Tasks.{InScopes};
ghost use Rattle.js_machine_engine.specs.Stacks.{outer_of};
ghost use Rattle.js_machine_engine.specs.Following.{innermost};
ghost use Rattle.js_machine_engine.specs.Stepping.{Says, Raises, TellsWithin, IfGoesOn, StandsIn};

use crate::answer::{Demand, went_of};
use crate::code::RunningCode;
use crate::following::follow;
use crate::position::Position;
use crate::reduced::Reduced;
use crate::settling::give;
use crate::stack::Stack;
use crate::stepped::Stepped;
use js_heap::value::Value;
use js_machine_actions::context::Context;
use js_machine_nodes::table::NodeTable;
use std::alloc::{AllocError, Global};

/// A throw stands in the innermost gap, at the place of the top frame.
pub fn raise(context: &Context, point: &mut Position, value: Value) -> Stepped
    ensures { Raises value context.now result point.new }
{
    point.set_stands(value, context.spot_of());
    Stepped::Raised
}

/// The values that a call prints: those behind its `this` and its callee.
///
/// # Errors
///
/// There is no memory for them.
fn printed_of(alloc: Global, values: &[Value]) -> Result<Vec<Value>, AllocError>
    ensures { IfOk result (λ printed. printed.items ≡ drop 2 values.now) }
{
    match values {
        [_, _, rest @ ..] => rest.to_vec(alloc),
        _ => Ok(Vec::new(alloc)),
    }
}

/// These values are printed, and undefined comes into the innermost gap.
pub fn print(
    table: &NodeTable,
    stack: &mut Stack,
    point: &mut Position,
    printed: Vec<Value>,
) -> Stepped
    requires { IsTable table.now }
    ensures told { (ts : List (List ℕ)) (root : AnyAddr) (s : State) → TellsWithin ts table.now root stack.old (goes (done undefined) s (printed_values printed.items)) result stack.new point.new s }
    ensures stands { IfGoesOn result ((root : AnyAddr) → InScopes table.now root stack.old → StandsIn table.now root stack.new point.new) }
{
    match give(table, stack, point, Value::Undefined) {
        Ok(()) => Stepped::Printed(printed),
        Err(_) => Stepped::Memory,
    }
}

/// The innermost task has printed its values, and is undefined.
fn print_row(alloc: Global, table: &NodeTable, stack: &mut Stack, point: &mut Position) -> Stepped
    requires { IsTable table.now }
    ensures told { (ts : List (List ℕ)) (root : AnyAddr) (s : State) → TellsWithin ts table.now root (outer_of stack.old) (goes (done undefined) s (printed_values (drop 2 (innermost stack.old).values))) result stack.new point.new s }
    ensures stands { IfGoesOn result ((root : AnyAddr) → InScopes table.now root stack.old → StandsIn table.now root stack.new point.new) }
{
    let Ok(printed) = printed_of(alloc, stack.values()) else {
        return Stepped::Memory;
    };
    stack.pop();
    print(table, stack, point, printed)
}

/// What a step comes to whose row gave this answer for the innermost task. Of an answer that travels it is no call.
#[inline(always)]
pub fn conclude(
    code: &RunningCode<'_, '_>,
    context: &Context,
    stack: &mut Stack,
    point: &mut Position,
    reduced: Reduced,
    answer: Demand,
) -> Stepped
    requires { IsTable code.now.table.now }
    ensures told { (ts : List (List ℕ)) (m : Move Term) (w : AnyWorld) (taken : List (List ℕ)) → Says ts code.now.table.now (innermost stack.old) m reduced answer (state_of w context.now taken) → TellsWithin ts code.now.table.now code.now.root (outer_of stack.old) m result stack.new point.new (state_of w context.now taken) }
    ensures stands { IfGoesOn result (InScopes code.now.table.now code.now.root stack.old → StandsIn code.now.table.now code.now.root stack.new point.new) }
{
    match answer {
        Demand::Follows => went_of(follow(code.table, code.root, stack, point, reduced)),
        Demand::Raises(value) => {
            stack.pop();
            raise(context, point, value)
        }
        Demand::Prints => print_row(code.alloc, code.table, stack, point),
        Demand::Effect => Stepped::Effect,
        Demand::Full(what) => Stepped::Full(what),
        Demand::Travels(_) => Stepped::Memory,
        Demand::Resumes => Stepped::Memory,
        Demand::Memory => Stepped::Memory,
    }
}
