//! Values and kept parts in place of the innermost task.

ghost use Rattle.std.specs.Prelude.{◌≡◌, ◌<◌, List, ℕ, OnOk, IfOk, Some, None, slice_get};
ghost use Rattle.js_machine_nodes.specs.Trees.{IsTable};
ghost use Rattle.js_machine_engine.specs.declared.reduced.Reduced.TheVariants as answers;
ghost use Rattle.js_machine_engine.specs.Tasks.{InScopes};
ghost use Rattle.js_machine_engine.specs.Points.{IsAt};
ghost use Rattle.js_machine_engine.specs.Following.{Follows};

use crate::position::Position;
use crate::settling::{give, go, uncover_part};
use crate::stack::Stack;
use crate::task::NewTask;
use js_heap::value::{Addr, Value};
use js_machine_nodes::op::Op;
use js_machine_nodes::table::NodeTable;
use std::alloc::AllocError;

/// The part at a place of the list of parts, before an end.
///
/// # Errors
///
/// There is none: no table has such a node.
pub fn kept_part(table: &NodeTable, at: u32, end: u32) -> Result<u32, AllocError>
    ensures part { IfOk result (λ k. slice_get table.now.kids.items at ≡ Some k) }
    ensures before { OnOk result (at < end) }
{
    if at >= end {
        return Err(AllocError);
    }
    match table.part(at) {
        Some(part) => Ok(part),
        None => Err(AllocError),
    }
}

/// A value stands in place of the innermost task.
#[tactic(auto, unfolding(crate::specs::Answers::reduced_term), using(crate::proofs::FollowLemmas::follow_rules))]
#[inline(always)]
pub fn follow_value(
    table: &NodeTable,
    root: Addr,
    stack: &mut Stack,
    point: &mut Position,
    value: Value,
) -> Result<(), AllocError>
    requires { IsTable table.now }
    ensures term { OnOk result ((ts : List (List ℕ)) → Follows ts table.now stack.old (answers.Gives value) stack.new point.new) }
    ensures at { OnOk result (IsAt table.now stack.new point.new) }
    ensures scoped { OnOk result (InScopes table.now root stack.old → InScopes table.now root stack.new) }
{
    stack.pop();
    give(table, stack, point, value)
}

/// A kept part stands in its place, as that stands in the table.
#[tactic(auto, unfolding(crate::specs::Answers::reduced_term), using(crate::proofs::FollowLemmas::follow_rules))]
#[inline(always)]
pub fn follow_part(
    table: &NodeTable,
    root: Addr,
    stack: &mut Stack,
    point: &mut Position,
    node: u32,
) -> Result<(), AllocError>
    requires { IsTable table.now }
    ensures term { OnOk result ((ts : List (List ℕ)) → Follows ts table.now stack.old (answers.Goes node) stack.new point.new) }
    ensures at { OnOk result (IsAt table.now stack.new point.new) }
    ensures scoped { OnOk result (InScopes table.now root stack.old → InScopes table.now root stack.new) }
{
    stack.pop();
    go(table, root, stack, point, node)
}

/// A kept part that is uncovered stands in its place.
#[tactic(auto, unfolding(crate::specs::Answers::reduced_term), using(crate::proofs::FollowLemmas::follow_rules))]
#[inline(always)]
pub fn follow_uncovered(
    table: &NodeTable,
    root: Addr,
    stack: &mut Stack,
    point: &mut Position,
    node: u32,
) -> Result<(), AllocError>
    requires { IsTable table.now }
    ensures term { OnOk result ((ts : List (List ℕ)) → Follows ts table.now stack.old (answers.Uncovers node) stack.new point.new) }
    ensures at { OnOk result (IsAt table.now stack.new point.new) }
    ensures scoped { OnOk result (InScopes table.now root stack.old → InScopes table.now root stack.new) }
{
    stack.pop();
    uncover_part(table, root, stack, point, node)
}

/// A kept part that is uncovered stands in its place, in a scope of its own.
#[tactic(auto, unfolding(crate::specs::Answers::reduced_term), using(crate::proofs::FollowLemmas::follow_rules))]
pub fn follow_scope(
    table: &NodeTable,
    root: Addr,
    stack: &mut Stack,
    point: &mut Position,
    scope: Addr,
    node: u32,
) -> Result<(), AllocError>
    requires { IsTable table.now }
    ensures term { OnOk result ((ts : List (List ℕ)) → Follows ts table.now stack.old (answers.Scopes scope node) stack.new point.new) }
    ensures at { OnOk result (IsAt table.now stack.new point.new) }
    ensures scoped { OnOk result (InScopes table.now root stack.old → InScopes table.now root stack.new) }
{
    stack.pop();
    stack.push(NewTask {
        op: Op::Scoped,
        info: 0,
        at: 0,
        mid: 0,
        end: 0,
        inner: scope,
    })?;
    uncover_part(table, root, stack, point, node)
}

/// The body of a function stands in its place, in the scope of the call.
#[tactic(auto, unfolding(crate::specs::Answers::reduced_term), using(crate::proofs::FollowLemmas::follow_rules))]
pub fn follow_body(
    table: &NodeTable,
    root: Addr,
    stack: &mut Stack,
    point: &mut Position,
    function: u32,
    scope: Addr,
    body: u32,
) -> Result<(), AllocError>
    requires { IsTable table.now }
    ensures term { OnOk result ((ts : List (List ℕ)) → Follows ts table.now stack.old (answers.Enters function scope body) stack.new point.new) }
    ensures at { OnOk result (IsAt table.now stack.new point.new) }
    ensures scoped { OnOk result (InScopes table.now root stack.old → InScopes table.now root stack.new) }
{
    stack.pop();
    stack.push(NewTask {
        op: Op::Frame,
        info: function,
        at: 0,
        mid: 0,
        end: 0,
        inner: scope,
    })?;
    uncover_part(table, root, stack, point, body)
}
