//! The stages of loops.

ghost use Rattle.std.specs.Prelude.{◌≡◌, ◌+◌, true, [], Some, None, IfOk};
ghost use Rattle.js_machine_nodes.specs.Ops.{is_loop};
ghost use Rattle.js_machine_nodes.specs.Trees.{trees, kids_between};
ghost use Rattle.js_semantics.specs.Terms.{test_of, at_test as test_stage, at_update as update_stage, at_body as body_stage, behind_body as behind_body_stage, behind_first as behind_first_stage};
ghost use Rattle.js_machine_engine.specs.Points.{IsAtRow};
ghost use Rattle.js_machine_engine.specs.Stacks.{values_of};
ghost use Rattle.js_machine_engine.specs.Settling.{first_kid, IsKept, restaged, StagesAs, staged, Comes, IsInnermost, looped};

use crate::closing::{KeptPart, Next};
use crate::parts::value_at;
use crate::stack::Stack;
use crate::task::Task;
use js_heap::value::Value;
use js_machine_nodes::op::Op;
use js_machine_nodes::table::NodeTable;
use std::alloc::AllocError;

/// The part at a place before `end`, if there is one.
#[inline(always)]
fn kid_within(table: &NodeTable, place: usize, end: u32) -> Option<u32>
    ensures { result ≡ first_kid (kids_between table.now place end) }
{
    if place < end as usize {
        table.kids.get(place).copied()
    } else {
        None
    }
}

/// The kept part at a place before `end`; undefined where there is none.
#[inline(always)]
fn kept_part(table: &NodeTable, place: usize, end: u32) -> KeptPart
    ensures { IsKept table.now place end result }
{
    match kid_within(table, place, end) {
        None => KeptPart::Value(Value::Undefined),
        Some(part) => match value_at(table, part) {
            Some(value) => KeptPart::Value(value),
            None => KeptPart::Open(part),
        },
    }
}

/// The innermost task does something else, with its kept parts alone.
pub fn restage(stack: &mut Stack, op: Op)
    requires { StagesAs op stack.old }
    ensures { stack.new ≡ restaged op stack.old }
{
    if let Some(task) = stack.last() {
        stack.change(op, task.info, task.mid, task.mid);
        stack.clear_values();
    }
}

/// The innermost task, which has no values, goes on with a kept part of its own.
fn enter_kept(
    table: &NodeTable,
    stack: &mut Stack,
    place: usize,
    end: u32,
) -> Result<Next, AllocError>
    requires row { IsAtRow stack.old }
    requires empty { values_of stack.old ≡ [] }
    ensures { IfOk result (Comes table.now stack.old stack.new (λ ts. staged ts table.now stack.old (test_of (trees ts table.now place end)))) }
{
    match kept_part(table, place, end) {
        KeptPart::Value(value) => {
            stack.push_value(value)?;
            Ok(Next::Row)
        }
        KeptPart::Open(part) => Ok(Next::Part(part)),
    }
}

/// A loop goes on with its test.
pub fn at_test(table: &NodeTable, stack: &mut Stack, task: Task) -> Result<Next, AllocError>
    requires task { IsInnermost task None stack.old }
    requires loops { is_loop task.op ≡ true }
    ensures { IfOk result (Comes table.now stack.old stack.new (λ ts. looped ts table.now stack.old test_stage task)) }
{
    restage(stack, Op::LoopTesting);
    enter_kept(table, stack, task.mid as usize, task.end)
}

/// A loop goes on with its update. One that is a value or absent is finished.
#[inline(always)]
pub fn at_update(table: &NodeTable, stack: &mut Stack, task: Task) -> Result<Next, AllocError>
    requires task { IsInnermost task None stack.old }
    requires loops { is_loop task.op ≡ true }
    ensures { IfOk result (Comes table.now stack.old stack.new (λ ts. looped ts table.now stack.old update_stage task)) }
{
    match kept_part(table, task.mid as usize + 1, task.end) {
        KeptPart::Value(_) => at_test(table, stack, task),
        KeptPart::Open(part) => {
            restage(stack, Op::LoopUpdating);
            Ok(Next::Part(part))
        }
    }
}

/// A loop is behind its body: where each turn has a scope, its row copies that.
pub fn behind_body(table: &NodeTable, stack: &mut Stack, task: Task) -> Result<Next, AllocError>
    requires task { IsInnermost task None stack.old }
    requires loops { is_loop task.op ≡ true }
    ensures { IfOk result (Comes table.now stack.old stack.new (λ ts. looped ts table.now stack.old behind_body_stage task)) }
{
    if task.info == 0 {
        return at_update(table, stack, task);
    }
    restage(stack, Op::LoopBody);
    Ok(Next::Row)
}

/// A loop goes on with its body.
#[inline(always)]
pub fn at_body(table: &NodeTable, stack: &mut Stack, task: Task) -> Result<Next, AllocError>
    requires task { IsInnermost task None stack.old }
    requires loops { is_loop task.op ≡ true }
    ensures { IfOk result (Comes table.now stack.old stack.new (λ ts. looped ts table.now stack.old body_stage task)) }
{
    match kept_part(table, task.mid as usize + 2, task.end) {
        KeptPart::Value(_) => behind_body(table, stack, task),
        KeptPart::Open(part) => {
            restage(stack, Op::LoopBody);
            Ok(Next::Part(part))
        }
    }
}

/// A loop is behind its initialiser: where each turn has a scope, its row copies that.
pub fn behind_first(table: &NodeTable, stack: &mut Stack, task: Task) -> Result<Next, AllocError>
    requires task { IsInnermost task None stack.old }
    requires loops { is_loop task.op ≡ true }
    ensures { IfOk result (Comes table.now stack.old stack.new (λ ts. looped ts table.now stack.old behind_first_stage task)) }
{
    if task.info == 0 {
        return at_test(table, stack, task);
    }
    restage(stack, Op::LoopFirst);
    Ok(Next::Row)
}
