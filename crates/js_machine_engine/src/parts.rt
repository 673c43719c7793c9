//! The parts of the innermost task.

ghost use Rattle.std.specs.Prelude.{◌≡◌, ℕ, List, IfOk, IfNone, IfSome, slice_get};
ghost use Rattle.js_semantics.specs.Terms.{done};
ghost use Rattle.js_machine_nodes.specs.Trees.{tree};
ghost use Rattle.js_machine_engine.specs.Parts.{IsOpen, IsNextPart, found_part};

use crate::stack::Stack;
use js_heap::value::Value;
use js_machine_nodes::op::is_literal;
use js_machine_nodes::table::NodeTable;
use std::alloc::AllocError;

/// The value of a node that is one; of a number without a node undefined.
#[inline(always)]
pub fn value_at(table: &NodeTable, n: u32) -> Option<Value>
    ensures value { IfSome result (λ v. (ts : List (List ℕ)) → tree ts table.now n ≡ done v) }
    ensures form { IfNone result (IsOpen (slice_get table.now.nodes.items n)) }
{
    match table.node(n) {
        Some(node) => {
            if is_literal(node.op) {
                Some(table.constant(node.info))
            } else {
                None
            }
        }
        None => Some(Value::Undefined),
    }
}

/// The part at a place of the list of parts, if there is one.
#[inline(always)]
fn part_at(table: &NodeTable, at: u32) -> Option<u32>
    ensures { result ≡ slice_get table.now.kids.items at }
{
    table.kids.get(at as usize).copied()
}

/// Takes the values of the literal parts that come next on the innermost task. Answers whether there is a part behind them,
/// which `next` then is; the task's next part is the one behind that.
///
/// # Errors
///
/// There is no memory for the values.
#[inline(always)]
pub fn next_part(table: &NodeTable, stack: &mut Stack, next: &mut u32) -> Result<bool, AllocError>
    ensures { IfOk result (λ found. IsNextPart table.now stack.old stack.new (found_part found next.new)) }
{
    let first = stack.at();
    let mid = stack.mid();
    if first == mid {
        return Ok(false);
    }
    for at in first..mid {
        let Some(part) = part_at(table, at) else {
            stack.set_at(mid);
            return Ok(false);
        };
        match value_at(table, part) {
            Some(value) => stack.push_value(value)?,
            None => {
                stack.set_at(at + 1);
                *next = part;
                return Ok(true);
            }
        }
    }
    stack.set_at(mid);
    Ok(false)
}
