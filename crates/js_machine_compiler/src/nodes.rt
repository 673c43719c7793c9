//! One more node.

ghost use Rattle.std.specs.Prelude.{◌≡◌, ◌+◌, IfOk};
ghost use Rattle.js_machine_compiler.specs.Added.{IsNodeAdded};

use js_machine_nodes::node::Node;
use js_machine_nodes::op::Op;
use js_machine_nodes::table::NodeTable;
use std::alloc::AllocError;

/// What a node does, with the number that it does it with.
#[derive(Clone, Copy)]
pub struct Instruction {
    pub op: Op,
    pub info: u32,
}

/// The number of the next entry of a list that has this many.
pub fn next_number(len: usize) -> Result<u32, AllocError>
    ensures { IfOk result (λ n. n ≡ len) }
{
    match u32::try_from(len) {
        Ok(n) => Ok(n),
        Err(_) => Err(AllocError),
    }
}

/// A number counted from 1 in place of 0.
pub fn counted_from_one(number: u32) -> Result<u32, AllocError>
    ensures { IfOk result (λ n. n ≡ number + 1) }
{
    match number.checked_add(1) {
        Some(number) => Ok(number),
        None => Err(AllocError),
    }
}

/// A node with parts that the table has.
pub fn add_node(
    table: &mut NodeTable,
    entry: Instruction,
    now: &Vec<u32>,
    later: &Vec<u32>,
) -> Result<u32, AllocError>
    ensures { IfOk result (λ n. IsNodeAdded table.old table.new entry.op entry.info now.now.items later.now.items n) }
{
    let at = next_number(table.nodes.len())?;
    let first = next_number(table.kids.len())?;
    table.kids.extend_from_slice(now)?;
    let mid = next_number(table.kids.len())?;
    table.kids.extend_from_slice(later)?;
    let end = next_number(table.kids.len())?;
    table.nodes.push(Node {
        op: entry.op,
        info: entry.info,
        first,
        mid,
        end,
    })?;
    Ok(at)
}
