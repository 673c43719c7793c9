//! The parts that a task keeps.

ghost use Rattle.std.specs.Prelude.{◌≡◌, slice_get};
ghost use Rattle.js_machine_nodes.specs.Trees.{kids_between};

use js_machine_nodes::table::NodeTable;

/// The part at a place of the table's list, if there is one.
#[inline(always)]
fn kid_at(table: &NodeTable, at: usize) -> Option<u32>
    ensures { result ≡ slice_get table.now.kids.items at }
{
    table.kids.get(at).copied()
}

/// The part at an index of the parts from a place of the table's list up to another, if there is one.
#[inline(always)]
pub fn part_at(table: &NodeTable, from: u32, to: u32, index: u32) -> Option<u32>
    ensures { result ≡ slice_get (kids_between table.now from to) index }
{
    let at = from as usize + index as usize;
    if at < to as usize {
        kid_at(table, at)
    } else {
        None
    }
}
