//! Whether what a table names by number is there.

ghost use Rattle.std.specs.Prelude.{◌≡◌, ◌≤◌, ℕ, true, Some, slice_get};
ghost use Rattle.js_machine_nodes.specs.Codes.{HasFunctions};
ghost use Rattle.js_machine_nodes.specs.Trees.{IsTable};
ghost use Rattle.js_machine_compiler.specs.Grown.{HasPlaces};
ghost use Rattle.pure_eval.specs.Whole.{names_entry, AreClosed, ArePlaced, IsWithin, AreWithin, IsWhole};

use js_machine_nodes::node::SourceEntry;
use js_machine_nodes::op::Op;
use js_machine_nodes::table::NodeTable;

/// Whether a number is one of an entry, where what a node does names one.
pub fn names_entry(table: &NodeTable, op: Op, number: u32) -> bool
    ensures { result ≡ names_entry table.now op number }
{
    let number = number as usize;
    match op {
        Op::Literal => number < table.constants.len(),
        Op::Script => number < table.scripts.len(),
        Op::EnterFor => number < table.fors.len(),
        Op::EnterForOf => number < table.for_ofs.len(),
        Op::Block => number < table.blocks.len(),
        Op::Function => number < table.functions.len(),
        Op::Method => number < table.functions.len(),
        Op::Object => number < table.objects.len(),
        Op::Call => number < table.calls.len(),
        Op::CallOfName => number < table.calls.len(),
        Op::CallOfMember => number < table.calls.len(),
        Op::CallOfIndex => number < table.calls.len(),
        _ => true,
    }
}

/// Whether the nodes from a number on name entries that are there.
pub fn are_closed(table: &NodeTable, from: usize) -> bool
    ensures { result ≡ true → AreClosed table.now from }
{
    for i in from..table.nodes.len() {
        let node = table.nodes.at(i);
        if !names_entry(table, node.op, node.info) {
            return false;
        }
    }
    true
}

/// Whether the functions from a number on have nodes that are there.
pub fn are_placed(table: &NodeTable, from: usize) -> bool
    ensures { result ≡ true → ArePlaced table.now from }
{
    for i in from..table.functions.len() {
        if table.functions.at(i).at as usize >= table.nodes.len() {
            return false;
        }
    }
    true
}

/// Whether all numbers are at most so many.
pub fn are_at_most(numbers: &[u32], most: usize) -> bool
    ensures { result ≡ true → (x m : ℕ) → slice_get numbers.now x ≡ Some m → m ≤ most }
{
    for number in numbers {
        if *number as usize > most {
            return false;
        }
    }
    true
}

/// Whether a source's node and the functions of its index are there.
pub fn is_within(table: &NodeTable, source: &SourceEntry) -> bool
    ensures { result ≡ true → IsWithin table.now source.now }
{
    if source.root as usize >= table.nodes.len() {
        return false;
    }
    are_at_most(source.functions.as_slice(), table.functions.len())
}

/// Whether those of all sources are.
pub fn are_within(table: &NodeTable) -> bool
    ensures { result ≡ true → AreWithin table.now }
{
    for i in 0..table.sources.len() {
        if !is_within(table, table.sources.at(i)) {
            return false;
        }
    }
    true
}

/// Whether a table that code runs over means the same however it goes on.
pub fn is_whole(table: &NodeTable) -> bool
    requires table { IsTable table.now }
    requires places { HasPlaces table.now }
    requires functions { HasFunctions table.now }
    ensures { result ≡ true → IsWhole table.now }
{
    if !are_closed(table, 0) {
        return false;
    }
    if !are_placed(table, 0) {
        return false;
    }
    are_within(table)
}
