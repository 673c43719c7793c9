//! What frames are walked over.

use cdp_text::line_table::LineTable;
use js_heap::value::Addr;
use js_heap_memory::heap::BaseHeap;
use js_heap_memory::names::NameTable;
use js_machine_actions::context::Context;
use js_machine_engine::stack::Stack;
use js_machine_engine::task::Point;
use js_machine_nodes::table::NodeTable;
use js_tree::script::Script;

/// A machine of scripts that has something left to reduce, with its cells: what is walked over.
#[derive(Clone, Copy)]
pub struct StandingMachine<'m> {
    /// The code.
    pub table: &'m NodeTable,
    /// The texts of its names.
    pub names: &'m NameTable,
    /// The scripts by their numbers from 1.
    pub scripts: &'m [Script],
    /// Where the lines of each begin.
    pub lines: &'m [LineTable],
    /// The cells.
    pub heap: &'m BaseHeap,
    /// The scope around all that the scripts do.
    pub root: Addr,
    /// The active calls.
    pub context: &'m Context,
    /// The tasks.
    pub stack: &'m Stack,
    /// Where the machine stands.
    pub point: Point,
}
