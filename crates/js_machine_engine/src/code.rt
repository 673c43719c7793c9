//! The code that runs.

use js_heap::value::Addr;
use js_heap_memory::names::NameTable;
use js_machine_nodes::table::NodeTable;
use std::alloc::Global;

/// What all steps of a run read and none changes: where memory comes from, the nodes and the names of the code, and the scope
/// around all tasks.
#[derive(Clone, Copy)]
pub struct RunningCode<'t, 'n> {
    pub alloc: Global,
    pub table: &'t NodeTable,
    pub names: &'n NameTable,
    pub root: Addr,
}
