//! What values are described by.

use crate::function_sources::FunctionSources;
use js_heap_memory::names::NameTable;
use js_heap_memory::world::World;
use js_tree::script::Script;
use std::alloc::Global;

/// What values are described by: the world that they are of with its table of names, the scripts that its functions are of,
/// what finds the sources of functions that evaluations made, and the number of the session that they are described for.
#[derive(Clone, Copy)]
pub struct Describer<'w, W: World, S: FunctionSources> {
    /// The memory for what is made.
    pub alloc: Global,
    /// The world.
    pub world: &'w W,
    /// Its table of names.
    pub names: &'w NameTable,
    /// The scripts, by their numbers from 1.
    pub scripts: &'w [Script],
    /// What finds the sources of functions that evaluations made.
    pub sources: &'w S,
    /// The number of the session.
    pub session: u64,
}
