//! What a command sees of the program.

use crate::program::Program;
use breakpoints::ScriptSpots;
use js_tree::script::Script;

/// Where the program is paused.
#[derive(Clone, Copy)]
pub struct Pause {
    /// The number of the stop, from 1.
    pub number: u64,
    /// How many calls are active.
    pub depth: usize,
}

/// What a command sees of the program.
#[derive(Drop)]
pub struct Situation<'p, P: Program> {
    /// Its scripts, in order.
    pub scripts: &'p [Script],
    /// The break locations of the scripts.
    pub spots: &'p ScriptSpots,
    /// Where it is paused, if it is.
    pub paused: Option<Pause>,
    /// How it stands.
    pub program: &'p P,
}
