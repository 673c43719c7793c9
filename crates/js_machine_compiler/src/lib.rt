//! From the terms of programs to their table of nodes.
//!
//! Words of its own, which stand in `specs/`; a table of nodes and its names grow, and what they hold stays:
//!
//! - `Grows`: names and a table that go on behind those before, where each node and entry keeps its number.
//! - `HasForm`: what the next node does stands for a form, however names and table go on; `HasTree` says so of a node and a term.
//! - `HoldsTerm`: the answer for a term: a node that has it, or none where no node can (`are_plain` says which terms have nodes).
//! - `AreCompiled`: the code stands for the scripts, and each source's index finds its functions (`IsIndexed`).
#![tactic(auto)]

mod entries;
mod forms;
pub mod functions;
pub mod laws;
mod names;
mod nodes;
pub mod scripts;
pub mod terms;
