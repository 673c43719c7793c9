//! The code of programs: a table of nodes, in which each node stands behind its parts.
//!
//! Words of its own, which stand in `specs/`:
//!
//! - An op (`Op`) with its number `info` says what a node does; `form_of` is the form that they stand for, with a table of names.
//! - An entry is what a node names by its number: a function, a call, the names of a block.
//! - `tree`: the term that a node has, with its parts; `IsTable` says that the parts of each node stand before it.
//! - `items` of a `SharedList`: what stands in it, whether it is shared or not.
//! - `HasFunctions`: each source finds the code of its functions by an index.
#![tactic(auto)]

pub mod node;
pub mod op;
mod reading;
pub mod shared_list;
pub mod table;
