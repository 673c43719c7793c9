//! The terms of programs: what the trees of scripts are before their first step.
//!
//! Words of its own, which stand in `specs/`:
//!
//! - A place is where a part of a tree stands: its source, the node of its statement, and the name that it gives to a function without one;
//!   `context_of` is the same for the makers.
//! - `IsTarget`: a term that is read is taken apart into its reference and its parts, so that it is assigned to or called.
//! - A space is where the cells of string literals stand, the program's or an evaluation's.
#![tactic(auto)]

pub mod functions;
pub mod literals;
pub mod names;
pub mod objects;
pub mod operators;
pub mod places;
pub mod references;
mod spaces;
