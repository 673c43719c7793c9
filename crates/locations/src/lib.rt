//! The break locations of a script: the places where a program can be stopped.
//!
//! They are the start of each statement that isn't a block, an empty statement or a function declaration, the start of
//! an arrow's expression body, the closing brace of each function's body, and each call at the last name of its callee,
//! or at its `(` where the callee doesn't end in a name. Those at one place are one.
//!
//! Words of its own, which stand in `specs/`:
//!
//! - A mark (`Marked`) is a place by its node, with the kind of what stands there (`SpotKind`). `expression_marks` and its like are the
//!   marks of each type of tree.
//! - `script_marks` and `break_locations`: the marks of a script, and its locations: one for each offset that has a mark.
//! - `stronger`: of two kinds at one offset the one that its location has.
//! - `IsAscending`: each location stands before those that follow it.
#![tactic(auto)]

mod expressions;
mod kinds;
pub mod locations;
mod marks;
mod objects;
pub mod spot;
mod statements;
