//! Evaluation without effects, and the code of the sources that evaluations keep.
//!
//! Its words in contracts:
//!
//! - *evaluator*: the code of a program and of the sources that evaluations keep, with their names; `Runs`,
//!   `HoldsProgram` say of which
//! - *scripts' code*: the code of a program's scripts, from which the evaluations of all its sessions go on without a
//!   copy
//! - *workspace*: what the evaluations of a session go on from; it is *opened* over the cells of a program for one of
//!   them, if the program's names are the first of those with which it *began*
//! - *kept*: a source that stays, with the cells of its evaluation; *cut* and *forgotten* is what doesn't
//! - *ready*: a term whose string literals have their cells
//! - `Answers`, `EndsIn`, `Leaves`: how an evaluation ends, in which world, and with which cells, by the definition;
//!   want of memory says nothing
//! - *whole*: a table of code that means the same however it goes on
#![tactic(auto)]

mod adding;
mod arguments;
mod calling;
mod closed;
mod cutting;
mod evaluated;
mod evaluator;
mod holding;
pub mod laws;
mod literals;
mod orders;
mod prepared;
mod reducing;
mod scripts_code;
mod session;
mod session_code;
mod work;
mod workspace;

pub use arguments::Argument;
pub use evaluated::{Evaluated, is_memory};
pub use prepared::PreparedSource;
pub use scripts_code::ScriptsCode;
pub use workspace::{OpenWorkspace, OverlaidCells, Workspace};
