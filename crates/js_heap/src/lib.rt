//! Values, cells and worlds: what a running program's memory is, and how it is read and changed.
//!
//! Words of its own, which stand in `specs/`:
//!
//! - `World`: a map from addresses to cells, as two lists: the program's cells (`base`) and those that evaluations made (`scratch`). In
//!   an evaluation `start` is the number of the first scratch cell that is its own.
//! - `Room`: how many cells and how many units may still be made.
//! - `Tried`: what a call on a world answers: a value and the world after it, or why it is refused.
//! - `AfterFine`: this holds of the value and of the world after a call that wasn't refused.
//! - `Keeps`: which cells may be written stays, each live cell keeps its kind, and in an evaluation the cells of others stay as they are.
//! - `IsSound`: all that the cells of a world name is live in it and of the right kind.
//! - `IsSafe`: a value that is a number is a safe integer.
#![tactic(auto)]

pub mod built_in;
pub mod cell;
pub mod change;
pub mod computed;
pub mod keys;
pub mod laws;
pub mod limits;
pub mod properties;
pub mod reading;
pub mod value;
