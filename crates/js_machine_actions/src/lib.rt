//! What the rows of the table of steps do to a world, whichever it is.
//!
//! Words of its own, which stand in `specs/`; each says what performing an action of the definitions is, by what a function answered,
//! in every state that has the world before (`Flow`):
//!
//! - `Yields`: the action goes on with this value in the world after, or it ends; `Passes` is the same without a value.
//! - `Gives`: the action gives this value, or it ends.
//! - `Ends`: the action ends so (`ActionEnd`); want of memory says nothing of what would have been.
//! - `Turns`: the action goes on, and changes the context alone: the frames, `this`, the input and the texts printed (`Context`).
//! - `Prints` and `Takes`: the action prints a text, or takes the next line of the input.
#![tactic(auto)]

pub mod action_end;
mod arrays;
pub mod built_ins;
pub mod cells;
pub mod context;
pub mod errors;
pub mod frame;
pub mod functions;
pub mod lists;
pub mod names;
pub mod objects;
pub mod properties;
pub mod seen;
pub mod shown;
mod strings;
