//! One step of a machine: a stack of tasks over a table of nodes, in which what is about to be reduced is reduced by its row.
//!
//! Words of its own, which stand in `specs/`:
//!
//! - `RunningCode` is what all steps of a run read: the nodes and the names, and the scope around all tasks.
//! - A task is a form of which a part is being reduced; a gap is the place of that part. `gaps_of` are the forms around what is about to be
//!   reduced, from the innermost one, and `plugged` and `resettled` put a term into them.
//! - A point is where a machine stands: at a row (all parts of the innermost task have their values), at a leaf (a node without parts), at
//!   a throw that stands, or at the end. `term_at` is the term that is left there, and `IsAt` what holds of tasks and nodes.
//!   Inside it is a `Position`, which has the parts of a point as fields.
//! - `InScopes`: each task has the scope in which the definitions reduce its parts.
//! - `Reduced` is what a row answers; `Reduces` says that it is the move of the definitions.
//! - `Tells`: what a step tells is the move to this term and state; `Steps` says so of the definition's step, `TellsWithin` of the part in
//!   the innermost gap.
//! - `Comes` and `Follows`: what came up in place of a task whose parts are done, or whose row has answered.
//! - `StandsIn`: what holds of a machine between its steps; `HasRun` says how many steps of the definition it has made.
#![tactic(auto)]

mod answer;
mod closing;
pub mod code;
mod concluding;
mod finish;
mod following;
pub mod laws;
mod leaf;
mod parts;
mod passing;
mod position;
pub mod reduced;
pub mod rows;
pub mod run;
pub mod settling;
pub mod stack;
mod stages;
pub mod step;
pub mod stepped;
pub mod task;
mod travelling;
