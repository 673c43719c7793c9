//! The rows of the table of steps, one function for each form, over any world.
//!
//! Words of its own, which stand in `specs/`:
//!
//! - `Does`: performing an action in one state is what the row's answer says, in the other state; `DoesIn` says so of every state with a
//!   world, `DoesWith` of a world and a context.
//! - `Replies`: that, whatever the task; `RepliesOver` whatever the task of this table, `RepliesOf` by code that runs, `RepliesWith`
//!   with a context.
//! - `Acts`: that of an action which asks the state for its world or its frames, and `ActsIn`, `ActsAlways` and others say for which tasks.
//! - `OfEntry`: this holds of the entry that a row is told of; where the table hasn't it, the answer is want of memory.
//! - `IsRow`: the answer is that of the definition's row.
#![tactic(auto)]

mod answers;
mod calls;
mod codes;
mod declared;
mod entries;
mod literals;
mod loops;
mod names;
pub mod operators;
mod parts;
mod properties;
mod reading;
mod scopes;
mod simple;
mod statements;
pub mod table;
mod updates;
mod writing;
