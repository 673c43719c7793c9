//! The machine that runs scripts, step by step.
//!
//! Words of its own, which stand in `specs/`:
//!
//! - `run_at`: the run of the definitions that a machine is with a world, behind the texts that were taken.
//! - `IsSound`: what holds of each machine: its code is sound, and until its end it stands at its point, with its tasks in their scopes.
//! - `IsStarted`: the machine is at the start of the scripts with their input.
//! - `HasSameCode`: a machine goes on with the table and the names that it had.
//! - `HasRunWithin`: it is where so many steps of the definition lead, and made those that they take.
#![tactic(auto)]

pub mod end;
pub mod machine;
pub mod plain;
pub mod scripts;
mod start;
