//! Runs of scripts that nobody watches, whose printed texts go to a sink.
//!
//! Words of its own, which stand in `specs/`; what was written is what the sink took:
//!
//! - `ComesTo`: what each end says of the run of the definitions and of what was written.
//! - `EndsBy`: a run that is over so is told so; want of memory may hide it.
//! - `HasCome`: some steps lead from one machine to another, and what they print was written.
//! - `IsCutFrom` and `IsLessFrom`: a first part of what some steps print was written, and not all of it.
//! - `IsFirstPart`: what was written is a first part of the output, however many more steps are made.
#![tactic(auto)]

pub mod end;
pub mod run;
mod turns;
