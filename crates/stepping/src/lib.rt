//! By which rule a session stops the program after a step: exceptions, breakpoints, `debugger` statements, pausing,
//! stepping, and running on to a place (Chrome DevTools Protocol 1.3, domain Debugger).
//!
//! Where a step leaves the program is an [`Arrival`], what a session asks for are its [`Rules`]. Nothing here takes memory.
//!
//! Its words in contracts:
//!
//! - *cause*: one of the rules that may name a stop; `Holds` says that a rule holds, `IsFirst` that none before it does
//! - *arrival*: where a step leaves the program; it *has arrived* where that is a break location
//! - *requests*: a pause, a step, or a place to run to: each ends with the next stop
#![tactic(auto)]

mod arrival;
mod cause;
pub mod laws;
mod naming;
mod rules;

pub use arrival::Arrival;
pub use cause::Cause;
pub use naming::{first_cause, wants};
pub use rules::{Exceptions, Rules, StepKind, StepRequest};
