//! A host runs one program and answers the sessions that debug it.
//!
//! Its words in contracts:
//!
//! - `StandsFor`: a host stands for a history of these scripts with this input; `CarriesOn` says that it does behind one
//!   entry more
//! - *meaning*: what a history means: the program, where it is paused, and what became of each session
//! - *printed*, *taken*: the texts that a run printed, and those that were handed out before
//! - `RunsTo`: a run of at most so many steps: the longest one, with what it printed and whom it lost
//! - *broken*: a host to which memory was wanting in a run; `KeepsFallback`, `FallsBack` say what it is then
//! - *fallen*: a session that a resume lost for want of memory, of which the next run tells
#![tactic(auto)]

mod advance;
mod arrival;
mod debuggee;
mod endings;
mod host;
mod hosted;
mod indexing;
pub mod laws;
mod lines;
mod recordable;
mod seats;
mod stops;
mod telling;
mod watching;

pub use cdp_host_seats::SessionLost;
pub use cdp_host_turns::{Ran, State, Told};
pub use host::Host;
pub use hosted::Beginning;
