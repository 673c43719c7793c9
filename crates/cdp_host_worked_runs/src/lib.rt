//! Debugged runs that were worked out by hand, computed from the definitions of the protocol alone.
//!
//! Its words in contracts:
//!
//! - `IsWorked`: a script has a text that was worked out, and a tree of which the same is made
//! - *journal*: what clients and the program do, in order, as `debug_host replay` reads it
//! - `outcome`: what a journal comes to for one session: the steps and the state of each run, the texts that the
//!   program printed, and those that the session was handed; `ComesTo` says that it does for each such script
#![tactic(auto)]

pub mod laws;
