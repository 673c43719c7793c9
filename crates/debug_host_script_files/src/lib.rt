//! Scripts and lines of input, from files.
//!
//! Its words in contracts:
//!
//! - *declared*: the names that earlier scripts declare at their top, which no later script may declare again
//! - *refused*: bytes that aren't taken: they aren't UTF-8, or what they spell has a fault (`IsRefused`, `IsRefusedAt`)
//! - *reached*: all files before one were handed in and hold what they should (`IsReachedAt`)
//! - *evidence*: what is left of a file that isn't taken; no clause speaks of it
//! - `Holds..`, `Fails..`: what the files hold that a shelf handed in under names, and why one isn't taken; `Keep..`:
//!   what the files hold of a shelf that tells them
#![tactic(auto)]

mod evidence;
mod fault;
mod input;
pub mod laws;
mod refusal;
mod scripts;
mod source;
mod top_names;

pub use evidence::{Evidence, FileEvidence};
pub use fault::{FileFault, TextFault};
pub use input::read_input;
pub use scripts::{ScriptFault, read_scripts};
pub use source::script_of;
