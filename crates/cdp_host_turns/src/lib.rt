//! The calls of a host over any host: each as one turn of the history lock, and a command with the taking after it as two.
//!
//! Its words in contracts:
//!
//! - *debugging*: a program and the sessions that debug it, of any types; `meaning` is what a history of them means, and
//!   `handed` what it hands out to a session
//! - `IsHistory`: a list of entries with their makers is a history of the program, and each session is its owner's
//! - `Acts`: a turn of a pass left an entry after what others left
//! - *there*: a session that is attached, whose program wasn't shut
//! - *gone*: a session that was lost, or whose program was shut, before its turn
#![tactic(auto)]

mod answers;
mod calls;
mod entry;
mod hosted;
mod state;
mod turns;

pub use answers::{Answered, Attached, Gone, HandedOut, Progress, Told};
pub use entry::Entry;
pub use hosted::{Hosted, Ran};
pub use state::State;
pub use turns::{Lock, Worker, attach, detach, look, run, shut, take, tell_and_take};
