//! A program and any number of sessions that debug it: what a history of them means, where the program stops, and that each
//! session is sent exactly what it would be sent alone. All is said of any program and of any protocol.
//!
//! Its words in contracts:
//!
//! - *protocol*: a program and the sessions that debug it, by what a host asks of both
//! - *entry*, *history*: what may befall a host, and a list of that; `whole` is what a history means
//! - *seat*: what became of the session of a number: it is attached, was lost, or left. No number is given twice
//! - *fell*, *fallen*: a session that was lost for want of memory, of which no run has told yet
//! - *view*, *alone*: what of a history one session sees, and a host that has no other session; `solo` is what that one
//!   is sent
//! - *maker*, *owner*: of several workers that keep one history, the one that left an entry, and the one that attached
//!   a session
//! - `StandsAs`, `BrokenAs`: what a host is whose history means this, while it works, and behind want of memory in a run
#![tactic(auto)]

pub mod laws;
mod phase;
mod seat;

pub use phase::Phase;
pub use seat::{Loss, Seat};
