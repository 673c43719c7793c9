//! Clients and the program, each by a pass of the lock of one history.
//!
//! Its words in contracts:
//!
//! - `Connection`: the answers of a link and the entries that its session left for them
//! - `Session`: a session in a history, whose link was sent exactly what it would be sent with no other session there
//! - `HasRun`: a pass ran the program by some turns, and a sink was given what they printed
//! - `Goes`: the entries that a pass left by some turns; `Was`: at some time a history was so; `FoundAt`: an entry came when
//!   what was before it was so
//! - *act*: what a pass does at a door: it serves a link that arrived (`Visit`), or looks whether the program is over
//! - `Work`: what a thread does to what it owns; `AreDone`: works were done, each in its place
//! - `IsServedDoor`: a door that was served, over the one history of all passes
//! - `IsServing`: the program and all doors of a port, over that history
#![tactic(auto)]

mod beside;
mod clients;
mod desk;
mod door;
mod ends;
mod join;
mod port;
mod program;
mod served;
mod serving;
mod session;
mod shutdown;

pub use clients::Clients;
pub use door::{DoorEnd, serve_door};
pub use ends::{DoorsEnd, Ends};
pub use port::serve_port;
pub use program::{RunEnd, run_program};
pub use served::Served;
pub use session::serve_session;
pub use shutdown::NotShut;
