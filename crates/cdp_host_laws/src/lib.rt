//! Laws of a host's histories, from what a client sends to what it sees. The definitions of the crates below say what
//! each step and each command does; these laws say what that comes to. Nothing here runs: each function does nothing,
//! and its contract is the law.
//!
//! Its words in contracts:
//!
//! - `DebugsAlone`: one session debugs the program, and no other has the debugger enabled
//! - `IsTold`: a text that is read as a command, after which its session is still attached
//! - `GoesOnUntil`: where the runs after a history stop the program, in the words of the run without a debugger
//! - `IsLeftToOthers`: a session left a program, which is paused for others or goes on
//! - *stops*: the pauses at which a history stopped its program, in order
//! - *event of a method*: a text that begins with `{"method":"METHOD"`; `events_of` are those among texts
//! - `StaysOver`: a history goes on by an entry, over which a session stays attached
//! - `HasLived`: a session became what it is by the events of one session, of which `cdp_session_laws` speaks
//! - `StandsAtTop`: the frames of a program are listed from where it arrived down to the script
//! - `RunSends`, `ReplySends`: what a run, and a text of the session itself, adds to the texts that wait for a session
#![tactic(auto)]

pub mod events;
pub mod exceptions;
pub mod frames;
pub mod identity;
pub mod leaving;
pub mod limits;
pub mod rules;
