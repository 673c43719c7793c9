//! A session of the Chrome DevTools Protocol: what a client asks for, how its commands are answered, by which rule it
//! stops the program, and the texts that it is sent.
//!
//! It knows the program by its scripts, by where it is paused, and by where a step leads.
//!
//! Its words in contracts:
//!
//! - *situation*, *standing*: what a session sees of the program: its scripts and where it is paused; its cells, its
//!   frames, a throw that stands
//! - *row*: what a method does: it is refused, or done with the session, the result and the events that it leaves
//!   (`Row`, `Makes`)
//! - *asks*: what a command asks of the program: to go on, or to begin
//! - *outbox*: the texts that wait for the client; it *fits* while there are no more than may be
//! - *met*, *hit*: a breakpoint whose condition holds; one that is active and met where the program arrived
//! - *ending*: how a run ended: by itself, or by a throw
#![tactic(auto)]

mod asks;
mod calling;
mod coded_scripts;
mod conditions;
mod console;
mod describing;
mod done;
mod ending;
mod ends;
mod evaluating;
mod evaluations;
mod finding;
mod found;
mod named;
mod objects;
mod pausing;
mod program;
mod ready;
mod refusing;
mod replies;
mod result_texts;
mod rows;
mod session;
mod showing;
mod situation;
mod sources;
mod top;

pub use asks::Asks;
pub use coded_scripts::CodedScripts;
pub use ending::Ending;
pub use named::Named;
pub use program::{Program, ProgramCells};
pub use session::Session;
pub use situation::{Pause, Situation};
pub use top::Top;
