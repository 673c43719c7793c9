//! The front door of the debugger's port: it answers the pages of `/json` and the upgrade to a WebSocket, by RFC 9110,
//! RFC 9112 and RFC 6455.
//!
//! Its words in contracts:
//!
//! - a *head* is a request head of `httparse`'s grammar; `answer_to` is the answer that a head is owed
//! - *unfinished*: bytes that hold no whole head, and which some bytes can follow that make one, or which end within the
//!   target, whose UTF-8 is only looked at when it ends
//! - `IsAnswerTo`: the answer that is owed to the bytes that were taken, to a whole head or to none
//! - `text_of`: the bytes of an answer
//! - *traffic*: what a wire tells, its answers and the bytes that it took; `Greets` says what a greeting did, by how it
//!   ended
#![tactic(auto)]

mod accept;
mod answer;
mod callers;
mod fields;
mod greeting;
mod head;
mod hear;
mod reader;
mod text;

pub use greeting::{Greeted, greet};
