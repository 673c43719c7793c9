//! Laws of one session: what a client can rely on, whatever happens to its session.
//!
//! Each function here is a law: it does nothing, and its contract says what is proved.
//!
//! Its words in contracts:
//!
//! - *event*: what may happen to a session: its client sends a text, the program prints, ends, is stopped or goes on,
//!   or the texts that wait are handed out
//! - `lived`: a session that was attached, and to which a list of events happened since
//! - *ends*: an event releases a handle
//! - *lists*, *tells*: a JSON value describes a frame, and a text is the event of a stop with all frames
//! - `HasOthersThan`, `AsksNothing`: a session has its breakpoints but for those of an id, and has nothing set
//! - `reply_is_true`: a reply to an evaluation is a value that counts as true
#![tactic(auto)]

pub mod asking;
pub mod evaluations;
pub mod identity;
pub mod limits;
pub mod stops;
