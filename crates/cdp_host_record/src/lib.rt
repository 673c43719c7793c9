//! The record of a history: the journal that tells what happened, entry by entry, so that a replay plays it again.
//!
//! Its words in contracts:
//!
//! - *recorded*: a history as the bytes of a journal: a line for each entry that another host could tell apart
//! - *ends the record*: an entry that no line tells: a run that loses a session for want of memory, or one with a text or
//!   a number that is too great for a line. The record is the line `memory` longer, and tells no more
//! - *lost*: a record that found no memory for a line. It ends with the line `memory` too
#![tactic(auto)]

pub mod laws;
mod record;
mod recordable;
mod recorded;
mod state;

pub use record::Record;
pub use recordable::Recordable;
pub use recorded::{Recorded, journal_of};
pub use state::RecordState;
