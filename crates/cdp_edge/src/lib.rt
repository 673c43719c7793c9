//! The outside as the host sees it: a sink for output and a shelf of files.
//!
//! Its words in contracts:
//!
//! - *content*: what a sink has taken so far; of one over a stream, what the stream said that it took
//! - `gains`, `GainsPrefix`, `GainsLess`: a content with these bytes after it; with a first part of them; with a first
//!   part that isn't all of them
//! - *handed in*: what a shelf has answered to its reads so far, in order, each with the name that was asked for.
//!   `HandsIn` says what it handed in between two moments, and `Given` what holds of that
//! - *stored*: what it has put away so far, in order
//! - *files*: what a shelf holds, where that is told (an option: the files of the system can change at any time, and
//!   nothing is told of them)
//! - *faults*: the calls that have failed, in order, and how many they are; `Rose` says that a count rose, or stands at
//!   the greatest u64
//! - `Accounts`: a call is among the faults exactly where its answer says that it failed
//!
//! The logs of what was handed in, stored and taken cost nothing when they run: only clauses read them. A shelf or a
//! sink over the system has one too, since its log says what it answered and was given, and not what a disk or a
//! terminal holds. That log is filled by nothing but the clauses of its calls, so it says something of a caller that is
//! proved for every shelf and every sink, and of the adapter no more than those clauses.
#![tactic(auto)]

mod byte_log;
mod fault_log;
mod file_log;
mod file_shelf;
mod mem_shelf;
mod mem_sink;
mod shelf;
mod sink;
mod writer_sink;

pub use file_shelf::FileShelf;
pub use mem_shelf::MemShelf;
pub use mem_sink::MemSink;
pub use shelf::{Shelf, ShelfFault};
pub use sink::{Sink, SinkFault, put};
pub use writer_sink::WriterSink;
