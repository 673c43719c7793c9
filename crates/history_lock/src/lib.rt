//! A lock whose turns are the entries of one history.
//!
//! Threads share a state through a `HistoryLock`. Each has a `Pass`; between `enter` and `leave` it has the turn, and
//! with it the state. What a turn did to the state is its entry, and the entries of all turns, in their order, are the
//! history. A pass may take two turns by one wait (`enter_twice`), one right after the other. They end together, with an
//! entry of each (`leave_twice`) or with that of the first alone (`leave_once`). Its words in contracts:
//!
//! - *history*: a list of entries, each with the number of the pass that made it, the maker
//! - *seen*: the part of the history that a pass knows of, always a beginning of it
//! - *stands*: the histories for which a state stands; a turn hands out a state that stands for what its pass has seen
//! - *answers for*: a pass answers for its own number and for those of the passes that were joined into it, and has
//!   seen all entries that have one of these numbers
//! - *refused*: a turn was refused to the pass, or to one that was joined into it, since all 2^62 tickets were drawn; the
//!   history of all passes has at least half as many entries then
#![tactic(auto)]

mod kinds;
mod lock;
mod rule;
mod standing;
mod view;

pub use lock::{HistoryLock, Pass, Spent, Turn};
pub use standing::Standing;
