//! What went wrong, as a person would say it: the lines that `--explain` adds on the error stream.
//!
//! Each call answers lines that begin with two spaces and end with LF. They add to the one line that a command says of
//! its end, and no clause speaks of them. Lines and columns count from 1 in them, as in editors, and a column counts
//! UTF-16 units. A text that is quoted is cut where it is long, and its control characters are written as U+FFFD.
#![tactic(auto)]

mod bracket;
mod commands;
mod ends;
mod excerpt;
mod faulty_place;
mod file_lines;
mod files;
mod frames;
mod journal;
mod journal_fault;
mod kinds;
mod links;
mod options;
mod reason;
mod refusals;
mod sessions;
mod shown;
mod tokens;
mod unread;
mod walk;
mod word_fault;
mod words;

pub use commands::command_lines;
pub use files::KeptFile;
pub use frames::{Frame, frame_lines};
pub use journal::journal_lines;
pub use links::{PortFault, link_lines};
pub use refusals::{FileRefusal, refusal_lines};
pub use unread::{ReadFault, unread_lines, unstored_line};
pub use words::{asks_explanation, word_lines};
