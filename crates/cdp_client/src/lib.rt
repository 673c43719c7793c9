//! A client of a serving host: the commands of a file are sent over a link, each after the reply to the one before it,
//! and each text that arrives is written as a line.
//!
//! Its words in contracts:
//!
//! - *line*: what a line of the file asks for, a command to be sent or a wait for an event; `file_read` reads a file as
//!   its lines, or as the number of the first that isn't of its form
//! - *course*: what is still to be done, which command's reply is awaited, and how many were answered
//! - *talk*: the course with the texts that were sent and the lines that were written, as a fold over the link's answers
//! - *arrival*: what a text that arrives is: the reply that is awaited, an event, or neither
//! - *traffic*: what link and sink tell: the link's answers, the texts that it was sent, and the bytes that the sink took
#![tactic(auto)]

mod arrival;
mod conversation;
mod conversed;
mod course;
mod file;
pub mod laws;
mod line;
mod texts;
mod values;

pub use conversation::converse;
pub use conversed::Conversed;
pub use file::check_file;
