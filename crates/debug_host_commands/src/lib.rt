//! The program's calls: what the words after its name ask for, a journal's lines, and how a command ends.
//!
//! Its words in contracts:
//!
//! - *sources*, *request*, *command*: the files of a program; a journal over them; what the words ask for
//! - *outcome*, *status*: how a command ends, and the number that the process ends with
//! - *applied*, *refused*: a line of a journal that may stand where it does, and one that may not
//! - `IsReplay`: this is the output of a journal's replay; `WritesReplay`, `WritesPart`, `WritesLess` say how much of it
//!   is written
//! - `Headline`: what a debugger leaves of a run: prints, stops, and what each session is sent
//! - `Because..`: why a command ended so
#![tactic(auto)]

mod act;
mod drill;
mod explaining;
pub mod journal;
pub mod laws;
mod outcome;
mod output;
mod program;
mod replay;
mod report;
mod run;
mod send;
mod serve;
mod sources;
mod storing;
mod telling;
mod throwing;
mod transcript;
mod whole_file;

pub use program::debug_main;
