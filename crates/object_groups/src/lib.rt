//! Remote objects of a session: numbered handles on cells, in groups that can be released together (Chrome DevTools
//! Protocol 1.3, domain Runtime).
//!
//! A handle keeps its number from its making to its release, and no number is used again. A handle is in one group or in
//! none. The group of the empty name is a group like any other.
//!
//! Its words in contracts:
//!
//! - *handle*: a number for an object or for a scope, in a group or in none
//! - *held*, *made*: the handles that weren't released, and how many there ever were
//! - *scratch*: the cells that evaluations made, apart from the program's
#![tactic(auto)]

mod fault;
mod groups;
mod handle;
mod handles;
mod table;

pub use fault::HandleFault;
pub use handle::{Handle, Target};
pub use handles::Handles;
