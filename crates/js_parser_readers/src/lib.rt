//! Readers of the grammar as definitions, and the small pieces that the parser is made of: classes of
//! tokens, numbers and spans of nodes, names, targets of assignments, strengths of operators, where
//! statements stand and how they end.
//!
//! Its words in contracts:
//!
//! - *reader*: a function from tokens to a value and the tokens behind it, or to a fault: *stuck* where no source
//!   goes on so, *deep* where a tree would be too deep
//! - `below`: the readers of all parts of a tree that may still grow so high
//! - `Gives`: what a function of the parser returned is what a reader gives, but for want of memory
//! - *class*: what the next token begins, goes on with, or ends
//! - `Placed`: while these tokens were read, the nodes of these places were numbered and got their spans
#![tactic(auto)]

pub mod classes;
pub mod context;
pub mod endings;
pub mod fault;
pub mod name_set;
pub mod names;
pub mod nodes;
pub mod targets;
pub mod token;
pub mod words;
