//! The trees of sources.
//!
//! Its words in contracts:
//!
//! - *clean tree*: a tree without the numbers of its nodes and without places in memory (`specs/Trees.antt`);
//!   `..view` is the one that a tree of the code stands for
//! - *height*: the greatest number of statements, expressions and methods on a path from the root
//! - *span*: where a node begins and ends in its source, found by its number (`span_of`)
#![tactic(auto)]

pub mod integer;
pub mod names;
pub mod node;
pub mod script;
pub mod scripts;
pub mod span;
pub mod targets;
pub mod tree;
