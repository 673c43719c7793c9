//! The terms of trees without numbers: laws alone.
//!
//! They are needed since a parser's tree isn't a function of its text: boxes and vectors have addresses.
//!
//! Its words in contracts:
//!
//! - *numbered*: the nodes have the numbers 0, 1, .. in the order in which they end
//! - `numbered_made`: what is made of a clean tree as if its nodes were numbered so; `numbered_places`: where its
//!   nodes stand
//! - `node_span`: where the node of a number begins and ends in a source with these tokens
#![tactic(auto)]

mod laws;
