//! Sources parsed into trees: scripts, expressions and functions.
//!
//! Its words in contracts:
//!
//! - `IsSource`: the text is a source of the language with this tree, within the limits
//! - *stands*: the fault that a source has, with nothing wrong before it (`StandsInSource`); *cause*: what is wrong at a
//!   place, whatever else is
//! - `tokens_of`, `bad_place`: the tokens of a text, and where a bad one stands behind them
//! - `expression_of`, `function_of`, `node_text`: the tree of a text, and the text of one of its nodes, as functions
//!   of the text
#![tactic(auto)]

mod earlier;
mod faults;
mod functions;
mod kept;
mod laws;
mod lexing;
pub mod limits;
pub mod node_text;
pub mod parse;
mod source_trees;
mod token_trees;
