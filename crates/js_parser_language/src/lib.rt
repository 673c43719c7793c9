//! The language: which sources it has, and one function for each form of its trees.
//!
//! Its words in contracts:
//!
//! - *flat tokens*: the tokens of a tree in order, of which some semicolons and commas may be absent (`FlatToken`)
//! - `Well`: the tree is well-formed, clause by clause as ECMA-262 has it
//! - `IsScript`, `IsExpression`, `IsFunction`: these tokens are a source with this tree; `BeginsLanguage`: some tokens behind
//!   these make them a source
//! - *level*: which operators and forms an expression may stand beside without parentheses
//! - *places*: where the nodes of a tree begin and end among its tokens; `AreSpans` says that spans are those of the
//!   nodes
#![tactic(auto)]

pub mod boxes;
pub mod expressions;
pub mod parts;
pub mod statements;
