//! The parser: a recursive descent over lent tokens.
//!
//! Each function reads a form at the front of the tokens, and answers its tree, the tree's height, and the tokens behind it.
//!
//! - `*_below` reads a tree that is at most `room` high.
//! - `*_at` reads a form whose parts may be `room` high: it is at most one higher.
//! - `*_before` reads a list, or what may be left out, up to the token that closes it, which is read too.
//!
//! Its words in contracts:
//!
//! - *gives*: the answer is that of the reader of `js_parser_readers` (`Gives`)
//! - *height*: how high the tree is, and that it isn't higher than it may be
//! - *placed*: where the nodes of what was read stand (`Placed`)
#![tactic(auto)]

pub mod arrows;
pub mod blocks;
mod calls;
mod declarations;
mod exceptions;
pub mod expressions;
pub mod limits;
mod lists;
mod loops;
mod objects;
mod operators;
pub mod parsed;
pub mod primaries;
mod statements;
