//! The tokens of a source, which they tile with their gaps.
//!
//! Its words in contracts:
//!
//! - *token*: a text of a kind by the lexical grammar (`IsToken`); the *longest* one that begins at a place is found
//! - *gap*: white space, line terminators and comments between tokens
//! - *bad*: neither a gap nor a token nor the end stands here
//! - `Tile`: tokens, and at last perhaps the place of a bad one, with gaps between them make up the units
//! - `items_of`: what is found of a source; `tokens_left`: what an iterator has left of it; `Lent` is a token as
//!   contracts see it
#![tactic(auto)]

mod classes;
mod gap;
pub mod laws;
pub mod number;
mod punctuators;
mod spelling;
pub mod strings;
pub mod token;
pub mod tokens;
mod words;
