//! The laws of the readers: what they read is in the language, and what is in the language is read,
//! as its one tree. Where they stop, no source goes on so, or only sources that are too deep.
//!
//! Each function here is a law: it does nothing, and its contract says what is proved.
//!
//! Its words in contracts:
//!
//! - `LeavesAt`: the tokens before begin the language, and with the next one they don't
//! - `TooDeepFrom`: some first tokens begin the language, but only trees that are deeper
//! - `BeginsWritten`: tokens that can be written make a source of these
//! - `AreAlike`: the same tokens one by one, at other places
#![tactic(auto)]

pub mod laws;
