//! The operators of the language.
#![tactic(auto)]

pub mod operator;
