//! Residual terms as code.
//!
//! `term_view` (`specs/Views.antt`) is the term of the definitions that a term of the code is.
#![tactic(auto)]

pub mod copies;
pub mod term;
