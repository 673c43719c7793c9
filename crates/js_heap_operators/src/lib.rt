//! Operators and properties on values.
#![tactic(auto)]

mod arithmetic;
pub mod numbers;
pub mod operators;
pub mod properties;
pub mod results;
pub mod text;
pub mod values;
