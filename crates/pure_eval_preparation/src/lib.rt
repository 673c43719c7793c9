//! What an evaluation needs of a parsed expression, and a call of a parsed function: the string literals in the order of the
//! source, and the term with the addresses of their cells.
#![tactic(auto)]

mod literals;
mod preparing;

pub use literals::source_literals;
pub use preparing::{prepare, prepare_function};
