//! Sources that are ready to be evaluated.

use cdp_text::units::Units;
use js_machine_terms::term::Term;

/// A source, its string literals in its own order and in that of its term, and its term in which each literal has its
/// address.
#[derive(Drop)]
pub struct PreparedSource {
    /// The source.
    pub source: Units,
    /// Its string literals, in its own order.
    pub order: Vec<Units>,
    /// Its string literals, in the order of its term.
    pub literals: Vec<Units>,
    /// Its term.
    pub term: Term,
}
