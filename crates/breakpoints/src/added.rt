//! What is answered where a breakpoint is set.

use cdp_text::position::Place;
use cdp_text::units::Units;

/// A breakpoint that was set by URL.
#[derive(Drop)]
pub struct AddedByUrl {
    /// A copy of its id.
    pub id: Units,
    /// Where it resolved, in the order of the scripts.
    pub places: Vec<Place>,
}

/// A breakpoint that was set at a place of one script.
#[derive(Drop)]
pub struct AddedAt {
    /// A copy of its id.
    pub id: Units,
    /// Where it resolved.
    pub place: Place,
}
