//! What a session finds of a step.

use cdp_text::units::Units;
use stepping::Cause;

/// What a session finds of a step: by which rule it names a stop, and which of its breakpoints are hit.
#[derive(Drop)]
pub struct Named {
    /// The first rule by which it names a stop, if one does.
    pub cause: Option<Cause>,
    /// The ids of the hit breakpoints, in the order in which they were set; none where the session is silent.
    pub hits: Vec<Units>,
}
