//! A breakpoint.

ghost use Rattle.std.specs.Prelude.{◌≡◌};
ghost use Rattle.breakpoints.specs.Breakpoints.{has_id};
ghost use Rattle.breakpoints.specs.Hits.{stands_at};

use crate::ids::is_same;
use crate::places::Places;
use cdp_text::position::Place;
use cdp_text::units::Units;

/// A breakpoint that a session has set.
#[derive(Drop)]
pub struct Breakpoint {
    /// Its id, `1:LINE:COLUMN:URL` or `4:LINE:COLUMN:SCRIPT`, with the position as it was asked for, counted from 0.
    pub id: Units,
    /// The expression that is evaluated where the program arrives, if there is one.
    pub condition: Option<Units>,
    /// Where it resolved, in the order of the scripts.
    pub places: Places,
}

impl Breakpoint {
    /// Whether this is its id.
    pub fn has_id(&self, id: &[u16]) -> bool
        ensures { result ≡ has_id id.now self.now }
    {
        is_same(self.id.as_slice(), id)
    }

    /// Whether it resolved to a place.
    pub fn stands_at(&self, place: Place) -> bool
        ensures { result ≡ stands_at place self.now }
    {
        self.places.as_slice().iter().any(|p| *p == place)
    }
}
