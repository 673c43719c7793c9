//! A session that has breakpoints at a place.

ghost use Rattle.std.specs.Prelude.{◌≡◌};
ghost use Rattle.breakpoints.specs.PlaceIndex.{is_of_another};

use cdp_text::position::Place;

/// A session that has breakpoints at a place. Ordered by place, then session.
#[derive(Clone, Copy, PartialEq, Eq, PartialOrd, Ord)]
pub struct Holding {
    /// The place.
    pub place: Place,
    /// The number of the session.
    pub session: u64,
}

impl Holding {
    /// Whether it is of another session than this.
    pub(crate) fn is_of_another(&self, session: u64) -> bool
        ensures { result ≡ is_of_another session self.now }
    {
        self.session != session
    }
}
