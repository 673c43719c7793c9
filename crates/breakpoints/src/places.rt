//! Where a breakpoint resolved.

ghost use Rattle.std.specs.Prelude.{◌≡◌};

use cdp_text::position::Place;
use std::marker::Model;

/// Places of scripts, in order. Contracts see their list.
#[derive(Drop)]
pub struct Places {
    items: Vec<Place>,
}

impl Model for Places {
    ghost use Rattle.std.specs.Prelude.{List};
    ghost use Rattle.cdp_text.specs.declared.position.Place.{Place};

    ghost Value = { List Place };

    ghost view = { λ p. p.items.items };
}

impl Places {
    /// These places, in the memory of the vector.
    pub fn from_vec(items: Vec<Place>) -> Places
        ensures { result ≡ items.items }
    {
        Places { items }
    }

    /// The places.
    pub fn as_slice(&self) -> &[Place]
        ensures { result.now ≡ self.now }
    {
        self.items.as_slice()
    }
}
