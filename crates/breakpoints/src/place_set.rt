//! Places in ascending order.

ghost use Rattle.std.specs.Prelude.{◌≡◌, ◌+◌, ◌≤◌, [], length, vec_len, vec_capacity, OnErr, OnOk};
ghost use Rattle.breakpoints.specs.Hits.{has_place};
ghost use Rattle.breakpoints.specs.PlaceOrder.{AreAscending};
ghost use Rattle.breakpoints.specs.PlaceSet.{HasBoth, LacksOne};

use crate::ascending::{is_among, put, take_out};
use crate::place_filter::PlaceFilter;
use cdp_text::position::Place;
use std::alloc::{AllocError, Global};
use std::marker::Model;

/// Places, each once. One is found in logarithmic time; most that aren't among them are known by one look. Contracts
/// see their list, which is in ascending order.
#[derive(Drop)]
pub(crate) struct PlaceSet {
    places: Vec<Place>,
    filter: PlaceFilter,
}

impl Model for PlaceSet {
    ghost use Rattle.std.specs.Prelude.{List};
    ghost use Rattle.cdp_text.specs.declared.position.Place.{Place};

    ghost Value = { List Place };

    ghost view = { λ s. s.places.items };

    ghost use Rattle.breakpoints.specs.PlaceSet.{IsPlaceSet};

    ghost invariant = { λ s. IsPlaceSet s.places.items s.filter };
}

/// Puts places among ascending ones. There is room for all of them.
fn put_all(places: &mut Vec<Place>, more: &[Place])
    requires ascending { AreAscending places.old.items }
    requires room { vec_len places.old + length more.now ≤ vec_capacity places.old }
    ensures ascending { AreAscending places.new.items }
    ensures added { HasBoth more.now places.old.items places.new.items }
{
    for place in more {
        put(places, *place);
    }
}

impl PlaceSet {
    /// No places. It takes no memory.
    pub(crate) fn new(alloc: Global) -> PlaceSet
        ensures { result ≡ [] }
    {
        PlaceSet {
            places: Vec::new(alloc),
            filter: PlaceFilter::new(alloc),
        }
    }

    /// The places, in ascending order.
    pub(crate) fn as_slice(&self) -> &[Place]
        ensures all { result.now ≡ self.now }
        ensures ascending { AreAscending self.now }
    {
        self.places.as_slice()
    }

    /// Whether a place is in the set.
    pub(crate) fn has(&self, place: Place) -> bool
        ensures { result ≡ has_place place self.now }
    {
        self.filter.is_marked(place) && is_among(self.places.as_slice(), &place)
    }

    /// Puts places in.
    ///
    /// # Errors
    ///
    /// There is no memory for them; then nothing has changed.
    pub(crate) fn add_all(&mut self, more: &[Place]) -> Result<(), AllocError>
        ensures added { OnOk result (HasBoth more.now self.old self.new) }
        ensures kept { OnErr result (self.new ≡ self.old) }
    {
        self.places.reserve(more.len())?;
        put_all(&mut self.places, more);
        self.filter.mark_only(self.places.as_slice());
        Ok(())
    }

    /// Takes a place out, if it is in the set.
    pub(crate) fn remove(&mut self, place: Place)
        ensures { LacksOne place self.old self.new }
    {
        take_out(&mut self.places, &place);
        self.filter.mark_only(self.places.as_slice());
    }
}
