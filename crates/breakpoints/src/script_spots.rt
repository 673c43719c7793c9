//! The break locations of the scripts of a run, found once.

ghost use Rattle.std.specs.Prelude.{◌≡◌, ◌<◌, ◌^◌, length, map, slice_get, All, IfOk, IfSome, IfNone, None, Some};
ghost use Rattle.locations.specs.Locations.{break_locations};
ghost use Rattle.locations.specs.Order.{IsAscending};

use js_tree::script::Script;
use locations::locations::break_locations;
use locations::spot::Spot;
use std::alloc::{AllocError, Global};
use std::marker::Model;

/// The break locations of scripts, a list for each, in the order of the scripts.
#[derive(Drop)]
pub struct ScriptSpots {
    lists: Vec<Vec<Spot>>,
}

impl Model for ScriptSpots {
    ghost use Rattle.std.specs.Prelude.{List, map, All};
    ghost use Rattle.locations.specs.declared.spot.Spot.{Spot as AnySpot};
    ghost use Rattle.breakpoints.specs.Found.{spots_in, IsInOrder};

    ghost Value = { List (List AnySpot) };

    ghost view = { λ s. map spots_in s.lists.items };

    ghost invariant = { λ s. All IsInOrder s.lists.items };
}

impl ScriptSpots {
    /// The break locations of each of these scripts.
    ///
    /// # Errors
    ///
    /// There is no memory for them.
    pub fn of(alloc: Global, scripts: &[Script]) -> Result<ScriptSpots, AllocError>
        requires { All (λ s. length s.source < 2 ^ 32) scripts.now }
        ensures { IfOk result (λ spots. spots ≡ map break_locations scripts.now) }
    {
        let mut lists = Vec::with_capacity(alloc, scripts.len())?;
        for script in scripts {
            lists.push(break_locations(alloc, script)?)?;
        }
        Ok(ScriptSpots { lists })
    }

    /// The break locations of a script by its place in the list of scripts, counted from 0, in ascending order.
    pub fn get(&self, index: usize) -> Option<&[Spot]>
        ensures some { IfSome result (λ spots. slice_get self.now index ≡ Some spots.now) }
        ensures none { IfNone result (slice_get self.now index ≡ None) }
        ensures ascending { IfSome result (λ spots. IsAscending spots.now) }
    {
        match self.lists.get(index) {
            Some(spots) => Some(spots.as_slice()),
            None => None,
        }
    }
}
