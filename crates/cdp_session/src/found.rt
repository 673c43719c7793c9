//! A script that a command names.

ghost use Rattle.std.specs.Prelude.{◌≡◌};
ghost use Rattle.locations.specs.Locations.{break_locations};

use js_tree::script::Script;
use locations::spot::Spot;

/// A script with its break locations.
#[derive(Clone, Copy)]
pub(crate) struct FoundScript<'p> {
    pub(crate) script: &'p Script,
    pub(crate) spots: &'p [Spot],
    pub(crate) ghost located: { spots.now ≡ break_locations script.now },
}
