//! Where breakpoints resolve.

ghost use Rattle.std.specs.Prelude.{◌≡◌, ◌++◌, map, slice_get, option_to_list, Some, IfOk, OnOk};
ghost use Rattle.locations.specs.Locations.{break_locations};
ghost use Rattle.breakpoints.specs.Resolving.{resolved_at, resolved_by_url, resolved_in, resolved_of};

use crate::ids::is_same;
use crate::script_spots::ScriptSpots;
use cdp_text::position::{Place, Pos};
use js_tree::script::Script;
use locations::spot::first_at_or_after;
use std::alloc::{AllocError, Global};

/// Where a position resolves in the script that stands at this place of the list.
fn resolve_in(script: &Script, spots: &ScriptSpots, index: usize, pos: Pos) -> Option<Place>
    requires { slice_get spots.now index ≡ Some (break_locations script.now) }
    ensures { result ≡ resolved_in pos script.now }
{
    let spot = first_at_or_after(spots.get(index)?, pos)?;
    Some(Place {
        script: script.number,
        pos: spot.pos,
    })
}

/// Where a position resolves in the script that stands at this place of the list, if it is of this URL.
fn resolve_of(
    script: &Script,
    spots: &ScriptSpots,
    index: usize,
    url: &[u16],
    pos: Pos,
) -> Option<Place>
    requires { slice_get spots.now index ≡ Some (break_locations script.now) }
    ensures { result ≡ resolved_of url.now pos script.now }
{
    if is_same(script.url.as_slice(), url) {
        return resolve_in(script, spots, index, pos);
    }
    None
}

/// A place behind others, if there is one.
fn push_resolved(places: &mut Vec<Place>, resolved: Option<Place>) -> Result<(), AllocError>
    ensures { OnOk result (places.new.items ≡ places.old.items ++ option_to_list resolved) }
{
    if let Some(place) = resolved {
        places.push(place)?;
    }
    Ok(())
}

/// Where a position resolves in the scripts of a URL.
///
/// # Errors
///
/// There is no memory for the places.
pub(crate) fn resolve_by_url(
    alloc: Global,
    scripts: &[Script],
    spots: &ScriptSpots,
    url: &[u16],
    pos: Pos,
) -> Result<Vec<Place>, AllocError>
    requires { spots.now ≡ map break_locations scripts.now }
    ensures { IfOk result (λ places. places.items ≡ resolved_by_url url.now pos scripts.now) }
{
    let mut places = Vec::new(alloc);
    for (index, script) in scripts.iter().enumerate() {
        let resolved = resolve_of(script, spots, index, url, pos);
        push_resolved(&mut places, resolved)?;
    }
    Ok(places)
}

/// Where a place resolves in its script.
pub(crate) fn resolve_at(scripts: &[Script], spots: &ScriptSpots, place: Place) -> Option<Place>
    requires { spots.now ≡ map break_locations scripts.now }
    ensures { result ≡ resolved_at place scripts.now }
{
    for (index, script) in scripts.iter().enumerate() {
        if script.number == place.script {
            return resolve_in(script, spots, index, place.pos);
        }
    }
    None
}
