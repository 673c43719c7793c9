//! The JSON values of results (Chrome DevTools Protocol 1.3, domains Debugger and Runtime).

ghost use Rattle.std.specs.Prelude.{◌≡◌, List, ℕ, ◌++◌, map, IfOk, OnOk, option_map};
ghost use Rattle.cdp_json.specs.Views.{json_view, member_view};
ghost use Rattle.cdp_json.specs.Json as json;
ghost use Rattle.cdp_json.specs.Parts as parts;
ghost use Rattle.cdp_session_messages.specs.Results as results;

use cdp_json::parts::{
    ascii_text, copied_text, location, member, object_of_one, place_members, put_ascii_text,
    put_value,
};
use cdp_json::value::{Json, Member, list, object, text};
use cdp_text::position::Place;
use cdp_text::units::Units;
use locations::spot::{Spot, SpotKind};
use std::alloc::{AllocError, Global};

/// The result of enabling the debugger.
pub fn debugger_id(alloc: Global) -> Result<Json, AllocError>
    ensures { IfOk result (λ j. json_view j ≡ results.debugger_id) }
{
    let id = ascii_text(alloc, b"1")?;
    object_of_one(alloc, member(alloc, b"debuggerId", id)?)
}

// ---- locations

/// Places, in order.
fn locations(alloc: Global, places: &[Place]) -> Result<Json, AllocError>
    ensures { IfOk result (λ j. json_view j ≡ parts.list_of (map parts.location places.now)) }
{
    let mut values = Vec::with_capacity(alloc, places.len())?;
    for place in places {
        values.push(location(alloc, *place)?)?;
    }
    Ok(list(values))
}

/// The name of a kind of break locations; a plain one has none.
fn kind_name(kind: SpotKind) -> Option<&'static [u8]>
    ensures { option_map (λ n. n.now) result ≡ results.kind_name kind }
{
    match kind {
        SpotKind::Plain => None,
        SpotKind::Debugger => Some(b"debuggerStatement"),
        SpotKind::Return => Some(b"return"),
        SpotKind::Call => Some(b"call"),
    }
}

/// Puts the type of a break location behind other members, if it has one.
fn put_kind(members: &mut Vec<Member>, kind: SpotKind) -> Result<(), AllocError>
    ensures { OnOk result (map member_view members.new.items ≡ map member_view members.old.items ++ results.kind_pairs kind) }
{
    let alloc = *members.allocator();
    match kind_name(kind) {
        Some(name) => put_ascii_text(alloc, members, b"type", name),
        None => Ok(()),
    }
}

/// A break location of the script of this number.
fn spot_location(alloc: Global, script: u32, spot: &Spot) -> Result<Json, AllocError>
    ensures { IfOk result (λ j. json_view j ≡ results.spot_location script spot.now) }
{
    let pos = spot.pos;
    let mut members = place_members(alloc, Place { script, pos })?;
    put_kind(&mut members, spot.kind)?;
    Ok(object(members))
}

/// Break locations of the script of this number, in order.
fn spot_list(alloc: Global, script: u32, spots: &[Spot]) -> Result<Json, AllocError>
    ensures { IfOk result (λ j. json_view j ≡ parts.list_of (map (results.spot_location script) spots.now)) }
{
    let mut values = Vec::with_capacity(alloc, spots.len())?;
    for spot in spots {
        values.push(spot_location(alloc, script, spot)?)?;
    }
    Ok(list(values))
}

/// The result that lists break locations of the script of this number.
pub fn spot_locations(alloc: Global, script: u32, spots: &[Spot]) -> Result<Json, AllocError>
    ensures { IfOk result (λ j. json_view j ≡ results.spot_locations script spots.now) }
{
    let listed = spot_list(alloc, script, spots)?;
    object_of_one(alloc, member(alloc, b"locations", listed)?)
}

// ---- breakpoints

/// The result of setting a breakpoint by URL: its id, and where it resolved.
pub fn set_by_url(alloc: Global, id: Units, places: &[Place]) -> Result<Json, AllocError>
    ensures { IfOk result (λ j. json_view j ≡ results.set_by_url id places.now) }
{
    let mut members = Vec::new(alloc);
    put_value(alloc, &mut members, b"breakpointId", text(id))?;
    let listed = locations(alloc, places)?;
    put_value(alloc, &mut members, b"locations", listed)?;
    Ok(object(members))
}

/// The result of setting a breakpoint at a location: where it resolved, and its id.
pub fn set_at(alloc: Global, id: Units, place: Place) -> Result<Json, AllocError>
    ensures { IfOk result (λ j. json_view j ≡ results.set_at id place) }
{
    let resolved = location(alloc, place)?;
    let mut members = Vec::new(alloc);
    put_value(alloc, &mut members, b"actualLocation", resolved)?;
    put_value(alloc, &mut members, b"breakpointId", text(id))?;
    Ok(object(members))
}

// ---- sources

/// The result that has a script's source.
pub fn script_source(alloc: Global, source: &[u16]) -> Result<Json, AllocError>
    ensures { IfOk result (λ j. json_view j ≡ results.script_source source.now) }
{
    let copy = copied_text(alloc, source)?;
    object_of_one(alloc, member(alloc, b"scriptSource", copy)?)
}

// ---- names

/// The result that lists the names that scripts have declared.
pub fn declared_names(alloc: Global, names: Vec<Json>) -> Result<Json, AllocError>
    ensures { IfOk result (λ j. (texts : List (List ℕ)) → map json_view names.items ≡ map json.text texts → json_view j ≡ results.declared_names texts) }
{
    object_of_one(alloc, member(alloc, b"names", list(names))?)
}
