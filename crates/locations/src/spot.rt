//! Break locations, and the search among those of a script.

ghost use Rattle.std.specs.Prelude.{◌≡◌, ◌≤◌, ◌↔◌, true, false, length, filter, slice_get, All, IsNone};
ghost use Rattle.std.specs.List.Sorted.{IsPartitionPoint};
ghost use Rattle.cdp_text.specs.Position.{IsBefore};
ghost use Rattle.locations.specs.Order.{IsAscending};
ghost use Rattle.locations.specs.Search.{is_before, first_from, is_between};

use cdp_text::position::Pos;

/// What a break location is, from the weakest to the strongest: of several at one place the strongest stands.
#[derive(Clone, Copy)]
pub enum SpotKind {
    /// The start of a statement.
    Plain,
    /// The start of a `debugger` statement.
    Debugger,
    /// The start of a `return` statement or of an arrow's expression body, or the closing brace of a function's body.
    Return,
    /// A call.
    Call,
}

/// A break location of a script: its line and column, both counted from 0, the column in UTF-16 code units.
#[derive(Clone, Copy)]
pub struct Spot {
    pub pos: Pos,
    pub kind: SpotKind,
}

/// The first location that isn't before a position; `None` where each is before it.
///
/// The locations are in ascending order, as `break_locations` gives them. By halving.
pub fn first_at_or_after(spots: &[Spot], pos: Pos) -> Option<Spot>
    requires { IsAscending spots.now }
    ensures found { result ≡ first_from pos spots.now }
    ensures none { IsNone result ↔ All (λ s. IsBefore s.pos pos) spots.now }
{
    spot_at(spots, count_before(spots, pos))
}

/// The locations that aren't before the start, and are before the end, where there is one.
///
/// The locations are in ascending order, as `break_locations` gives them. By halving.
pub fn spots_between(spots: &[Spot], start: Pos, end: Option<Pos>) -> &[Spot]
    requires { IsAscending spots.now }
    ensures { result.now ≡ filter (is_between start end) spots.now }
{
    let rest = &spots[count_before(spots, start)..];
    match end {
        None => rest,
        Some(end) => &rest[..count_before(rest, end)],
    }
}

/// The location at a place of the list, if it is there.
fn spot_at(spots: &[Spot], place: usize) -> Option<Spot>
    ensures { result ≡ slice_get spots.now place }
{
    spots.get(place).copied()
}

/// How many locations are before a position.
fn count_before(spots: &[Spot], pos: Pos) -> usize
    requires { IsAscending spots.now }
    ensures within { result ≤ length spots.now }
    ensures split { IsPartitionPoint (λ s. is_before s.pos pos ≡ true) (λ s. is_before s.pos pos ≡ false) spots.now result }
{
    spots.partition_point(|spot| stands_before(spot, pos))
}

/// Whether a location is before a position.
#[tactic(auto, using(crate::proofs::SearchLemmas::decided))]
fn stands_before(spot: &Spot, pos: Pos) -> bool
    ensures { result ≡ is_before spot.now.pos pos }
{
    spot.pos.is_before(pos)
}
