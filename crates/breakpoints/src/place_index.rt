//! Which sessions have breakpoints at a place.

ghost use Rattle.std.specs.Prelude.{◌≡◌, ◌↔◌, ◌+◌, ◌≤◌, [], filter, length, map, take, vec_len, vec_capacity, IsOk, IsTrue, OnErr, OnOk, true, false};
ghost use Rattle.std.specs.List.Sorted.{IsPartitionPoint, IsStrictlyIncreasing};
ghost use Rattle.breakpoints.specs.Hits.{has_place};
ghost use Rattle.breakpoints.specs.PlaceIndex.{AreInOrder, HasAlso, HasOnly, HoldersAre, HoldsAll, holders_at, holds, is_at_place, is_before, session_of, starts_at, stays, without_session};

use crate::ascending::{is_among, put};
use crate::holding::Holding;
use cdp_text::position::Place;
use std::alloc::{AllocError, Global};
use std::marker::Model;

/// The places at which sessions have breakpoints, each with these sessions. Contracts see the list of the pairs of a
/// session and a place, in the order of places, then of sessions.
#[derive(Drop)]
pub struct PlaceIndex {
    pairs: Vec<Holding>,
    // those of the pairs, in the same order: they are lent
    sessions: Vec<u64>,
}

impl Model for PlaceIndex {
    ghost use Rattle.std.specs.Prelude.{List};
    ghost use Rattle.breakpoints.specs.declared.holding.Holding.{Holding as AnyHolding};

    ghost Value = { List AnyHolding };

    ghost view = { λ i. i.pairs.items };

    ghost use Rattle.breakpoints.specs.PlaceIndex.{IsPlaceIndex};

    ghost invariant = { λ i. IsPlaceIndex i.pairs.items i.sessions.items };
}

/// Whether a place is one of these. A search, and a walk where that doesn't find it, since they may stand in any order.
fn is_one_of(places: &[Place], place: Place) -> bool
    ensures { result ≡ has_place place places.now }
{
    if places.binary_search(&place).is_ok() {
        return true;
    }
    places.iter().any(|p| *p == place)
}

/// Whether a session has a place.
fn holds(pairs: &[Holding], session: u64, place: Place) -> bool
    requires { AreInOrder pairs.now }
    ensures { result ≡ holds session place pairs.now }
{
    is_among(pairs, &Holding { place, session })
}

/// Whether a session has each of these places.
fn holds_all(pairs: &[Holding], session: u64, places: &[Place]) -> bool
    requires { AreInOrder pairs.now }
    ensures { IsTrue result ↔ HoldsAll session places.now pairs.now }
{
    for place in places {
        if !holds(pairs, session, *place) {
            return false;
        }
    }
    true
}

/// Puts the pairs of a session and these places among others. There is room for all of them.
fn put_all(pairs: &mut Vec<Holding>, session: u64, places: &[Place])
    requires ordered { AreInOrder pairs.old.items }
    requires room { vec_len pairs.old + length places.now ≤ vec_capacity pairs.old }
    ensures ordered { AreInOrder pairs.new.items }
    ensures added { HasAlso session places.now pairs.old.items pairs.new.items }
    ensures len { vec_len pairs.new ≤ vec_len pairs.old + length places.now }
{
    for place in places {
        let pair = Holding {
            place: *place,
            session,
        };
        put(pairs, pair);
    }
}

/// Puts the pairs of a session and these places among others, with room for the sessions of all.
///
/// # Errors
///
/// There is no memory for them; then nothing has changed. There is enough where the session has all of the places.
fn add(
    pairs: &mut Vec<Holding>,
    sessions: &mut Vec<u64>,
    session: u64,
    places: &[Place],
) -> Result<(), AllocError>
    requires ordered { AreInOrder pairs.old.items }
    requires beside { vec_len sessions.old ≡ vec_len pairs.old }
    ensures ordered { OnOk result (AreInOrder pairs.new.items) }
    ensures added { OnOk result (HasAlso session places.now pairs.old.items pairs.new.items) }
    ensures room { OnOk result (vec_len pairs.new ≤ vec_capacity sessions.new) }
    ensures kept { OnErr result (pairs.new.items ≡ pairs.old.items) }
    ensures beside { sessions.new.items ≡ sessions.old.items }
    ensures succeeds { HoldsAll session places.now pairs.old.items → IsOk result }
{
    if holds_all(pairs.as_slice(), session, places) {
        return Ok(());
    }
    pairs.reserve(places.len())?;
    sessions.reserve(places.len())?;
    put_all(pairs, session, places);
    Ok(())
}

/// Whether a pair stays where a session is to have these places alone.
fn stays(pair: &Holding, session: u64, places: &[Place]) -> bool
    ensures { result ≡ stays session places.now pair.now }
{
    pair.is_of_another(session) || is_one_of(places, pair.place)
}

/// Takes the pairs of a session out whose places aren't among these.
fn keep_only(pairs: &mut Vec<Holding>, session: u64, places: &[Place])
    ensures kept { pairs.new.items ≡ filter (stays session places.now) pairs.old.items }
    ensures len { vec_len pairs.new ≤ vec_len pairs.old }
{
    pairs.retain(|pair| stays(pair, session, places));
}

/// Takes the pairs of a session out.
fn take_all(pairs: &mut Vec<Holding>, session: u64)
    ensures kept { pairs.new.items ≡ without_session session pairs.old.items }
    ensures len { vec_len pairs.new ≤ vec_len pairs.old }
{
    pairs.retain(|pair| pair.is_of_another(session));
}

/// Writes the sessions of pairs. There is room for them.
fn write_sessions(sessions: &mut Vec<u64>, pairs: &[Holding])
    requires { length pairs.now ≤ vec_capacity sessions.old }
    ensures { sessions.new.items ≡ map session_of pairs.now }
{
    sessions.clear();
    for pair in pairs {
        sessions.push(pair.session).unwrap();
    }
}

/// Whether a pair's place is before another.
fn is_before(pair: &Holding, place: Place) -> bool
    ensures { result ≡ is_before place pair.now }
{
    pair.place.cmp(&place).is_lt()
}

/// Whether a pair is of a place.
fn is_at(pair: &Holding, place: Place) -> bool
    ensures { result ≡ is_at_place place pair.now }
{
    pair.place == place
}

/// How many pairs are of places before one.
fn count_before(pairs: &[Holding], place: Place) -> usize
    requires { AreInOrder pairs.now }
    ensures within { result ≤ length pairs.now }
    ensures split { IsPartitionPoint (λ h. is_before place h ≡ true) (λ h. is_before place h ≡ false) pairs.now result }
{
    pairs.partition_point(|pair| is_before(pair, place))
}

/// Whether the first pair is of a place.
fn starts_at(pairs: &[Holding], place: Place) -> bool
    ensures { result ≡ starts_at place pairs.now }
{
    match pairs.first() {
        Some(pair) => is_at(pair, place),
        None => false,
    }
}

/// How many pairs are of a place, where none is of one before it. By halving; where there are none, at a look.
fn count_at(pairs: &[Holding], place: Place) -> usize
    requires ordered { AreInOrder pairs.now }
    requires first { IsPartitionPoint (λ h. is_before place h ≡ true) (λ h. is_before place h ≡ false) pairs.now 0 }
    ensures within { result ≤ length pairs.now }
    ensures all { take result pairs.now ≡ filter (is_at_place place) pairs.now }
{
    if !starts_at(pairs, place) {
        return 0;
    }
    pairs.partition_point(|pair| is_at(pair, place))
}

impl PlaceIndex {
    /// No pairs. It takes no memory.
    pub fn new(alloc: Global) -> PlaceIndex
        ensures { result ≡ [] }
    {
        PlaceIndex {
            pairs: Vec::new(alloc),
            sessions: Vec::new(alloc),
        }
    }

    /// Gives a session these places and no others. The places of all other sessions stay.
    ///
    /// # Errors
    ///
    /// There is no memory for the places; then nothing has changed. There is enough where no place is new for the
    /// session.
    pub fn set(&mut self, session: u64, places: &[Place]) -> Result<(), AllocError>
        ensures own { OnOk result (HasOnly session places.now self.new) }
        ensures others { OnOk result (without_session session self.new ≡ without_session session self.old) }
        ensures kept { OnErr result (self.new ≡ self.old) }
        ensures succeeds { HoldsAll session places.now self.old → IsOk result }
    {
        add(&mut self.pairs, &mut self.sessions, session, places)?;
        keep_only(&mut self.pairs, session, places);
        write_sessions(&mut self.sessions, self.pairs.as_slice());
        Ok(())
    }

    /// Takes the places of a session out. It takes no memory.
    pub fn forget(&mut self, session: u64)
        ensures { self.new ≡ without_session session self.old }
    {
        take_all(&mut self.pairs, session);
        write_sessions(&mut self.sessions, self.pairs.as_slice());
    }

    /// The sessions that have a place, in ascending order. By halving.
    pub fn holders(&self, place: Place) -> &[u64]
        ensures value { result.now ≡ holders_at place self.now }
        ensures exact { HoldersAre place self.now result.now }
        ensures ascending { IsStrictlyIncreasing result.now }
    {
        let start = count_before(self.pairs.as_slice(), place);
        let end = start + count_at(&self.pairs[start..], place);
        &self.sessions[start..end]
    }
}
