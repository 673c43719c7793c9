//! The breakpoints of a session.

ghost use Rattle.std.specs.Prelude.{◌≡◌, ◌∷◌, [], length, map, OnErr, OnOk, IfOk, Some};
ghost use Rattle.std.specs.List.{list_any, position};
ghost use Rattle.locations.specs.Locations.{break_locations};
ghost use Rattle.breakpoints.specs.Breakpoints.{Answers, breakpoint_of, fault_at, fault_of, has_id, hits_at, is_hit, none_set, with_breakpoint, without};
ghost use Rattle.breakpoints.specs.Hits.{hits_in, stands_at};
ghost use Rattle.breakpoints.specs.Ids.{place_id, url_id};
ghost use Rattle.breakpoints.specs.Indexed.{ArePlacesOf, KeepsStanding};
ghost use Rattle.breakpoints.specs.PlaceOrder.{AreAscending};
ghost use Rattle.breakpoints.specs.Resolving.{resolved_at, resolved_by_url};

use crate::added::{AddedAt, AddedByUrl};
use crate::breakpoint::Breakpoint;
use crate::fault::AddFault;
use crate::hits::Hits;
use crate::ids::{place_id, url_id};
use crate::place_set::PlaceSet;
use crate::places::Places;
use crate::resolving::{resolve_at, resolve_by_url};
use crate::script_spots::ScriptSpots;
use cdp_text::position::{Place, Pos};
use cdp_text::units::Units;
use js_tree::script::Script;
use std::alloc::Global;
use std::marker::Model;

/// As many breakpoints as a session may have.
const MOST: usize = 1000;

/// The breakpoints that a session has set, and whether they stop the program.
#[derive(Drop)]
pub struct Breakpoints {
    alloc: Global,
    list: Vec<Breakpoint>,
    index: PlaceSet,
    active: bool,
}

impl Model for Breakpoints {
    ghost use Rattle.breakpoints.specs.Breakpoints.{HeldBreakpoints};

    ghost Value = { HeldBreakpoints };

    ghost view = { λ b. record { set = b.list.items; active = b.active } };

    ghost use Rattle.breakpoints.specs.Indexed.{IsIndexed};

    ghost invariant = { λ b. IsIndexed b.list.items b.index };
}

/// Whether a breakpoint resolved to a place.
fn stands(list: &[Breakpoint], place: Place) -> bool
    ensures { result ≡ list_any (stands_at place) list.now }
{
    list.iter().any(|b| b.stands_at(place))
}

/// Takes a place out of the index where none of these breakpoints stands at it.
fn take_unless_stands(index: &mut PlaceSet, place: Place, list: &[Breakpoint])
    ensures { KeepsStanding (place ∷ []) list.now index.old index.new }
{
    if !stands(list, place) {
        index.remove(place);
    }
}

/// Takes those of some places out of the index at which none of these breakpoints stands.
fn take_unless_stand(index: &mut PlaceSet, places: &[Place], list: &[Breakpoint])
    ensures { KeepsStanding places.now list.now index.old index.new }
{
    for place in places {
        take_unless_stands(index, *place, list);
    }
}

impl Breakpoints {
    /// No breakpoints; those that are set will be active. It takes no memory.
    pub fn new(alloc: Global) -> Breakpoints
        ensures { result ≡ none_set }
    {
        Breakpoints {
            alloc,
            list: Vec::new(alloc),
            index: PlaceSet::new(alloc),
            active: true,
        }
    }

    /// How many breakpoints are set.
    pub fn count(&self) -> usize
        ensures { result ≡ length self.now.set }
    {
        self.list.len()
    }

    /// Whether a breakpoint has an id.
    fn has(&self, id: &[u16]) -> bool
        ensures { result ≡ list_any (has_id id.now) self.now.set }
    {
        self.list.iter().any(|b| b.has_id(id))
    }

    /// Where the breakpoint of an id stands in their order, counted from 0.
    fn position(&self, id: &[u16]) -> Option<usize>
        ensures { result ≡ position (has_id id.now) self.now.set }
    {
        self.list.iter().position(|b| b.has_id(id))
    }

    /// Sets a breakpoint at these places.
    fn add(&mut self, id: Units, condition: Option<Units>, places: Places) -> Result<(), AddFault>
        ensures answers { Answers (fault_of id self.old) result }
        ensures added { OnOk result (self.new ≡ with_breakpoint (breakpoint_of id condition places) self.old) }
        ensures kept { OnErr result (self.new ≡ self.old) }
    {
        if self.has(id.as_slice()) {
            return Err(AddFault::Exists { id });
        }
        if self.list.len() >= MOST {
            return Err(AddFault::Full { count: MOST as u64 });
        }
        self.list.reserve(1)?;
        self.index.add_all(places.as_slice())?;
        let breakpoint = Breakpoint {
            id,
            condition,
            places,
        };
        self.list.push(breakpoint).unwrap();
        Ok(())
    }

    /// Sets a breakpoint at a position of the scripts of a URL, and answers its id and where it resolved: in each of
    /// them that has a break location at the position or after it, in the order of the scripts. The spots are those of
    /// the scripts.
    ///
    /// # Errors
    ///
    /// `Exists` where a breakpoint has its id, `Full` at 1,000 breakpoints, `Memory`; then nothing has changed.
    pub fn add_by_url(
        &mut self,
        scripts: &[Script],
        spots: &ScriptSpots,
        url: &[u16],
        pos: Pos,
        condition: Option<Units>,
    ) -> Result<AddedByUrl, AddFault>
        requires { spots.now ≡ map break_locations scripts.now }
        ensures id { IfOk result (λ added. added.id ≡ url_id pos url.now) }
        ensures places { IfOk result (λ added. added.places.items ≡ resolved_by_url url.now pos scripts.now) }
        ensures answers { Answers (fault_of (url_id pos url.now) self.old) result }
        ensures added { OnOk result (self.new ≡ with_breakpoint (breakpoint_of (url_id pos url.now) condition (resolved_by_url url.now pos scripts.now)) self.old) }
        ensures kept { OnErr result (self.new ≡ self.old) }
    {
        let places = resolve_by_url(self.alloc, scripts, spots, url, pos)?;
        let id = url_id(self.alloc, pos, url)?;
        let added = AddedByUrl {
            id: id.clone()?,
            places: places.clone()?,
        };
        self.add(id, condition, Places::from_vec(places))?;
        Ok(added)
    }

    /// Sets a breakpoint at a place of one script, and answers its id and where it resolved: the first break location
    /// of the script that isn't before it. The spots are those of the scripts.
    ///
    /// # Errors
    ///
    /// `Unresolved` where the script has no such location, or no script has the number; `Exists` where a breakpoint has its
    /// id, `Full` at 1,000 breakpoints, `Memory`; then nothing has changed.
    pub fn add_at(
        &mut self,
        scripts: &[Script],
        spots: &ScriptSpots,
        place: Place,
        condition: Option<Units>,
    ) -> Result<AddedAt, AddFault>
        requires { spots.now ≡ map break_locations scripts.now }
        ensures id { IfOk result (λ added. added.id ≡ place_id place) }
        ensures place { IfOk result (λ added. resolved_at place scripts.now ≡ Some added.place) }
        ensures answers { Answers (fault_at place scripts.now self.old) result }
        ensures added { IfOk result (λ added. self.new ≡ with_breakpoint (breakpoint_of (place_id place) condition (added.place ∷ [])) self.old) }
        ensures kept { OnErr result (self.new ≡ self.old) }
    {
        let Some(resolved) = resolve_at(scripts, spots, place) else {
            return Err(AddFault::Unresolved);
        };
        let places = vec![in self.alloc; resolved]?;
        let id = place_id(self.alloc, place)?;
        let added = AddedAt {
            id: id.clone()?,
            place: resolved,
        };
        self.add(id, condition, Places::from_vec(places))?;
        Ok(added)
    }

    /// Removes the breakpoint of an id, and answers whether there was one.
    pub fn remove(&mut self, id: &[u16]) -> bool
        ensures had { result ≡ list_any (has_id id.now) self.old.set }
        ensures rest { self.new ≡ without id.now self.old }
    {
        let Some(place) = self.position(id) else {
            return false;
        };
        let removed = self.list.remove(place);
        take_unless_stand(
            &mut self.index,
            removed.places.as_slice(),
            self.list.as_slice(),
        );
        true
    }

    /// The places to which its breakpoints resolved, each once, in the order of scripts, lines and columns. They are
    /// the same where the breakpoints aren't active.
    pub fn places(&self) -> &[Place]
        ensures exact { ArePlacesOf self.now.set result.now }
        ensures ascending { AreAscending result.now }
    {
        self.index.as_slice()
    }

    /// The breakpoints that resolved to a place, in the order in which they were set; none where they aren't active.
    pub fn at(&self, place: Place) -> Hits<'_>
        ensures { hits_in result.place result.left.now ≡ hits_at place self.now }
    {
        Hits {
            left: if self.active { &self.list } else { &[] },
            place,
        }
    }

    /// Whether an active breakpoint stands at a place. Costs a search among the places, and only a look for most of
    /// them.
    pub fn is_hit(&self, place: Place) -> bool
        ensures { result ≡ is_hit place self.now }
    {
        self.active && self.index.has(place)
    }

    /// Whether breakpoints stop the program from now on.
    pub fn set_active(&mut self, on: bool)
        ensures { self.new ≡ record self.old { active = on } }
    {
        self.active = on;
    }
}
