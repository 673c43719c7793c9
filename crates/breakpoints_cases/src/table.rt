//! The breakpoints of three sessions, and the index of their places.

ghost use Rattle.std.specs.Prelude.{◌≡◌, map};
ghost use Rattle.locations.specs.Locations.{break_locations};

use crate::change::{Change, Kind};
use breakpoints::{AddFault, Breakpoints, PlaceIndex, ScriptSpots};
use cdp_text::position::{Place, Pos};
use cdp_text::units::{Units, ascii};
use js_tree::script::Script;
use std::alloc::{AllocError, Global};

/// The places that are looked at have fewer lines and columns.
const LINES: u32 = 16;

const COLUMNS: u32 = 64;

/// The breakpoints of sessions, and the index of their places.
#[derive(Drop)]
pub(crate) struct Table {
    alloc: Global,
    sessions: Vec<Breakpoints>,
    index: PlaceIndex,
}

/// The id of a breakpoint that was asked for at a place.
fn id_of(alloc: Global, place: Place) -> Result<Units, AllocError> {
    let (line, col, script) = (place.pos.line, place.pos.col, place.script);
    let text = format!(in alloc; "4:{line}:{col}:{script}")?;
    ascii(alloc, text.as_bytes())
}

/// Changes the breakpoints of one session.
fn change(
    alloc: Global,
    breakpoints: &mut Breakpoints,
    scripts: &[Script],
    spots: &ScriptSpots,
    kind: Kind,
) -> Result<(), AllocError>
    requires { spots.now ≡ map break_locations scripts.now }
{
    match kind {
        Kind::Set(place) => {
            if let Err(AddFault::Memory) = breakpoints.add_at(scripts, spots, place, None) {
                return Err(AllocError);
            }
        }
        Kind::Remove(place) => {
            let id = id_of(alloc, place)?;
            breakpoints.remove(id.as_slice());
        }
        Kind::Leave => *breakpoints = Breakpoints::new(alloc),
    }
    Ok(())
}

impl Table {
    /// Three sessions without breakpoints.
    pub(crate) fn new(alloc: Global) -> Result<Table, AllocError> {
        let mut sessions = Vec::new(alloc);
        for _ in 0..3 {
            sessions.push(Breakpoints::new(alloc))?;
        }
        Ok(Table {
            alloc,
            sessions,
            index: PlaceIndex::new(alloc),
        })
    }

    /// Changes the breakpoints of a session, and gives the index the places that it then has.
    pub(crate) fn apply(
        &mut self,
        scripts: &[Script],
        spots: &ScriptSpots,
        what: Change,
    ) -> Result<(), AllocError>
        requires { spots.now ≡ map break_locations scripts.now }
    {
        let Some(breakpoints) = self.sessions.get_mut(what.session) else {
            return Ok(());
        };
        change(self.alloc, breakpoints, scripts, spots, what.kind)?;
        let session = what.session as u64;
        if let Kind::Leave = what.kind {
            self.index.forget(session);
            return Ok(());
        }
        self.index.set(session, breakpoints.places())
    }

    /// Whether the index names just the sessions that have breakpoints at a place.
    fn agrees_at(&self, place: Place) -> bool {
        let holders = self.index.holders(place);
        let mut found: usize = 0;
        for (session, breakpoints) in self.sessions.iter().enumerate() {
            let stands = breakpoints.at(place).next().is_some();
            if stands != holders.contains(&(session as u64)) {
                return false;
            }
            found = found.saturating_add(usize::from(stands));
        }
        found == holders.len()
    }

    /// At how many places of a line the index and the sessions don't agree.
    fn wrong_in(&self, line: u32) -> u32 {
        let mut wrong: u32 = 0;
        for col in 0..COLUMNS {
            let place = Place {
                script: 1,
                pos: Pos { line, col },
            };
            wrong = wrong.saturating_add(u32::from(!self.agrees_at(place)));
        }
        wrong
    }

    /// At how many places the index and the sessions don't agree.
    pub(crate) fn wrong(&self) -> u32 {
        let mut wrong: u32 = 0;
        for line in 0..LINES {
            wrong = wrong.saturating_add(self.wrong_in(line));
        }
        wrong
    }

    /// How many pairs of a session and a place of a line the index has.
    fn pairs_in(&self, line: u32) -> usize {
        let mut pairs: usize = 0;
        for col in 0..COLUMNS {
            let place = Place {
                script: 1,
                pos: Pos { line, col },
            };
            pairs = pairs.saturating_add(self.index.holders(place).len());
        }
        pairs
    }

    /// How many pairs of a session and a place the index has.
    pub(crate) fn pairs(&self) -> usize {
        let mut pairs: usize = 0;
        for line in 0..LINES {
            pairs = pairs.saturating_add(self.pairs_in(line));
        }
        pairs
    }
}
