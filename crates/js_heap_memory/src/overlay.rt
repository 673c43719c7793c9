//! The cells of evaluations over those of a program.

ghost use Rattle.std.specs.Prelude.{◌≡◌, ◌≤◌, ◌⊎◌, ◌++◌, List, ℕ, OnErr, length, take};
ghost use Rattle.js_heap.specs.ScratchSpaces.{copied_world, keep_source};
ghost use Rattle.js_heap_memory.specs.Calls.{Tries};
ghost use Rattle.js_heap_memory.specs.Cells.{AllWithin};
ghost use Rattle.js_heap_memory.specs.Heaps.{heap_world};
ghost use Rattle.js_heap_memory.specs.Overlays.{over_world, space_of, first_space, space_after, next_of, mark_of, space_at};

use crate::change::{CellChange, change_in};
use crate::heap::{BaseHeap, is_within, push_cell, room_for, stored_at, value_in_cells};
use crate::names::{NameId, NameTable};
use crate::stored::Stored;
use crate::weight::{taken, weight};
use crate::world::{Refused, World};
use cdp_text::units::Units;
use js_heap::limits::{MOST_SCRATCH_CELLS, MOST_SCRATCH_UNITS};
use js_heap::value::{Addr, Value};
use std::alloc::Global;
use std::marker::Model;

/// The cells that a session's evaluations made, and what is left of their room. Names below `ends` are known.
#[derive(Drop)]
pub struct Scratch {
    cells: Vec<Stored>,
    ends: usize,
    // the cells before this place stood before the last evaluation, and have only names below this number
    earlier: usize,
    earlier_ends: usize,
    cells_left: u32,
    units_left: u32,
}

impl Model for Scratch {
    ghost use Rattle.js_heap_memory.specs.Heaps.{Heap, Fit};
    ghost use Rattle.js_heap_memory.specs.Overlays.{Earlier};

    ghost Value = { Heap };

    ghost view = { λ s. record { cells = s.cells.items; ends = s.ends; cells_left = s.cells_left; units_left = s.units_left } };

    ghost invariant = { λ s. Fit s.cells.items s.ends s.cells_left × Earlier s.cells.items s.earlier s.earlier_ends };
}

/// Where a session's cells ended, and what was left of their room. Names below `ends` were known.
#[derive(Drop)]
pub struct OverlayMark {
    count: usize,
    ends: usize,
    cells_left: u32,
    units_left: u32,
}

impl Model for OverlayMark {
    ghost use Rattle.std.specs.Prelude.{◌+◌, ◌<◌, ◌^◌};
    ghost use Rattle.js_heap_memory.specs.Overlays.{OverlayMark as AnyOverlayMark};

    ghost Value = { AnyOverlayMark };

    ghost view = { λ m. record { count = m.count; ends = m.ends; cells_left = m.cells_left; units_left = m.units_left } };

    ghost invariant = { λ m. m.count + m.cells_left < 2 ^ 32 };
}

impl Scratch {
    /// No cells. It takes no memory.
    pub fn new(alloc: Global) -> Scratch
        ensures { (names : List (List ℕ)) → space_of names result ≡ first_space }
    {
        Scratch {
            cells: Vec::new(alloc),
            ends: 0,
            earlier: 0,
            earlier_ends: 0,
            cells_left: MOST_SCRATCH_CELLS,
            units_left: MOST_SCRATCH_UNITS,
        }
    }

    /// From now on the names of a table are known.
    pub fn know(&mut self, table: &NameTable)
        ensures space { (names : List (List ℕ)) → space_of names self.new ≡ space_of names self.old }
        ensures known { length table.now ≤ self.new.ends }
    {
        let ends = table.len();
        if self.ends < ends {
            self.ends = ends;
        }
    }

    /// How many names of a table are known.
    pub fn known(&self) -> usize
        ensures { result ≡ self.now.ends }
    {
        self.ends
    }

    /// The address at which the next cell will stand.
    pub fn next_address(&self) -> Addr
        ensures { result ≡ next_of self.now }
    {
        Addr::Scratch(self.cells.len() as u32)
    }

    /// A table that goes on behind the known names makes no other space.
    pub fn goes_on(&self)
        ensures { (names more : List (List ℕ)) → self.now.ends ≤ length names → space_of (names ++ more) self.now ≡ space_of names self.now }
    {
        let _ = &self.cells;
    }

    /// Where the cells end now, with the room that is left. It takes no memory.
    pub fn mark(&self) -> OverlayMark
        ensures { result ≡ mark_of self.now }
    {
        OverlayMark {
            count: self.cells.len(),
            ends: self.ends,
            cells_left: self.cells_left,
            units_left: self.units_left,
        }
    }

    // How many names the cells before a mark need: those that were known there, where the cells are of that time.
    fn ends_at(&self, mark: &OverlayMark) -> usize
        ensures within { AllWithin result (take mark.now.count self.now.cells) }
        ensures known { (result ≡ self.now.ends) ⊎ (result ≡ mark.now.ends) }
    {
        if mark.count > self.earlier {
            return self.ends;
        }
        if self.earlier_ends > mark.ends {
            return self.ends;
        }
        mark.ends
    }

    /// Only the cells before a mark, with the room that was left there. It takes no memory.
    pub fn cut(&mut self, mark: OverlayMark)
        ensures space { (names : List (List ℕ)) → space_of names self.new ≡ space_at (space_of names self.old) mark }
        ensures known { (self.new.ends ≡ self.old.ends) ⊎ (self.new.ends ≡ mark.ends) }
    {
        self.ends = self.ends_at(&mark);
        self.cells.truncate(mark.count);
        self.earlier = self.earlier.min(mark.count);
        self.cells_left = mark.cells_left;
        self.units_left = mark.units_left;
    }
}

/// A copy of a program's world with a session's cells, in which only those from `start` on may be changed.
/// Names below `ends` are known.
#[derive(Drop)]
pub struct Overlay<'a> {
    base: &'a BaseHeap,
    cells: Vec<Stored>,
    ends: usize,
    start: u32,
    // the cells before `start` have only names below this number
    earlier_ends: usize,
    cells_left: u32,
    units_left: u32,
}

impl<'a> Model for Overlay<'a> {
    ghost use Rattle.js_heap_memory.specs.Heaps.{Fit};
    ghost use Rattle.js_heap_memory.specs.Overlays.{Over, Earlier};

    ghost Value = { Over };

    ghost view = { λ o. record { base = o.base.now; cells = o.cells.items; ends = o.ends; start = o.start; cells_left = o.cells_left; units_left = o.units_left } };

    ghost invariant = { λ o. Fit o.cells.items o.ends o.cells_left × Earlier o.cells.items o.start o.earlier_ends };
}

impl<'a> Overlay<'a> {
    /// The world of an evaluation, whose own cells are still to be made.
    #[tactic(auto, using(crate::proofs::HeapLemmas::length_rules))]
    pub fn over(base: &'a BaseHeap, scratch: Scratch) -> Overlay<'a>
        ensures world { (names : List (List ℕ)) → over_world names result ≡ copied_world (heap_world names base.now) (space_of names scratch) }
        ensures known { (result.base ≡ base.now) × (result.ends ≡ scratch.ends) }
    {
        let start = scratch.cells.len() as u32;
        Overlay {
            base,
            cells: scratch.cells,
            ends: scratch.ends,
            start,
            earlier_ends: scratch.ends,
            cells_left: scratch.cells_left,
            units_left: scratch.units_left,
        }
    }

    /// The session's cells after the evaluation.
    pub fn into_scratch(self) -> Scratch
        ensures space { (names : List (List ℕ)) → space_of names result ≡ space_after (over_world names self.entry) }
        ensures known { result.ends ≡ self.entry.ends }
    {
        Scratch {
            cells: self.cells,
            ends: self.ends,
            earlier: self.start as usize,
            earlier_ends: self.earlier_ends,
            cells_left: self.cells_left,
            units_left: self.units_left,
        }
    }

    /// Keeps the source of the evaluation under the next number. It counts its units and no cell.
    ///
    /// # Errors
    ///
    /// Its units would pass their limit; there is no memory, or no number, for it.
    pub fn keep(&mut self, source: Units) -> Result<Addr, Refused>
        ensures source { (names : List (List ℕ)) → Tries (keep_source (over_world names self.old) source) result (over_world names self.new) }
        ensures known { (self.new.base ≡ self.old.base) × (self.new.ends ≡ self.old.ends) }
        ensures kept { OnErr result (self.new ≡ self.old) }
    {
        let at = self.cells.len() as u32;
        if u32::MAX - at <= self.cells_left {
            return Err(Refused::Memory);
        }
        let left = taken(self.units_left, source.len() as u64)?;
        push_cell(&mut self.cells, Stored::Text { units: source })?;
        self.units_left = left;
        Ok(Addr::Scratch(at))
    }

    /// A table that goes on behind the known names makes no other world.
    pub fn goes_on(&self)
        ensures { (names more : List (List ℕ)) → self.now.base.ends ≤ length names → self.now.ends ≤ length names → over_world (names ++ more) self.now ≡ over_world names self.now }
    {
        let _ = self.base.at(0);
        let _ = &self.cells;
    }
}

impl<'a> World for Overlay<'a> {
    ghost world = { λ names o. over_world names o };

    ghost ends = { λ o. o.ends };

    fn find(&self, a: Addr) -> Option<&Stored> {
        let _ = &self.cells;
        match a {
            Addr::Base(i) => self.base.at(i as usize),
            Addr::Scratch(i) => stored_at(self.cells.as_slice(), i as usize),
        }
    }

    #[tactic(auto, using(crate::proofs::HeapLemmas::heap_rules))]
    fn count(&self) -> usize {
        self.base.len() + self.cells.len()
    }

    fn known(&self) -> usize {
        self.ends
    }

    fn is_evaluation(&self) -> bool {
        true
    }

    fn make(&mut self, cell: Stored) -> Result<Addr, Refused> {
        if !is_within(&cell, self.ends) {
            return Err(Refused::Memory);
        }
        let left = room_for(self.cells_left, self.units_left, weight(&cell))?;
        let at = self.cells.len() as u32;
        push_cell(&mut self.cells, cell)?;
        self.cells_left -= 1;
        self.units_left = left;
        Ok(Addr::Scratch(at))
    }

    fn write(&mut self, a: Addr, change: CellChange<'_>) -> Result<(), Refused> {
        let _ = &self.cells;
        match a {
            Addr::Base(_) => Err(Refused::Effect),
            Addr::Scratch(i) => {
                if i < self.start {
                    return Err(Refused::Effect);
                }
                self.units_left = change_in(&mut self.cells, i as usize, change, self.units_left)?;
                Ok(())
            }
        }
    }

    fn bind_at(
        &mut self,
        names: &NameTable,
        scope: Addr,
        place: usize,
        name: NameId,
        value: Value,
    ) -> Result<(), Refused> {
        let _ = names.len();
        let _ = name;
        match scope {
            Addr::Base(_) => Err(Refused::Effect),
            Addr::Scratch(i) => {
                if i < self.start {
                    return Err(Refused::Effect);
                }
                value_in_cells(&mut self.cells, i as usize, place, value);
                Ok(())
            }
        }
    }

    fn cells(&self) -> u64 {
        u64::from(MOST_SCRATCH_CELLS).saturating_sub(u64::from(self.cells_left))
    }

    fn units(&self) -> u64 {
        u64::from(MOST_SCRATCH_UNITS).saturating_sub(u64::from(self.units_left))
    }
}
