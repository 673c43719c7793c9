//! The program's cells. Its names are in a table that is lent to each call.

ghost use Rattle.std.specs.Prelude.{◌≡◌, ◌<◌, ◌≤◌, ◌++◌, ◌∷◌, ◌^◌, [], List, ℕ, IfOk, OnErr, OnOk, length, option_copied, slice_get};
ghost use Rattle.js_heap.specs.BuiltIns.{first_world};
ghost use Rattle.js_heap_memory.specs.Heaps.{all_below, is_below, is_within, value_in_cell, value_in_cells, heap_world, Fit, MakesRoom};

use crate::change::{CellChange, change_in};
use crate::names::{NameId, NameTable};
use crate::start::{add_built_ins, add_literals};
use crate::stored::{FunctionName, Slot, Stored};
use crate::weight::{taken, weight};
use crate::world::{Refused, World};
use cdp_text::units::Units;
use js_heap::change::Counted;
use js_heap::limits::{MOST_CELLS, MOST_UNITS};
use js_heap::value::{Addr, Value};
use std::alloc::{AllocError, Global};
use std::marker::Model;

/// The program's cells, and what is left of the room. Names below `ends` are known.
#[derive(Drop)]
pub struct BaseHeap {
    cells: Vec<Stored>,
    ends: usize,
    cells_left: u32,
    units_left: u32,
}

impl Model for BaseHeap {
    ghost use Rattle.js_heap_memory.specs.Heaps.{Heap, Fit};

    ghost Value = { Heap };

    ghost view = { λ h. record { cells = h.cells.items; ends = h.ends; cells_left = h.cells_left; units_left = h.units_left } };

    ghost invariant = { λ h. Fit h.cells.items h.ends h.cells_left };
}

/// What is at a place.
pub(crate) fn stored_at(cells: &[Stored], at: usize) -> Option<&Stored>
    ensures { option_copied result ≡ slice_get cells.now at }
{
    cells.get(at)
}

/// One more cell.
pub(crate) fn push_cell(cells: &mut Vec<Stored>, cell: Stored) -> Result<(), AllocError>
    ensures pushed { OnOk result (cells.new.items ≡ cells.old.items ++ cell ∷ []) }
    ensures kept { OnErr result (cells.new.items ≡ cells.old.items) }
{
    cells.push(cell)?;
    Ok(())
}

/// Whether all names are numbers below one.
fn all_below(slots: &[Slot], end: usize) -> bool
    ensures { result ≡ all_below slots.now end }
{
    for slot in slots {
        if slot.name.number as usize >= end {
            return false;
        }
    }
    true
}

/// Whether a function's name, if a table has it, is a number below one.
fn is_below(name: &FunctionName, end: usize) -> bool
    ensures { result ≡ is_below name.now end }
{
    match name {
        FunctionName::Known(name) => (name.number as usize) < end,
        FunctionName::Empty => true,
        FunctionName::Made(_) => true,
    }
}

/// Whether a cell has only numbers below one.
pub fn is_within(cell: &Stored, end: usize) -> bool
    ensures { result ≡ is_within cell.now end }
{
    match cell {
        Stored::Function(function) => is_below(&function.name, end),
        Stored::Scope { name, slots, .. } => is_below(name, end) && all_below(slots.slice(), end),
        _ => true,
    }
}

/// What is left of the units once a cell of these units is made, or what it would pass: the cells' limit before the units'.
pub(crate) fn room_for(cells_left: u32, units_left: u32, units: u64) -> Result<u32, Refused>
    ensures { MakesRoom cells_left units_left units result }
{
    if cells_left == 0 {
        return Err(Refused::Full(Counted::Cells));
    }
    taken(units_left, units)
}

/// Gives the name at a place of a scope a value.
fn value_in_cell(cell: &mut Stored, place: usize, value: Value)
    ensures { cell.new ≡ value_in_cell cell.old place value }
{
    match cell {
        Stored::Scope { slots, .. } => slots.set(place, value),
        _ => {}
    }
}

/// Gives the name at a place of the scope at a place a value.
#[tactic(auto, using(crate::proofs::BindLemmas::cell_rules))]
pub(crate) fn value_in_cells(cells: &mut Vec<Stored>, at: usize, place: usize, value: Value)
    ensures { cells.new.items ≡ value_in_cells cells.old.items at place value }
{
    if at < cells.len() {
        value_in_cell(&mut cells[at], place, value);
    }
}

impl BaseHeap {
    /// The cells before the first step, for the string literals of the scripts; none of these cells counts.
    /// The table has the names of the built-in cells ([`crate::start::add_built_in_names`]).
    ///
    /// # Errors
    ///
    /// There is no memory for them, or a name isn't in the table.
    pub fn start(
        alloc: Global,
        names: &NameTable,
        literals: &[Units],
    ) -> Result<BaseHeap, AllocError>
        ensures world { IfOk result (λ heap. heap_world names.now heap ≡ first_world literals.now) }
        ensures known { IfOk result (λ heap. heap.ends ≡ length names.now) }
    {
        if literals.len() >= 1 << 31 {
            return Err(AllocError);
        }
        let mut cells = Vec::new(alloc);
        add_built_ins(alloc, names, &mut cells)?;
        add_literals(alloc, &mut cells, literals)?;
        Ok(BaseHeap {
            cells,
            ends: names.len(),
            cells_left: MOST_CELLS,
            units_left: MOST_UNITS,
        })
    }

    /// What is at a place, if there is something.
    pub fn at(&self, place: usize) -> Option<&Stored>
        ensures value { option_copied result ≡ slice_get self.now.cells place }
        ensures fit { Fit self.now.cells self.now.ends self.now.cells_left }
    {
        stored_at(self.cells.as_slice(), place)
    }

    /// How many cells there are.
    pub fn len(&self) -> usize
        ensures value { result ≡ length self.now.cells }
        ensures small { result < 2 ^ 32 }
    {
        self.cells.len()
    }

    /// A table that goes on behind the known names makes no other world.
    pub fn goes_on(&self)
        ensures { (names more : List (List ℕ)) → self.now.ends ≤ length names → heap_world (names ++ more) self.now ≡ heap_world names self.now }
    {
        let _ = &self.cells;
    }

    /// From now on the names of a table are known.
    pub fn know(&mut self, table: &NameTable)
        ensures world { (names : List (List ℕ)) → heap_world names self.new ≡ heap_world names self.old }
        ensures known { length table.now ≤ self.new.ends }
    {
        let ends = table.len();
        if self.ends < ends {
            self.ends = ends;
        }
    }
}

impl World for BaseHeap {
    ghost world = { λ names h. heap_world names h };

    ghost ends = { λ h. h.ends };

    fn find(&self, a: Addr) -> Option<&Stored> {
        let _ = &self.cells;
        match a {
            Addr::Base(i) => stored_at(self.cells.as_slice(), i as usize),
            Addr::Scratch(_) => None,
        }
    }

    #[tactic(auto, using(crate::proofs::HeapLemmas::heap_rules))]
    fn count(&self) -> usize {
        self.len()
    }

    fn known(&self) -> usize {
        self.ends
    }

    fn is_evaluation(&self) -> bool {
        false
    }

    fn make(&mut self, cell: Stored) -> Result<Addr, Refused> {
        if !is_within(&cell, self.ends) {
            return Err(Refused::Memory);
        }
        let left = room_for(self.cells_left, self.units_left, weight(&cell))?;
        let at = self.cells.len() as u32;
        push_cell(&mut self.cells, cell)?;
        self.cells_left -= 1;
        self.units_left = left;
        Ok(Addr::Base(at))
    }

    fn write(&mut self, a: Addr, change: CellChange<'_>) -> Result<(), Refused> {
        let _ = &self.cells;
        match a {
            Addr::Base(i) => {
                self.units_left = change_in(&mut self.cells, i as usize, change, self.units_left)?;
                Ok(())
            }
            Addr::Scratch(_) => Ok(()),
        }
    }

    fn bind_at(
        &mut self,
        names: &NameTable,
        scope: Addr,
        place: usize,
        name: NameId,
        value: Value,
    ) -> Result<(), Refused> {
        let _ = names.len();
        let _ = name;
        match scope {
            Addr::Base(i) => value_in_cells(&mut self.cells, i as usize, place, value),
            Addr::Scratch(_) => {}
        }
        Ok(())
    }

    fn cells(&self) -> u64 {
        u64::from(MOST_CELLS).saturating_sub(u64::from(self.cells_left))
    }

    fn units(&self) -> u64 {
        u64::from(MOST_UNITS).saturating_sub(u64::from(self.units_left))
    }
}
