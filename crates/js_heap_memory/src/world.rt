//! Worlds whose names a table has that is lent to each call.

use crate::change::CellChange;
use crate::names::{NameId, NameTable};
use crate::stored::Stored;
use js_heap::change::Counted;
use js_heap::value::{Addr, Value};
use std::alloc::{AllocError, AllocFailed};

/// Why a call on a world was refused.
#[derive(Clone, Copy, Debug, PartialEq, Eq)]
pub enum Refused {
    /// It would reach a cell that isn't the evaluation's own.
    Effect,
    /// It would pass a limit.
    Full(Counted),
    /// There is no memory for it.
    Memory,
}

impl From<AllocError> for Refused {
    ghost use Rattle.std.specs.Prelude.{◌≡◌};
    ghost use Rattle.js_heap_memory.specs.declared.world.Refused.TheVariants.{Memory as memory};

    ghost from_gives = { λ _ e. e ≡ memory };

    fn from(_error: AllocError) -> Refused {
        Refused::Memory
    }
}

impl<T: Drop> From<AllocFailed<T>> for Refused {
    ghost use Rattle.std.specs.Prelude.{◌≡◌};
    ghost use Rattle.js_heap_memory.specs.declared.world.Refused.TheVariants.{Memory as memory};

    ghost from_gives = { λ _ e. e ≡ memory };

    fn from(_error: AllocFailed<T>) -> Refused {
        Refused::Memory
    }
}

/// What has the cells of a world. Contracts see the world that they are with a table of names.
pub trait World {
    ghost use Rattle.std.specs.Prelude.{◌≡◌, ◌+◌, length, option_copied, OnErr, List, ℕ};
    ghost use Rattle.js_heap.specs.World.{World as AnyWorld, read_cell, make_cell, write_cell, is_evaluation};
    ghost use Rattle.js_heap_memory.specs.Calls.{Tries, HasPlace, cells_counted, units_counted, put_change, remove_change, element_change, length_change, declare_change, bind_change};
    ghost use Rattle.js_heap_memory.specs.Cells.{cell_of, cell_at};
    ghost use Rattle.js_heap_memory.specs.Changes.{change_of, Distinguishes, ChangeWithin};
    ghost use Rattle.js_heap_memory.specs.Names.{name_of};

    ghost world: { List (List ℕ) → Self → AnyWorld };

    ghost ends: { Self → ℕ };

    /// What is at an address, if it is live.
    fn find(&self, a: Addr) -> Option<&Stored>
        ensures { (names : List (List ℕ)) → cell_at names (option_copied result) ≡ read_cell (world names self.now) a };

    /// How many cells there are.
    fn count(&self) -> usize
        ensures { (names : List (List ℕ)) → result ≡ length (world names self.now).base + length (world names self.now).scratch };

    /// Whether it is an evaluation, in which nothing may reach outside.
    fn is_evaluation(&self) -> bool
        ensures { (names : List (List ℕ)) → result ≡ is_evaluation (world names self.now) };

    /// Makes a cell, or says what would pass its limit. A cell with a name that isn't known takes no memory.
    fn make(&mut self, cell: Stored) -> Result<Addr, Refused>
        ensures made { (names : List (List ℕ)) → Tries (make_cell (world names self.old) (cell_of names cell)) result (world names self.new) }
        ensures kept { OnErr result (self.new ≡ self.old) };

    /// How many names of a table are known.
    fn known(&self) -> usize
        ensures { result ≡ ends self.now };

    /// Changes a cell, if it is there and may be changed.
    fn write(&mut self, a: Addr, change: CellChange<'_>) -> Result<(), Refused>
        requires { ChangeWithin (ends self.old) change }
        ensures written { (names : List (List ℕ)) → Distinguishes names change.entry → Tries (write_cell (world names self.old) a (change_of names change.entry)) result (world names self.new) }
        ensures kept { OnErr result (self.new ≡ self.old) };

    /// Gives the property of a key a value (ECMA-262, 10.1.9.2).
    fn put(&mut self, a: Addr, key: &[u16], value: Value) -> Result<(), Refused>
        ensures written { (names : List (List ℕ)) → Tries (write_cell (world names self.old) a (put_change key.now value)) result (world names self.new) }
        ensures kept { OnErr result (self.new ≡ self.old) }
    {
        self.write(a, CellChange::Put { key, value })
    }

    /// Removes the property of a key (10.1.10).
    fn remove(&mut self, a: Addr, key: &[u16]) -> Result<(), Refused>
        ensures written { (names : List (List ℕ)) → Tries (write_cell (world names self.old) a (remove_change key.now)) result (world names self.new) }
        ensures kept { OnErr result (self.new ≡ self.old) }
    {
        self.write(a, CellChange::Remove { key })
    }

    /// Gives the element at an index up to the length a value (10.4.2.1).
    fn put_element(&mut self, a: Addr, index: u32, value: Value) -> Result<(), Refused>
        ensures written { (names : List (List ℕ)) → Tries (write_cell (world names self.old) a (element_change index value)) result (world names self.new) }
        ensures kept { OnErr result (self.new ≡ self.old) }
    {
        self.write(a, CellChange::Element { index, value })
    }

    /// Gives an array a length up to the present one (10.4.2.4).
    fn cut(&mut self, a: Addr, length: u32) -> Result<(), Refused>
        ensures written { (names : List (List ℕ)) → Tries (write_cell (world names self.old) a (length_change length)) result (world names self.new) }
        ensures kept { OnErr result (self.new ≡ self.old) }
    {
        self.write(a, CellChange::Length(length))
    }

    /// Adds a name without a value to a scope (9.1.1.1.2). A name that isn't known takes no memory.
    fn declare(&mut self, scope: Addr, name: NameId, constant: bool) -> Result<(), Refused>
        ensures written { (names : List (List ℕ)) → Tries (write_cell (world names self.old) scope (declare_change (name_of names name.number) constant)) result (world names self.new) }
        ensures kept { OnErr result (self.new ≡ self.old) }
    {
        if name.number as usize >= self.known() {
            return Err(Refused::Memory);
        }
        self.write(scope, CellChange::Declare { name, constant })
    }

    /// Gives a name of a scope a value (9.1.1.1.4).
    fn bind(
        &mut self,
        names: &NameTable,
        scope: Addr,
        name: NameId,
        value: Value,
    ) -> Result<(), Refused>
        ensures written { Tries (write_cell (world names.now self.old) scope (bind_change (name_of names.now name.number) value)) result (world names.now self.new) }
        ensures kept { OnErr result (self.new ≡ self.old) }
    {
        let _ = names.len();
        self.write(scope, CellChange::Bind { name, value })
    }

    /// Gives a name that was found at its place a value.
    fn bind_at(
        &mut self,
        names: &NameTable,
        scope: Addr,
        place: usize,
        name: NameId,
        value: Value,
    ) -> Result<(), Refused>
        requires { HasPlace (read_cell (world names.now self.old) scope) place (name_of names.now name.number) }
        ensures written { Tries (write_cell (world names.now self.old) scope (bind_change (name_of names.now name.number) value)) result (world names.now self.new) }
        ensures kept { OnErr result (self.new ≡ self.old) };

    /// How many cells are counted: the limit less what is left.
    fn cells(&self) -> u64
        ensures { (names : List (List ℕ)) → result ≡ cells_counted (world names self.now) };

    /// How many units are counted; none where more was given back than taken.
    fn units(&self) -> u64
        ensures { (names : List (List ℕ)) → result ≡ units_counted (world names self.now) };
}
