//! Handles by number, with a count of those that stand for scratch cells.

ghost use Rattle.std.specs.Prelude.{◌≡◌, ◌<◌, ◌++◌, ◌∷◌, [], length, filter, OnErr, OnOk};
ghost use Rattle.std.specs.List.{find, list_any};
ghost use Rattle.std.specs.Option.{option_copied};
ghost use Rattle.object_groups.specs.Handles.{has_another_number, has_number, is_on_scratch};
ghost use Rattle.object_groups.specs.Numbers.{AllBelow, IsAscending};

use crate::fault::MOST_HELD;
use crate::handle::Handle;
use std::alloc::{AllocError, Global};
use std::collections::BTreeMap;
use std::marker::Model;

/// Handles by number. It is seen as their list, in the order of their numbers.
#[derive(Drop)]
pub struct HandleTable {
    by_number: BTreeMap<u64, Handle>,
    on_scratch: usize,
}

impl Model for HandleTable {
    ghost use Rattle.std.specs.Prelude.{List};
    ghost use Rattle.std.specs.Map.{values_of};
    ghost use Rattle.object_groups.specs.declared.handle.Handle.{Handle};

    ghost Value = { List Handle };

    ghost view = { λ t. values_of t.by_number.entries };

    ghost use Rattle.object_groups.specs.Table.{IsTable};

    ghost invariant = { λ t. IsTable t.by_number.entries t.on_scratch };
}

impl HandleTable {
    /// No handles. It takes no memory.
    pub fn new(alloc: Global) -> HandleTable
        ensures { result ≡ [] }
    {
        HandleTable {
            by_number: BTreeMap::new(alloc),
            on_scratch: 0,
        }
    }

    /// How many handles there are.
    pub fn len(&self) -> usize
        ensures len { result ≡ length self.now }
        ensures ascending { IsAscending self.now }
    {
        self.by_number.len()
    }

    /// The handle of a number.
    pub fn get(&self, number: u64) -> Option<&Handle>
        ensures { option_copied result ≡ find (has_number number) self.now }
    {
        self.by_number.get(&number)
    }

    /// Whether a handle stands for a scratch cell.
    pub fn holds_scratch(&self) -> bool
        ensures { result ≡ list_any is_on_scratch self.now }
    {
        self.on_scratch > 0
    }

    /// Adds a handle whose number is above all others.
    pub fn add(&mut self, handle: Handle) -> Result<(), AllocError>
        requires room { length self.old < MOST_HELD }
        requires below { AllBelow handle.number self.old }
        ensures added { OnOk result (self.new ≡ self.old ++ handle ∷ []) }
        ensures kept { OnErr result (self.new ≡ self.old) }
    {
        let on_scratch = self.on_scratch + usize::from(handle.is_on_scratch());
        self.by_number.insert(handle.number, handle)?;
        self.on_scratch = on_scratch;
        Ok(())
    }

    /// Takes the handle of a number out.
    pub fn remove(&mut self, number: u64) -> Option<Handle>
        ensures handle { result ≡ find (has_number number) self.old }
        ensures rest { self.new ≡ filter (has_another_number number) self.old }
    {
        let handle = self.by_number.remove(&number)?;
        self.on_scratch -= usize::from(handle.is_on_scratch());
        Some(handle)
    }
}
