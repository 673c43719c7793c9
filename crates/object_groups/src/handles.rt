//! The handles of a session.

ghost use Rattle.std.specs.Prelude.{◌≡◌, ◌+◌, ◌<◌, ◌++◌, ◌∷◌, [], false, is_some, length, filter, IfOk, OnErr, OnOk, if◌then◌else◌};
ghost use Rattle.std.specs.List.{find, list_any};
ghost use Rattle.std.specs.Option.{is_some, option_copied};
ghost use Rattle.object_groups.specs.Groups.{AreGroupsOf};
ghost use Rattle.object_groups.specs.Index.{without_all};
ghost use Rattle.object_groups.specs.Numbers.{AllBelow, IsAscending};
ghost use Rattle.object_groups.specs.Handles.{Answers, fault_of, has_number, is_in, is_on_scratch, next_number, none_made, with_handle, without, without_group};

use crate::fault::{HandleFault, MOST_HELD, MOST_MADE};
use crate::groups::Groups;
use crate::handle::{Handle, Target};
use crate::table::HandleTable;
use cdp_text::units::Units;
use std::alloc::{AllocError, Global};
use std::collections::BTreeSet;
use std::marker::Model;

/// The handles that a session has made and not released. It is seen as their list in the order of making, and how many
/// were made.
#[derive(Drop)]
pub struct Handles {
    alloc: Global,
    table: HandleTable,
    groups: Groups,
    made: u64,
}

impl Model for Handles {
    ghost use Rattle.object_groups.specs.Handles.{HeldHandles};

    ghost Value = { HeldHandles };

    ghost view = { λ h. record { held = h.table; made = h.made } };

    ghost use Rattle.object_groups.specs.Index.{IsIndexed};

    ghost invariant = { λ h. IsIndexed h.table h.made h.groups };
}

/// The name of a group, if there is one.
fn name_of(alloc: Global, group: Option<&[u16]>) -> Result<Option<Units>, AllocError>
    ensures { IfOk result (λ name. name ≡ option_copied group.entry) }
{
    match group {
        Some(name) => Ok(Some(Units::from_slice(alloc, name)?)),
        None => Ok(None),
    }
}

/// Adds a handle to a table, and its number to its group, which is lent beside it.
fn hold(
    alloc: Global,
    table: &mut HandleTable,
    groups: &mut Groups,
    handle: Handle,
    group: Option<&[u16]>,
) -> Result<(), AllocError>
    requires room { length table.old < MOST_HELD }
    requires below { AllBelow handle.number table.old }
    requires ascending { IsAscending table.old }
    requires grouped { AreGroupsOf table.old groups.old }
    requires named { handle.group ≡ option_copied group }
    ensures added { OnOk result (table.new ≡ table.old ++ handle ∷ []) }
    ensures kept { OnErr result (table.new ≡ table.old) }
    ensures grouped { AreGroupsOf table.new groups.new }
{
    let number = handle.number;
    table.add(handle)?;
    let Some(group) = group else {
        return Ok(());
    };
    if groups.add(alloc, group, number).is_err() {
        table.remove(number);
        return Err(AllocError);
    }
    Ok(())
}

/// Takes the handles of these numbers out.
fn remove_all(table: &mut HandleTable, numbers: BTreeSet<u64>)
    ensures { table.new ≡ without_all numbers.keys table.old }
{
    for number in numbers {
        table.remove(number);
    }
}

impl Handles {
    /// No handles; the first will have the number 1. It takes no memory.
    pub fn new(alloc: Global) -> Handles
        ensures { result ≡ none_made }
    {
        Handles {
            alloc,
            table: HandleTable::new(alloc),
            groups: Groups::new(alloc),
            made: 0,
        }
    }

    /// Why no handle can be made, if none can.
    fn fault(&self) -> Option<HandleFault>
        ensures { result ≡ fault_of self.now }
    {
        if self.table.len() >= MOST_HELD {
            return Some(HandleFault::Full {
                count: MOST_HELD as u64,
            });
        }
        if self.made >= MOST_MADE {
            return Some(HandleFault::Full { count: MOST_MADE });
        }
        None
    }

    /// Whether no handle can be made any more: 100,000 are held, or 2^62 were made.
    pub fn is_full(&self) -> bool
        ensures { result ≡ is_some (fault_of self.now) }
    {
        self.fault().is_some()
    }

    /// Makes a handle on a target, in a group or in none, and answers its number: one more than how many were made before.
    ///
    /// # Errors
    ///
    /// `Full` where 100,000 handles are held, or else where 2^62 were made; `Memory`. Then nothing has changed.
    pub fn make(&mut self, target: Target, group: Option<&[u16]>) -> Result<u64, HandleFault>
        ensures answers { Answers (fault_of self.old) result }
        ensures number { IfOk result (λ number. number ≡ next_number self.old) }
        ensures unused { IfOk result (λ number. list_any (has_number number) self.old.held ≡ false) }
        ensures made { OnOk result (self.new ≡ with_handle target (option_copied group.entry) self.old) }
        ensures kept { OnErr result (self.new ≡ self.old) }
    {
        if let Some(fault) = self.fault() {
            return Err(fault);
        }
        let number = self.made + 1;
        let handle = Handle {
            number,
            target,
            group: name_of(self.alloc, group)?,
        };
        hold(self.alloc, &mut self.table, &mut self.groups, handle, group)?;
        self.made = number;
        Ok(number)
    }

    /// The handle of a number; `None` where none that is held has it.
    pub fn get(&self, number: u64) -> Option<&Handle>
        ensures handle { option_copied result ≡ find (has_number number) self.now.held }
        ensures held { is_some result ≡ list_any (has_number number) self.now.held }
    {
        self.table.get(number)
    }

    /// Ends the handle of a number, and answers whether there was one. It takes no memory.
    pub fn release(&mut self, number: u64) -> bool
        ensures had { result ≡ list_any (has_number number) self.old.held }
        ensures one { length self.new.held + (if result then 1 else 0) ≡ length self.old.held }
        ensures rest { self.new ≡ without number self.old }
    {
        let Some(handle) = self.table.remove(number) else {
            return false;
        };
        if let Some(group) = &handle.group {
            self.groups.remove(group.as_slice(), number);
        }
        true
    }

    /// Ends the handles of a group, and answers how many there were. A handle without a group is in no group, not even in
    /// that of the empty name. It takes no memory.
    pub fn release_group(&mut self, group: &[u16]) -> usize
        ensures count { result ≡ length (filter (is_in group.now) self.old.held) }
        ensures rest { self.new ≡ without_group group.now self.old }
    {
        let Some(numbers) = self.groups.take(group) else {
            return 0;
        };
        let count = numbers.len();
        remove_all(&mut self.table, numbers);
        count
    }

    /// Whether a handle stands for a cell that an evaluation made. It costs no more than reading a count.
    pub fn holds_scratch(&self) -> bool
        ensures { result ≡ list_any is_on_scratch self.now.held }
    {
        self.table.holds_scratch()
    }
}
