//! The numbers of the handles of each group.

ghost use Rattle.std.specs.Prelude.{◌≡◌, [], List, ℕ, bytes_eq, if◌then◌else◌, OnErr, OnOk};
ghost use Rattle.std.specs.Set.{remove_key};
ghost use Rattle.std.specs.Ordering.{nat_cmp};
ghost use Rattle.std.specs.BTreeMap.{is_at};
ghost use Rattle.std.specs.BTreeSet.{insert_key};
ghost use Rattle.object_groups.specs.Groups.{numbers_in, numbers_of};

use std::alloc::{AllocError, Global};
use std::collections::{BTreeMap, BTreeSet};

/// The numbers of the handles of each group by its name. A group without handles has no entry.
#[derive(Drop)]
pub struct Groups {
    sets: BTreeMap<Vec<u16>, BTreeSet<u64>>,
}

impl Groups {
    /// No groups. It takes no memory.
    pub fn new(alloc: Global) -> Groups
        ensures { (g : List ℕ) → numbers_in g result ≡ [] }
    {
        Groups {
            sets: BTreeMap::new(alloc),
        }
    }

    /// Puts a number into a group.
    pub fn add(&mut self, alloc: Global, group: &[u16], number: u64) -> Result<(), AllocError>
        ensures added { OnOk result ((g : List ℕ) → numbers_in g self.new ≡ (if bytes_eq group.now g then insert_key nat_cmp (numbers_in g self.old) number else numbers_in g self.old)) }
        ensures kept { OnErr result ((g : List ℕ) → numbers_in g self.new ≡ numbers_in g self.old) }
    {
        if let Some(numbers) = self.sets.get_mut(group) {
            numbers.insert(number)?;
            return Ok(());
        }
        let name = Vec::from_slice(alloc, group)?;
        let mut numbers = BTreeSet::new(alloc);
        numbers.insert(number)?;
        self.sets.insert(name, numbers)?;
        Ok(())
    }

    /// Takes a number out of a group.
    pub fn remove(&mut self, group: &[u16], number: u64)
        ensures { (g : List ℕ) → numbers_in g self.new ≡ (if bytes_eq group.now g then remove_key (is_at (nat_cmp number)) (numbers_in g self.old) else numbers_in g self.old) }
    {
        let Some(numbers) = self.sets.get_mut(group) else {
            return;
        };
        numbers.remove(&number);
        if numbers.is_empty() {
            self.sets.remove(group);
        }
    }

    /// Takes a group out, with its numbers.
    pub fn take(&mut self, group: &[u16]) -> Option<BTreeSet<u64>>
        ensures numbers { numbers_of result ≡ numbers_in group.now self.old }
        ensures rest { (g : List ℕ) → numbers_in g self.new ≡ (if bytes_eq group.now g then [] else numbers_in g self.old) }
    {
        self.sets.remove(group)
    }
}
