//! The names that are taken in a scope.

ghost use Rattle.std.specs.Prelude.{◌≡◌, ◌∷◌, [], OnErr, OnOk};
ghost use Rattle.js_parser_language.specs.Well.{is_among};

use std::alloc::{AllocError, Global};
use std::collections::HashSet;
use std::marker::Model;

/// The names that are taken in a scope, lent from their source. Contracts see the list of their
/// code units, the name taken last first.
#[derive(Drop)]
pub struct NameSet<'s> {
    names: Vec<&'s [u16]>,
    // the same names, to find one among many
    index: HashSet<&'s [u16]>,
}

impl<'s> Model for NameSet<'s> {
    ghost use Rattle.std.specs.Prelude.{◌≡◌, List, ℕ};
    ghost use Rattle.std.specs.Borrow.{Bor};
    ghost use Rattle.std.specs.Coded.{coded_ℕ, coded_list};
    ghost use Rattle.std.specs.HashSet.{contains};
    ghost use Rattle.js_parser_language.specs.Well.{is_among};
    ghost use Rattle.js_parser_readers.specs.Names.{is_same_name, taken};

    ghost Value = { List (List ℕ) };

    ghost coded = { coded_list (coded_list coded_ℕ) };

    ghost view = { λ set. taken set.names.items };

    ghost invariant = { λ set. (name : Bor (List ℕ)) → contains is_same_name set.index name ≡ is_among (taken set.names.items) name.now };
}

impl<'s> NameSet<'s> {
    /// No names. It takes no memory.
    pub fn new(alloc: Global) -> NameSet<'s>
        ensures { result ≡ [] }
    {
        NameSet {
            names: Vec::new(alloc),
            index: HashSet::new(alloc),
        }
    }

    /// Whether a name is taken.
    pub fn contains(&self, name: &[u16]) -> bool
        ensures { result ≡ is_among self.now name.now }
    {
        self.index.contains(name)
    }

    /// Takes a name, which may be taken already.
    pub fn insert(&mut self, name: &'s [u16]) -> Result<(), AllocError>
        ensures taken { OnOk result (self.new ≡ name.now ∷ self.old) }
        ensures unchanged { OnErr result (self.new ≡ self.old) }
    {
        self.names.reserve(1)?;
        self.index.insert(name)?;
        self.names.push(name).unwrap();
        Ok(())
    }
}
