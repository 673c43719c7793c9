//! The table of names.

ghost use Rattle.std.specs.Prelude.{◌≡◌, ◌++◌, ◌∷◌, ◌-◌, ◌<◌, [], IfOk, IfSome, OnOk, OnErr, None, length, option_map, take, true};
ghost use Rattle.js_heap_memory.specs.Names.{name_of, number_of, Differ, GoesOn};

use crate::joined::JoinedTexts;
use std::alloc::{AllocError, Global};
use std::collections::HashMap;
use std::marker::Model;

/// The number of a name in a table of names.
#[derive(Clone, Copy, PartialEq, Eq)]
pub struct NameId {
    pub number: u32,
}

/// The texts of names; none stands twice. Contracts see their list.
#[derive(Drop)]
pub struct NameTable {
    texts: JoinedTexts,
    // the number of each text, to find one among many
    index: HashMap<Vec<u16>, u32>,
}

impl Model for NameTable {
    ghost use Rattle.std.specs.Prelude.{List, ℕ};
    ghost use Rattle.js_heap_memory.specs.Indexes.{IsIndexed};

    ghost Value = { List (List ℕ) };

    ghost view = { λ n. n.texts };

    ghost invariant = { λ n. IsIndexed n.texts n.index };
}

impl NameTable {
    /// No names. It takes no memory.
    pub fn new(alloc: Global) -> NameTable
        ensures { result ≡ [] }
    {
        NameTable {
            texts: JoinedTexts::new(alloc),
            index: HashMap::new(alloc),
        }
    }

    /// The number of a text, which is added at the end where it isn't there.
    ///
    /// # Errors
    ///
    /// There is no memory for it, or no number.
    pub fn add(&mut self, text: &[u16]) -> Result<NameId, AllocError>
        ensures text { IfOk result (λ name. name_of self.new name.number ≡ text.now) }
        ensures known { IfOk result (λ name. name.number < length self.new) }
        ensures goes_on { OnOk result (GoesOn self.old self.new) }
        ensures kept { OnErr result (self.new ≡ self.old) }
    {
        match self.find(text) {
            Some(name) => Ok(name),
            None => self.push(text),
        }
    }

    // A text that isn't there.
    fn push(&mut self, text: &[u16]) -> Result<NameId, AllocError>
        requires { number_of self.old text.now ≡ None }
        ensures text { IfOk result (λ name. name_of self.new name.number ≡ text.now) }
        ensures known { IfOk result (λ name. name.number < length self.new) }
        ensures more { OnOk result (self.new ≡ self.old ++ text.now ∷ []) }
        ensures kept { OnErr result (self.new ≡ self.old) }
    {
        let Ok(number) = u32::try_from(self.texts.len()) else {
            return Err(AllocError);
        };
        let key = Vec::from_slice(self.texts.allocator(), text)?;
        self.texts.push(text)?;
        if self.index.insert(key, number).is_err() {
            self.texts.pop();
            return Err(AllocError);
        }
        Ok(NameId { number })
    }

    // Without the last text.
    fn pop(&mut self)
        ensures { self.new ≡ take (length self.old - 1) self.old }
    {
        let len = self.texts.len();
        if len > 0 {
            self.index.remove(self.texts.text(len - 1));
            self.texts.pop();
        }
    }

    /// Only the first so many names. It takes no memory.
    pub fn cut(&mut self, len: usize)
        ensures { self.new ≡ take len self.old }
    {
        while self.texts.len() > len {
            self.pop();
        }
    }

    /// A table of the same names.
    ///
    /// # Errors
    ///
    /// There is no memory for it.
    pub fn copy(&self) -> Result<NameTable, AllocError>
        ensures { IfOk result (λ names. names ≡ self.now) }
    {
        let mut names = NameTable::new(self.texts.allocator());
        for i in 0..self.texts.len() {
            names.push(self.texts.text(i))?;
        }
        Ok(names)
    }

    /// The number of a text, where it is in the table.
    pub fn find(&self, text: &[u16]) -> Option<NameId>
        ensures number { option_map (λ name. name.number) result ≡ number_of self.now text.now }
        ensures text { IfSome result (λ name. name_of self.now name.number ≡ text.now) }
        ensures known { IfSome result (λ name. name.number < length self.now) }
    {
        match self.index.get(text) {
            Some(number) => Some(NameId { number: *number }),
            None => None,
        }
    }

    /// The text of a number. No memory holds the text of a number that no name has.
    #[tactic(auto, unfolding(crate::specs::Names::name_of))]
    pub fn text(&self, name: NameId) -> Result<&[u16], AllocError>
        ensures { IfOk result (λ text. text.now ≡ name_of self.now name.number) }
    {
        let at = name.number as usize;
        if self.texts.len() <= at {
            return Err(AllocError);
        }
        Ok(self.texts.text(at))
    }

    /// Whether this table goes on from another: each text of the other has its number here too.
    pub fn goes_on_from(&self, first: &NameTable) -> bool
        ensures goes_on { result ≡ true → GoesOn first.now self.now }
        ensures only { GoesOn first.now self.now → result ≡ true }
    {
        self.texts.begins_with(&first.texts)
    }

    /// How many names there are.
    pub fn len(&self) -> usize
        ensures len { result ≡ length self.now }
        ensures differ { Differ self.now }
    {
        self.texts.len()
    }
}
