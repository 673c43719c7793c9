//! Texts one behind another.

ghost use Rattle.std.specs.Prelude.{◌≡◌, ◌++◌, ◌∷◌, ◌-◌, ◌<◌, ◌≤◌, [], List, ℕ, length};
ghost use Rattle.std.specs.Prelude.{take, slice_get, true, Some, OnOk, OnErr};
ghost use Rattle.std.specs.List.{concat};
ghost use Rattle.js_heap_memory.specs.JoinedTexts.{ends_from};
ghost use Rattle.js_heap_memory.specs.Names.{GoesOn};

use std::alloc::{AllocError, Global};
use std::marker::Model;

/// Texts in one vector of UTF-16 code units. Contracts see their list.
#[derive(Drop)]
pub(crate) struct JoinedTexts {
    units: Vec<u16>,
    // the place behind the last unit of each text
    ends: Vec<u32>,
}

impl Model for JoinedTexts {
    ghost use Rattle.std.specs.Prelude.{List, ℕ};
    ghost use Rattle.js_heap_memory.specs.JoinedTexts.{IsJoined, texts_from};

    ghost Value = { List (List ℕ) };

    ghost view = { λ j. texts_from 0 j.ends.items j.units.items };

    ghost invariant = { λ j. IsJoined j.units.items j.ends.items (texts_from 0 j.ends.items j.units.items) };
}

/// How many units stand before the text at a place.
fn start(ends: &[u32], at: usize) -> usize
    requires { at ≤ length ends.now }
    ensures { (ts : List (List ℕ)) → ends.now ≡ ends_from 0 ts → result ≡ length (concat (take at ts)) }
{
    if at == 0 { 0 } else { ends[at - 1] as usize }
}

impl JoinedTexts {
    /// No texts. It takes no memory.
    pub fn new(alloc: Global) -> JoinedTexts
        ensures { result ≡ [] }
    {
        JoinedTexts {
            units: Vec::new(alloc),
            ends: Vec::new(alloc),
        }
    }

    /// Where the texts have their memory.
    pub fn allocator(&self) -> Global {
        *self.ends.allocator()
    }

    /// How many texts there are.
    pub fn len(&self) -> usize
        ensures { result ≡ length self.now }
    {
        self.ends.len()
    }

    /// The text at a place.
    pub fn text(&self, at: usize) -> &[u16]
        requires { at < length self.now }
        ensures { slice_get self.now at ≡ Some result.now }
    {
        let ends = self.ends.as_slice();
        &self.units[start(ends, at)..start(ends, at + 1)]
    }

    /// One more text.
    ///
    /// # Errors
    ///
    /// There is no memory for it, or the texts would have more units than there are numbers of 32 bits.
    pub fn push(&mut self, text: &[u16]) -> Result<(), AllocError>
        ensures more { OnOk result (self.new ≡ self.old ++ text.now ∷ []) }
        ensures kept { OnErr result (self.new ≡ self.old) }
    {
        let Ok(end) = u32::try_from(self.units.len() + text.len()) else {
            return Err(AllocError);
        };
        self.ends.reserve(1)?;
        self.units.extend_from_slice(text)?;
        self.ends.push(end).unwrap();
        Ok(())
    }

    /// Without the last text, if there is one.
    pub fn pop(&mut self)
        ensures { self.new ≡ take (length self.old - 1) self.old }
    {
        self.ends.pop();
        self.units
            .truncate(start(self.ends.as_slice(), self.ends.len()));
    }

    /// Whether these texts begin with all of others.
    pub fn begins_with(&self, first: &JoinedTexts) -> bool
        ensures begins { result ≡ true → GoesOn first.now self.now }
        ensures only { GoesOn first.now self.now → result ≡ true }
    {
        if !self.ends.as_slice().starts_with(first.ends.as_slice()) {
            return false;
        }
        self.units.as_slice().starts_with(first.units.as_slice())
    }
}
