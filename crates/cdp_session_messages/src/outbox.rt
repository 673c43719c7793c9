//! The texts that wait for a client.

ghost use Rattle.std.specs.Prelude.{◌≡◌, ◌++◌, ◌∷◌, [], List, ℕ, OnOk, OnErr, IsErrOf, true, false, length, map, string_bytes};
ghost use Rattle.cdp_session_messages.specs.Outboxes.{fits};

use crate::session_end::SessionEnd;
use std::alloc::{AllocError, Global};
use std::marker::Model;

/// The greatest number of texts that wait for a client.
const MOST_TEXTS: usize = 65_536;

/// The greatest number of their bytes.
const MOST_BYTES: usize = 67_108_864;

/// The texts that wait for a client, in order, and how many bytes they have together.
#[derive(Drop)]
pub struct Outbox {
    texts: Vec<String>,
    bytes: usize,
}

impl Model for Outbox {
    ghost use Rattle.std.specs.Prelude.{List, ℕ, map, string_bytes};
    ghost use Rattle.std.specs.Coded.{codes};
    ghost use Rattle.cdp_session_messages.specs.Outboxes.{IsOutbox};

    ghost Value = { List (List ℕ) };

    ghost coded = { Prim.hlevel (codes) };

    ghost view = { λ o. map string_bytes o.texts.items };

    ghost invariant = { λ o. IsOutbox (map string_bytes o.texts.items) o.bytes };
}

impl Outbox {
    /// None. It takes no memory.
    pub fn new(alloc: Global) -> Outbox
        ensures { result ≡ [] }
    {
        Outbox {
            texts: Vec::new(alloc),
            bytes: 0,
        }
    }

    /// Whether a text of so many bytes may wait behind the others.
    pub fn has_room(&self, size: usize) -> bool
        ensures { (text : List ℕ) → size ≡ length text → result ≡ fits (self.now ++ text ∷ []) }
    {
        self.texts.len() < MOST_TEXTS && size <= MOST_BYTES - self.bytes
    }

    /// Puts a text for which there is room behind the others.
    fn append(&mut self, text: String) -> Result<(), AllocError>
        requires { fits (self.old ++ string_bytes text ∷ []) ≡ true }
        ensures pushed { OnOk result (self.new ≡ self.old ++ string_bytes text ∷ []) }
        ensures stays { OnErr result (self.new ≡ self.old) }
    {
        let size = text.len();
        self.texts.push(text)?;
        self.bytes += size;
        Ok(())
    }

    /// Puts a text behind the others.
    ///
    /// # Errors
    ///
    /// There would be too many, or too many bytes of them, or there is no memory. Nothing has changed.
    pub fn push(&mut self, text: String) -> Result<(), SessionEnd>
        ensures pushed { OnOk result (self.new ≡ self.old ++ string_bytes text ∷ []) }
        ensures fits { OnOk result (fits (self.old ++ string_bytes text ∷ []) ≡ true) }
        ensures over { IsErrOf result SessionEnd.Overrun → fits (self.old ++ string_bytes text ∷ []) ≡ false }
        ensures stays { OnErr result (self.new ≡ self.old) }
    {
        if !self.has_room(text.len()) {
            return Err(SessionEnd::Overrun);
        }
        self.append(text)?;
        Ok(())
    }

    /// Hands out all of them, in order; none of them waits any more. Takes no memory.
    pub fn take(&mut self, alloc: Global) -> Vec<String>
        ensures texts { map string_bytes result.items ≡ self.old }
        ensures rest { self.new ≡ [] }
    {
        self.bytes = 0;
        std::mem::replace(&mut self.texts, Vec::new(alloc))
    }
}
