//! The bytes of a head as they come.

ghost use Rattle.std.specs.Prelude.{◌≡◌, ◌<◌, ◌≤◌, ◌++◌, ◌∷◌, [], length, IfOk, OnOk, OnErr};
ghost use Rattle.cdp_door.specs.Greetings.{Owes};

use crate::answer::Response;
use crate::head::{MOST_BYTES, MOST_FIELDS, owed_answer};
use httparse::spans::{EMPTY_HEADER_SPAN, HeaderSpan};
use std::alloc::{AllocError, Global};
use std::marker::Model;

/// The bytes that came so far, at most `MOST_BYTES`, with room for where their fields lie.
#[derive(Drop)]
pub struct HeadBuffer {
    bytes: Vec<u8>,
    places: Vec<HeaderSpan>,
}

impl Model for HeadBuffer {
    ghost use Rattle.std.specs.Prelude.{◌≡◌, ◌≤◌, ℕ, List, length};

    ghost Value = { List ℕ };

    ghost view = { λ a. a.bytes.items };

    ghost invariant = { λ a. (length a.bytes.items ≤ 8_192) × (length a.places.items ≡ 2_730) };
}

impl HeadBuffer {
    /// A reader to which nothing came.
    pub fn new(alloc: Global) -> Result<HeadBuffer, AllocError>
        ensures { IfOk result (λ reader. reader ≡ []) }
    {
        let places = vec![in alloc; EMPTY_HEADER_SPAN; MOST_FIELDS]?;
        Ok(HeadBuffer {
            bytes: Vec::new(alloc),
            places,
        })
    }

    /// The answer that is owed to what came; None where more is to be read.
    pub fn answer(&mut self, alloc: Global) -> Result<Option<Response>, AllocError>
        ensures owes { IfOk result (Owes self.old) }
        ensures within { length self.old ≤ 8_192 }
        ensures same { self.new ≡ self.old }
    {
        owed_answer(alloc, &self.bytes, self.places.as_mut_slice())
    }

    /// Takes one byte more.
    pub fn push(&mut self, byte: u8) -> Result<(), AllocError>
        requires { length self.old < 8_192 }
        ensures ok { OnOk result (self.new ≡ self.old ++ byte ∷ []) }
        ensures err { OnErr result (self.new ≡ self.old) }
    {
        self.bytes.push(byte).map_err(|_| AllocError)
    }

    /// How many bytes came.
    pub fn len(&self) -> usize
        ensures { result ≡ length self.now }
    {
        self.bytes.len()
    }
}
