//! JSON texts (RFC 8259) are read as values, in room that is kept from one text to the next.

ghost use Rattle.std.specs.Prelude.{◌≡◌, IfOk, option_map};
ghost use Rattle.serde_json.specs.Read.{read as value_of_text};
ghost use Rattle.serde_json.specs.View.{view};

use crate::trees::value_of;
use json::{Error, Reader, Scratch};
use serde_json::Value;
use std::alloc::{AllocError, Global};

/// How deep arrays and objects may nest.
const MAX_DEPTH: usize = 127;

/// The room that reading a JSON text takes. One is kept and lent to each reading; it grows to the longest text.
#[derive(Drop)]
pub struct ReadingRoom {
    scratch: Box<Scratch>,
}

impl ReadingRoom {
    /// Room for texts of any length.
    ///
    /// # Errors
    ///
    /// There is no memory for it.
    pub fn new(alloc: Global) -> Result<ReadingRoom, AllocError> {
        let scratch = Box::new(alloc, Scratch::new(alloc))?;
        Ok(ReadingRoom { scratch })
    }

    /// The value of a text. There is none where the text isn't JSON, holds a number that no float holds, or nests
    /// deeper than 127.
    ///
    /// # Errors
    ///
    /// There is no memory for it.
    pub(crate) fn read(&mut self, alloc: Global, text: &str) -> Result<Option<Value>, AllocError>
        ensures { IfOk result (λ value. option_map view value ≡ value_of_text text.now) }
    {
        read_text(alloc, text, &mut self.scratch)
    }
}

/// The value of a text, where it has one. Errors: there is no memory for it.
fn read_text(alloc: Global, text: &str, scratch: &mut Scratch) -> Result<Option<Value>, AllocError>
    ensures { IfOk result (λ value. option_map view value ≡ value_of_text text.now) }
{
    let mut reader = Reader::new(text, scratch)?;
    let tree = match json::Value::read(alloc, &mut reader, MAX_DEPTH) {
        Ok(tree) => tree,
        Err(Error::OutOfMemory) => return Err(AllocError),
        Err(_) => return Ok(None),
    };
    if reader.next().is_some() {
        return Ok(None);
    }
    value_of(alloc, &tree)
}
