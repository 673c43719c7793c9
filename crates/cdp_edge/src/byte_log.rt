//! A log of bytes that only clauses read. It takes no memory, and its calls do nothing when they run.

ghost use Rattle.std.specs.Prelude.{◌≡◌, ◌++◌, ℕ, List, []};
ghost use Rattle.std.specs.Borrow.{ftrue};

use std::marker::{Model, PhantomData};

/// The bytes that a sink took.
#[derive(Drop)]
pub(crate) struct ByteLog {
    marker: PhantomData<u8>,
    pub(crate) ghost bytes: { List ℕ },
}

impl Model for ByteLog {
    ghost also_owns = { λ _. ftrue };
}

// It owns nothing.
unsafe impl Send for ByteLog {}

impl ByteLog {
    /// A log of no byte.
    pub(crate) fn new() -> ByteLog
        ensures { result.bytes ≡ [] }
    {
        ByteLog {
            marker: PhantomData,
        }
    }

    /// Adds these bytes.
    pub(crate) fn note(&mut self, _bytes: &[u8])
        ensures { self.new.bytes ≡ self.old.bytes ++ _bytes.now }
    {}
}
