//! What a replay writes, kept in memory.

ghost use Rattle.std.specs.Prelude.{[], ◌≡◌};

use cdp_edge::{Sink, SinkFault};
use std::alloc::Global;

/// A sink that keeps what it took; it takes each piece whole, and fails only for want of memory.
#[derive(Drop)]
pub(crate) struct Transcript {
    bytes: Vec<u8>,
}

impl Transcript {
    /// A transcript of nothing.
    pub(crate) fn new(alloc: Global) -> Transcript
        ensures { result.bytes.items ≡ [] }
    {
        Transcript {
            bytes: Vec::new(alloc),
        }
    }

    /// The bytes taken so far.
    pub(crate) fn bytes(&self) -> &[u8]
        ensures { result.now ≡ self.now.bytes.items }
    {
        &self.bytes
    }
}

impl Sink for Transcript {
    ghost faults = { λ transcript. 0 };

    ghost content = { λ transcript. transcript.bytes.items };

    fn write(&mut self, piece: &[u8]) -> Result<usize, SinkFault> {
        match self.bytes.extend_from_slice(piece) {
            Ok(()) => Ok(piece.len()),
            Err(_) => Err(SinkFault::Memory),
        }
    }
}
