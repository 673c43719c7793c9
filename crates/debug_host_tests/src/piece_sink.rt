//! A sink that takes its lines in pieces.

use cdp_edge::{Sink, SinkFault};

// Takes at most so many bytes at each write, and counts the writes and the pieces that end with LF.
#[derive(Drop)]
pub(crate) struct PieceSink {
    pub(crate) most: usize,
    pub(crate) taken: Vec<u8>,
    pub(crate) writes: u64,
    pub(crate) lines: u64,
}

impl Sink for PieceSink {
    ghost faults = { λ _. 0 };

    ghost content = { λ sink. sink.taken.items };

    fn write(&mut self, piece: &[u8]) -> Result<usize, SinkFault> {
        let taken = piece.len().min(self.most).max(1).min(piece.len());
        match self.taken.extend_from_slice(&piece[..taken]) {
            Ok(()) => {
                self.writes = self.writes.saturating_add(1);
                if piece.last() == Some(&b'\n') {
                    self.lines = self.lines.saturating_add(1);
                }
                Ok(taken)
            }
            Err(_) => Err(SinkFault::Memory),
        }
    }
}
