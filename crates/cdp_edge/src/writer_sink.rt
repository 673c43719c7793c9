//! A sink over an output stream. Its log is what the writer said that it took; what the writer holds is known of some
//! writers alone.

ghost use Rattle.std.specs.Prelude.{◌≡◌, ◌≤◌, ◌<◌, [], length, IfOk};
ghost use Rattle.std.specs.Io.KnownBytes.{WriteAppends};
ghost use Rattle.cdp_edge.specs.Outside.{count_after};
ghost use Rattle.cdp_edge.specs.WriterSink.{taken_after};

use crate::byte_log::ByteLog;
use crate::{Sink, SinkFault};
use std::io::{ErrorKind, Write};
use std::marker::Model;

/// How often a write that was interrupted is tried.
const TRIES: u32 = 1000;

/// A sink over a writer. A contract sees what its writer holds, where that is known, what the sink took, and its count
/// of faults.
#[derive(Drop)]
pub struct WriterSink<W: Write + Send + Drop> {
    to: W,
    log: ByteLog,
    faults: u64,
}

impl<W: Write + Send + Drop> Model for WriterSink<W> {
    ghost use Rattle.cdp_edge.specs.WriterSink.{WritingSink};

    ghost Value = { WritingSink };

    ghost view = { λ a. record { holds = W.contents a.to; taken = a.log.bytes; faults = a.faults } };
}

impl<W: Write + Send + Drop> WriterSink<W> {
    /// A sink that took nothing and never failed.
    pub fn new(to: W) -> WriterSink<W>
        ensures { result ≡ record { holds = W.contents to; taken = []; faults = 0 } }
    {
        WriterSink {
            to,
            log: ByteLog::new(),
            faults: 0,
        }
    }
}

/// Writes some first bytes of the piece, again where the write was interrupted.
#[tactic(auto, using(crate::proofs::Writers::writes))]
fn write_some<W: Write>(to: &mut W, piece: &[u8]) -> Result<usize, SinkFault>
    ensures within { IfOk result (λ n. n ≤ length piece.now) }
    ensures some { IfOk result (λ n. 0 < length piece.now → 0 < n) }
    ensures bytes { WriteAppends (W.contents to.old) (W.contents to.new) result piece.now }
{
    for _ in 0..TRIES {
        match to.write(piece) {
            Ok(0) if !piece.is_empty() => return Err(SinkFault::Failed),
            Ok(taken) => return Ok(taken),
            Err(error) => match error.kind() {
                ErrorKind::Interrupted => {}
                ErrorKind::OutOfMemory => return Err(SinkFault::Memory),
                _ => return Err(SinkFault::Failed),
            },
        }
    }
    Err(SinkFault::Failed)
}

impl<W: Write + Send + Drop> Sink for WriterSink<W> {
    ghost faults = { λ sink. sink.faults };

    ghost content = { λ sink. sink.taken };

    fn write(&mut self, piece: &[u8]) -> Result<usize, SinkFault>
        ensures within { IfOk result (λ n. n ≤ length piece.now) }
        ensures some { IfOk result (λ n. 0 < length piece.now → 0 < n) }
        ensures bytes { WriteAppends self.old.holds self.new.holds result piece.now }
        ensures taken { self.new.taken ≡ taken_after result piece.now self.old.taken }
        ensures counted { self.new.faults ≡ count_after result self.old.faults }
    {
        let answer = write_some(&mut self.to, piece);
        match answer {
            Ok(taken) => self.log.note(&piece[..taken]),
            Err(SinkFault::Failed) => self.faults = self.faults.saturating_add(1),
            Err(SinkFault::Memory) => {}
        }
        answer
    }
}
