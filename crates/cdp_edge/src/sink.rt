//! A sink takes bytes, counts its faults and keeps a log of what it took.

ghost use Rattle.std.specs.Prelude.{◌≡◌, ◌≤◌, ◌<◌, List, ℕ, length, take, IfOk, OnOk, OnErr, IsErrOf};
ghost use Rattle.cdp_edge.specs.Outside.{Rose, gains, GainsLess};

use thiserror::Error;

/// Why a sink took nothing.
#[derive(Clone, Copy, Debug, PartialEq, Eq, Error)]
pub enum SinkFault {
    /// The sink refused the write, and its count rose.
    #[error("the output can't be written")]
    Failed,
    /// No memory was left for the write.
    #[error("out of memory")]
    Memory,
}

/// What takes output.
pub trait Sink: Send + Drop {
    /// How often a call has failed; it stays at the greatest `u64`.
    ghost faults: { Self → ℕ };

    /// The bytes taken so far.
    ghost content: { Self → List ℕ };

    /// Takes some first bytes of the piece, at least one where there is one, and answers how many.
    ///
    /// # Errors
    ///
    /// `Failed`, and the count rose, or stands at the greatest `u64`; `Memory` at want of memory, and
    /// the count is as it was. After either nothing of the piece was taken.
    fn write(&mut self, piece: &[u8]) -> Result<usize, SinkFault>
        ensures within { IfOk result (λ n. n ≤ length piece.now) }
        ensures some { IfOk result (λ n. 0 < length piece.now → 0 < n) }
        ensures taken { IfOk result (λ n. content self.new ≡ gains (content self.old) (take n piece.now)) }
        ensures nothing { OnErr result (content self.new ≡ content self.old) }
        ensures count { faults self.old ≤ faults self.new }
        ensures quiet { OnOk result (faults self.new ≡ faults self.old) }
        ensures memory { IsErrOf result SinkFault.Memory → faults self.new ≡ faults self.old }
        ensures failed { IsErrOf result SinkFault.Failed → Rose (faults self.old) (faults self.new) };
}

/// Offers the piece in one write, and again what is left of it, until all is taken.
///
/// # Errors
///
/// Those of [`Sink::write`]. Some first bytes of the piece were then taken, but not all. A write that failed isn't tried again.
#[tactic(auto, using(crate::proofs::Gains::slices))]
pub fn put<O: Sink>(out: &mut O, piece: &[u8]) -> Result<(), SinkFault>
    ensures ok { OnOk result (O.content out.new ≡ gains (O.content out.old) piece.now) }
    ensures err { OnErr result (GainsLess (O.content out.old) (O.content out.new) piece.now) }
    ensures quiet { OnOk result (O.faults out.new ≡ O.faults out.old) }
    ensures memory { IsErrOf result SinkFault.Memory → O.faults out.new ≡ O.faults out.old }
    ensures failed { IsErrOf result SinkFault.Failed → Rose (O.faults out.old) (O.faults out.new) }
{
    let mut at = 0;
    while at < piece.len() {
        at += out.write(&piece[at..])?;
    }
    Ok(())
}
