//! What a wire is, and how a piece is written to it whole.

ghost use Rattle.std.specs.Prelude.{◌≡◌, ◌≢◌, ◌≤◌, ◌<◌, List, ℕ, Option, length, take, IfOk, OnOk, OnErr, IsErrOf};
ghost use Rattle.cdp_edge.specs.Outside.{Rose};
ghost use Rattle.cdp_edge_wire.specs.Arrived.{Arrived, arrived_of, adds};
ghost use Rattle.cdp_edge_wire.specs.Written.{gains, GainsLess};

use cdp_edge::SinkFault;

/// What a wire answers that is asked for a byte.
#[derive(Clone, Copy)]
pub enum Taken {
    /// The next byte.
    Byte(u8),
    /// No byte had arrived.
    Quiet,
    /// The peer closed, or went away.
    End,
    /// The wire failed, and its count rose.
    Failed,
}

/// A connection in bytes.
pub trait Wire: Drop {
    /// How often a call has failed; it stays at the greatest `u64`.
    ghost faults: { Self → ℕ };

    /// The answers so far but `Failed`, where they are told.
    ghost answers: { Self → Option (List Arrived) };

    /// The bytes that it took so far, where they are told.
    ghost content: { Self → Option (List ℕ) };

    /// The next byte, if one has arrived.
    ///
    /// `Failed` comes only where the count rose, or stands at the greatest `u64`; no byte is lost then.
    fn take(&mut self) -> Taken
        ensures answers { answers self.new ≡ adds (answers self.old) (arrived_of result) }
        ensures content { content self.new ≡ content self.old }
        ensures count { faults self.old ≤ faults self.new }
        ensures quiet { result ≢ Taken.Failed → faults self.new ≡ faults self.old }
        ensures failed { result ≡ Taken.Failed → Rose (faults self.old) (faults self.new) };

    /// Takes some first bytes of the piece, at least one where there is one, and answers how many.
    ///
    /// # Errors
    ///
    /// `Failed`, and the count rose, or stands at the greatest `u64`; `Memory` at want of memory, and
    /// the count is as it was. After either nothing of the piece was taken.
    fn write(&mut self, piece: &[u8]) -> Result<usize, SinkFault>
        ensures within { IfOk result (λ n. n ≤ length piece.now) }
        ensures some { IfOk result (λ n. 0 < length piece.now → 0 < n) }
        ensures taken { IfOk result (λ n. content self.new ≡ gains (content self.old) (take n piece.now)) }
        ensures nothing { OnErr result (content self.new ≡ content self.old) }
        ensures answers { answers self.new ≡ answers self.old }
        ensures count { faults self.old ≤ faults self.new }
        ensures quiet { OnOk result (faults self.new ≡ faults self.old) }
        ensures memory { IsErrOf result SinkFault.Memory → faults self.new ≡ faults self.old }
        ensures failed { IsErrOf result SinkFault.Failed → Rose (faults self.old) (faults self.new) };
}

/// Offers the piece in one write, and again what is left of it, until all is taken.
///
/// # Errors
///
/// Those of [`Wire::write`]. Some first bytes of the piece were then taken, but not all. A write that failed isn't tried
/// again.
#[tactic(auto, using(crate::proofs::WrittenLemmas::slices))]
pub fn put_all<W: Wire>(wire: &mut W, piece: &[u8]) -> Result<(), SinkFault>
    ensures ok { OnOk result (W.content wire.new ≡ gains (W.content wire.old) piece.now) }
    ensures err { OnErr result (GainsLess (W.content wire.old) (W.content wire.new) piece.now) }
    ensures answers { W.answers wire.new ≡ W.answers wire.old }
    ensures quiet { OnOk result (W.faults wire.new ≡ W.faults wire.old) }
    ensures memory { IsErrOf result SinkFault.Memory → W.faults wire.new ≡ W.faults wire.old }
    ensures failed { IsErrOf result SinkFault.Failed → Rose (W.faults wire.old) (W.faults wire.new) }
{
    let mut at = 0;
    while at < piece.len() {
        at += wire.write(&piece[at..])?;
    }
    Ok(())
}
