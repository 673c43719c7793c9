//! A link is a connection in text messages. It counts its faults and may tell what was said.

ghost use Rattle.std.specs.Prelude.{◌≡◌, ◌≢◌, ◌≤◌, ◌∷◌, [], ℕ, List, Option, Some, OnOk, OnErr, IsErrOf};
ghost use Rattle.cdp_edge.specs.Outside.{Rose};
ghost use Rattle.cdp_edge_server.specs.Contents.{adds, becomes};
ghost use Rattle.cdp_edge_server.specs.Coming.{Coming, GivesTold};
ghost use Rattle.cdp_edge_server.specs.Heard.{Heard, heard_of, IsWithin};

use thiserror::Error;

/// The largest text that a link gives, in bytes.
pub const MOST_BYTES: usize = 1_048_576;

/// What a link answers that is asked for what arrived.
#[derive(Drop)]
pub enum Recv {
    /// A text, of at most `MOST_BYTES` bytes.
    Text(String),
    /// A binary message.
    Binary,
    /// A message above the limit.
    TooBig,
    /// No whole message had arrived.
    Quiet,
    /// The peer closed, or went away.
    Closed,
    /// The link failed, and its count rose.
    Failed,
    /// No memory was left for the call.
    Memory,
}

/// Why a link sent nothing.
#[derive(Clone, Copy, Debug, Error)]
pub enum LinkFault {
    /// The link failed, and its count rose.
    #[error("the connection failed")]
    Failed,
    /// No memory was left for the call.
    #[error("out of memory")]
    Memory,
}

/// A connection in text messages.
pub trait Link: Drop {
    /// How often a call has failed; it stays at the greatest `u64`.
    ghost faults: { Self → ℕ };

    /// What is to come, where it is told.
    ghost coming: { Self → Option (List Coming) };

    /// The answers so far but want of memory, where they are told.
    ghost answers: { Self → Option (List Heard) };

    /// The texts sent so far, where they are told.
    ghost sent: { Self → Option (List (List ℕ)) };

    /// The code of the last close that was sent, if one was, where it is told.
    ghost closed: { Self → Option (Option ℕ) };

    /// The next message, if one has arrived.
    ///
    /// `Failed` comes only where the count rose, or stands at the greatest `u64`. At `Failed` and
    /// `Memory` no message is lost.
    fn recv(&mut self) -> Recv
        ensures text { IsWithin result }
        ensures coming { GivesTold result (coming self.old) (coming self.new) }
        ensures answers { answers self.new ≡ adds (answers self.old) (heard_of result) }
        ensures sent { sent self.new ≡ sent self.old }
        ensures closed { closed self.new ≡ closed self.old }
        ensures count { faults self.old ≤ faults self.new }
        ensures quiet { result ≢ Recv.Failed → faults self.new ≡ faults self.old }
        ensures failed { result ≡ Recv.Failed → Rose (faults self.old) (faults self.new) };

    /// Sends a text.
    ///
    /// # Errors
    ///
    /// `Failed`, and the count rose, or stands at the greatest `u64`; `Memory` at want of memory, and
    /// the count is as it was. After either nothing of the text counts as sent.
    fn send(&mut self, text: &str) -> Result<(), LinkFault>
        ensures sent { OnOk result (sent self.new ≡ adds (sent self.old) (text.now ∷ [])) }
        ensures nothing { OnErr result (sent self.new ≡ sent self.old) }
        ensures coming { coming self.new ≡ coming self.old }
        ensures answers { answers self.new ≡ answers self.old }
        ensures closed { closed self.new ≡ closed self.old }
        ensures count { faults self.old ≤ faults self.new }
        ensures quiet { OnOk result (faults self.new ≡ faults self.old) }
        ensures memory { IsErrOf result LinkFault.Memory → faults self.new ≡ faults self.old }
        ensures failed { IsErrOf result LinkFault.Failed → Rose (faults self.old) (faults self.new) };

    /// Sends a close with this code.
    ///
    /// # Errors
    ///
    /// As `send`.
    fn close(&mut self, code: u16) -> Result<(), LinkFault>
        ensures closed { OnOk result (closed self.new ≡ becomes (closed self.old) (Some code)) }
        ensures open { OnErr result (closed self.new ≡ closed self.old) }
        ensures coming { coming self.new ≡ coming self.old }
        ensures answers { answers self.new ≡ answers self.old }
        ensures sent { sent self.new ≡ sent self.old }
        ensures count { faults self.old ≤ faults self.new }
        ensures quiet { OnOk result (faults self.new ≡ faults self.old) }
        ensures memory { IsErrOf result LinkFault.Memory → faults self.new ≡ faults self.old }
        ensures failed { IsErrOf result LinkFault.Failed → Rose (faults self.old) (faults self.new) };
}
