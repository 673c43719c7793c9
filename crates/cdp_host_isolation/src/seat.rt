//! What became of a session.

/// Why a session was lost. What wasn't taken of its texts is lost with it.
#[derive(Clone, Copy)]
pub enum Loss {
    /// More texts would have waited for its client than may, or more bytes of them.
    Overrun,
    /// There was no memory for it.
    Memory,
}

/// What became of a session of some number, which no other session ever has.
#[derive(Drop)]
pub enum Seat<X> {
    /// It is attached.
    Attached(X),
    /// It was lost, by a run or by a resume.
    Lost {
        /// Why.
        loss: Loss,
        /// Whether a run has reported it.
        reported: bool,
        /// Whether its owner was told, by a detach.
        told: bool,
    },
    /// It was detached.
    Left,
}
