//! What turns answer.

use crate::state::State;
use cdp_host_isolation::Loss;
use cdp_text::units::Units;
use history_lock::Spent;

/// What became of a command.
#[derive(Clone, Copy, Debug, PartialEq, Eq)]
pub enum Told {
    /// It was answered.
    Kept,
    /// The texts of the answer don't fit behind those that wait (65,536 texts, 67,108,864 bytes), and the session is detached.
    Overrun,
    /// There was no memory for the answer, and the session is detached.
    Memory,
}

/// What became of a client that came.
#[derive(Clone, Copy)]
pub enum Attached {
    /// It is the session of this number.
    Session(u64),
    /// The program was shut: no session was attached.
    Shut,
    /// No memory was left for a session, or the host is broken.
    Memory,
}

/// Why a session ended before its turn.
#[derive(Clone, Copy)]
pub enum Gone {
    /// It was lost, by a step of the program or by a resume.
    Lost(Loss),
    /// The program was shut.
    Shut,
}

/// What a session was handed.
#[derive(Drop)]
pub struct HandedOut {
    /// The texts that waited for it, in order.
    pub texts: Vec<String>,
    /// Whether the program has ended: nothing more will come by itself.
    pub is_over: bool,
}

/// What became of a command, and of the texts that wait after it.
#[derive(Drop)]
pub enum Answered {
    /// It was answered, and the texts that waited were handed out.
    Taken(HandedOut),
    /// The texts of the answer don't fit behind those that wait, and the session is detached.
    Overrun,
    /// There was no memory for the answer, and the session is detached.
    Memory,
    /// The session was gone before it was told the command.
    Gone(Gone),
    /// The command was answered, and the session was gone before its texts were handed out.
    GoneAfter(Gone),
    /// The command was answered, and no ticket was left for a turn that hands out the texts.
    SpentAfter(Spent),
}

/// What a turn of the program did.
#[derive(Drop)]
pub enum Progress {
    /// Steps were made, which printed these texts; the program is in this state then.
    Ran(Vec<Units>, State),
    /// No step may be made in this state.
    Idle(State),
    /// There was no memory, and the host is broken.
    Memory,
}
