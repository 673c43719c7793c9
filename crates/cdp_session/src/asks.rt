//! What a command asks of the program.

/// What a command asks of the program besides its answer.
#[derive(Clone, Copy)]
pub enum Asks {
    /// Nothing.
    Nothing,
    /// To begin, where it waits for a client.
    Wake,
    /// To go on, from where it is paused.
    Resume,
    /// The session doesn't debug it any more: to go on, where no other session has the debugger enabled.
    Leave,
}
