//! The states of a host.

/// What a host's program waits for, if anything. Where several hold, a host tells the first in this order.
#[derive(Clone, Copy)]
pub enum State {
    /// A run met want of memory: the host makes no further step and attaches nobody.
    Broken,
    /// The program was shut: it makes no further step.
    Shut,
    /// The run has ended by a throw that no `catch` took.
    Threw,
    /// The run has ended.
    Ended,
    /// The program stopped and waits for a resume.
    Paused,
    /// The program waits for a client that lets it begin.
    Waiting,
    /// The program waits for a run, which makes steps.
    Ready,
}
