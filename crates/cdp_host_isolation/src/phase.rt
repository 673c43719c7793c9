//! How far a program has begun.

/// How far a program has begun, where it may have to wait for a client.
#[derive(Clone, Copy)]
pub enum Phase {
    /// It waits for a client that lets it begin (`Runtime.runIfWaitingForDebugger`).
    Waiting,
    /// A client let it begin: behind its first step it stops, where a session has the debugger enabled.
    Woken,
    /// It was not to wait, or it has made its first step.
    Running,
}
