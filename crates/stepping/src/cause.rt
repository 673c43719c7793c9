//! The rules by which a session stops the program.

/// The rule by which a session stops the program, in the order in which they are tried.
#[derive(Clone, Copy)]
pub enum Cause {
    /// The step raised a throw of a kind that the session asks for.
    Exception,
    /// The program arrived at a place of an active breakpoint of the session, whose condition holds.
    Breakpoint,
    /// The program arrived at a `debugger` statement.
    DebuggerStatement,
    /// The session asked for a pause, and the program arrived anywhere.
    Pause,
    /// The session asked for a step, and the program arrived where such a step ends.
    Step,
    /// The session asked to run on to a place, and the program arrived there.
    ContinueTo,
}
