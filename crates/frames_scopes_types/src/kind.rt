//! Kinds of scopes.

/// How a scope of a frame is listed.
#[derive(Clone, Copy)]
pub enum ListedKind {
    /// A block or a loop.
    Block,
    /// A `catch` with a name.
    Catch,
    /// The call that the frame is.
    Local,
    /// The call of an outer function, or the name of a function expression.
    Closure,
    /// The scripts.
    Script,
    /// The global scope.
    Global,
}
