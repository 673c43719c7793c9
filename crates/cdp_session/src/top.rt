//! Where the top frame of a program is evaluated.

use js_heap::value::{Addr, Value};

/// In what an expression is evaluated in the top frame of a program. A program that is over has no frame: there it is
/// evaluated in the scope of the scripts, and its `this` is undefined.
#[derive(Clone, Copy)]
pub struct Top {
    /// The innermost scope.
    pub scope: Addr,
    /// The `this`.
    pub this: Value,
}
