//! What becomes of a source that is evaluated.

use crate::arguments::Argument;
use js_heap::value::{Addr, Value};

/// What becomes of a source that is evaluated.
#[derive(Clone, Copy)]
pub enum Work<'a> {
    /// Its expression is evaluated in a scope with a `this`.
    Expression {
        scope: Addr,
        receiver: Value,
    },
    /// Its function is called in the script scope with a `this` and arguments.
    Call {
        receiver: Value,
        arguments: &'a [Argument],
    },
}
