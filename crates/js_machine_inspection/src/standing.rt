//! What is told of a throw that stands.

use js_heap::value::Value;

/// A throw that stands: its value, and whether no catch will take it.
#[derive(Clone, Copy)]
pub struct Thrown {
    pub value: Value,
    pub uncaught: bool,
}
