//! Scopes of frames.

use crate::kind::ListedKind;
use js_heap::value::Addr;

/// A scope of a frame.
#[derive(Clone, Copy)]
pub struct Scope<'m> {
    /// How it is listed.
    pub kind: ListedKind,
    /// The name of its function, on the scope of a call and on that of the name of a function expression; else the empty one.
    pub name: &'m [u16],
    /// Where its names are.
    pub bindings: Addr,
}
