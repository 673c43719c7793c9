//! Active frames.

use crate::scope::Scope;
use cdp_text::position::Place;
use js_heap::value::Value;

/// An active frame.
#[derive(Drop)]
pub struct CallFrame<'m> {
    /// The name of its function; the script in the bottom frame has the empty one.
    pub name: &'m [u16],
    /// Where it stands: the top frame at the arrival, where the program has arrived; else at the statement last entered or
    /// the call last reduced in it.
    pub place: Place,
    /// The first token of its function; none for the script.
    pub function_place: Option<Place>,
    /// Its `this`.
    pub this: Value,
    /// Its scopes from the innermost one outward.
    pub scopes: Vec<Scope<'m>>,
}
