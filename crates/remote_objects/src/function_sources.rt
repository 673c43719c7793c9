//! The sources of functions that evaluations made.

use cdp_text::units::Units;
use std::alloc::{AllocError, Global};

/// What finds the source of a function that an evaluation made. Contracts see the source of each node of a text.
pub trait FunctionSources {
    ghost use Rattle.std.specs.Prelude.{◌≡◌, IfOk, List, ℕ};

    ghost node_text: { List ℕ → ℕ → List ℕ };

    /// The source of the node of this number in a text that was evaluated; empty where the text has no such node.
    ///
    /// # Errors
    ///
    /// There is no memory for it.
    fn node_text(&self, alloc: Global, text: &[u16], node: u32) -> Result<Units, AllocError>
        ensures { IfOk result (λ units. units ≡ node_text text.now node) };
}
