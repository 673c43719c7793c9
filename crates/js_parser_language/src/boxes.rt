//! Trees in memory of their own.

ghost use Rattle.std.specs.Prelude.{◌≡◌, IfOk};

use std::alloc::{AllocError, Global};

/// A tree in memory of its own.
pub fn boxed<T: Drop>(alloc: Global, tree: T) -> Result<Box<T>, AllocError>
    ensures { IfOk result (λ boxed. boxed.value ≡ tree) }
{
    Ok(Box::new(alloc, tree)?)
}
