//! How an action ends before it goes on.

ghost use Rattle.std.specs.Prelude.{◌≡◌};
ghost use Rattle.js_machine_actions.specs.declared.action_end.ActionEnd.TheVariants.{Memory as memory};

use js_heap::change::Counted;
use js_heap::value::Value;
use std::alloc::{AllocError, AllocFailed};

/// Why an action doesn't go on.
#[derive(Clone, Copy)]
pub enum ActionEnd {
    /// It raises a value.
    Raised(Value),
    /// It ends, giving a value.
    Given(Value),
    /// It would reach outside an evaluation, which ends so.
    Effect,
    /// It would pass a limit of an evaluation, which ends so.
    Full(Counted),
    /// Memory was wanting: the run is given up.
    Memory,
}

impl From<AllocError> for ActionEnd {
    ghost from_gives = { λ _ e. e ≡ memory };

    fn from(_error: AllocError) -> ActionEnd {
        ActionEnd::Memory
    }
}

impl<T: Drop> From<AllocFailed<T>> for ActionEnd {
    ghost from_gives = { λ _ e. e ≡ memory };

    fn from(_error: AllocFailed<T>) -> ActionEnd {
        ActionEnd::Memory
    }
}
