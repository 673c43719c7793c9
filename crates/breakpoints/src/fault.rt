//! Why a breakpoint isn't set.

ghost use Rattle.std.specs.Prelude.{◌≡◌};
ghost use Rattle.breakpoints.specs.declared.fault.AddFault.TheVariants.{Memory};

use cdp_text::units::Units;
use std::alloc::{AllocError, AllocFailed};

/// Why a breakpoint isn't set, in the order in which the causes are looked for.
#[derive(Drop)]
pub enum AddFault {
    /// No break location of the script is at the place or behind it.
    Unresolved,
    /// A breakpoint has the id.
    Exists { id: Units },
    /// There are as many breakpoints as may be.
    Full { count: u64 },
    /// There is no memory for it.
    Memory,
}

impl From<AllocError> for AddFault {
    ghost from_gives = { λ _ e. e ≡ Memory };

    fn from(_e: AllocError) -> AddFault {
        AddFault::Memory
    }
}

impl<T: Drop> From<AllocFailed<T>> for AddFault {
    ghost from_gives = { λ _ e. e ≡ Memory };

    fn from(_e: AllocFailed<T>) -> AddFault {
        AddFault::Memory
    }
}
