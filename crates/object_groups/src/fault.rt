//! Why no handle is made.

ghost use Rattle.std.specs.Prelude.{◌≡◌};
ghost use Rattle.object_groups.specs.declared.fault.HandleFault.TheVariants.{Memory};

use std::alloc::AllocError;

/// As many handles as a session may hold.
pub const MOST_HELD: usize = 100_000;

/// As many handles as a session may make.
pub const MOST_MADE: u64 = 1 << 62;

/// Why no handle is made.
#[derive(Drop)]
pub enum HandleFault {
    /// As many handles are held, or else were made, as may be; `count` is how many that is.
    Full { count: u64 },
    /// There is no memory for it.
    Memory,
}

impl From<AllocError> for HandleFault {
    ghost from_gives = { λ _ e. e ≡ Memory };

    fn from(_e: AllocError) -> HandleFault {
        HandleFault::Memory
    }
}
