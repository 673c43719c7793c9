//! Why a session ends.

ghost use Rattle.std.specs.Prelude.{◌≡◌};
ghost use Rattle.cdp_session_messages.specs.declared.session_end.SessionEnd.TheVariants.{Memory};

use std::alloc::AllocError;

/// Why a session is to be dropped. What wasn't taken of its texts is lost.
#[derive(Clone, Copy)]
pub enum SessionEnd {
    /// More than 65,536 texts, or more than 67,108,864 bytes of them, would have waited for its client.
    Overrun,
    /// There was no memory.
    Memory,
}

impl From<AllocError> for SessionEnd {
    ghost from_gives = { λ _ e. e ≡ Memory };

    fn from(_e: AllocError) -> SessionEnd {
        SessionEnd::Memory
    }
}
