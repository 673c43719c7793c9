//! What became of the session of a seat.

ghost use Rattle.std.specs.Prelude.{◌≡◌};
ghost use Rattle.cdp_host_isolation.specs.Seats.{is_attached};
ghost use Rattle.cdp_host_isolation.specs.Standing.{fell};

use cdp_host_isolation::{Loss, Seat};

/// Whether a session is attached there.
pub fn is_attached<X: Drop>(seat: &Seat<X>) -> bool
    ensures { result ≡ is_attached seat.now }
{
    match seat {
        Seat::Attached(_) => true,
        Seat::Lost { .. } | Seat::Left => false,
    }
}

/// Whether a session was lost there for want of memory, and no run has reported it.
pub fn fell<X: Drop>(seat: &Seat<X>) -> bool
    ensures { result ≡ fell seat.now }
{
    match seat {
        Seat::Lost {
            loss: Loss::Memory,
            reported: false,
            ..
        } => true,
        Seat::Attached(_) | Seat::Lost { .. } | Seat::Left => false,
    }
}
