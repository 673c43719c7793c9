//! A host of whose history a record may be kept.

ghost use Rattle.std.specs.Prelude.{◌≡◌};
ghost use Rattle.cdp_host_isolation.specs.Seats.{some};
ghost use Rattle.cdp_host_record.specs.Standing.{still_waits};

use crate::host::Host;
use crate::hosted::Beginning;
use cdp_host_isolation::{Loss, Seat};
use cdp_host_record::Recordable;

/// Whether a loss waits there for a run, and isn't for want of memory.
fn still_waits<X: Drop>(seat: &Seat<X>) -> bool
    ensures { result ≡ still_waits seat.now }
{
    match seat {
        Seat::Lost {
            loss: Loss::Overrun,
            reported: false,
            ..
        } => true,
        Seat::Attached(_) | Seat::Lost { .. } | Seat::Left => false,
    }
}

/// Whether one does at one of these seats.
pub(crate) fn some_still_wait<X: Drop>(seats: &[Seat<X>]) -> bool
    ensures { result ≡ some still_waits seats.now }
{
    for seat in seats {
        if still_waits(seat) {
            return true;
        }
    }
    false
}

impl<'p, B: Beginning> Recordable<B> for Host<'p> {
    fn means_attached(&self, session: u64) -> bool {
        self.is_attached_or_fell(session)
    }

    fn owes_report(&self) -> bool {
        self.some_still_wait()
    }
}
