//! The index of the places at which the sessions of a host have breakpoints.

ghost use Rattle.std.specs.Prelude.{◌≡◌, false, true};
ghost use Rattle.breakpoints.specs.PlaceIndex.{without_session};
ghost use Rattle.cdp_host_isolation.specs.Seats.{waits_for_report};
ghost use Rattle.cdp_host.specs.Indexing.{ForgetsLost};

use breakpoints::PlaceIndex;
use cdp_host_isolation::Seat;
use cdp_session::Session;

/// Whether a session was lost there, and no run has told of that.
fn is_lost(seat: &Seat<Session>) -> bool
    ensures { result ≡ waits_for_report seat.now }
{
    match seat {
        Seat::Lost { reported, .. } => !*reported,
        Seat::Attached(_) | Seat::Left => false,
    }
}

/// Takes the places of the session of this number out of an index, if it was lost and no run has told of that.
fn forget_if_lost(index: &mut PlaceIndex, s: u64, seat: &Seat<Session>)
    ensures lost { waits_for_report seat.now ≡ true → index.new ≡ without_session s index.old }
    ensures kept { waits_for_report seat.now ≡ false → index.new ≡ index.old }
{
    if is_lost(seat) {
        index.forget(s);
    }
}

/// Takes the places of those sessions out of an index that were lost, and of which no run has told.
pub(crate) fn forget_lost(index: &mut PlaceIndex, seats: &[Seat<Session>])
    ensures { ForgetsLost seats.now index.old index.new }
{
    let mut session = 0;
    for seat in seats {
        session += 1;
        forget_if_lost(index, session, seat);
    }
}
