//! The losses of which their owners are told.

ghost use Rattle.std.specs.Prelude.{◌≡◌};
ghost use Rattle.cdp_host_isolation.specs.Seats.{put, seat_of};
ghost use Rattle.cdp_host_seats.specs.Losses.{is_forgotten, loss_told, owner_told};

use crate::losses::SessionLost;
use crate::places::seat_index;
use cdp_host_isolation::{Loss, Seat};

/// Tells the owner of a seat of the loss of its session, if it was lost and that wasn't told. Of a loss that its owner was told
/// before a run reported it, for want of memory in a resume, no run tells.
fn tell_loss_of<X: Drop>(session: u64, seat: &mut Seat<X>) -> Option<SessionLost>
    ensures told { result ≡ loss_told session seat.old }
    ensures seat { seat.new ≡ owner_told seat.old }
{
    let Seat::Lost {
        loss,
        reported,
        told,
    } = seat
    else {
        return None;
    };
    let lost = SessionLost {
        session,
        loss: *loss,
    };
    let is_new = !*told;
    if is_forgotten(*loss, *reported) {
        *seat = Seat::Left;
    } else {
        *told = true;
    }
    if is_new { Some(lost) } else { None }
}

/// Whether a loss leaves no trace once its owner was told of it.
fn is_forgotten(loss: Loss, reported: bool) -> bool
    ensures { result ≡ is_forgotten loss reported }
{
    match loss {
        Loss::Memory => !reported,
        Loss::Overrun => false,
    }
}

/// Tells the owner of the seat of this number of the loss of its session, if it was lost and that wasn't told.
pub fn tell_loss<X: Drop>(seats: &mut [Seat<X>], s: u64) -> Option<SessionLost>
    ensures told { result ≡ loss_told s (seat_of s seats.old) }
    ensures seats { seats.new ≡ put s (owner_told (seat_of s seats.old)) seats.old }
{
    match seat_index(seats, s) {
        Some(index) => tell_loss_of(s, &mut seats[index]),
        None => None,
    }
}
