//! One seat among others.

ghost use Rattle.std.specs.Prelude.{◌≡◌, IfSome, IfNone};
ghost use Rattle.cdp_host_isolation.specs.Seats.{put, seat_of};
ghost use Rattle.cdp_host_isolation.specs.declared.seat.Seat.TheVariants.{Left};
ghost use Rattle.cdp_host_seats.specs.Places.{IsPlace};

use cdp_host_isolation::Seat;

/// The place of the seat of the session of this number, if it has one.
pub fn seat_index<X: Drop>(seats: &[Seat<X>], s: u64) -> Option<usize>
    ensures some { IfSome result (λ i. IsPlace s i seats.now) }
    ensures none { IfNone result (seat_of s seats.now ≡ Left) }
{
    let index = (s as usize).checked_sub(1)?;
    if index < seats.len() {
        Some(index)
    } else {
        None
    }
}

/// Detaches the session of this number.
pub fn leave<X: Drop>(seats: &mut [Seat<X>], s: u64)
    ensures { seats.new ≡ put s Left seats.old }
{
    if let Some(index) = seat_index(seats, s) {
        seats[index] = Seat::Left;
    }
}
