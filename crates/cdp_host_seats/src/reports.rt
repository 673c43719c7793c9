//! The losses of which a run tells.

ghost use Rattle.std.specs.Prelude.{◌≡◌, ◌+◌, ◌++◌, ◌∷◌, ◌<◌, ◌≤◌, [], IfOk, OnOk, true, option_to_list, is_some, vec_capacity, vec_len, IsOk, OnErr};
ghost use Rattle.cdp_host_isolation.specs.Seats.{each, reported, some, waits_for_report};
ghost use Rattle.cdp_host_seats.specs.Losses.{losses_from};

use crate::losses::SessionLost;
use cdp_host_isolation::Seat;
use std::alloc::{AllocError, Global};

/// Whether a session was lost there, and no run has reported it.
fn waits_for_report<X: Drop>(seat: &Seat<X>) -> bool
    ensures { result ≡ waits_for_report seat.now }
{
    match seat {
        Seat::Lost { reported, .. } => !*reported,
        Seat::Attached(_) | Seat::Left => false,
    }
}

/// Whether a session was lost, and no run has reported it.
pub fn some_wait_for_report<X: Drop>(seats: &[Seat<X>]) -> bool
    ensures { result ≡ some waits_for_report seats.now }
{
    for seat in seats {
        if waits_for_report(seat) {
            return true;
        }
    }
    false
}

/// The loss that waits for a run, if one does, of the session of this number.
fn loss_waiting<X: Drop>(session: u64, seat: &Seat<X>) -> Option<SessionLost>
    ensures { losses_from session (seat.now ∷ []) ≡ option_to_list result }
{
    match seat {
        Seat::Lost {
            loss,
            reported: false,
            ..
        } => Some(SessionLost {
            session,
            loss: *loss,
        }),
        Seat::Attached(_) | Seat::Lost { .. } | Seat::Left => None,
    }
}

/// Puts a loss behind others, if there is one.
pub fn push_loss(losses: &mut Vec<SessionLost>, loss: Option<SessionLost>) -> Result<(), AllocError>
    ensures pushed { OnOk result (losses.new.items ≡ losses.old.items ++ option_to_list loss) }
    ensures err { OnErr result (is_some loss ≡ true) }
    // where there is room it needs no memory
    ensures succeeds { vec_len losses.old < vec_capacity losses.old → IsOk result }
    ensures len { vec_len losses.new ≤ vec_len losses.old + 1 }
    ensures room { vec_capacity losses.old ≤ vec_capacity losses.new }
{
    if let Some(loss) = loss {
        losses.push(loss)?;
    }
    Ok(())
}

/// The losses that wait for a run, in the order of the sessions' numbers.
///
/// # Errors
///
/// There is no memory for the list; so some session was lost.
pub fn losses_of<X: Drop>(alloc: Global, seats: &[Seat<X>]) -> Result<Vec<SessionLost>, AllocError>
    ensures losses { IfOk result (λ losses. losses.items ≡ losses_from 1 seats.now) }
    ensures err { OnErr result (some waits_for_report seats.now ≡ true) }
{
    let mut losses = Vec::new(alloc);
    let mut session = 0;
    for seat in seats {
        session += 1;
        push_loss(&mut losses, loss_waiting(session, seat))?;
    }
    Ok(losses)
}

/// What waited for a run was reported by it.
fn report_seat<X: Drop>(seat: &mut Seat<X>)
    ensures { seat.new ≡ reported seat.old }
{
    if let Seat::Lost { reported, .. } = seat {
        *reported = true;
    }
}

/// What waited for a run in any of the seats was reported by it.
pub fn report_all<X: Drop>(seats: &mut [Seat<X>])
    ensures { seats.new ≡ each reported seats.old }
{
    for seat in seats.iter_mut() {
        report_seat(seat);
    }
}
