//! What a host falls back to where a run meets want of memory.

ghost use Rattle.std.specs.Prelude.{◌≡◌, ◌∷◌, ◌≤◌, [], OnOk, length, option_to_list, vec_capacity};
ghost use Rattle.cdp_host_isolation.specs.Seats.{each, fallen};
ghost use Rattle.cdp_host_isolation.specs.Standing.{broken_seat};
ghost use Rattle.cdp_host_seats.specs.Fallbacks.{HasRoom, fallback_held, fallback_of};
ghost use Rattle.cdp_host_seats.specs.Losses.{losses_from};

use crate::losses::SessionLost;
use crate::reports::push_loss;
use cdp_host_isolation::{Loss, Seat};
use std::alloc::{AllocError, Global};
use std::mem;

/// The seats of a host behind want of memory in a run, and the losses that it hands out then. They are made before the run, in
/// room that was taken when the sessions were attached.
#[derive(Drop)]
pub struct Fallback<X> {
    /// The seats.
    pub seats: Vec<Seat<X>>,
    /// The losses.
    pub losses: Vec<SessionLost>,
}

impl<X: Drop> Fallback<X> {
    /// That of a host with no session.
    pub fn new(alloc: Global) -> Fallback<X>
        ensures made { fallback_held result ≡ fallback_of [] }
        ensures room { HasRoom 0 result }
    {
        Fallback {
            seats: Vec::new(alloc),
            losses: Vec::new(alloc),
        }
    }

    /// Takes room for so many seats.
    pub fn reserve(&mut self, count: usize) -> Result<(), AllocError>
        ensures same { fallback_held self.new ≡ fallback_held self.old }
        ensures room { OnOk result (HasRoom count self.new) }
        ensures seats { vec_capacity self.old.seats ≤ vec_capacity self.new.seats }
        ensures losses { vec_capacity self.old.losses ≤ vec_capacity self.new.losses }
    {
        self.seats.reserve(count)?;
        self.losses.reserve(count)
    }

    /// Makes it of the seats before a run.
    pub fn prepare(&mut self, seats: &[Seat<X>])
        requires { HasRoom (length seats.now) self.old }
        ensures made { fallback_held self.new ≡ fallback_of seats.now }
        ensures seats { vec_capacity self.old.seats ≤ vec_capacity self.new.seats }
        ensures losses { vec_capacity self.old.losses ≤ vec_capacity self.new.losses }
    {
        fill_seats(&mut self.seats, seats);
        fill_losses(&mut self.losses, seats);
    }

    /// Puts its seats and its losses in the place of others.
    pub fn restore(&mut self, seats: &mut Vec<Seat<X>>, losses: &mut Vec<SessionLost>)
        ensures seats { seats.new.items ≡ self.old.seats.items }
        ensures losses { losses.new.items ≡ self.old.losses.items }
        ensures gone { self.new.seats.items ≡ [] }
    {
        mem::swap(seats, &mut self.seats);
        mem::swap(losses, &mut self.losses);
        self.seats.clear();
    }
}

/// The seat behind want of memory in a run.
fn broken_seat<X: Drop>(seat: &Seat<X>) -> Seat<X>
    ensures { result ≡ broken_seat seat.now }
{
    match seat {
        Seat::Attached(_) => Seat::Lost {
            loss: Loss::Memory,
            reported: true,
            told: false,
        },
        Seat::Lost { loss, told, .. } => Seat::Lost {
            loss: *loss,
            reported: true,
            told: *told,
        },
        Seat::Left => Seat::Left,
    }
}

/// Makes the seats behind want of memory in a run, for which there is room.
fn fill_seats<X: Drop>(broken: &mut Vec<Seat<X>>, seats: &[Seat<X>])
    requires { length seats.now ≤ vec_capacity broken.old }
    ensures made { broken.new.items ≡ each broken_seat seats.now }
    ensures room { vec_capacity broken.old ≤ vec_capacity broken.new }
{
    broken.clear();
    for seat in seats {
        broken.push(broken_seat(seat)).unwrap();
    }
}

/// The loss of the session of this number in want of memory in a run, or the one that waited for that run, if there is one.
fn loss_in_run<X: Drop>(session: u64, seat: &Seat<X>) -> Option<SessionLost>
    ensures { losses_from session (fallen seat.now ∷ []) ≡ option_to_list result }
{
    let loss = match seat {
        Seat::Attached(_) => Loss::Memory,
        Seat::Lost {
            loss,
            reported: false,
            ..
        } => *loss,
        Seat::Lost { .. } | Seat::Left => return None,
    };
    Some(SessionLost { session, loss })
}

/// Makes the list of those losses, for which there is room.
fn fill_losses<X: Drop>(losses: &mut Vec<SessionLost>, seats: &[Seat<X>])
    requires { length seats.now ≤ vec_capacity losses.old }
    ensures made { losses.new.items ≡ losses_from 1 (each fallen seats.now) }
    ensures room { vec_capacity losses.old ≤ vec_capacity losses.new }
{
    losses.clear();
    let mut session = 0;
    for seat in seats {
        session += 1;
        push_loss(losses, loss_in_run(session, seat)).unwrap();
    }
}
