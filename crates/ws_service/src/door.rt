//! Serves a door: the links that arrive there, one after another, until the program is over.

ghost use Rattle.std.specs.Prelude.{◌≡◌, true, false};
ghost use Rattle.cdp_edge.specs.Outside.{IfTold};
ghost use Rattle.cdp_edge_server.specs.Contents.{IsUnused};
ghost use Rattle.ws_service.specs.Doors.{IsReceived, IsTended, Looks, Shuts, TendsOnce, is_final};

use crate::session::serve_session;
use crate::shutdown::{NotShut, shut_down};
use cdp_edge_server::{Bell, Door, DoorAnswer};
use cdp_host_turns::{Hosted, Lock, State, Worker, look};
use history_lock::Spent;
use std::sync::Wait;

/// How serving a door ended.
#[derive(Clone, Copy)]
pub enum DoorEnd {
    /// The program is over, in this state: it has ended, or was shut, or its host is broken.
    Over(State),
    /// The door failed, and its count rose. The program was shut, if a ticket was left for that.
    Fault {
        /// Why the program was not shut, if it wasn't.
        unshut: Option<NotShut>,
    },
    /// No ticket is left: the ticket word is 2^62.
    Spent {
        /// The ticket word.
        ticket: u64,
    },
}

/// Whether a program in this state makes no further step, whatever its sessions do.
fn is_final(state: State) -> bool
    ensures { result ≡ is_final state }
{
    match state {
        State::Broken | State::Shut | State::Threw | State::Ended => true,
        State::Paused | State::Waiting | State::Ready => false,
    }
}

/// Looks whether the program is over. Answers how serving a door ends, if it does.
fn end_if_over<H: Hosted<B>, B, R: Wait>(
    rt: &R,
    lock: &Lock<H, B>,
    p: &mut Worker<H, B>,
) -> Option<DoorEnd>
    requires lock { p.old.lock ≡ lock.now }
    requires free { p.old.in_turn ≡ false }
    ensures { Looks H.debugs p.old p.new result }
{
    match look(rt, lock, p) {
        Ok(state) => is_final(state).then_some(DoorEnd::Over(state)),
        Err(Spent { ticket }) => Some(DoorEnd::Spent { ticket }),
    }
}

/// Shuts the program, if a ticket is left for that, as a door's act.
fn shut_all<H: Hosted<B>, B, D: Bell, R: Wait>(
    rt: &R,
    lock: &Lock<H, B>,
    bell: &D,
    p: &mut Worker<H, B>,
) -> Option<NotShut>
    requires lock { p.old.lock ≡ lock.now }
    requires free { p.old.in_turn ≡ false }
    ensures { Shuts H.debugs p.old p.new result }
{
    shut_down(rt, lock, bell, p)
}

/// Serves a link that arrived, and gives it back.
fn receive<H: Hosted<B>, B, D: Bell, O: Door, R: Wait>(
    rt: &R,
    lock: &Lock<H, B>,
    bell: &D,
    p: &mut Worker<H, B>,
    door: &mut O,
    mut link: O::Link,
)
    requires lock { p.old.lock ≡ lock.now }
    requires free { p.old.in_turn ≡ false }
    requires out { IfTold (O.is_out door.old) (λ out. out ≡ true) }
    requires unused { IsUnused (record {
      faults = O.Link.faults link;
      answers = O.Link.answers link;
      sent = O.Link.sent link;
      closed = O.Link.closed link;
    }) }
    ensures receives { IsReceived H.debugs p.old p.new (O.served door.old) (O.served door.new) }
    ensures home { IfTold (O.is_out door.new) (λ out. out ≡ false) }
    ensures asked { O.asked door.new ≡ O.asked door.old }
    ensures quiet { O.faults door.new ≡ O.faults door.old }
{
    // how it ended is told by the link; whether the door goes on, by a look
    let _ = serve_session(rt, lock, bell, p, &mut link);
    door.back(link);
}

/// Asks a door once, serves the link that it gives, if any, and looks whether the program is over. Answers how serving the
/// door ended, if it did.
fn tend<H: Hosted<B>, B, D: Bell, O: Door, R: Wait>(
    rt: &R,
    lock: &Lock<H, B>,
    bell: &D,
    p: &mut Worker<H, B>,
    door: &mut O,
) -> Option<DoorEnd>
    requires lock { p.old.lock ≡ lock.now }
    requires free { p.old.in_turn ≡ false }
    requires none_out { IfTold (O.is_out door.old) (λ out. out ≡ false) }
    ensures { TendsOnce H.debugs p.old p.new (record {
      faults = O.faults door.old;
      asked = O.asked door.old;
      served = O.served door.old;
      is_out = O.is_out door.old;
    }) (record {
      faults = O.faults door.new;
      asked = O.asked door.new;
      served = O.served door.new;
      is_out = O.is_out door.new;
    }) result }
{
    match door.next() {
        DoorAnswer::Arrived(link) => {
            receive(rt, lock, bell, p, door, link);
            end_if_over(rt, lock, p)
        }
        DoorAnswer::Quiet | DoorAnswer::Memory => end_if_over(rt, lock, p),
        DoorAnswer::Failed => {
            let unshut = shut_all(rt, lock, bell, p);
            Some(DoorEnd::Fault { unshut })
        }
    }
}

/// Serves the links of a door, one after another, until the program is over. It is looked for that after each question,
/// also where no link had arrived. Where the door fails, the program is shut.
pub fn serve_door<H: Hosted<B>, B, D: Bell, O: Door, R: Wait>(
    rt: &R,
    lock: &Lock<H, B>,
    bell: &D,
    p: &mut Worker<H, B>,
    door: &mut O,
) -> DoorEnd
    requires lock { p.old.lock ≡ lock.now }
    requires free { p.old.in_turn ≡ false }
    requires none_out { IfTold (O.is_out door.old) (λ out. out ≡ false) }
    // What the pass did at the door, over all that it has seen now, and which links the door took back for that.
    ensures { IsTended H.debugs p.old p.new (record {
      faults = O.faults door.old;
      asked = O.asked door.old;
      served = O.served door.old;
      is_out = O.is_out door.old;
    }) (record {
      faults = O.faults door.new;
      asked = O.asked door.new;
      served = O.served door.new;
      is_out = O.is_out door.new;
    }) result }
{
    for _ in rt.forever() {
        if let Some(end) = tend(rt, lock, bell, p, door) {
            return end;
        }
    }
    unreachable!()
}
