//! The passes of all desks are joined into one, whose list is the history, and the doors are handed back.

ghost use Rattle.std.specs.Prelude.{◌≡◌, ◌+◌, ◌<◌, ◌≤◌, ◌++◌, length, map, All, vec_capacity, vec_len, false, true};
ghost use Rattle.history_lock.specs.Histories.{Begins};
ghost use Rattle.history_lock.specs.Passes.{HasInitialOnly, KeepsWhole, SeesSpent, joined_pass};
ghost use Rattle.cdp_host_turns.specs.Debuggings.{IsHistory};
ghost use Rattle.ws_service.specs.Joins.{AnswersForAll, AreAll, HasServed, IsServedDoor, joined_passes};
ghost use Rattle.ws_service.specs.Serving.{IsEndOfDoors};

use crate::desk::Desk;
use crate::ends::{DoorsEnd, with_door};
use cdp_edge_server::{Bell, Door};
use cdp_host_turns::{Hosted, Lock, Worker};

/// Joins the pass of a desk into another, and hands its door back.
fn join_desk<H: Hosted<B>, B, D: Bell, O: Door>(
    lock: &Lock<H, B>,
    p: &mut Worker<H, B>,
    desk: Desk<'_, '_, H, B, D, O>,
) -> O
    requires lock { (p.old.lock ≡ lock.now) × (desk.pass.lock ≡ lock.now) }
    requires free { (p.old.in_turn ≡ false) × (desk.pass.in_turn ≡ false) }
    ensures door { result ≡ desk.entry.door }
    ensures joined { p.new ≡ joined_pass p.old desk.entry.pass }
    ensures both { Begins p.old.seen p.new.seen × Begins desk.entry.pass.seen p.new.seen }
    ensures own { KeepsWhole p.old p.new.seen }
    ensures others { KeepsWhole desk.entry.pass p.new.seen }
    ensures only { HasInitialOnly p.new }
    ensures sees { SeesSpent p.new }
{
    let Desk {
        lock: _,
        bell: _,
        pass,
        door,
        end: _,
    } = desk;
    lock.join(p, pass);
    door
}

/// Joins the passes of all desks into one, and hands their doors back, in the order of the desks. Answers how the doors
/// ended together. It takes no memory.
pub fn join_all<H: Hosted<B>, B, D: Bell, O: Door>(
    lock: &Lock<H, B>,
    p: &mut Worker<H, B>,
    desks: Vec<Desk<'_, '_, H, B, D, O>>,
    doors: &mut Vec<O>,
) -> DoorsEnd
    requires lock { (p.old.lock ≡ lock.now) × All (λ desk. desk.pass.lock ≡ lock.now) desks.items }
    requires free { p.old.in_turn ≡ false }
    requires history { IsHistory H.debugs p.old.seen }
    requires served { All (λ desk. HasServed H.debugs desk.pass (record {
      faults = O.faults desk.door;
      asked = O.asked desk.door;
      served = O.served desk.door;
      is_out = O.is_out desk.door;
    }) desk.end) desks.items }
    requires room { vec_len doors.old + length desks.items ≤ vec_capacity doors.old }
    ensures doors { doors.new.items ≡ doors.old.items ++ map (λ desk. desk.door) desks.entry.items }
    ensures joined { p.new ≡ joined_passes p.old (map (λ desk. desk.pass) desks.entry.items) }
    // What the pass has seen is the one history: all is said over it.
    ensures history { IsHistory H.debugs p.new.seen }
    ensures longer { Begins p.old.seen p.new.seen }
    ensures own { KeepsWhole p.old p.new.seen }
    ensures served { All (λ desk. IsServedDoor H.debugs desk.pass.number p.new.seen (p.new.refused ≡ true) (record {
      faults = O.faults desk.door;
      asked = O.asked desk.door;
      served = O.served desk.door;
      is_out = O.is_out desk.door;
    }) desk.end) desks.entry.items }
    ensures refused { p.old.refused ≡ true → p.new.refused ≡ true }
    ensures only { 0 < length desks.entry.items → HasInitialOnly p.new }
    ensures sees { 0 < length desks.entry.items → SeesSpent p.new }
    ensures same { (p.new.lock ≡ p.old.lock) × (p.new.in_turn ≡ false) × (p.new.number ≡ p.old.number) × (p.new.initial ≡ p.old.initial) }
    ensures whole { AreAll p.old (map (λ desk. desk.pass.number) desks.entry.items) → AnswersForAll p.new }
    ensures ended { IsEndOfDoors result (map (λ desk. desk.end) desks.entry.items) }
{
    let mut ends = DoorsEnd::Over;
    for desk in desks {
        ends = with_door(ends, desk.end);
        let door = join_desk(lock, p, desk);
        doors.push_reserved(door);
    }
    ends
}
