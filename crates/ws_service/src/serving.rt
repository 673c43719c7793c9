//! The program and all doors, to the end, and the one history of it.

ghost use Rattle.std.specs.Prelude.{◌≡◌, ◌+◌, ◌<◌, ◌≤◌, [], List, length, map, All, Some, vec_capacity, false};
ghost use Rattle.history_lock.specs.Passes.{initial_pass};
ghost use Rattle.ws_service.specs.Joins.{HasServed, IsAtFirst, IsLastPass};
ghost use Rattle.ws_service.specs.Programs.{HasRun};
ghost use Rattle.ws_service.specs.Serving.{IsServing, ServedDoor, numbers_below};

use crate::beside::{Runner, run_beside};
use crate::desk::Desk;
use crate::ends::Ends;
use crate::join::join_all;
use crate::program::RunEnd;
use cdp_edge::Sink;
use cdp_edge_server::{Bell, Clock, Door};
use cdp_host_turns::Hosted;
use std::alloc::Global;
use std::sync::Wait;
use std::thread::Threads;

/// Runs the program to its end, and serves all doors beside it, whose desks come back.
fn serve_desks<
    'l,
    'b,
    H: Hosted<B> + Send,
    B: Send + Sync,
    D: Bell + Sync,
    O: Door + Send,
    S: Sink + Send,
    C: Clock + Send,
    R: Threads + Wait + Sync,
>(
    rt: &R,
    alloc: Global,
    runner: &mut Runner<'_, '_, H, B, D>,
    out: &mut S,
    clock: &mut C,
    desks: Vec<Desk<'l, 'b, H, B, D, O>>,
) -> (RunEnd, Vec<Desk<'l, 'b, H, B, D, O>>)
where
    O::Link: Send,
    requires runner { (runner.old.pass.lock ≡ runner.old.lock.now) × (runner.old.pass.in_turn ≡ false) }
    requires some { 0 < length desks.items }
    requires lock { All (λ desk. desk.lock.now ≡ runner.old.lock.now) desks.items }
    requires desks { All (λ desk. IsAtFirst runner.old.lock.now desk.pass (record {
      faults = O.faults desk.door;
      asked = O.asked desk.door;
      served = O.served desk.door;
      is_out = O.is_out desk.door;
    })) desks.items }
    ensures runs { HasRun H.debugs (C.moment clock.old) runner.old.pass runner.new.pass (record { content = S.content out.old; faults = S.faults out.old }) (record { content = S.content out.new; faults = S.faults out.new }) (Some result.0) }
    ensures lock { runner.new.lock.now ≡ runner.old.lock.now }
    ensures length { length result.1.items ≡ length desks.entry.items }
    ensures numbers { map (λ desk. desk.pass.number) result.1.items ≡ map (λ desk. desk.pass.number) desks.entry.items }
    ensures locks { All (λ desk. desk.pass.lock ≡ runner.old.lock.now) result.1.items }
    ensures served { All (λ desk. HasServed H.debugs desk.pass (record {
      faults = O.faults desk.door;
      asked = O.asked desk.door;
      served = O.served desk.door;
      is_out = O.is_out desk.door;
    }) desk.end) result.1.items }
{
    run_beside(rt, alloc, runner, out, clock, desks)
}

/// Runs the program to its end, serves all doors beside it, joins their passes into the runner's, and hands the doors
/// back. It takes no memory of its own.
pub fn serve_all<
    H: Hosted<B> + Send,
    B: Send + Sync,
    D: Bell + Sync,
    O: Door + Send,
    S: Sink + Send,
    C: Clock + Send,
    R: Threads + Wait + Sync,
>(
    rt: &R,
    alloc: Global,
    runner: &mut Runner<'_, '_, H, B, D>,
    out: &mut S,
    clock: &mut C,
    desks: Vec<Desk<'_, '_, H, B, D, O>>,
    doors: &mut Vec<O>,
) -> Ends
where
    O::Link: Send,
    requires runner { runner.old.pass ≡ initial_pass runner.old.lock.now (length desks.items + 1) (length desks.items) }
    requires some { 0 < length desks.items }
    requires lock { All (λ desk. desk.lock.now ≡ runner.old.lock.now) desks.items }
    requires desks { All (λ desk. IsAtFirst runner.old.lock.now desk.pass (record {
      faults = O.faults desk.door;
      asked = O.asked desk.door;
      served = O.served desk.door;
      is_out = O.is_out desk.door;
    })) desks.items }
    requires numbers { map (λ desk. desk.pass.number) desks.items ≡ numbers_below (length desks.items) }
    requires none { doors.old.items ≡ [] }
    requires room { length desks.items ≤ vec_capacity doors.old }
    // What the runner's pass has seen at the end is the one history, in which the program ran and the doors were served
    // that are handed back.
    ensures serves { (served : List ServedDoor) × IsServing H.debugs (length desks.entry.items) (C.moment clock.old) (record { content = S.content out.old; faults = S.faults out.old }) (record { content = S.content out.new; faults = S.faults out.new }) result runner.new.pass.seen served × (map (λ door. record {
      faults = O.faults door;
      asked = O.asked door;
      served = O.served door;
      is_out = O.is_out door;
    }) doors.new.items ≡ map (λ (door : ServedDoor). door.door) served) }
    ensures lock { runner.new.lock.now ≡ runner.old.lock.now }
    ensures last { IsLastPass runner.old.lock.now (length desks.entry.items) runner.new.pass }
{
    let (run, served) = serve_desks(rt, alloc, runner, out, clock, desks);
    let ended = join_all(runner.lock, &mut runner.pass, served, doors);
    Ends { run, doors: ended }
}
