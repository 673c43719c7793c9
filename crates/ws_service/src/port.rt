//! A port: its doors are opened, served beside the program, and given back.

ghost use Rattle.std.specs.Prelude.{◌≡◌, ◌⊎◌, ◌+◌, ◌<◌, ◌≤◌, List, [], length, map, All, IfOk, IfErr, OnOk, OnErr, IsErrOf, vec_capacity};
ghost use Rattle.cdp_edge.specs.Outside.{Rose};
ghost use Rattle.history_lock.specs.Passes.{initial_pass, initial_passes};
ghost use Rattle.cdp_edge_server.specs.Contents.{IsNew, RisesAt, any_fault, called};
ghost use Rattle.ws_service.specs.Joins.{IsAtFirst, IsLastPass, IsUnstarted};
ghost use Rattle.ws_service.specs.Serving.{AreKept, IsServing, ServedDoor, seen_by};
ghost use Rattle.ws_service.specs.declared.ends.DoorsEnd.TheVariants as together;

use crate::beside::Runner;
use crate::clients::{Clients, OverDoor};
use crate::desk::Desk;
use crate::ends::Ends;
use crate::serving::serve_all;
use cdp_edge::Sink;
use cdp_edge_server::{Bell, Clock, Door, Harbor, HarborFault};
use cdp_host_turns::{Hosted, Lock, Worker};
use std::alloc::Global;
use std::sync::Wait;
use std::thread::Threads;
use ws_service_devtools::DevtoolsDoor;

/// Gives a door over one of these to each pass, as long as there are doors, the last door first.
fn sit_down<'l, 'b, H: Hosted<B>, B, D: Bell, I: Door, O: OverDoor<I>>(
    alloc: Global,
    lock: &'l Lock<H, B>,
    bell: &'b D,
    passes: Vec<Worker<H, B>>,
    mut doors: Vec<I>,
    desks: &mut Vec<Desk<'l, 'b, H, B, D, O>>,
)
    requires as_many { length doors.items ≡ length passes.items }
    requires none { desks.old.items ≡ [] }
    requires room { length passes.items ≤ vec_capacity desks.old }
    requires passes { All (λ pass. IsUnstarted lock.now pass) passes.items }
    requires doors { All (λ door. IsNew (record {
      faults = I.faults door;
      asked = I.asked door;
      served = I.served door;
      is_out = I.is_out door;
    })) doors.items }
    ensures passes { map (λ desk. desk.pass) desks.new.items ≡ passes.items }
    ensures locks { All (λ desk. desk.lock.now ≡ lock.now) desks.new.items }
    ensures desks { All (λ desk. IsAtFirst lock.now desk.pass (record {
      faults = O.faults desk.door;
      asked = O.asked desk.door;
      served = O.served desk.door;
      is_out = O.is_out desk.door;
    })) desks.new.items }
{
    for pass in passes {
        if let Some(door) = doors.pop() {
            desks.push_reserved(Desk {
                lock,
                bell,
                pass,
                door: O::over(alloc, door),
                end: None,
            });
        }
    }
}

/// Gives back the doors below these, in order.
fn give_back<I: Door, O: OverDoor<I>>(doors: Vec<O>, below: &mut Vec<I>)
    requires none { below.old.items ≡ [] }
    requires room { length doors.items ≤ vec_capacity below.old }
    ensures seen { map O.seen (map (λ door. record {
      faults = I.faults door;
      asked = I.asked door;
      served = I.served door;
      is_out = I.is_out door;
    }) below.new.items) ≡ map (λ door. record {
      faults = O.faults door;
      asked = O.asked door;
      served = O.served door;
      is_out = O.is_out door;
    }) doors.items }
    ensures faults { map (λ door. I.faults door) below.new.items ≡ map (λ door. O.faults door) doors.items }
{
    for door in doors {
        below.push_reserved(door.into_door());
    }
}

/// Serves a port through doors over those that the harbor opens.
///
/// # Errors
///
/// As [`serve_port`].
fn serve_through<
    H: Hosted<B> + Send,
    B: Send + Sync,
    P: Harbor,
    O: OverDoor<P::Door> + Send,
    S: Sink + Send,
    C: Clock + Send,
    R: Threads + Wait + Sync,
>(
    rt: &R,
    alloc: Global,
    lock: &Lock<H, B>,
    pass: Worker<H, B>,
    passes: Vec<Worker<H, B>>,
    harbor: &mut P,
    port: u16,
    out: &mut S,
    clock: &mut C,
) -> Result<(Ends, Worker<H, B>), HarborFault>
where
    P::Bell: Sync,
    O::Link: Send,
    requires some { 0 < length passes.items }
    requires pass { pass ≡ initial_pass lock.now (length passes.items + 1) (length passes.items) }
    requires passes { passes.items ≡ initial_passes lock.now (length passes.items + 1) (length passes.items) }
    // What the pass has seen at the end is the one history, in which the program ran and the doors were served that the
    // harbor took back.
    ensures serves { IfOk result (λ r. (served : List ServedDoor) × IsServing H.debugs (length passes.items) (C.moment clock.old) (record { content = S.content out.old; faults = S.faults out.old }) (record { content = S.content out.new; faults = S.faults out.new }) r.0 r.1.seen served × AreKept O.seen (P.kept harbor.old) (P.kept harbor.new) (map (λ (door : ServedDoor). door.door) served) × RisesAt (any_fault (map (λ (door : ServedDoor). door.door.faults) served)) (P.faults harbor.old) (P.faults harbor.new)) }
    ensures opened { OnOk result (P.opens harbor.new ≡ called (port, length passes.items) (P.opens harbor.old)) }
    ensures home { P.doors_out harbor.new ≡ P.doors_out harbor.old }
    ensures last { IfOk result (λ r. IsLastPass lock.now (length passes.items) r.1) }
    // Where a door failed, the harbor's count rose.
    ensures door { IfOk result (λ r. r.0.doors ≡ together.Failed → Rose (P.faults harbor.old) (P.faults harbor.new)) }
    ensures once { (P.opens harbor.new ≡ P.opens harbor.old) ⊎ (P.opens harbor.new ≡ called (port, length passes.items) (P.opens harbor.old)) }
    ensures dials { P.dials harbor.new ≡ P.dials harbor.old }
    ensures memory { IsErrOf result HarborFault.Memory → P.faults harbor.new ≡ P.faults harbor.old }
    ensures failed { IsErrOf result HarborFault.Failed → Rose (P.faults harbor.old) (P.faults harbor.new) }
    ensures kept { OnErr result (P.kept harbor.new ≡ P.kept harbor.old) }
    ensures nothing { OnErr result ((S.content out.new ≡ S.content out.old) × (S.faults out.new ≡ S.faults out.old)) }
{
    let count = passes.len();
    let bell;
    let Ok(mut desks) = Vec::with_capacity(alloc, count) else {
        return Err(HarborFault::Memory);
    };
    let Ok(mut served) = Vec::with_capacity(alloc, count) else {
        return Err(HarborFault::Memory);
    };
    let Ok(mut back) = Vec::with_capacity(alloc, count) else {
        return Err(HarborFault::Memory);
    };
    let doors = harbor.open(port, count)?;
    bell = harbor.bell();
    sit_down::<H, B, P::Bell, P::Door, O>(alloc, lock, &bell, passes, doors, &mut desks);
    let mut runner = Runner {
        lock,
        bell: &bell,
        pass,
    };
    let ends = serve_all(rt, alloc, &mut runner, out, clock, desks, &mut served);
    give_back::<P::Door, O>(served, &mut back);
    harbor.shut(back);
    let Runner {
        lock: _,
        bell: _,
        pass,
    } = runner;
    Ok((ends, pass))
}

/// Opens as many doors on a port as there are further passes, runs the program to its end, serves the doors beside it until it
/// is over, joins all passes into that of the program, which it hands back, and gives the doors back. All memory of its own is
/// taken before the doors are opened. The clients decide through which doors they are let in.
///
/// # Errors
///
/// `Failed` where the harbor failed to open the doors, and its count rose; `Memory` at want of memory. The program has not
/// begun then.
pub fn serve_port<
    H: Hosted<B> + Send,
    B: Send + Sync,
    P: Harbor,
    S: Sink + Send,
    C: Clock + Send,
    R: Threads + Wait + Sync,
>(
    rt: &R,
    alloc: Global,
    lock: &Lock<H, B>,
    pass: Worker<H, B>,
    passes: Vec<Worker<H, B>>,
    harbor: &mut P,
    port: u16,
    out: &mut S,
    clock: &mut C,
    clients: Clients,
) -> Result<(Ends, Worker<H, B>), HarborFault>
where
    P::Bell: Sync,
    P::Door: Send,
    <P::Door as Door>::Link: Send,
    requires some { 0 < length passes.items }
    requires pass { pass ≡ initial_pass lock.now (length passes.items + 1) (length passes.items) }
    requires passes { passes.items ≡ initial_passes lock.now (length passes.items + 1) (length passes.items) }
    // What the pass has seen at the end is the one history, in which the program ran and the doors were served that the
    // harbor took back.
    ensures serves { IfOk result (λ r. (served : List ServedDoor) × IsServing H.debugs (length passes.items) (C.moment clock.old) (record { content = S.content out.old; faults = S.faults out.old }) (record { content = S.content out.new; faults = S.faults out.new }) r.0 r.1.seen served × AreKept (seen_by clients) (P.kept harbor.old) (P.kept harbor.new) (map (λ (door : ServedDoor). door.door) served) × RisesAt (any_fault (map (λ (door : ServedDoor). door.door.faults) served)) (P.faults harbor.old) (P.faults harbor.new)) }
    ensures opened { OnOk result (P.opens harbor.new ≡ called (port, length passes.items) (P.opens harbor.old)) }
    ensures home { P.doors_out harbor.new ≡ P.doors_out harbor.old }
    ensures last { IfOk result (λ r. IsLastPass lock.now (length passes.items) r.1) }
    // Where a door failed, the harbor's count rose.
    ensures door { IfOk result (λ r. r.0.doors ≡ together.Failed → Rose (P.faults harbor.old) (P.faults harbor.new)) }
    ensures once { (P.opens harbor.new ≡ P.opens harbor.old) ⊎ (P.opens harbor.new ≡ called (port, length passes.items) (P.opens harbor.old)) }
    ensures dials { P.dials harbor.new ≡ P.dials harbor.old }
    ensures memory { IsErrOf result HarborFault.Memory → P.faults harbor.new ≡ P.faults harbor.old }
    ensures failed { IsErrOf result HarborFault.Failed → Rose (P.faults harbor.old) (P.faults harbor.new) }
    ensures kept { OnErr result (P.kept harbor.new ≡ P.kept harbor.old) }
    ensures nothing { OnErr result ((S.content out.new ≡ S.content out.old) × (S.faults out.new ≡ S.faults out.old)) }
{
    match clients {
        Clients::Plain => serve_through::<H, B, P, P::Door, S, C, R>(
            rt, alloc, lock, pass, passes, harbor, port, out, clock,
        ),
        Clients::Devtools => serve_through::<H, B, P, DevtoolsDoor<P::Door>, S, C, R>(
            rt, alloc, lock, pass, passes, harbor, port, out, clock,
        ),
    }
}
