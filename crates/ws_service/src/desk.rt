//! Desks: workers, each of which serves a door.

ghost use Rattle.std.specs.Prelude.{◌≡◌, ◌<◌, ℕ, length, All, slice_index_or};
ghost use denote.Param.Send.{IsSync};
ghost use Rattle.ws_service.specs.Works.{AreDone};

use crate::door::{DoorEnd, serve_door};
use cdp_edge_server::{Bell, Door};
use cdp_host_turns::{Hosted, Lock, Worker};
use std::sync::Wait;
use std::thread::{Threads, for_each_mut};

/// Work that a thread does, on what it owns.
pub trait Work: Send + Drop {
    /// It may begin so.
    ghost can: { Self → Type 0 };

    /// What it was, and what it is when the work is done.
    ghost does: { Self → Self → Type 0 };

    /// Does it.
    fn work<R: Wait>(&mut self, rt: &R)
        requires { can self.old }
        ensures { does self.old self.new };
}

/// All works at once, each in a thread of its own where one can be made.
pub fn work_all<W: Work, R: Threads + Wait + Sync>(rt: &R, works: &mut [W])
    requires some { 0 < length works.old }
    requires ready { All (λ work. W.can work) works.old }
    ensures length { length works.new ≡ length works.old }
    ensures works { (i : ℕ) (d : _) → i < length works.old → W.does (slice_index_or works.old i d) (slice_index_or works.new i d) }
{
    let count = works.len();
    for_each_mut(
        rt,
        works,
        count,
        &|_index: usize, work: &mut W|
            requires { IsSync R.row × W.can work.now }
            ensures { W.does work.entry.now work.exit.now }
        { work.work(rt) },
    );
}

/// The same of works that are handed over; they come back.
pub fn all_done<W: Work, R: Threads + Wait + Sync>(rt: &R, mut works: Vec<W>) -> Vec<W>
    requires some { 0 < length works.items }
    requires ready { All (λ work. W.can work) works.items }
    ensures { AreDone W.does works.items result.items }
{
    work_all(rt, works.as_mut_slice());
    works
}

/// A worker: a pass of the lock, which serves a door, and how that ended, if it has.
#[derive(Drop)]
pub struct Desk<'l, 'b, H: Hosted<B>, B, D: Bell, O: Door> {
    /// The lock of the history.
    pub lock: &'l Lock<H, B>,
    /// The bell that it rings where another waits for something.
    pub bell: &'b D,
    /// Its pass.
    pub pass: Worker<H, B>,
    /// The door that it serves.
    pub door: O,
    /// How serving the door ended.
    pub end: Option<DoorEnd>,
}

impl<'l, 'b, H: Hosted<B> + Send, B: Send + Sync, D: Bell + Sync, O: Door + Send> Work
    for Desk<'l, 'b, H, B, D, O>
where
    O::Link: Send,
{
    ghost use Rattle.std.specs.Prelude.{◌≡◌, Some, false};
    ghost use Rattle.cdp_edge.specs.Outside.{IfTold};
    ghost use Rattle.ws_service.specs.Doors.{IsTended};
    ghost use Rattle.ws_service.specs.declared.door.DoorEnd.{DoorEnd};

    ghost can = { λ d. (d.pass.lock ≡ d.lock.now) × (d.pass.in_turn ≡ false) × IfTold (O.is_out d.door) (λ out. out ≡ false) };

    ghost does = { λ d e. (end : DoorEnd) × (e.end ≡ Some end) × IsTended H.debugs d.pass e.pass (record {
      faults = O.faults d.door;
      asked = O.asked d.door;
      served = O.served d.door;
      is_out = O.is_out d.door;
    }) (record {
      faults = O.faults e.door;
      asked = O.asked e.door;
      served = O.served e.door;
      is_out = O.is_out e.door;
    }) end };

    fn work<R: Wait>(&mut self, rt: &R) {
        let end = serve_door(rt, self.lock, self.bell, &mut self.pass, &mut self.door);
        self.end = Some(end);
    }
}
