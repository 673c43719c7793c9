//! A harbor in memory, for tests.

ghost use Rattle.std.specs.Prelude.{◌≡◌, ◌≤◌, [], Some, map, length, All};
ghost use Rattle.cdp_edge_server.specs.Contents.{no_calls};
ghost use Rattle.cdp_edge_server.specs.MemDoor.{IsUnusedLink, IsNewDoor, tended_of};
ghost use Rattle.cdp_edge_server.specs.MemHarbor.{any_failed, OpensDoors, Dials, after_shut, after_hang_up};
ghost use Rattle.cdp_edge_server.specs.MemLink.{spoken_of};

use crate::{Harbor, HarborFault, MemBell, MemDoor, MemLink};
use std::collections::VecDeque;
use std::marker::Model;
use std::mem;

/// A harbor that gives out given doors and links, and keeps those that come back.
///
/// It takes the room for what comes back first. Then a call of `open` or `dial` whose number is listed
/// answers `Failed`, and so does one that finds too few doors or no link.
#[derive(Drop)]
pub struct MemHarbor {
    doors: Vec<MemDoor>,
    dialled: VecDeque<MemLink>,
    kept: Vec<MemDoor>,
    hung_up: Vec<MemLink>,
    doors_out: usize,
    links_out: usize,
    opens: u64,
    opened_with: Option<(u16, usize)>,
    dials: u64,
    dialled_with: Option<u16>,
    calls: u64,
    faults: u64,
    fails: Vec<u64>,
}

impl Model for MemHarbor {
    ghost use Rattle.std.specs.Prelude.{◌≤◌, ◌+◌, All, vec_len, vec_capacity};
    ghost use Rattle.cdp_edge_server.specs.MemDoor.{IsUnusedLink, IsNewDoor};
    ghost use Rattle.cdp_edge_server.specs.MemHarbor.{MemoryHarbor};

    ghost Value = { MemoryHarbor };

    ghost view = { λ a. record {
      doors = a.doors.items;
      dialled = a.dialled.items;
      kept = a.kept.items;
      hung_up = a.hung_up.items;
      doors_out = a.doors_out;
      links_out = a.links_out;
      opens = record { count = a.opens; last = a.opened_with };
      dials = record { count = a.dials; last = a.dialled_with };
      calls = a.calls;
      faults = a.faults;
      fails = a.fails.items;
    } };

    ghost invariant = { λ a. (vec_len a.kept + a.doors_out ≤ vec_capacity a.kept)
        × (vec_len a.hung_up + a.links_out ≤ vec_capacity a.hung_up)
        × All IsNewDoor a.doors.items
        × All IsUnusedLink a.dialled.items };
}

impl MemHarbor {
    /// A harbor with these doors to open and these links to dial, each in order. `fails` are the
    /// numbers, from 1, of the calls of `open` and `dial` that fail. It takes no memory.
    pub fn new(doors: Vec<MemDoor>, dialled: Vec<MemLink>, fails: Vec<u64>) -> MemHarbor
        requires doors { All IsNewDoor doors.items }
        requires links { All IsUnusedLink dialled.items }
        ensures { result ≡ record {
          doors = doors.items;
          dialled = dialled.items;
          kept = [];
          hung_up = [];
          doors_out = 0;
          links_out = 0;
          opens = no_calls;
          dials = no_calls;
          calls = 0;
          faults = 0;
          fails = fails.items;
        } }
    {
        let alloc = *fails.allocator();
        MemHarbor {
            doors,
            dialled: VecDeque::from(dialled),
            kept: Vec::new(alloc),
            hung_up: Vec::new(alloc),
            doors_out: 0,
            links_out: 0,
            opens: 0,
            opened_with: None,
            dials: 0,
            dialled_with: None,
            calls: 0,
            faults: 0,
            fails,
        }
    }

    /// The doors that came back, in order.
    pub fn doors(&self) -> &[MemDoor]
        ensures { result.now ≡ self.now.kept }
    {
        &self.kept
    }

    /// The dialled links that came back, in order.
    pub fn hung_up(&self) -> &[MemLink]
        ensures { result.now ≡ self.now.hung_up }
    {
        &self.hung_up
    }
}

/// Whether one of these doors has failed.
fn any_failed(doors: &[MemDoor]) -> bool
    ensures { result ≡ any_failed doors.now }
{
    for door in doors {
        if door.faults() != 0 {
            return true;
        }
    }
    false
}

impl Harbor for MemHarbor {
    type Link = MemLink;

    type Door = MemDoor;

    type Bell = MemBell;

    ghost faults = { λ harbor. harbor.faults };

    ghost opens = { λ harbor. harbor.opens };

    ghost dials = { λ harbor. harbor.dials };

    ghost doors_out = { λ harbor. Some harbor.doors_out };

    ghost links_out = { λ harbor. Some harbor.links_out };

    ghost kept = { λ harbor. Some (map tended_of harbor.kept) };

    ghost hung_up = { λ harbor. Some (map spoken_of harbor.hung_up) };

    fn open(&mut self, port: u16, count: usize) -> Result<Vec<MemDoor>, HarborFault>
        requires { 1 ≤ count }
        ensures harbor { OpensDoors result port count self.old self.new }
    {
        self.opens = self.opens.saturating_add(1);
        self.opened_with = Some((port, count));
        self.calls = self.calls.saturating_add(1);
        let Some(out) = self.doors_out.checked_add(count) else {
            return Err(HarborFault::Memory);
        };
        if self.kept.reserve(out).is_err() {
            return Err(HarborFault::Memory);
        }
        if self.fails.contains(&self.calls) {
            self.faults = self.faults.saturating_add(1);
            return Err(HarborFault::Failed);
        }
        if self.doors.len() < count {
            self.faults = self.faults.saturating_add(1);
            return Err(HarborFault::Failed);
        }
        let Ok(rest) = self.doors.split_off(count) else {
            return Err(HarborFault::Memory);
        };
        self.doors_out = out;
        Ok(mem::replace(&mut self.doors, rest))
    }

    fn shut(&mut self, doors: Vec<MemDoor>)
        requires { length doors.items ≤ self.old.doors_out }
        ensures { self.new ≡ after_shut doors.items self.old }
    {
        let failed = any_failed(&doors);
        let mut doors = doors;
        self.doors_out -= doors.len();
        self.kept.append(&mut doors).unwrap();
        if failed {
            self.faults = self.faults.saturating_add(1);
        }
    }

    fn dial(&mut self, port: u16) -> Result<MemLink, HarborFault>
        ensures harbor { Dials result port self.old self.new }
    {
        self.dials = self.dials.saturating_add(1);
        self.dialled_with = Some(port);
        self.calls = self.calls.saturating_add(1);
        let Some(out) = self.links_out.checked_add(1) else {
            return Err(HarborFault::Memory);
        };
        if self.hung_up.reserve(out).is_err() {
            return Err(HarborFault::Memory);
        }
        if self.fails.contains(&self.calls) {
            self.faults = self.faults.saturating_add(1);
            return Err(HarborFault::Failed);
        }
        let Some(link) = self.dialled.pop_front() else {
            self.faults = self.faults.saturating_add(1);
            return Err(HarborFault::Failed);
        };
        self.links_out = out;
        Ok(link)
    }

    fn hang_up(&mut self, link: MemLink)
        requires { 1 ≤ self.old.links_out }
        ensures { self.new ≡ after_hang_up link self.old }
    {
        if link.faults() != 0 {
            self.faults = self.faults.saturating_add(1);
        }
        self.links_out -= 1;
        self.hung_up.push(link).unwrap();
    }

    fn bell(&self) -> MemBell {
        MemBell
    }
}
