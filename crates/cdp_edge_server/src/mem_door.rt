//! A door in memory, for tests.

ghost use Rattle.std.specs.Prelude.{◌≡◌, ◌⊎◌, ◌++◌, ◌∷◌, [], Some, true, false, map, length, All, Contains};
ghost use Rattle.cdp_edge.specs.Outside.{one_more};
ghost use Rattle.cdp_edge_server.specs.MemDoor.{IsUnusedLink, IsNewDoor, AnswersDoor};
ghost use Rattle.cdp_edge_server.specs.MemLink.{spoken_of};

use crate::{Door, DoorAnswer, MemLink};
use std::collections::VecDeque;
use std::marker::Model;

/// How often a door with no link left finds nobody before it fails.
const MOST_QUIETS: u64 = 10_000_000;

/// A door at which given links arrive, and which keeps those that were served.
///
/// It takes the room for a link that comes back first. Then a call of `next` whose number is listed
/// answers `Failed`. With no link left nobody arrives, and after 10,000,000 such calls it fails.
#[derive(Drop)]
pub struct MemDoor {
    links: VecDeque<MemLink>,
    served: Vec<MemLink>,
    out: bool,
    asked: u64,
    quiets: u64,
    faults: u64,
    fails: Vec<u64>,
}

impl Model for MemDoor {
    ghost use Rattle.std.specs.Prelude.{◌≡◌, ◌<◌, true, All, vec_len, vec_capacity};
    ghost use Rattle.cdp_edge_server.specs.MemDoor.{MemoryDoor, IsUnusedLink};

    ghost Value = { MemoryDoor };

    ghost view = { λ a. record {
      waiting = a.links.items;
      served = a.served.items;
      is_out = a.out;
      asked = a.asked;
      quiets = a.quiets;
      faults = a.faults;
      fails = a.fails.items;
    } };

    ghost invariant = { λ a. (a.out ≡ true → vec_len a.served < vec_capacity a.served)
        × All IsUnusedLink a.links.items };
}

impl MemDoor {
    /// A door at which these links arrive, in order. `fails` are the numbers, from 1, of the calls
    /// of `next` that fail. It takes no memory.
    pub fn new(links: Vec<MemLink>, fails: Vec<u64>) -> MemDoor
        requires { All IsUnusedLink links.items }
        ensures new { IsNewDoor result }
        ensures links { result.waiting ≡ links.items }
        ensures fails { (result.quiets ≡ 0) × (result.fails ≡ fails.items) }
    {
        MemDoor {
            links: VecDeque::from(links),
            served: Vec::new(*fails.allocator()),
            out: false,
            asked: 0,
            quiets: 0,
            faults: 0,
            fails,
        }
    }

    /// The links that came back, in order.
    pub fn served(&self) -> &[MemLink]
        ensures { result.now ≡ self.now.served }
    {
        &self.served
    }

    /// How often a call failed.
    pub(crate) fn faults(&self) -> u64
        ensures { result ≡ self.now.faults }
    {
        self.faults
    }
}

impl Door for MemDoor {
    type Link = MemLink;

    ghost faults = { λ door. door.faults };

    ghost asked = { λ door. door.asked };

    ghost waiting = { λ door. Some (length door.waiting) };

    ghost served = { λ door. Some (map spoken_of door.served) };

    ghost is_out = { λ door. Some door.is_out };

    fn next(&mut self) -> DoorAnswer<MemLink>
        requires { self.old.is_out ≡ false }
        ensures door { AnswersDoor result self.old self.new }
        ensures listed { Contains self.old.fails (one_more self.old.asked)
            → (result ≡ DoorAnswer.Failed) ⊎ (result ≡ DoorAnswer.Memory) }
    {
        self.asked = self.asked.saturating_add(1);
        if self.served.reserve(1).is_err() {
            return DoorAnswer::Memory;
        }
        if self.fails.contains(&self.asked) {
            self.faults = self.faults.saturating_add(1);
            return DoorAnswer::Failed;
        }
        match self.links.pop_front() {
            Some(link) => {
                self.out = true;
                DoorAnswer::Arrived(link)
            }
            None => {
                if self.quiets < MOST_QUIETS {
                    self.quiets += 1;
                    return DoorAnswer::Quiet;
                }
                self.faults = self.faults.saturating_add(1);
                DoorAnswer::Failed
            }
        }
    }

    fn back(&mut self, link: MemLink)
        requires { self.old.is_out ≡ true }
        ensures { self.new ≡ record self.old { served = self.old.served ++ link ∷ []; is_out = false } }
    {
        self.served.push(link).unwrap();
        self.out = false;
    }
}
