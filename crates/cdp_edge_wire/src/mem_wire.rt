//! A wire in memory, for tests.

ghost use Rattle.std.specs.Prelude.{◌≡◌, ◌≢◌, ◌++◌, ◌↔◌, Some, [], length, Contains, IfOk, IsErrOf};
ghost use Rattle.cdp_edge.specs.Outside.{one_more};
ghost use Rattle.cdp_edge_wire.specs.Arrived.{arrived_of};
ghost use Rattle.cdp_edge_wire.specs.MemWire.{IsTired, next_taken, after_take, after_fault, after_write, answers_in};

use crate::{Taken, Wire};
use cdp_edge::SinkFault;
use std::marker::Model;

/// A wire that gives what it was made with, then the end, and keeps what it took. It takes each piece whole.
///
/// A call whose number is listed fails: it gives or takes nothing. So does each `take` after 2^64 - 1 answers.
#[derive(Drop)]
pub struct MemWire {
    given: Vec<Taken>,
    place: u64,
    written: Vec<u8>,
    calls: u64,
    faults: u64,
    fails: Vec<u64>,
}

impl Model for MemWire {
    ghost use Rattle.cdp_edge_wire.specs.Arrived.{arrived_of};
    ghost use Rattle.cdp_edge_wire.specs.MemWire.{MemoryWire};

    ghost Value = { MemoryWire };

    ghost view = { λ a. record {
      given = a.given.items;
      place = a.place;
      written = a.written.items;
      calls = a.calls;
      faults = a.faults;
      fails = a.fails.items;
    } };
}

impl MemWire {
    /// A wire that gives these, in order, and then the end. `fails` are the numbers, from 1, of the calls that
    /// fail. It takes no memory.
    pub fn new(answers: Vec<Taken>, fails: Vec<u64>) -> MemWire
        ensures { result ≡ record {
          given = answers.items;
          place = 0;
          written = [];
          calls = 0;
          faults = 0;
          fails = fails.items;
        } }
    {
        MemWire {
            given: answers,
            place: 0,
            written: Vec::new(*fails.allocator()),
            calls: 0,
            faults: 0,
            fails,
        }
    }

    /// The bytes that it took.
    pub fn written(&self) -> &[u8]
        ensures { result.now ≡ self.now.written }
    {
        &self.written
    }

    /// The answer at its place.
    fn next(&self) -> Taken
        ensures { result ≡ next_taken self.now }
    {
        match usize::try_from(self.place) {
            Ok(place) => self.given.get(place).copied().unwrap_or(Taken::End),
            Err(_) => Taken::End,
        }
    }

    /// Counts a fault.
    fn blame(&mut self)
        ensures { self.new ≡ record self.old { faults = one_more self.old.faults } }
    {
        self.faults = self.faults.saturating_add(1);
    }
}

impl Wire for MemWire {
    ghost faults = { λ wire. wire.faults };

    ghost answers = { λ wire. Some (answers_in wire) };

    ghost content = { λ wire. Some wire.written };

    #[tactic(auto, using(crate::proofs::GivenLemmas::given))]
    fn take(&mut self) -> Taken
        ensures tired { IsTired self.old → (result ≡ Taken.Failed) × (self.new ≡ after_fault self.old) }
        ensures next { ¬ (IsTired self.old)
            → (result ≡ next_taken self.old) × (self.new ≡ after_take result self.old) }
        ensures answers { answers_in self.new ≡ answers_in self.old ++ arrived_of result }
        ensures content { self.new.written ≡ self.old.written }
        ensures quiet { result ≢ Taken.Failed → self.new.faults ≡ self.old.faults }
        ensures failed { result ≡ Taken.Failed → self.new.faults ≡ one_more self.old.faults }
    {
        self.calls = self.calls.saturating_add(1);
        if self.fails.contains(&self.calls) || self.place == u64::MAX {
            self.blame();
            return Taken::Failed;
        }
        let answer = self.next();
        self.place += 1;
        if let Taken::Failed = answer {
            self.blame();
        }
        answer
    }

    fn write(&mut self, piece: &[u8]) -> Result<usize, SinkFault>
        ensures whole { IfOk result (λ n. n ≡ length piece.now) }
        ensures listed { IsErrOf result SinkFault.Failed
            ↔ Contains self.old.fails (one_more self.old.calls) }
        ensures wire { self.new ≡ after_write result piece.now self.old }
    {
        self.calls = self.calls.saturating_add(1);
        if self.fails.contains(&self.calls) {
            self.blame();
            return Err(SinkFault::Failed);
        }
        match self.written.extend_from_slice(piece) {
            Ok(()) => Ok(piece.len()),
            Err(_) => Err(SinkFault::Memory),
        }
    }
}
