//! A sink in memory, for tests.

ghost use Rattle.std.specs.Prelude.{◌≡◌, ◌↔◌, [], length, Contains, IfOk, IsErrOf};
ghost use Rattle.cdp_edge.specs.MemSink.{after_write};
ghost use Rattle.cdp_edge.specs.Outside.{one_more};

use crate::{Sink, SinkFault};
use std::marker::Model;

/// A sink that keeps what it took. It takes each piece whole, but for the calls that are to fail:
/// these answer `Failed` and take nothing.
#[derive(Drop)]
pub struct MemSink {
    taken: Vec<u8>,
    calls: u64,
    faults: u64,
    fails: Vec<u64>,
}

impl Model for MemSink {
    ghost use Rattle.cdp_edge.specs.MemSink.{MemorySink};

    ghost Value = { MemorySink };

    ghost view = { λ a. record {
      taken = a.taken.items;
      calls = a.calls;
      faults = a.faults;
      fails = a.fails.items;
    } };
}

impl MemSink {
    /// A sink that took nothing. `fails` are the numbers, from 1, of the writes that fail.
    pub fn new(fails: Vec<u64>) -> MemSink
        ensures { result ≡ record { taken = []; calls = 0; faults = 0; fails = fails.items } }
    {
        MemSink {
            taken: Vec::new(*fails.allocator()),
            calls: 0,
            faults: 0,
            fails,
        }
    }

    /// The bytes taken so far.
    pub fn taken(&self) -> &[u8]
        ensures { result.now ≡ self.now.taken }
    {
        &self.taken
    }
}

impl Sink for MemSink {
    ghost faults = { λ sink. sink.faults };

    ghost content = { λ sink. sink.taken };

    fn write(&mut self, piece: &[u8]) -> Result<usize, SinkFault>
        ensures whole { IfOk result (λ n. n ≡ length piece.now) }
        ensures listed { IsErrOf result SinkFault.Failed
            ↔ Contains self.old.fails (one_more self.old.calls) }
        ensures sink { self.new ≡ after_write result piece.now self.old }
    {
        self.calls = self.calls.saturating_add(1);
        if self.fails.contains(&self.calls) {
            self.faults = self.faults.saturating_add(1);
            return Err(SinkFault::Failed);
        }
        match self.taken.extend_from_slice(piece) {
            Ok(()) => Ok(piece.len()),
            Err(_) => Err(SinkFault::Memory),
        }
    }
}
