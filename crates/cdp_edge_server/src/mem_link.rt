//! A link in memory, for tests.

ghost use Rattle.std.specs.Prelude.{◌≡◌, ◌⊎◌, ◌↔◌, ◌++◌, ◌∷◌, [], Some, None, true, map, string_bytes, Contains, IfErr, OnOk, OnErr, IsErrOf};
ghost use Rattle.cdp_edge.specs.Outside.{one_more};
ghost use Rattle.cdp_edge_server.specs.Coming.{Gives};
ghost use Rattle.cdp_edge_server.specs.Heard.{IsWithin};
ghost use Rattle.cdp_edge_server.specs.MemLink.{after_recv, after_fault, after_send, after_close};
ghost use Rattle.cdp_edge_server.specs.Scripts.{coming_of};

use crate::answer_log::{AnswerLog, LoggedAnswer, copy_of};
use crate::script::{Incoming, Schedule};
use crate::{Gate, Link, LinkFault, Recv};
use std::marker::Model;

/// A link that gives what it was made with, and keeps its answers and what it was sent. Behind the
/// last message it is closed.
///
/// A call whose number is listed answers `Failed`; `recv` takes the room for an answer first.
#[derive(Drop)]
pub struct MemLink {
    script: Schedule,
    log: AnswerLog,
    sent: Vec<String>,
    closed: Option<u16>,
    gate: Option<Gate>,
    calls: u64,
    faults: u64,
    fails: Vec<u64>,
}

impl Model for MemLink {
    ghost use Rattle.std.specs.Prelude.{map, string_bytes};
    ghost use Rattle.cdp_edge_server.specs.AnswerLog.{answers_in};
    ghost use Rattle.cdp_edge_server.specs.MemLink.{MemoryLink};

    ghost Value = { MemoryLink };

    ghost view = { λ a. record {
      coming = a.script;
      answers = answers_in a.log;
      sent = map string_bytes a.sent.items;
      closed = a.closed;
      calls = a.calls;
      faults = a.faults;
      fails = a.fails.items;
    } };
}

impl MemLink {
    /// A link that gives these, in order. `fails` are the numbers, from 1, of the calls that fail.
    /// It takes no memory.
    pub fn new(script: Vec<Incoming>, fails: Vec<u64>) -> MemLink
        ensures { result ≡ record {
          coming = map coming_of script.items;
          answers = [];
          sent = [];
          closed = None;
          calls = 0;
          faults = 0;
          fails = fails.items;
        } }
    {
        let alloc = *fails.allocator();
        MemLink {
            script: Schedule::new(script),
            log: AnswerLog::new(alloc),
            sent: Vec::new(alloc),
            closed: None,
            gate: None,
            calls: 0,
            faults: 0,
            fails,
        }
    }

    /// The link, which opens the gate when it has sent a text.
    pub fn opening(self, gate: Gate) -> MemLink
        ensures { result ≡ self }
    {
        let mut link = self;
        link.gate = Some(gate);
        link
    }

    /// The texts that it was sent.
    pub fn sent(&self) -> &[String]
        ensures { map string_bytes result.now ≡ self.now.sent }
    {
        &self.sent
    }

    /// The code that it was closed with last.
    pub fn closed_with(&self) -> Option<u16>
        ensures { result ≡ self.now.closed }
    {
        self.closed
    }

    /// How often a call failed.
    pub(crate) fn faults(&self) -> u64
        ensures { result ≡ self.now.faults }
    {
        self.faults
    }

    /// Counts a call, and fails where its number is listed.
    fn begin(&mut self) -> Result<(), LinkFault>
        ensures listed { IsErrOf result LinkFault.Failed
            ↔ Contains self.old.fails (one_more self.old.calls) }
        ensures ok { OnOk result (self.new ≡ record self.old { calls = one_more self.old.calls }) }
        ensures err { IfErr result (λ fault. fault ≡ LinkFault.Failed) }
        ensures count { OnErr result (self.new ≡ after_fault LinkFault.Failed self.old) }
    {
        self.calls = self.calls.saturating_add(1);
        if self.fails.contains(&self.calls) {
            self.faults = self.faults.saturating_add(1);
            return Err(LinkFault::Failed);
        }
        Ok(())
    }

    /// Opens its gate, if it has one.
    fn open_gate(&self) {
        if let Some(gate) = &self.gate {
            gate.open();
        }
    }

    /// Keeps a text that is sent.
    fn keep(&mut self, text: &str) -> Result<(), LinkFault>
        ensures ok { OnOk result (self.new ≡ record self.old { sent = self.old.sent ++ text.now ∷ [] }) }
        ensures err { OnErr result (self.new ≡ self.old) }
        ensures memory { IfErr result (λ fault. fault ≡ LinkFault.Memory) }
    {
        let Ok(text) = String::from_str(*self.sent.allocator(), text) else {
            return Err(LinkFault::Memory);
        };
        self.sent.push(text).map_err(|_| LinkFault::Memory)
    }
}

impl Link for MemLink {
    ghost faults = { λ link. link.faults };

    ghost coming = { λ link. Some link.coming };

    ghost answers = { λ link. Some link.answers };

    ghost sent = { λ link. Some link.sent };

    ghost closed = { λ link. Some link.closed };

    fn recv(&mut self) -> Recv
        ensures text { IsWithin result }
        ensures gives { Gives result self.old.coming self.new.coming }
        ensures failed { result ≡ Recv.Failed → Contains self.old.fails (one_more self.old.calls) }
        ensures listed { Contains self.old.fails (one_more self.old.calls)
            → (result ≡ Recv.Failed) ⊎ (result ≡ Recv.Memory) }
        ensures link { self.new ≡ after_recv result self.new.coming self.old }
    {
        let alloc = *self.sent.allocator();
        self.calls = self.calls.saturating_add(1);
        if self.log.prepare().is_err() {
            return Recv::Memory;
        }
        if self.fails.contains(&self.calls) {
            self.faults = self.faults.saturating_add(1);
            self.log.note(LoggedAnswer::Failed);
            return Recv::Failed;
        }
        self.script.release();
        let answer = self.script.next(alloc);
        let Some(kept) = copy_of(alloc, &answer) else {
            return Recv::Memory;
        };
        self.script.go_on();
        self.log.note(kept);
        answer
    }

    fn send(&mut self, text: &str) -> Result<(), LinkFault>
        ensures listed { IsErrOf result LinkFault.Failed
            ↔ Contains self.old.fails (one_more self.old.calls) }
        ensures link { self.new ≡ after_send result text.now self.old }
    {
        self.begin()?;
        self.keep(text)?;
        self.open_gate();
        Ok(())
    }

    fn close(&mut self, code: u16) -> Result<(), LinkFault>
        ensures listed { IsErrOf result LinkFault.Failed
            ↔ Contains self.old.fails (one_more self.old.calls) }
        ensures link { self.new ≡ after_close result code self.old }
    {
        self.begin()?;
        self.closed = Some(code);
        Ok(())
    }
}
