//! What a link in memory gives, in order.

ghost use Rattle.std.specs.Prelude.{◌≡◌, ◌⊎◌, ◌≤◌, ◌∷◌, [], true, false, map, drop, length};
ghost use Rattle.cdp_edge_server.specs.Coming.{IsBehindHolds, next_heard, behind_next};
ghost use Rattle.cdp_edge_server.specs.Heard.{heard_of, IsWithin};
ghost use Rattle.cdp_edge_server.specs.Scripts.{coming_of, text_coming, is_passing, BeginsWithHold};

use crate::{Gate, MOST_BYTES, Recv};
use std::alloc::Global;
use std::collections::VecDeque;
use std::marker::Model;

/// What a link in memory gives at a call.
#[derive(Drop)]
pub enum Incoming {
    /// A text; where it has more than `MOST_BYTES` bytes it is too big.
    Text(String),
    /// A binary message.
    Binary,
    /// A message above the limit.
    TooBig,
    /// No whole message.
    Quiet,
    /// The end, at this call and at each later one.
    Closed,
    /// No whole message until the gate is open, and the end after so many calls.
    Hold(Gate, u64),
}

/// What is to come, and how often the hold at its beginning was met.
#[derive(Drop)]
pub struct Schedule {
    incoming: VecDeque<Incoming>,
    waited: u64,
}

impl Model for Schedule {
    ghost use Rattle.std.specs.Prelude.{List, map};
    ghost use Rattle.cdp_edge_server.specs.Coming.{Coming};
    ghost use Rattle.cdp_edge_server.specs.Scripts.{coming_of, waited_off};

    ghost Value = { List Coming };

    ghost view = { λ a. waited_off a.waited (map coming_of a.incoming.items) };
}

/// A text as an answer.
fn text_as(alloc: Global, text: &str) -> Recv
    ensures within { IsWithin result }
    ensures heard { (heard_of result ≡ next_heard (text_coming text.now ∷ []) ∷ []) ⊎ (result ≡ Recv.Memory) }
{
    if text.len() > MOST_BYTES {
        return Recv::TooBig;
    }
    match String::from_str(alloc, text) {
        Ok(text) => Recv::Text(text),
        Err(_) => Recv::Memory,
    }
}

impl Schedule {
    /// These, in order. It takes no memory.
    pub fn new(incoming: Vec<Incoming>) -> Schedule
        ensures { result ≡ map coming_of incoming.items }
    {
        Schedule {
            incoming: VecDeque::from(incoming),
            waited: 0,
        }
    }

    /// Whether it begins with a hold whose gate is open.
    fn is_released(&self) -> bool
        ensures { result ≡ true → BeginsWithHold self.now }
    {
        match self.incoming.front() {
            Some(Incoming::Hold(gate, _)) => gate.is_open(),
            _ => false,
        }
    }

    /// Whether a message, or a call that finds none, is next.
    fn is_passing(&self) -> bool
        ensures { result ≡ is_passing self.now }
    {
        match self.incoming.front() {
            Some(Incoming::Text(_)) => true,
            Some(Incoming::Binary) => true,
            Some(Incoming::TooBig) => true,
            Some(Incoming::Quiet) => true,
            Some(Incoming::Closed) => false,
            Some(Incoming::Hold(_, _)) => false,
            None => false,
        }
    }

    /// Drops what is next.
    fn drop_next(&mut self)
        ensures { self.new ≡ drop 1 self.old }
    {
        self.incoming.pop_front();
        self.waited = 0;
    }

    /// Drops the holds at its beginning whose gates are open.
    #[tactic(auto, using(crate::proofs::HoldLemmas::holds))]
    pub fn release(&mut self)
        ensures { IsBehindHolds self.old self.new }
    {
        while self.is_released() {
            self.drop_next();
        }
    }

    /// What a link answers with this to come.
    pub fn next(&self, alloc: Global) -> Recv
        ensures within { IsWithin result }
        ensures heard { (heard_of result ≡ next_heard self.now ∷ []) ⊎ (result ≡ Recv.Memory) }
    {
        match self.incoming.front() {
            Some(Incoming::Text(text)) => text_as(alloc, text),
            Some(Incoming::Binary) => Recv::Binary,
            Some(Incoming::TooBig) => Recv::TooBig,
            Some(Incoming::Quiet) => Recv::Quiet,
            Some(Incoming::Hold(_, patience)) if self.waited < *patience => Recv::Quiet,
            Some(Incoming::Hold(_, _)) => Recv::Closed,
            Some(Incoming::Closed) => Recv::Closed,
            None => Recv::Closed,
        }
    }

    /// Goes on behind that answer.
    pub fn go_on(&mut self)
        ensures { self.new ≡ behind_next self.old }
    {
        if self.is_passing() {
            return self.drop_next();
        }
        self.wait();
    }

    /// Counts a call that meets a hold.
    fn wait(&mut self)
        ensures { is_passing self.old ≡ false → self.new ≡ behind_next self.old }
    {
        if let Some(Incoming::Hold(_, patience)) = self.incoming.front() {
            if self.waited < *patience {
                self.waited += 1;
            }
        }
    }
}
