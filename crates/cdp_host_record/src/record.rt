//! A record: the bytes of the lines so far.

ghost use Rattle.std.specs.Prelude.{◌≡◌, ◌∷◌, [], IfOk, MatchResult, false, string_bytes};
ghost use Rattle.cdp_journal.specs.Lines.{Attach, Tell, Take, Detach, Run, Shut};
ghost use Rattle.cdp_host_record.specs.Recordings.{Adds, AddsAll, closed, is_going, is_lost, unwritten};

use crate::state::{RecordState, is_going, is_lost};
use cdp_journal::{
    attach_line, detach_line, memory_line, run_line, shut_line, take_line, tell_line, tells_run,
    tells_text,
};
use std::alloc::{AllocError, Global};
use std::marker::Model;

/// How many bytes the line `memory` has, with its LF.
const MEMORY_ROOM: usize = 7;

/// The lines of a history, from its beginning. Room for the line `memory` is always there while it goes on: that line ends
/// it where there is no memory for another line, or an entry comes that no line tells.
#[derive(Drop)]
pub struct Record {
    alloc: Global,
    text: String,
    state: RecordState,
}

impl Model for Record {
    ghost use Rattle.std.specs.Prelude.{◌≡◌, ◌≤◌, ◌+◌, true, string_bytes, string_len, string_capacity};
    ghost use Rattle.cdp_host_record.specs.Recordings.{Held, is_going};

    ghost Value = { Held };

    ghost view = { λ a. record { bytes = string_bytes a.text; state = a.state } };

    // room for the line that ends it
    ghost invariant = { λ a. is_going a.state ≡ true → string_len a.text + 7 ≤ string_capacity a.text };
}

impl Record {
    /// A record without lines.
    ///
    /// # Errors
    ///
    /// There is no memory for the line that ends a record.
    pub fn new(alloc: Global) -> Result<Record, AllocError>
        ensures { IfOk result (λ made. made ≡ unwritten) }
    {
        Ok(Record {
            alloc,
            text: String::with_capacity(alloc, MEMORY_ROOM)?,
            state: RecordState::Going,
        })
    }

    /// The bytes of its lines, each ended by LF.
    pub fn lines(&self) -> &[u8]
        ensures { result.now ≡ self.now.bytes }
    {
        self.text.as_bytes()
    }

    /// Whether it is lost: there was no memory for a line. It holds the lines before that one, and then `memory`.
    pub fn is_lost(&self) -> bool
        ensures { result ≡ is_lost self.now.state }
    {
        is_lost(self.state)
    }

    /// Puts the line `memory` behind the others, where it goes on, and stands so from then on. Takes no memory.
    #[tactic(auto, using(crate::proofs::HeldLemmas::kept))]
    fn close(&mut self, state: RecordState)
        requires { is_going state ≡ false }
        ensures { self.new ≡ closed state self.old }
    {
        if is_going(self.state) {
            self.text.push_str(memory_line()).unwrap();
            self.state = state;
        }
    }

    /// Ends it: no line tells what happened. Takes no memory.
    pub(crate) fn end(&mut self)
        ensures { self.new ≡ closed RecordState.Ended self.old }
    {
        self.close(RecordState::Ended);
    }

    /// Loses it: there is no memory for a line. Takes none.
    fn lose(&mut self)
        ensures { self.new ≡ closed RecordState.Lost self.old }
    {
        self.close(RecordState::Lost);
    }

    /// Adds lines, where it goes on; want of memory loses it.
    #[tactic(auto, using(crate::proofs::HeldLemmas::kept))]
    fn add(&mut self, lines: &str)
        ensures { Adds lines.now self.old self.new }
    {
        if !is_going(self.state) {
            return;
        }
        match self.text.reserve(lines.len() + MEMORY_ROOM) {
            Ok(()) => self.text.push_str(lines).unwrap(),
            Err(AllocError) => self.lose(),
        }
    }

    /// Adds a line that was made, or for which there was no memory.
    fn add_made(&mut self, line: Result<String, AllocError>)
        ensures { MatchResult line
            (λ text. Adds (string_bytes text) self.old self.new)
            (λ _. self.new ≡ closed RecordState.Lost self.old) }
    {
        match line {
            Ok(text) => self.add(text.as_str()),
            Err(AllocError) => self.lose(),
        }
    }

    /// A session was attached.
    pub(crate) fn attach(&mut self)
        ensures { AddsAll (Attach ∷ []) self.old self.new }
    {
        self.add(attach_line());
    }

    /// This session was told a text; one that is too long for a line ends the record.
    pub(crate) fn tell(&mut self, session: u64, text: &str)
        ensures { AddsAll (Tell session text.now ∷ []) self.old self.new }
    {
        if tells_text(text) {
            self.add_made(tell_line(self.alloc, session, text));
        } else {
            self.end();
        }
    }

    /// The texts of this session were handed out.
    pub(crate) fn take(&mut self, session: u64)
        ensures { AddsAll (Take session ∷ []) self.old self.new }
    {
        self.add_made(take_line(self.alloc, session));
    }

    /// This session was detached.
    pub(crate) fn detach(&mut self, session: u64)
        ensures { AddsAll (Detach session ∷ []) self.old self.new }
    {
        self.add_made(detach_line(self.alloc, session));
    }

    /// So many steps were made, at this moment in milliseconds since the epoch; numbers that are too great for a line end
    /// the record.
    pub(crate) fn run(&mut self, steps: u64, moment: u64)
        ensures { AddsAll (Run steps moment ∷ []) self.old self.new }
    {
        if tells_run(steps, moment) {
            self.add_made(run_line(self.alloc, steps, moment));
        } else {
            self.end();
        }
    }

    /// The program was shut.
    pub(crate) fn shut(&mut self)
        ensures { AddsAll (Shut ∷ []) self.old self.new }
    {
        self.add(shut_line());
    }
}
