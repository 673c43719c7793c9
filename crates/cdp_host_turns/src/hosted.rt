//! What the turns ask of a host.

ghost use Rattle.std.specs.Prelude.{◌≡◌, ◌<◌, ◌^◌, ◌+◌, ◌++◌, ◌∷◌, [], ℕ, List, length, map, string_bytes, IfOk, IfErr, OnOk, OnErr, Bool, true};
ghost use Rattle.cdp_host_isolation.specs.Histories.{Entry as AnyEntry, Attach, Take, Detach, Ran as RanEntry, Shut, steps_made, waiting};
ghost use Rattle.cdp_host_isolation.specs.Makers.{Owns, entries_of};
ghost use Rattle.cdp_host_isolation.specs.Seats.{seat_of};
ghost use Rattle.cdp_host_isolation.specs.Stops.{plain};
ghost use Rattle.cdp_host_turns.specs.Debuggings.{IsHistory, IsLongest, meaning};
ghost use Rattle.cdp_host_turns.specs.Entries.{lost_for_memory, told_entry};
ghost use Rattle.cdp_host_turns.specs.Presences.{FitsAs, IsAttached, overran, seat_after, tells_overrun};
ghost use Rattle.cdp_host_turns.specs.States.{HasState, tells_shut};

use crate::answers::Told;
use crate::entry::Entry;
use crate::state::State;
use cdp_host_seats::SessionLost;
use cdp_text::units::Units;
use history_lock::Standing;
use std::alloc::AllocError;

/// What a run did.
#[derive(Drop)]
pub struct Ran {
    /// How many steps were made.
    pub steps: u64,
    /// The texts that they printed, in order.
    pub printed: Vec<Units>,
    /// The sessions that were lost, in the order of their numbers: at the last step, or before the run, by the event of a
    /// resume.
    pub lost: Vec<SessionLost>,
}

/// A host that stands for histories. `B` names what it began with. Each call adds one entry to the history for which the
/// host stands, whoever makes it, if a session is named by its owner alone.
pub trait Hosted<B>: Standing<Entry, B> {
    ghost use Rattle.std.specs.Prelude.{ℕ, Bool};
    ghost use Rattle.cdp_host_turns.specs.Debuggings.{Debugging};
    ghost use Rattle.cdp_host_turns.specs.declared.state.State.{State};

    /// The program and its sessions, with what they began with.
    ghost debugs: { Debugging };

    /// The session of this number is attached.
    ghost attached: { Self → ℕ → Bool };

    /// The first state that holds, in the order in which `State` lists them.
    ghost tells: { Self → State };

    /// Tells it.
    fn state(&self) -> State
        ensures tells { result ≡ tells self.now }
        ensures history { (h : List (ℕ × AnyEntry)) → Self.stands self.now h → IsHistory Self.debugs h }
        ensures state { (h : List (ℕ × AnyEntry)) → Self.stands self.now h → HasState Self.debugs result h }
        // while a session is attached, whether the program was shut
        ensures shut { (session : ℕ) → attached self.now session ≡ true → (h : List (ℕ × AnyEntry))
            → Self.stands self.now h → tells_shut result ≡ (meaning Self.debugs h).shut }
        // a turn may leave everything as it is: nobody is the session of the number 0
        ensures idle { (k : ℕ) (h : List (ℕ × AnyEntry)) → Self.stands self.now h → Self.stands self.now (h ++ (k, Take 0) ∷ []) };

    /// Whether the session of this number is attached.
    fn is_attached(&self, session: u64) -> bool
        ensures is { result ≡ attached self.now session }
        // then it is by the history
        ensures held { attached self.now session ≡ true → (h : List (ℕ × AnyEntry)) → Self.stands self.now h
            → IsAttached Self.debugs session h };

    /// Attaches a session and answers its number; the numbers count from 1.
    ///
    /// # Errors
    ///
    /// The host is broken, or there is no memory. Nothing has changed.
    fn attach(&mut self) -> Result<u64, AllocError>
        ensures next { IfOk result (λ s. (h : List (ℕ × AnyEntry)) → Self.stands self.old h → s ≡ length (meaning Self.debugs h).seats + 1) }
        ensures stands { OnOk result ((k : ℕ) (h : List (ℕ × AnyEntry)) → Self.stands self.old h → Self.stands self.new (h ++ (k, Attach) ∷ [])) }
        ensures err { OnErr result (self.new ≡ self.old) };

    /// Answers a text of this session, which its owner tells.
    fn tell(&mut self, session: u64, text: &str) -> Told
        requires { attached self.old session ≡ true }
        ensures stands { (k : ℕ) (h : List (ℕ × AnyEntry)) → Self.stands self.old h → Owns k session h
            → Self.stands self.new (h ++ (k, told_entry result session text.now) ∷ []) }
        // the texts of the answer fit behind those that wait, or they don't
        ensures fits { (h : List (ℕ × AnyEntry)) → Self.stands self.old h
            → FitsAs Self.debugs session text.now result h };

    /// Hands out the texts that wait for this session, to its owner.
    fn take(&mut self, session: u64) -> Vec<String>
        requires { attached self.old session ≡ true }
        ensures texts { (h : List (ℕ × AnyEntry)) → Self.stands self.old h → map string_bytes result.items ≡ waiting Self.debugs.protocol (seat_of session (meaning Self.debugs h).seats) }
        ensures stands { (k : ℕ) (h : List (ℕ × AnyEntry)) → Self.stands self.old h → Owns k session h → Self.stands self.new (h ++ (k, Take session) ∷ []) };

    /// Detaches this session for its owner, if it is attached. Where it was lost, its loss is answered, once.
    fn detach(&mut self, session: u64) -> Option<SessionLost>
        ensures stands { (k : ℕ) (h : List (ℕ × AnyEntry)) → Self.stands self.old h → Owns k session h
            → Self.stands self.new (h ++ (k, Detach session) ∷ []) }
        // a loss by an overrun exactly where the session was lost so, and its owner wasn't told of that
        ensures told { (h : List (ℕ × AnyEntry)) → Self.stands self.old h
            → tells_overrun result ≡ overran (seat_after Self.debugs session h) };

    /// Makes the longest run of at most so many steps at a moment, in milliseconds since the epoch: it ends earlier only where
    /// the program isn't ready any more. It makes no step where a session that was lost before for want of memory is to be
    /// reported.
    ///
    /// # Errors
    ///
    /// There was no memory: the host is broken, no step was made, and these sessions are lost.
    fn run(&mut self, most: u64, moment: u64) -> Result<Ran, Vec<SessionLost>>
        requires { moment < 2 ^ 53 }
        ensures stands { IfOk result (λ ran. (k : ℕ) (h : List (ℕ × AnyEntry)) → Self.stands self.old h → Self.stands self.new (h ++ (k, RanEntry ran.steps moment (lost_for_memory ran.lost.items)) ∷ [])) }
        ensures longest { IfOk result (λ ran. tells self.old ≡ State.Ready → (h : List (ℕ × AnyEntry)) → Self.stands self.old h → IsLongest Self.debugs most moment h ran.steps (lost_for_memory ran.lost.items)) }
        ensures printed { IfOk result (λ ran. (h : List (ℕ × AnyEntry)) → Self.stands self.old h
            → Self.debugs.printed (plain Self.debugs.protocol (steps_made (entries_of h) + ran.steps) Self.debugs.program) ≡ Self.debugs.printed (plain Self.debugs.protocol (steps_made (entries_of h)) Self.debugs.program) ++ ran.printed.items) }
        ensures err { IfErr result (λ lost. (k : ℕ) (h : List (ℕ × AnyEntry)) → Self.stands self.old h → Self.stands self.new (h ++ (k, RanEntry 0 moment (lost_for_memory lost.items)) ∷ [])) };

    /// The program makes no further step.
    fn shut(&mut self)
        ensures { (k : ℕ) (h : List (ℕ × AnyEntry)) → Self.stands self.old h → Self.stands self.new (h ++ (k, Shut) ∷ []) };
}
