//! The host and its calls, each of which is one entry of its history.
//!
//! A host has a machine and its heap where a run of the definitions holds all texts that were ever printed;
//! `meaning_with host taken` is its meaning after the texts that were handed out.

ghost use Rattle.std.specs.Prelude.{◌≡◌, ◌++◌, ◌∷◌, ◌+◌, ◌&&◌, ◌||◌, ◌<◌, ◌^◌, [], not, ℕ, List, Bool, IfOk, OnOk, OnErr, IsErr, map, length, string_bytes, true, false, nat_lt, Option, ◌⊎◌};
ghost use Rattle.cdp_host_isolation.specs.Histories.{Entry, Attach, Tell, Take, Detach, Ran as RanEntry, Shut, asked, waiting, with_seat};
ghost use Rattle.cdp_host_isolation.specs.Meanings.{is_enabled_seat, is_held, is_paused, is_ready, longest, resume, settle, waits, with_seats};
ghost use Rattle.cdp_host_isolation.specs.Runs.{HasMade, IsLongest};
ghost use Rattle.cdp_host_isolation.specs.Seats.{is_attached, each, fallen, reported, seat_of, some, waits_for_report};
ghost use Rattle.cdp_host_isolation.specs.Standing.{broken_seat, fallen_in, fell, less};
ghost use Rattle.cdp_host_isolation.specs.declared.seat.Seat.TheVariants.{Attached};
ghost use Rattle.js_tree.specs.declared.script.Script.{Script as AnyScript};
ghost use Rattle.js_machine.specs.Machines.{program_of};
ghost use Rattle.locations.specs.Locations.{break_locations};
ghost use Rattle.cdp_json.specs.Messages.{refusal_text};
ghost use Rattle.cdp_json.specs.declared.refusal.Refusal.{Refusal};
ghost use Rattle.cdp_session.specs.Code.{code_of};
ghost use Rattle.cdp_session.specs.Replies.{answer_of, outcome_of, IsRefused};
ghost use Rattle.cdp_session.specs.Sessions.{Session as Kept, sent};
ghost use Rattle.cdp_session.specs.Situations.{HasSpots, seen};
ghost use Rattle.cdp_host_seats.specs.Fallbacks.{fallback_of};
ghost use Rattle.cdp_host_seats.specs.Losses.{loss_told, losses_from};
ghost use Rattle.cdp_host.specs.Histories.{begin};
ghost use Rattle.std.specs.Option.{option_map};
ghost use Rattle.cdp_host.specs.Programs.{is_over, has_thrown, uncaught_text};
ghost use Rattle.cdp_host.specs.Protocols.{asks_to_resume, asks_to_wake, protocol, situation, texts_fit};
ghost use Rattle.cdp_host.specs.Hosts.{CarriesOn, FallsBack, KeepsFallback, Leaves, NoneAttached, PrintsOn, RunsTo, StandsFor, everybody, meaning_with, parts_standing, state_at};
ghost use Rattle.cdp_host_turns.specs.Entries.{lost_for_memory};
ghost use Rattle.cdp_host_record.specs.Standing.{still_waits};
ghost use Rattle.cdp_host.specs.Ran.{IsStretch};
ghost use Rattle.cdp_host.specs.Rules.{printed_between};
ghost use Rattle.cdp_host.specs.Watching.{AnswersIn};

use crate::advance::{Advanced, make_stretch};
use crate::debuggee::{Debuggee, is_over};
use crate::indexing::forget_lost;
use crate::lines::lines_of_all;
use crate::recordable::some_still_wait;
use crate::seats::{resume_all, some_enabled};
use crate::stops::{is_first, pause_behind, phase_of, stops_behind, waits, woken};
use crate::telling::{answer, take};
use breakpoints::{PlaceIndex, ScriptSpots};
use cdp_host_isolation::{Phase, Seat};
use cdp_host_seats::{
    Fallback, SessionLost, fell, is_attached, leave, losses_of, report_all, seat_index,
    some_wait_for_report, tell_loss,
};
use cdp_host_turns::{Ran, State, Told};
use cdp_json::ReadingRoom;
use cdp_session::{Asks, CodedScripts, Pause, Program, Session, Situation};
use cdp_session_messages::SessionEnd;
use cdp_text::line_table::LineTable;
use cdp_text::units::{Units, text_of};
use js_heap_memory::heap::BaseHeap;
use js_machine::machine::{Machine, Started};
use js_machine_actions::shown::shown;
use js_machine_engine::stepped::Finish;
use js_tree::script::Script;
use pure_eval::ScriptsCode;
use std::alloc::{AllocError, Global};
use std::collections::VecDeque;
use std::marker::Model;
use std::mem;

/// A program and the sessions that debug it.
#[derive(Drop)]
pub struct Host<'p> {
    alloc: Global,
    scripts: &'p [Script],
    // the same scripts with their code, which each session shares
    shared: CodedScripts<'p>,
    lines: Vec<LineTable>,
    spots: ScriptSpots,
    machine: Machine,
    heap: BaseHeap,
    phase: Phase,
    stop: Option<Pause>,
    stops: u64,
    shut: bool,
    // what became of the sessions, in the order of their numbers, which count from 1
    seats: Vec<Seat<Session<'p>>>,
    // the places at which each attached session has breakpoints, and no others
    index: PlaceIndex,
    // in which each text is read
    room: ReadingRoom,
    broken: bool,
    fallback: Fallback<Session<'p>>,
    // the losses that want of memory in a run brought, until they are handed out
    fallen: Vec<SessionLost>,
}

impl<'p> Model for Host<'p> {
    ghost use Rattle.js_tree.specs.contracts.tree.Stmt as stmt;
    ghost use Rattle.std.specs.Coded.{codes};
    ghost use Rattle.pure_eval.specs.TermCodes.{term_coded};
    ghost use Rattle.cdp_host_seats.specs.Fallbacks.{fallback_held};
    ghost use Rattle.cdp_host.specs.Hosts.{HostState, IsSound};

    ghost Value = { HostState };

    ghost coded = { Prim.hlevel (codes, term_coded, stmt.the_row.coded) };

    ghost view = { λ a. record {
      scripts = a.scripts.now;
      meaning = record { program = record { machine = a.machine; heap = a.heap }; phase = a.phase; stop = a.stop; stops = a.stops; shut = a.shut; seats = a.seats.items };
      broken = a.broken;
      fallback = fallback_held a.fallback;
      fallen = a.fallen.items;
    } };

    ghost invariant = { λ a. IsSound a.scripts.now a.shared a.lines.items a.spots a.machine a.broken a.seats.items a.seats.len a.index a.fallback a.fallen.items };
}

/// What a command sees of a program that is paused there, if it is paused.
fn situation_of<'d, P: Program>(
    scripts: &'d [Script],
    spots: &'d ScriptSpots,
    paused: Option<Pause>,
    program: &'d P,
) -> Situation<'d, P>
    requires { spots.now ≡ map break_locations scripts.now }
    ensures seen { seen P.standing result ≡ record { scripts = scripts.now; paused = paused; standing = P.standing program.now } }
    ensures spots { HasSpots result }
{
    Situation {
        scripts,
        spots,
        paused,
        program,
    }
}

/// Scripts with the code that a machine runs of them.
fn coded_scripts<'p>(
    alloc: Global,
    scripts: &'p [Script],
    machine: &Machine,
) -> Result<CodedScripts<'p>, AllocError>
    requires { program_of machine.now ≡ code_of scripts.now }
    ensures { IfOk result (λ coded. coded ≡ scripts.now) }
{
    let code = ScriptsCode::of(alloc, machine.names(), machine.table())?;
    CodedScripts::of(alloc, scripts, code)
}

/// The steps that were made, and the texts that they printed.
#[derive(Drop)]
struct Made {
    steps: u64,
    printed: Vec<Units>,
}

/// So many flags, none of which is set.
fn unset_flags(alloc: Global, count: usize) -> Result<Vec<bool>, AllocError>
    ensures { IfOk result (λ flags. length flags.items ≡ count) }
{
    let mut flags = Vec::new(alloc);
    for _ in 0..count {
        flags.push(false)?;
    }
    Ok(flags)
}

impl<'p> Host<'p> {
    /// A host whose program runs these scripts one after another with these lines of input, before its first step; no session
    /// is attached. With `wait` the program waits until a client lets it begin (`Runtime.runIfWaitingForDebugger`).
    ///
    /// # Errors
    ///
    /// There is no memory, also where the scripts have more string literals than there are addresses, or a source that is
    /// too long for positions of 32 bits; no parsed script has one.
    pub fn start(
        alloc: Global,
        scripts: &'p [Script],
        input: VecDeque<Units>,
        wait: bool,
    ) -> Result<Host<'p>, AllocError>
        ensures host { IfOk result (λ host. meaning_with host [] ≡ begin scripts.now input.items wait) }
        ensures scripts { IfOk result (λ host. host.scripts ≡ scripts.now) }
        ensures works { IfOk result (λ host. host.broken ≡ false) }
        ensures fallen { IfOk result (λ host. host.fallen ≡ []) }
        ensures stands { IfOk result (λ host. StandsFor scripts.now input.items wait host []) }
    {
        let room = ReadingRoom::new(alloc)?;
        let lines = lines_of_all(alloc, scripts)?;
        let spots = ScriptSpots::of(alloc, scripts)?;
        let Started { machine, heap } = Machine::start(alloc, scripts, input)?;
        let shared = coded_scripts(alloc, scripts, &machine)?;
        Ok(Host {
            alloc,
            scripts,
            shared,
            lines,
            spots,
            machine,
            heap,
            phase: phase_of(wait),
            stop: None,
            stops: 0,
            shut: false,
            seats: Vec::new(alloc),
            index: PlaceIndex::new(alloc),
            room,
            broken: false,
            fallback: Fallback::new(alloc),
            fallen: Vec::new(alloc),
        })
    }

    // ---- what it tells

    /// How many sessions were attached so far, detached ones included.
    pub fn sessions(&self) -> u64
        ensures { result ≡ length self.now.meaning.seats }
    {
        self.seats.len() as u64
    }

    /// How many stops there were so far; the count stays at 2^62.
    pub fn stops(&self) -> u64
        ensures { result ≡ self.now.meaning.stops }
    {
        self.stops
    }

    /// Whether this session is attached.
    pub fn attached(&self, s: u64) -> bool
        ensures { result ≡ is_attached (seat_of s self.now.meaning.seats) }
    {
        match seat_index(self.seats.as_slice(), s) {
            Some(index) => is_attached(&self.seats[index]),
            None => false,
        }
    }

    /// Whether this session was lost for want of memory, and no run has told of that.
    pub fn fell(&self, s: u64) -> bool
        ensures { result ≡ fell (seat_of s self.now.meaning.seats) }
    {
        match seat_index(self.seats.as_slice(), s) {
            Some(index) => fell(&self.seats[index]),
            None => false,
        }
    }

    /// Whether this session is attached, or was lost for want of memory, and no run has told of that.
    pub(crate) fn is_attached_or_fell(&self, s: u64) -> bool
        ensures { result ≡ (is_attached (seat_of s self.now.meaning.seats) || fell (seat_of s self.now.meaning.seats)) }
    {
        self.attached(s) || self.fell(s)
    }

    /// Whether a session was lost otherwise than for want of memory, and no run has told of that.
    pub(crate) fn some_still_wait(&self) -> bool
        ensures { result ≡ some still_waits self.now.meaning.seats }
    {
        some_still_wait(self.seats.as_slice())
    }

    /// The first state that holds, in the order in which `State` lists them.
    pub fn state(&self) -> State
        ensures { (taken : List (List ℕ)) → result ≡ state_at self.now taken }
    {
        if self.broken {
            State::Broken
        } else if self.shut {
            State::Shut
        } else if self.has_thrown() {
            State::Threw
        } else if self.is_over() {
            State::Ended
        } else if self.is_paused() {
            State::Paused
        } else if waits(self.phase) {
            State::Waiting
        } else {
            State::Ready
        }
    }

    // ---- sessions

    /// Attaches a session and answers its number; the numbers count from 1, and none is given twice.
    ///
    /// # Errors
    ///
    /// The host is broken, there is no memory for the session, or too many sessions share the code. Then nothing has
    /// changed.
    pub fn attach(&mut self) -> Result<u64, AllocError>
        ensures number { IfOk result (λ s. s ≡ length self.old.meaning.seats + 1) }
        ensures leaves { OnOk result (Leaves self.old Attach self.new) }
        ensures broken { self.old.broken ≡ true → IsErr result }
        ensures err { OnErr result (self.new ≡ self.old) }
        ensures stands { OnOk result (CarriesOn self.old Attach self.new) }
    {
        if self.broken {
            return Err(AllocError);
        }
        let number = self.sessions() + 1;
        let session = Session::new(self.alloc, number, self.shared.another()?);
        self.fallback.reserve(self.seats.len() + 1)?;
        self.seats.push(Seat::Attached(session))?;
        Ok(number)
    }

    /// Hands out the texts that wait for this session, in order; none of them waits any more. Takes no memory.
    pub fn take(&mut self, s: u64) -> Vec<String>
        requires { is_attached (seat_of s self.old.meaning.seats) ≡ true }
        ensures texts { map string_bytes result.items ≡ waiting (protocol self.old.scripts) (seat_of s self.old.meaning.seats) }
        ensures leaves { Leaves self.old (Take s) self.new }
        ensures stands { CarriesOn self.old (Take s) self.new }
    {
        take(self.alloc, self.seats.as_mut_slice(), s)
    }

    /// Answers a text of this session: its reply or refusal and its events, some of which come before the reply, stand behind
    /// the texts that wait (JSON-RPC 2.0, section 5; Chrome DevTools Protocol, domains Debugger and Runtime). A refused command
    /// changes nothing else.
    /// A session is detached whose texts don't fit, and after want of memory. A paused program goes on where the command asks for
    /// that, or where no session is left that has the debugger enabled. Each session is told then; one for which the event of
    /// that doesn't fit, or for which there is no memory, is lost, and the next run tells of it.
    pub fn tell(&mut self, s: u64, text: &str) -> Told
        requires { is_attached (seat_of s self.old.meaning.seats) ≡ true }
        ensures kept { result ≡ Told.Kept → Leaves self.old (Tell s text.now) self.new }
        ensures overrun { result ≡ Told.Overrun → Leaves self.old (Tell s text.now) self.new }
        ensures memory { result ≡ Told.Memory → Leaves self.old (Detach s) self.new }
        // the texts of the answer fit, or don't
        ensures fits { result ≡ Told.Kept → (x : Kept) → seat_of s self.old.meaning.seats ≡ Attached x
            → texts_fit (answer_of (situation self.old.scripts self.old.meaning.stop (parts_standing self.old.scripts self.old.meaning.program)) x text.now).session ≡ true }
        ensures over { result ≡ Told.Overrun → (x : Kept) → seat_of s self.old.meaning.seats ≡ Attached x
            → texts_fit (answer_of (situation self.old.scripts self.old.meaning.stop (parts_standing self.old.scripts self.old.meaning.program)) x text.now).session ≡ false }
        // a refused command changes only the texts that wait
        ensures refused { result ≡ Told.Kept → (x : Kept) (id : Option ℕ) (refusal : Refusal) (scripts : List AnyScript) (input : List (List ℕ)) (wait : Bool) (history : List Entry)
            → StandsFor scripts input wait self.old history → seat_of s self.old.meaning.seats ≡ Attached x
            → outcome_of (situation self.old.scripts self.old.meaning.stop (parts_standing self.old.scripts self.old.meaning.program)) x text.now ≡ IsRefused id refusal
            → self.new.meaning ≡ with_seat s (Attached (sent (refusal_text id refusal ∷ []) x)) self.old.meaning }
        ensures stands_kept { result ≡ Told.Kept → CarriesOn self.old (Tell s text.now) self.new }
        ensures stands_overrun { result ≡ Told.Overrun → CarriesOn self.old (Tell s text.now) self.new }
        ensures stands_memory { result ≡ Told.Memory → CarriesOn self.old (Detach s) self.new }
    {
        match self.answer(s, text) {
            Ok(asks) => {
                self.follow(asks);
                Told::Kept
            }
            Err(SessionEnd::Overrun) => {
                self.settle();
                Told::Overrun
            }
            Err(SessionEnd::Memory) => {
                self.settle();
                Told::Memory
            }
        }
    }

    /// Detaches this session, if it is attached; a paused program goes on where no session is left that has the debugger
    /// enabled. Where it was lost by a run or by a resume, or with its host, its loss is answered, once. Takes no memory but for
    /// the event of a resume.
    pub fn detach(&mut self, s: u64) -> Option<SessionLost>
        ensures told { result ≡ loss_told s (seat_of s self.old.meaning.seats) }
        // of a session that is attached
        ensures leaves { is_attached (seat_of s self.old.meaning.seats) ≡ true → Leaves self.old (Detach s) self.new }
        ensures fallen { self.new.fallen ≡ self.old.fallen }
        ensures stands { CarriesOn self.old (Detach s) self.new }
    {
        if self.attached(s) {
            self.leave(s);
            None
        } else {
            self.tell_loss(s)
        }
    }

    /// The program makes no further step. Takes no memory.
    pub fn shut(&mut self)
        ensures leaves { Leaves self.old Shut self.new }
        ensures stands { CarriesOn self.old Shut self.new }
    {
        self.shut = true;
    }

    /// Hands out the sessions that a run lost which met want of memory, once, in the order of their numbers: those whose loss
    /// waited for that run, and for want of memory all that were attached. At every other time it hands out none. Takes no memory.
    pub fn fallen(&mut self) -> Vec<SessionLost>
        ensures list { result.items ≡ self.old.fallen }
        ensures once { self.new ≡ record self.old { fallen = [] } }
        ensures works { self.old.broken ≡ false → result.items ≡ [] }
        ensures stands { (scripts : List AnyScript) (input : List (List ℕ)) (wait : Bool) (history : List Entry)
            → StandsFor scripts input wait self.old history → StandsFor scripts input wait self.new history }
    {
        mem::replace(&mut self.fallen, Vec::new(self.alloc))
    }
}

impl<'p> Host<'p> {
    /// Answers a text of this session, and lets the program be.
    fn answer(&mut self, s: u64, text: &str) -> Result<Asks, SessionEnd>
        requires { is_attached (seat_of s self.old.meaning.seats) ≡ true }
        ensures answers { (x : Kept) → seat_of s self.old.meaning.seats ≡ Attached x
            → AnswersIn result (answer_of (situation self.old.scripts self.old.meaning.stop (parts_standing self.old.scripts self.old.meaning.program)) x text.now) s self.old.meaning.seats self.new.meaning.seats }
        ensures same { self.new ≡ record self.old { meaning = record self.old.meaning { seats = self.new.meaning.seats } } }
        ensures works { self.old.broken ≡ false }
    {
        let program = Debuggee {
            machine: &self.machine,
            heap: &self.heap,
            scripts: self.scripts,
            lines: self.lines.as_slice(),
        };
        let situation = situation_of(self.scripts, &self.spots, self.stop, &program);
        answer(
            &mut self.index,
            &mut self.room,
            self.seats.as_mut_slice(),
            s,
            &situation,
            text,
        )
    }

    /// Does what a command asks of the program.
    fn follow(&mut self, asks: Asks)
        requires { self.old.broken ≡ false }
        ensures means { (taken : List (List ℕ)) → meaning_with self.new taken ≡ less self.new.meaning.seats (asked (protocol self.old.scripts) (asks_to_resume asks) (asks_to_wake asks) (meaning_with self.old taken)) }
        ensures quiet { asks_to_resume asks ≡ false → asks_to_wake asks ≡ false
            → (is_paused self.old.meaning ≡ true → some (is_enabled_seat (protocol self.old.scripts)) self.old.meaning.seats ≡ true) → self.new ≡ self.old }
        ensures stays { is_paused self.new.meaning ≡ true → (self.new.meaning.seats ≡ self.old.meaning.seats) × (self.new.meaning.stop ≡ self.old.meaning.stop) }
        ensures scripts { self.new.scripts ≡ self.old.scripts }
        ensures works { self.new.broken ≡ self.old.broken }
        ensures fallen { self.new.fallen ≡ self.old.fallen }
    {
        match asks {
            Asks::Resume => self.resume(),
            Asks::Wake => self.begin(),
            Asks::Nothing => self.settle(),
            Asks::Leave => self.settle(),
        }
    }

    /// A program that waits for a client begins.
    fn begin(&mut self)
        requires { self.old.broken ≡ false }
        ensures means { (taken : List (List ℕ)) → meaning_with self.new taken ≡ less self.new.meaning.seats (asked (protocol self.old.scripts) false true (meaning_with self.old taken)) }
        ensures stays { is_paused self.new.meaning ≡ true → (self.new.meaning.seats ≡ self.old.meaning.seats) × (self.new.meaning.stop ≡ self.old.meaning.stop) }
        ensures scripts { self.new.scripts ≡ self.old.scripts }
        ensures works { self.new.broken ≡ self.old.broken }
        ensures fallen { self.new.fallen ≡ self.old.fallen }
    {
        self.phase = woken(self.phase);
        self.settle();
    }

    /// Detaches this session.
    fn leave(&mut self, s: u64)
        requires { is_attached (seat_of s self.old.meaning.seats) ≡ true }
        ensures leaves { Leaves self.old (Detach s) self.new }
        ensures works { self.old.broken ≡ false }
    {
        leave(self.seats.as_mut_slice(), s);
        self.index.forget(s);
        self.settle();
    }

    /// Tells the owner of this session of its loss, if it was lost and that wasn't told.
    fn tell_loss(&mut self, s: u64) -> Option<SessionLost>
        requires { is_attached (seat_of s self.old.meaning.seats) ≡ false }
        ensures told { result ≡ loss_told s (seat_of s self.old.meaning.seats) }
        ensures fallen { self.new.fallen ≡ self.old.fallen }
        ensures stands { CarriesOn self.old (Detach s) self.new }
    {
        tell_loss(self.seats.as_mut_slice(), s)
    }

    /// A paused program goes on, and all sessions are told.
    fn resume(&mut self)
        requires { self.old.broken ≡ false }
        ensures means { (taken : List (List ℕ)) → meaning_with self.new taken ≡ less self.new.meaning.seats (resume (protocol self.old.scripts) (meaning_with self.old taken)) }
        ensures free { is_paused self.old.meaning ≡ false → self.new ≡ self.old }
        ensures goes { is_paused self.new.meaning ≡ false }
        ensures scripts { self.new.scripts ≡ self.old.scripts }
        ensures works { self.new.broken ≡ self.old.broken }
        ensures program { self.new.meaning.program ≡ self.old.meaning.program }
        ensures fallen { self.new.fallen ≡ self.old.fallen }
    {
        if self.stop.is_some() {
            self.stop = None;
            resume_all(self.seats.as_mut_slice());
            forget_lost(&mut self.index, self.seats.as_slice());
        }
    }

    /// A paused program goes on where no session has the debugger enabled.
    fn settle(&mut self)
        requires { self.old.broken ≡ false }
        ensures means { (taken : List (List ℕ)) → meaning_with self.new taken ≡ less self.new.meaning.seats (settle (protocol self.old.scripts) (meaning_with self.old taken)) }
        ensures quiet { (is_paused self.old.meaning ≡ true → some (is_enabled_seat (protocol self.old.scripts)) self.old.meaning.seats ≡ true) → self.new ≡ self.old }
        ensures stays { is_paused self.new.meaning ≡ true → self.new ≡ self.old }
        ensures scripts { self.new.scripts ≡ self.old.scripts }
        ensures works { self.new.broken ≡ self.old.broken }
        ensures program { self.new.meaning.program ≡ self.old.meaning.program }
        ensures fallen { self.new.fallen ≡ self.old.fallen }
    {
        if !some_enabled(self.seats.as_slice()) {
            self.resume();
        }
    }
}

impl<'p> Host<'p> {
    /// Makes the longest run of at most `n` steps at a moment, in milliseconds since the epoch: it ends earlier only where the
    /// program isn't ready any more. It tells of the sessions that were lost. A run that makes no step needs no memory, but for
    /// the list of the sessions that were lost before it. After an error the host is broken and all sessions are lost: `fallen`
    /// hands out who and why, and `detach` answers it to each owner.
    ///
    /// # Errors
    ///
    /// There is no memory for a step or for the lists of the answer.
    pub fn run(&mut self, n: u64, moment: u64) -> Result<Ran, AllocError>
        requires { moment < 2 ^ 53 }
        ensures runs { self.old.broken ≡ false → IfOk result (λ ran. (taken : List (List ℕ))
            → RunsTo self.old.scripts moment n (meaning_with self.old taken) ran.steps ran.printed.items ran.lost.items (meaning_with self.new (taken ++ ran.printed.items))) }
        ensures same { IfOk result (λ ran. self.new.broken ≡ self.old.broken) }
        ensures scripts { self.new.scripts ≡ self.old.scripts }
        // a broken host prints nothing, loses nobody and stays as it is
        ensures broken { self.old.broken ≡ true → (self.new ≡ self.old) × IfOk result (λ ran. (ran.steps ≡ 0) × (ran.printed.items ≡ []) × (ran.lost.items ≡ [])) }
        ensures err { OnErr result ((self.new.broken ≡ true) × NoneAttached self.new.meaning.seats) }
        ensures err_seats { OnErr result (self.new.meaning.seats ≡ each broken_seat self.old.meaning.seats) }
        ensures err_fallen { OnErr result (self.new.fallen ≡ losses_from 1 (each fallen self.old.meaning.seats)) }
        ensures fallen { OnOk result (self.new.fallen ≡ self.old.fallen) }
        ensures err_works { OnErr result (self.old.broken ≡ false) }
        // a run that makes no step needs no memory, but for the list of the losses
        ensures err_steps { OnErr result ((taken : List (List ℕ)) → (0 < longest (protocol self.old.scripts) moment n (meaning_with self.old taken)) ⊎ (some waits_for_report self.old.meaning.seats ≡ true)) }
        ensures stands { IfOk result (λ ran. CarriesOn self.old (RanEntry ran.steps moment (lost_for_memory ran.lost.items)) self.new) }
        ensures stands_err { OnErr result (CarriesOn self.old (RanEntry 0 moment (everybody self.old)) self.new) }
        // what is answered is what these steps print
        ensures prints { IfOk result (λ ran. PrintsOn self.old (RanEntry ran.steps moment (lost_for_memory ran.lost.items)) ran.printed.items) }
    {
        if self.broken {
            return Ok(Ran {
                steps: 0,
                printed: Vec::new(self.alloc),
                lost: Vec::new(self.alloc),
            });
        }
        self.prepare();
        let made = self.make_steps(n, moment)?;
        self.report(made)
    }

    /// Reports the losses after the steps of a run, and lets a paused program go on where no session has the debugger
    /// enabled. After an error the host fell back.
    fn report(&mut self, made: Made) -> Result<Ran, AllocError>
        requires { self.old.broken ≡ false }
        ensures steps { IfOk result (λ ran. (ran.steps ≡ made.steps) × (ran.printed.items ≡ made.printed.items)) }
        ensures lost { IfOk result (λ ran. ran.lost.items ≡ losses_from 1 self.old.meaning.seats) }
        ensures means { OnOk result ((taken : List (List ℕ)) → meaning_with self.new taken
            ≡ less self.new.meaning.seats (settle (protocol self.old.scripts) (with_seats (each reported self.old.meaning.seats) (meaning_with self.old taken)))) }
        ensures all_there { OnOk result (is_paused self.new.meaning ≡ true → fallen_in self.new.meaning.seats ≡ []) }
        ensures same { IfOk result (λ ran. self.new.broken ≡ false) }
        ensures scripts { self.new.scripts ≡ self.old.scripts }
        ensures fallen { OnOk result (self.new.fallen ≡ self.old.fallen) }
        ensures handed { OnOk result (self.new.meaning.program.machine.context.printed ≡ []) }
        ensures back { OnErr result (FallsBack self.old self.new) }
        ensures waits { OnErr result (some waits_for_report self.old.meaning.seats ≡ true) }
    {
        let Made { steps, printed } = made;
        match losses_of(self.alloc, self.seats.as_slice()) {
            Ok(lost) => {
                report_all(self.seats.as_mut_slice());
                self.settle();
                Ok(Ran {
                    steps,
                    printed,
                    lost,
                })
            }
            Err(error) => {
                self.fall_back();
                Err(error)
            }
        }
    }

    /// The steps of a run, without the report of losses: goes on while a step may be made. Where none may be it takes
    /// no memory; else it takes some for a flag of each session.
    fn make_steps(&mut self, n: u64, moment: u64) -> Result<Made, AllocError>
        requires moment { moment < 2 ^ 53 }
        requires works { self.old.broken ≡ false }
        ensures makes { IfOk result (λ ran. (taken : List (List ℕ)) → IsLongest (protocol self.old.scripts) moment n (meaning_with self.old taken) (meaning_with self.new (taken ++ ran.printed.items)) ran.steps) }
        ensures printed { IfOk result (λ ran. (taken : List (List ℕ)) → ran.printed.items ≡ printed_between (meaning_with self.old taken).program (meaning_with self.new (taken ++ ran.printed.items)).program) }
        ensures same { IfOk result (λ ran. self.new.broken ≡ false) }
        ensures scripts { self.new.scripts ≡ self.old.scripts }
        ensures keeps { OnOk result (KeepsFallback self.old self.new) }
        ensures back { OnErr result (FallsBack self.old self.new) }
        // nothing has changed, or a step may be made
        ensures still { OnOk result ((self.new ≡ self.old) ⊎ ((taken : List (List ℕ)) → 0 < longest (protocol self.old.scripts) moment n (meaning_with self.old taken))) }
        ensures err_steps { OnErr result ((taken : List (List ℕ)) → 0 < longest (protocol self.old.scripts) moment n (meaning_with self.old taken)) }
    {
        let mut printed = Vec::new(self.alloc);
        let may_step = self.may_step(n);
        if !may_step {
            return Ok(Made { steps: 0, printed });
        }
        let Ok(mut named) = unset_flags(self.alloc, self.seats.len()) else {
            self.fall_back();
            return Err(AllocError);
        };
        let mut left = n;
        while self.may_step(left) {
            left -= self.advance(left, moment, &mut printed, named.as_mut_slice())?;
        }
        Ok(Made {
            steps: n - left,
            printed,
        })
    }

    /// Makes steps, at least one, until the program stops, raises, prints or ends, until a session is lost, or until so many
    /// are made; what it prints comes behind the other texts. After an error the host fell back.
    fn advance(
        &mut self,
        most: u64,
        moment: u64,
        printed: &mut Vec<Units>,
        named: &mut [bool],
    ) -> Result<u64, AllocError>
        requires works { self.old.broken ≡ false }
        requires ready { (taken : List (List ℕ)) → is_ready (protocol self.old.scripts) (meaning_with self.old taken) ≡ true }
        requires some { 0 < most }
        requires moment { moment < 2 ^ 53 }
        requires flags { length named.old ≡ length self.old.meaning.seats }
        ensures made { IfOk result (λ steps. (taken : List (List ℕ)) → HasMade (protocol self.old.scripts) moment (meaning_with self.old (taken ++ printed.old.items)) (meaning_with self.new (taken ++ printed.new.items)) steps) }
        ensures counts { IfOk result (λ steps. IsStretch most steps) }
        ensures same { OnOk result (self.new.broken ≡ false) }
        ensures handed { OnOk result (self.new.meaning.program.machine.context.printed ≡ []) }
        ensures flags { OnOk result (length named.new ≡ length self.new.meaning.seats) }
        ensures scripts { self.new.scripts ≡ self.old.scripts }
        ensures keeps { OnOk result (KeepsFallback self.old self.new) }
        ensures back { OnErr result (FallsBack self.old self.new) }
    {
        match make_stretch(
            &mut self.machine,
            &mut self.heap,
            self.scripts,
            self.lines.as_slice(),
            &self.spots,
            is_first(self.phase),
            self.stops,
            self.seats.as_mut_slice(),
            &mut self.index,
            named,
            most,
            moment,
            printed,
        ) {
            Ok(Advanced { steps, stopped }) => {
                self.phase = Phase::Running;
                self.stop = pause_behind(self.stops, stopped);
                self.stops = stops_behind(self.stops, stopped);
                Ok(steps)
            }
            Err(error) => {
                self.broken = true;
                self.fallback.restore(&mut self.seats, &mut self.fallen);
                self.index = PlaceIndex::new(self.alloc);
                Err(error)
            }
        }
    }

    /// Makes what the host falls back to where there is no memory for a run.
    fn prepare(&mut self)
        requires { self.old.broken ≡ false }
        ensures { self.new ≡ record self.old { fallback = fallback_of self.old.meaning.seats } }
    {
        self.fallback.prepare(self.seats.as_slice());
    }

    /// Falls back, for want of memory.
    fn fall_back(&mut self)
        ensures back { FallsBack self.old self.new }
        ensures scripts { self.new.scripts ≡ self.old.scripts }
    {
        self.broken = true;
        self.fallback.restore(&mut self.seats, &mut self.fallen);
        self.index = PlaceIndex::new(self.alloc);
    }

    /// Whether one of so many steps that are left may be made.
    fn may_step(&self, left: u64) -> bool
        ensures { (taken : List (List ℕ)) → result ≡ (nat_lt 0 left && (not self.now.broken && is_ready (protocol self.now.scripts) (meaning_with self.now taken))) }
    {
        left > 0 && self.is_ready()
    }

    /// Whether the next step may be made.
    fn is_ready(&self) -> bool
        ensures { (taken : List (List ℕ)) → result ≡ (not self.now.broken && is_ready (protocol self.now.scripts) (meaning_with self.now taken)) }
    {
        !self.broken && self.goes_on()
    }

    /// Whether the program is paused.
    fn is_paused(&self) -> bool
        ensures { result ≡ is_paused self.now.meaning }
    {
        self.stop.is_some()
    }

    /// Whether the program is paused, or waits for a client, or was shut, or a session was lost and no run has told of it.
    fn is_held(&self) -> bool
        ensures { result ≡ is_held self.now.meaning }
    {
        self.is_paused() || (waits(self.phase) || self.is_shut_or_owes_a_report())
    }

    /// Whether the program was shut, or a session was lost and no run has told of it.
    fn is_shut_or_owes_a_report(&self) -> bool
        ensures { result ≡ (self.now.meaning.shut || some waits_for_report self.now.meaning.seats) }
    {
        self.shut || some_wait_for_report(self.seats.as_slice())
    }

    /// Whether the program is neither held nor over.
    fn goes_on(&self) -> bool
        ensures { self.now.broken ≡ false → (taken : List (List ℕ)) → result ≡ is_ready (protocol self.now.scripts) (meaning_with self.now taken) }
    {
        !self.is_held() && !self.is_over()
    }

    /// Whether the program is over.
    fn is_over(&self) -> bool
        ensures { self.now.broken ≡ false → (taken : List (List ℕ)) → result ≡ is_over (meaning_with self.now taken).program }
    {
        is_over(&self.machine)
    }

    /// The value whose throw ended the program, as `console.log` shows it, if one did that no `catch` took.
    ///
    /// It fails where no memory is left for the text, or was left in a run.
    pub fn uncaught_text(&self) -> Result<Option<String>, AllocError>
        ensures works { OnOk result (self.now.broken ≡ false) }
        ensures text { IfOk result (λ text. (taken : List (List ℕ)) → option_map string_bytes text ≡ uncaught_text (meaning_with self.now taken).program) }
    {
        if self.broken {
            return Err(AllocError);
        }
        match self.machine.finished() {
            Some(Finish::Threw(value, _)) => {
                let units = shown(self.alloc, &self.heap, self.machine.names(), value)?;
                let text = text_of(self.alloc, units.as_slice())?;
                Ok(Some(text))
            }
            Some(Finish::Ended(_)) => Ok(None),
            None => Ok(None),
        }
    }

    /// Whether it is over by a throw that no `catch` took.
    fn has_thrown(&self) -> bool
        ensures { self.now.broken ≡ false → (taken : List (List ℕ)) → result ≡ has_thrown (meaning_with self.now taken).program }
    {
        match self.machine.finished() {
            Some(Finish::Threw(_, _)) => true,
            Some(Finish::Ended(_)) => false,
            None => false,
        }
    }
}
