//! Runs the program, turn after turn, and writes what it prints.

ghost use Rattle.std.specs.Prelude.{◌≡◌, List, Some, false, true};
ghost use Rattle.cdp_host_isolation.specs.Histories.{Entry as AnyEntry};
ghost use Rattle.ws_service.specs.Passing.{Goes};
ghost use Rattle.ws_service.specs.Programs.{AreLeft, Counts, FindsDue, Finishes, HasReason, HasRun, IsGivenUp, Puts, Writes, end_at, end_in, may_cut};

use crate::shutdown::{NotShut, shut_down};
use cdp_edge::{Sink, SinkFault};
use cdp_edge_printing::put_texts;
use cdp_edge_server::{Bell, Clock};
use cdp_host_turns::{Hosted, Lock, Progress, State, Worker, run};
use cdp_text::units::Units;
use history_lock::Spent;
use std::alloc::Global;
use std::sync::Wait;

/// How a run of the program ended.
#[derive(Clone, Copy)]
pub enum RunEnd {
    /// The program ended, and all that it printed was written.
    Ended,
    /// The program ended by a throw that no `catch` took, and all that it printed was written.
    Threw,
    /// The program was shut.
    Shut,
    /// No memory was left for a run of the program, whose host is broken; all that it printed before was written.
    Broken,
    /// The sink refused a write, and its count rose. The program was shut, if a ticket was left for that.
    WriteFault {
        /// Why the program was not shut, if it wasn't.
        unshut: Option<NotShut>,
    },
    /// No ticket is left: the ticket word is 2^62.
    Spent {
        /// The ticket word.
        ticket: u64,
    },
    /// No memory was left for the lines that the program printed, or for a thread beside its run. It was shut, if a
    /// ticket was left for that.
    Memory {
        /// Why the program was not shut, if it wasn't.
        unshut: Option<NotShut>,
    },
}

/// How a run ends whose output isn't all written.
fn end_at(fault: SinkFault, unshut: Option<NotShut>) -> RunEnd
    ensures { result ≡ end_at fault unshut }
{
    match fault {
        SinkFault::Failed => RunEnd::WriteFault { unshut },
        SinkFault::Memory => RunEnd::Memory { unshut },
    }
}

/// How a run ends in this state, if it does. Where the program waits for a client, the bell is waited for.
fn end_in<D: Bell, R: Wait>(rt: &R, bell: &D, state: State) -> Option<RunEnd>
    ensures { result ≡ end_in state }
{
    match state {
        State::Broken => Some(RunEnd::Broken),
        State::Shut => Some(RunEnd::Shut),
        State::Threw => Some(RunEnd::Threw),
        State::Ended => Some(RunEnd::Ended),
        State::Paused | State::Waiting => {
            bell.wait(rt);
            None
        }
        State::Ready => None,
    }
}

/// Writes texts. Where they can't be written the program is shut, and its run ends so.
fn write<H: Hosted<B>, B, D: Bell, O: Sink, R: Wait>(
    rt: &R,
    alloc: Global,
    lock: &Lock<H, B>,
    bell: &D,
    p: &mut Worker<H, B>,
    out: &mut O,
    texts: &[Units],
) -> Option<RunEnd>
    requires lock { p.old.lock ≡ lock.now }
    requires free { p.old.in_turn ≡ false }
    ensures { Puts H.debugs p.old p.new (record { content = O.content out.old; faults = O.faults out.old }) (record { content = O.content out.new; faults = O.faults out.new }) texts.now result }
{
    match put_texts(alloc, out, texts) {
        Ok(()) => None,
        Err(fault) => {
            let unshut = shut_down(rt, lock, bell, p);
            Some(end_at(fault, unshut))
        }
    }
}

/// Writes what a turn printed, after which the program is in this state.
fn finish<H: Hosted<B>, B, D: Bell, O: Sink, R: Wait>(
    rt: &R,
    alloc: Global,
    lock: &Lock<H, B>,
    bell: &D,
    p: &mut Worker<H, B>,
    out: &mut O,
    texts: &[Units],
    state: State,
) -> Option<RunEnd>
    requires lock { p.old.lock ≡ lock.now }
    requires free { p.old.in_turn ≡ false }
    ensures { Finishes H.debugs p.old p.new (record { content = O.content out.old; faults = O.faults out.old }) (record { content = O.content out.new; faults = O.faults out.new }) texts.now state result }
{
    match write(rt, alloc, lock, bell, p, out, texts) {
        Some(end) => Some(end),
        None => end_in(rt, bell, state),
    }
}

/// Makes one turn of the program, and writes what it prints.
fn advance<H: Hosted<B>, B, D: Bell, O: Sink, C: Clock, R: Wait>(
    rt: &R,
    alloc: Global,
    lock: &Lock<H, B>,
    bell: &D,
    p: &mut Worker<H, B>,
    out: &mut O,
    clock: &mut C,
) -> Option<RunEnd>
    requires lock { p.old.lock ≡ lock.now }
    requires free { p.old.in_turn ≡ false }
    ensures runs { HasRun H.debugs (C.moment clock.old) p.old p.new (record { content = O.content out.old; faults = O.faults out.old }) (record { content = O.content out.new; faults = O.faults out.new }) result }
    ensures clock { C.moment clock.new ≡ C.moment clock.old }
{
    let moment = clock.now_ms();
    match run(rt, lock, bell, p, moment) {
        Ok(Progress::Ran(texts, state)) => {
            finish(rt, alloc, lock, bell, p, out, texts.as_slice(), state)
        }
        Ok(Progress::Idle(state)) => end_in(rt, bell, state),
        Ok(Progress::Memory) => Some(RunEnd::Broken),
        Err(Spent { ticket }) => Some(RunEnd::Spent { ticket }),
    }
}

/// Runs the program to its end, turn after turn, and writes what it prints. The clock is read before each turn. Where no
/// step is to be made the bell is waited for; at a fault of the sink the program is shut.
pub fn run_program<H: Hosted<B>, B, D: Bell, O: Sink, C: Clock, R: Wait>(
    rt: &R,
    alloc: Global,
    lock: &Lock<H, B>,
    bell: &D,
    p: &mut Worker<H, B>,
    out: &mut O,
    clock: &mut C,
) -> RunEnd
    requires lock { p.old.lock ≡ lock.now }
    requires free { p.old.in_turn ≡ false }
    // The pass left turns of the program alone, and a shut at last exactly where a write failed and a ticket was left.
    ensures goes { (entries : List AnyEntry) × Goes H.debugs p.old p.new entries × AreLeft (C.moment clock.old) (Some result) entries }
    // Each turn made the longest run of at most 256 steps, or none where none were to be made. Nothing is asked of the
    // last one before an end with the host broken.
    ensures due { FindsDue H.debugs p.old.number p.old.seen p.new.seen (Some result) }
    // Where nobody else makes steps, the sink took exactly what the steps print, or a first part of it.
    ensures writes { Writes H.debugs p.old.number (may_cut (Some result)) p.old.seen p.new.seen (O.content out.old) (O.content out.new) }
    ensures reason { HasReason H.debugs (Some result) p.new.seen (p.new.refused ≡ true) }
    ensures count { Counts (Some result) (O.faults out.old) (O.faults out.new) }
{
    for _ in rt.forever() {
        if let Some(end) = advance(rt, alloc, lock, bell, p, out, clock) {
            return end;
        }
    }
    unreachable!()
}

/// Gives a run up before its first turn, where there is no memory for a thread beside it. The program is shut.
pub(crate) fn give_up_program<H: Hosted<B>, B, D: Bell, R: Wait>(
    rt: &R,
    lock: &Lock<H, B>,
    bell: &D,
    p: &mut Worker<H, B>,
) -> RunEnd
    requires lock { p.old.lock ≡ lock.now }
    requires free { p.old.in_turn ≡ false }
    ensures { IsGivenUp H.debugs p.old p.new result }
{
    RunEnd::Memory {
        unshut: shut_down(rt, lock, bell, p),
    }
}
