//! The calls of a host, each with the entry that it adds to the history.

ghost use Rattle.std.specs.Prelude.{◌≡◌, ◌<◌, ◌^◌, ◌++◌, ◌∷◌, [], ℕ, List, map, string_bytes, IfOk, IfSome, IfNone, true};
ghost use Rattle.cdp_host_isolation.specs.Histories.{Entry as AnyEntry, Detach, waiting};
ghost use Rattle.cdp_host_isolation.specs.Makers.{Owns};
ghost use Rattle.cdp_host_isolation.specs.Seats.{seat_of};
ghost use Rattle.cdp_host_turns.specs.Debuggings.{meaning};
ghost use Rattle.cdp_host_turns.specs.Entries.{told_entry};
ghost use Rattle.cdp_host_turns.specs.Presences.{FindsSession, FitsIfTold, IsGoneAs, IsThere, is_overrun, tells_overrun};
ghost use Rattle.cdp_host_turns.specs.States.{tells_shut};
ghost use Rattle.cdp_host_turns.specs.Turns.{AttachesAs, IsStateOf, RunsAs, TakesAs, TellsAs};

use crate::answers::{Attached, Gone, Progress, Told};
use crate::entry::Entry;
use crate::hosted::{Hosted, Ran};
use crate::state::State;
use cdp_host_isolation::Loss;
use cdp_host_seats::SessionLost;

/// What a call of a host answered, and its entry.
#[derive(Drop)]
pub struct Called<A> {
    pub answer: A,
    pub entry: Entry,
}

/// How many steps a turn of the program makes at most.
pub const STEPS: u64 = 256;

/// Attaches a session, unless the program was shut.
pub fn attach<H: Hosted<B>, B>(host: &mut H) -> Called<Attached>
    ensures stands { (k : ℕ) (h : List (ℕ × AnyEntry)) → H.stands host.old h → H.stands host.new (h ++ (k, result.entry) ∷ []) }
    ensures attaches { (h : List (ℕ × AnyEntry)) → H.stands host.old h → AttachesAs H.debugs h result.answer result.entry }
{
    match host.state() {
        State::Shut => Called {
            answer: Attached::Shut,
            entry: Entry::take(0),
        },
        State::Broken
        | State::Threw
        | State::Ended
        | State::Paused
        | State::Waiting
        | State::Ready => match host.attach() {
            Ok(session) => Called {
                answer: Attached::Session(session),
                entry: Entry::attach(),
            },
            Err(_) => Called {
                answer: Attached::Memory,
                entry: Entry::take(0),
            },
        },
    }
}

/// Why a session was lost. One whose owner was told before is lost for want of memory.
fn loss_of(lost: Option<SessionLost>) -> Loss
    ensures { is_overrun result ≡ tells_overrun lost }
{
    match lost {
        Some(lost) => lost.loss,
        None => Loss::Memory,
    }
}

/// Whether this is the state of a program that was shut.
fn is_shut(state: State) -> bool
    ensures { result ≡ tells_shut state }
{
    match state {
        State::Shut => true,
        State::Broken
        | State::Threw
        | State::Ended
        | State::Paused
        | State::Waiting
        | State::Ready => false,
    }
}

/// Detaches a session that is gone: it was lost, or the program was shut.
fn end_if_gone<H: Hosted<B>, B>(host: &mut H, session: u64) -> Option<Gone>
    ensures gone { IfSome result (λ why. (k : ℕ) (h : List (ℕ × AnyEntry)) → H.stands host.old h → Owns k session h → H.stands host.new (h ++ (k, Detach session) ∷ [])) }
    ensures why { IfSome result (λ why. (h : List (ℕ × AnyEntry)) → H.stands host.old h
        → IsGoneAs H.debugs session why h) }
    ensures there { IfNone result ((h : List (ℕ × AnyEntry)) → H.stands host.old h → IsThere H.debugs session h) }
    ensures stays { IfNone result (host.new ≡ host.old) }
    ensures attached { IfNone result (H.attached host.old session ≡ true) }
{
    if !host.is_attached(session) {
        return Some(Gone::Lost(loss_of(host.detach(session))));
    }
    if is_shut(host.state()) {
        host.detach(session);
        return Some(Gone::Shut);
    }
    None
}

/// The entry of a command that was answered so.
fn entry_told(told: Told, session: u64, text: String) -> Entry
    ensures { result ≡ told_entry told session (string_bytes text) }
{
    match told {
        Told::Kept | Told::Overrun => Entry::tell(session, text),
        Told::Memory => Entry::detach(session),
    }
}

/// Answers a text of a session.
pub fn tell<H: Hosted<B>, B>(host: &mut H, session: u64, text: String) -> Called<Result<Told, Gone>>
    ensures stands { (k : ℕ) (h : List (ℕ × AnyEntry)) → H.stands host.old h → Owns k session h → H.stands host.new (h ++ (k, result.entry) ∷ []) }
    ensures entry { TellsAs session (string_bytes text) result.answer result.entry }
    ensures finds { (h : List (ℕ × AnyEntry)) → H.stands host.old h → FindsSession H.debugs session result.answer h }
    ensures fits { (h : List (ℕ × AnyEntry)) → H.stands host.old h
        → FitsIfTold H.debugs session (string_bytes text) result.answer h }
{
    if let Some(gone) = end_if_gone(host, session) {
        return Called {
            answer: Err(gone),
            entry: Entry::detach(session),
        };
    }
    let told = host.tell(session, text.as_str());
    Called {
        answer: Ok(told),
        entry: entry_told(told, session, text),
    }
}

/// Hands out the texts that wait for a session.
pub fn take<H: Hosted<B>, B>(host: &mut H, session: u64) -> Called<Result<Vec<String>, Gone>>
    ensures stands { (k : ℕ) (h : List (ℕ × AnyEntry)) → H.stands host.old h → Owns k session h → H.stands host.new (h ++ (k, result.entry) ∷ []) }
    ensures entry { TakesAs session result.answer result.entry }
    ensures texts { IfOk result.answer (λ texts. (h : List (ℕ × AnyEntry)) → H.stands host.old h → map string_bytes texts.items ≡ waiting H.debugs.protocol (seat_of session (meaning H.debugs h).seats)) }
    ensures finds { (h : List (ℕ × AnyEntry)) → H.stands host.old h → FindsSession H.debugs session result.answer h }
{
    match end_if_gone(host, session) {
        Some(gone) => Called {
            answer: Err(gone),
            entry: Entry::detach(session),
        },
        None => Called {
            answer: Ok(host.take(session)),
            entry: Entry::take(session),
        },
    }
}

/// Makes steps of a program that is ready.
fn make_steps<H: Hosted<B>, B>(host: &mut H, moment: u64) -> Called<Progress>
    requires moment { moment < 2 ^ 53 }
    requires ready { H.tells host.old ≡ State.Ready }
    ensures stands { (k : ℕ) (h : List (ℕ × AnyEntry)) → H.stands host.old h → H.stands host.new (h ++ (k, result.entry) ∷ []) }
    ensures runs { (h : List (ℕ × AnyEntry)) → H.stands host.old h → RunsAs H.debugs 256 moment h result.answer result.entry }
    ensures state { (h : List (ℕ × AnyEntry)) → H.stands host.new h → IsStateOf H.debugs result.answer h }
{
    match host.run(STEPS, moment) {
        Ok(
            Ran {
                steps,
                printed,
                lost,
            },
        ) => Called {
            answer: Progress::Ran(printed, host.state()),
            entry: Entry::ran(steps, moment, lost),
        },
        Err(lost) => Called {
            answer: Progress::Memory,
            entry: Entry::ran(0, moment, lost),
        },
    }
}

/// Makes at most 256 steps at a moment, in milliseconds since the epoch, if the program is ready.
pub fn run<H: Hosted<B>, B>(host: &mut H, moment: u64) -> Called<Progress>
    requires { moment < 2 ^ 53 }
    ensures stands { (k : ℕ) (h : List (ℕ × AnyEntry)) → H.stands host.old h → H.stands host.new (h ++ (k, result.entry) ∷ []) }
    ensures runs { (h : List (ℕ × AnyEntry)) → H.stands host.old h → RunsAs H.debugs 256 moment h result.answer result.entry }
    ensures state { (h : List (ℕ × AnyEntry)) → H.stands host.new h → IsStateOf H.debugs result.answer h }
{
    match host.state() {
        State::Ready => make_steps(host, moment),
        state => Called {
            answer: Progress::Idle(state),
            entry: Entry::take(0),
        },
    }
}
