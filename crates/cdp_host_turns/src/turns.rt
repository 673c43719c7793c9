//! One turn each.

ghost use Rattle.std.specs.Prelude.{◌≡◌, ◌<◌, ◌^◌, IfOk, OnOk, IfErr, OnErr, string_bytes, false};
ghost use Rattle.cdp_host_isolation.specs.Histories.{Detach, Shut, Take};
ghost use Rattle.cdp_host_isolation.specs.Makers.{Owns};
ghost use Rattle.history_lock.specs.Histories.{limit};
ghost use Rattle.history_lock.specs.Passes.{refused_pass};
ghost use Rattle.cdp_host_turns.specs.States.{HasState, tells_over};
ghost use Rattle.cdp_host_turns.specs.Turns.{Acts, Attaches, Finds, Runs, Takes, Tells, TellsAndTakes, unless_kept};

use crate::answers::{Answered, Attached, Gone, HandedOut, Progress, Told};
use crate::calls::{self, Called};
use crate::entry::Entry;
use crate::hosted::Hosted;
use crate::state::State;
use cdp_edge_server::Bell;
use history_lock::{HistoryLock, Pass, Spent};
use std::sync::Wait;

/// The lock of a host's history.
pub type Lock<H, B> = HistoryLock<H, Entry, B>;

/// Leave to take turns of it.
pub type Worker<H, B> = Pass<H, Entry, B>;

/// Whether a program in this state waits for a client.
fn is_halted(state: State) -> bool {
    match state {
        State::Paused | State::Waiting => true,
        State::Broken | State::Shut | State::Threw | State::Ended | State::Ready => false,
    }
}

/// Wakes the others where the program goes on.
fn ring_if_on<L: Bell>(bell: &L, before: State, after: State) {
    if is_halted(before) && !is_halted(after) {
        bell.ring();
    }
}

/// What was handed out in this state.
fn taken(texts: Vec<String>, state: State) -> HandedOut
    ensures texts { result.texts ≡ texts }
    ensures over { result.is_over ≡ tells_over state }
{
    let is_over = match state {
        State::Threw | State::Ended => true,
        State::Broken | State::Shut | State::Paused | State::Waiting | State::Ready => false,
    };
    HandedOut { texts, is_over }
}

/// Attaches a session, unless the program was shut.
pub fn attach<H: Hosted<B>, B, R: Wait>(
    rt: &R,
    lock: &Lock<H, B>,
    p: &mut Worker<H, B>,
) -> Result<Attached, Spent>
    requires lock { p.old.lock ≡ lock.now }
    requires free { p.old.in_turn ≡ false }
    ensures attaches { IfOk result (λ attached. Attaches H.debugs p.old p.new attached) }
    ensures spent { IfErr result (λ e. e.ticket ≡ limit) }
    ensures none { OnErr result (p.new ≡ refused_pass p.old) }
{
    let mut turn = lock.enter(rt, p)?;
    let host = turn.state();
    let Called { answer, entry } = calls::attach(host);
    host.state();
    lock.leave(p, turn, &entry);
    Ok(answer)
}

/// Answers a text of a session of this pass.
fn tell<H: Hosted<B>, B, L: Bell, R: Wait>(
    rt: &R,
    lock: &Lock<H, B>,
    bell: &L,
    p: &mut Worker<H, B>,
    session: u64,
    text: String,
) -> Result<Result<Told, Gone>, Spent>
    requires lock { p.old.lock ≡ lock.now }
    requires free { p.old.in_turn ≡ false }
    requires session { Owns p.old.number session p.old.seen }
    ensures tells { IfOk result (λ told. Tells H.debugs session (string_bytes text) p.old p.new told) }
    ensures spent { IfErr result (λ e. e.ticket ≡ limit) }
    ensures none { OnErr result (p.new ≡ refused_pass p.old) }
{
    let mut turn = lock.enter(rt, p)?;
    let host = turn.state();
    let before = host.state();
    let Called { answer, entry } = calls::tell(host, session, text);
    let after = host.state();
    lock.leave(p, turn, &entry);
    ring_if_on(bell, before, after);
    Ok(answer)
}

/// Hands out the texts that wait for a session of this pass.
pub fn take<H: Hosted<B>, B, L: Bell, R: Wait>(
    rt: &R,
    lock: &Lock<H, B>,
    bell: &L,
    p: &mut Worker<H, B>,
    session: u64,
) -> Result<Result<HandedOut, Gone>, Spent>
    requires lock { p.old.lock ≡ lock.now }
    requires free { p.old.in_turn ≡ false }
    requires session { Owns p.old.number session p.old.seen }
    ensures takes { IfOk result (λ taken. Takes H.debugs session p.old p.new taken) }
    ensures spent { IfErr result (λ e. e.ticket ≡ limit) }
    ensures none { OnErr result (p.new ≡ refused_pass p.old) }
{
    let mut turn = lock.enter(rt, p)?;
    let host = turn.state();
    let before = host.state();
    let Called { answer, entry } = calls::take(host, session);
    let after = host.state();
    lock.leave(p, turn, &entry);
    ring_if_on(bell, before, after);
    match answer {
        Ok(texts) => Ok(Ok(taken(texts, before))),
        Err(gone) => Ok(Err(gone)),
    }
}

/// What became of a command, unless it was kept.
fn unless_kept(answer: Result<Told, Gone>) -> Option<Answered>
    ensures { result ≡ unless_kept answer }
{
    match answer {
        Ok(Told::Kept) => None,
        Ok(Told::Overrun) => Some(Answered::Overrun),
        Ok(Told::Memory) => Some(Answered::Memory),
        Err(gone) => Some(Answered::Gone(gone)),
    }
}

/// Answers a text of a session of this pass, and hands out the texts that wait for it then, by two turns.
fn tell_then_take<H: Hosted<B>, B, L: Bell, R: Wait>(
    rt: &R,
    lock: &Lock<H, B>,
    bell: &L,
    p: &mut Worker<H, B>,
    session: u64,
    text: String,
) -> Result<Answered, Spent>
    requires lock { p.old.lock ≡ lock.now }
    requires free { p.old.in_turn ≡ false }
    requires session { Owns p.old.number session p.old.seen }
    ensures answers { IfOk result (λ answered. TellsAndTakes H.debugs session (string_bytes text) p.old p.new answered) }
    ensures spent { IfErr result (λ e. e.ticket ≡ limit) }
    ensures none { OnErr result (p.new ≡ refused_pass p.old) }
{
    let answer = tell(rt, lock, bell, p, session, text)?;
    if let Some(ended) = unless_kept(answer) {
        return Ok(ended);
    }
    match take(rt, lock, bell, p, session) {
        Ok(Ok(taken)) => Ok(Answered::Taken(taken)),
        Ok(Err(gone)) => Ok(Answered::GoneAfter(gone)),
        Err(spent) => Ok(Answered::SpentAfter(spent)),
    }
}

/// Answers a text of a session of this pass, and hands out the texts that wait for it then. It waits once for both turns,
/// as long as two tickets are left.
pub fn tell_and_take<H: Hosted<B>, B, L: Bell, R: Wait>(
    rt: &R,
    lock: &Lock<H, B>,
    bell: &L,
    p: &mut Worker<H, B>,
    session: u64,
    text: String,
) -> Result<Answered, Spent>
    requires lock { p.old.lock ≡ lock.now }
    requires free { p.old.in_turn ≡ false }
    requires session { Owns p.old.number session p.old.seen }
    ensures answers { IfOk result (λ answered. TellsAndTakes H.debugs session (string_bytes text) p.old p.new answered) }
    ensures spent { IfErr result (λ e. e.ticket ≡ limit) }
    ensures none { OnErr result (p.new ≡ refused_pass p.old) }
{
    let Some(mut turn) = lock.enter_twice(rt, p) else {
        return tell_then_take(rt, lock, bell, p, session, text);
    };
    let host = turn.state();
    let before = host.state();
    let Called { answer, entry } = calls::tell(host, session, text);
    let between = host.state();
    if let Some(ended) = unless_kept(answer) {
        lock.leave_once(p, turn, &entry);
        ring_if_on(bell, before, between);
        return Ok(ended);
    }
    let Called {
        answer: found,
        entry: second,
    } = calls::take(host, session);
    let after = host.state();
    lock.leave_twice(p, turn, &entry, &second);
    ring_if_on(bell, before, after);
    match found {
        Ok(texts) => Ok(Answered::Taken(taken(texts, between))),
        Err(gone) => Ok(Answered::GoneAfter(gone)),
    }
}

/// Detaches a session of this pass.
pub fn detach<H: Hosted<B>, B, L: Bell, R: Wait>(
    rt: &R,
    lock: &Lock<H, B>,
    bell: &L,
    p: &mut Worker<H, B>,
    session: u64,
) -> Result<(), Spent>
    requires lock { p.old.lock ≡ lock.now }
    requires free { p.old.in_turn ≡ false }
    requires session { Owns p.old.number session p.old.seen }
    ensures acts { OnOk result (Acts H.debugs p.old p.new (Detach session)) }
    ensures spent { IfErr result (λ e. e.ticket ≡ limit) }
    ensures none { OnErr result (p.new ≡ refused_pass p.old) }
{
    let mut turn = lock.enter(rt, p)?;
    let host = turn.state();
    let before = host.state();
    host.detach(session);
    let after = host.state();
    lock.leave(p, turn, &Entry::detach(session));
    ring_if_on(bell, before, after);
    Ok(())
}

/// Looks at the state of the host, and changes nothing.
pub fn look<H: Hosted<B>, B, R: Wait>(
    rt: &R,
    lock: &Lock<H, B>,
    p: &mut Worker<H, B>,
) -> Result<State, Spent>
    requires lock { p.old.lock ≡ lock.now }
    requires free { p.old.in_turn ≡ false }
    ensures finds { IfOk result (λ state. Finds H.debugs (HasState H.debugs state) p.old p.new (Take 0)) }
    ensures spent { IfErr result (λ e. e.ticket ≡ limit) }
    ensures none { OnErr result (p.new ≡ refused_pass p.old) }
{
    let mut turn = lock.enter(rt, p)?;
    let state = turn.state().state();
    lock.leave(p, turn, &Entry::take(0));
    Ok(state)
}

/// The program makes no further step, and all are woken.
pub fn shut<H: Hosted<B>, B, L: Bell, R: Wait>(
    rt: &R,
    lock: &Lock<H, B>,
    bell: &L,
    p: &mut Worker<H, B>,
) -> Result<(), Spent>
    requires lock { p.old.lock ≡ lock.now }
    requires free { p.old.in_turn ≡ false }
    ensures acts { OnOk result (Acts H.debugs p.old p.new Shut) }
    ensures spent { IfErr result (λ e. e.ticket ≡ limit) }
    ensures none { OnErr result (p.new ≡ refused_pass p.old) }
{
    let mut turn = lock.enter(rt, p)?;
    let host = turn.state();
    host.shut();
    host.state();
    lock.leave(p, turn, &Entry::shut());
    bell.ring();
    Ok(())
}

/// Whether a turn of the program has something for its clients.
fn has_news(progress: &Progress) -> bool {
    match progress {
        Progress::Ran(texts, State::Ready) => !texts.is_empty(),
        Progress::Ran(_, _) => true,
        Progress::Idle(_) => false,
        Progress::Memory => true,
    }
}

/// Makes at most 256 steps of the program at a moment, in milliseconds since the epoch, if it is ready.
pub fn run<H: Hosted<B>, B, L: Bell, R: Wait>(
    rt: &R,
    lock: &Lock<H, B>,
    bell: &L,
    p: &mut Worker<H, B>,
    moment: u64,
) -> Result<Progress, Spent>
    requires lock { p.old.lock ≡ lock.now }
    requires free { p.old.in_turn ≡ false }
    requires moment { moment < 2 ^ 53 }
    ensures runs { IfOk result (λ progress. Runs H.debugs 256 moment p.old p.new progress) }
    ensures spent { IfErr result (λ e. e.ticket ≡ limit) }
    ensures none { OnErr result (p.new ≡ refused_pass p.old) }
{
    let mut turn = lock.enter(rt, p)?;
    let host = turn.state();
    let Called { answer, entry } = calls::run(host, moment);
    host.state();
    lock.leave(p, turn, &entry);
    if has_news(&answer) {
        bell.ring();
    }
    Ok(answer)
}
