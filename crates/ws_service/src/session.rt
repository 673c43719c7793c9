//! Serves a link: a session is attached, told what the link answers, and its texts are sent.

ghost use Rattle.std.specs.Prelude.{◌≡◌, ◌≤◌, ℕ, List, Some, map, string_bytes, OnOk, OnErr, IfErr, IfSome, IsErrOf, Ok, false};
ghost use Rattle.cdp_edge.specs.Outside.{Rose};
ghost use Rattle.history_lock.specs.Histories.{Begins};
ghost use Rattle.history_lock.specs.Passes.{PassState};
ghost use Rattle.cdp_host_turns.specs.Turns.{Takes};
ghost use Rattle.cdp_host_isolation.specs.Histories.{Entry};
ghost use Rattle.cdp_host_isolation.specs.Makers.{Owns};
ghost use Rattle.cdp_edge_server.specs.Contents.{adds};
ghost use Rattle.ws_service.specs.Connections.{code_of, end_at, end_of};
ghost use Rattle.ws_service.specs.Sessions.{Answers, HandsOut, Hears, IsClosedBy, IsEnded, IsServed, Waits};

use crate::served::Served;
use cdp_edge_server::{Bell, Link, LinkFault, Recv};
use cdp_host_isolation::Loss;
use cdp_host_turns::{
    Answered, Attached, Gone, HandedOut, Hosted, Lock, Worker, attach, detach, take, tell_and_take,
};
use history_lock::Spent;
use std::sync::Wait;

/// The close code of an end, if it has one (RFC 6455, section 7.4.1).
fn code_of(end: Served) -> Option<u16>
    ensures { result ≡ code_of end }
{
    match end {
        Served::TooBig => Some(1009),
        Served::Binary => Some(1003),
        Served::Overrun => Some(1008),
        Served::Shut | Served::Over => Some(1000),
        Served::Closed | Served::Fault | Served::Spent { .. } | Served::Memory => None,
    }
}

/// How a session ends that is gone.
fn end_of(gone: Gone) -> Served
    ensures { result ≡ end_of gone }
{
    match gone {
        Gone::Lost(Loss::Overrun) => Served::Overrun,
        Gone::Lost(Loss::Memory) => Served::Memory,
        Gone::Shut => Served::Shut,
    }
}

/// How a session ends whose link answered so to a send.
fn end_at(fault: LinkFault) -> Served
    ensures { result ≡ end_at fault }
{
    match fault {
        LinkFault::Failed => Served::Fault,
        LinkFault::Memory => Served::Memory,
    }
}

/// Sends texts, one after another.
///
/// # Errors
///
/// As [`Link::send`]; the first texts were sent then.
fn send_all<L: Link>(link: &mut L, texts: &[String]) -> Result<(), LinkFault>
    ensures sent { OnOk result (L.sent link.new ≡ adds (L.sent link.old) (map string_bytes texts.now)) }
    ensures part { OnErr result ((part : List (List ℕ)) × Begins part (map string_bytes texts.now) × (L.sent link.new ≡ adds (L.sent link.old) part)) }
    ensures answers { L.answers link.new ≡ L.answers link.old }
    ensures closed { L.closed link.new ≡ L.closed link.old }
    ensures count { L.faults link.old ≤ L.faults link.new }
    ensures failed { IsErrOf result LinkFault.Failed → Rose (L.faults link.old) (L.faults link.new) }
{
    for text in texts {
        if let Err(fault) = link.send(text.as_str()) {
            return Err(fault);
        }
    }
    Ok(())
}

/// Detaches a session, which ends so.
fn leave<H: Hosted<B>, B, L: Bell, R: Wait>(
    rt: &R,
    lock: &Lock<H, B>,
    bell: &L,
    p: &mut Worker<H, B>,
    session: u64,
    end: Served,
) -> Served
    requires lock { p.old.lock ≡ lock.now }
    requires free { p.old.in_turn ≡ false }
    requires session { Owns p.old.number session p.old.seen }
    ensures { IsEnded H.debugs session p.old p.new end result }
{
    match detach(rt, lock, bell, p, session) {
        Ok(()) => end,
        Err(Spent { ticket }) => Served::Spent { ticket },
    }
}

/// Sends the texts that were handed out to a session. Answers whether the program has ended.
///
/// # Errors
///
/// How the session ended, where a send failed.
fn send_taken<H: Hosted<B>, B, D: Bell, L: Link, R: Wait>(
    rt: &R,
    lock: &Lock<H, B>,
    bell: &D,
    p: &mut Worker<H, B>,
    link: &mut L,
    session: u64,
    taken: HandedOut,
) -> Result<bool, Served>
    requires lock { p.old.lock ≡ lock.now }
    requires free { p.old.in_turn ≡ false }
    requires session { Owns p.old.number session p.old.seen }
    ensures hands { (m : PassState Entry) → Takes H.debugs session m p.old (Ok taken) → Owns m.number session m.seen → HandsOut H.debugs session m p.new (record { answers = L.answers link.old; sent = L.sent link.old }) (record { answers = L.answers link.new; sent = L.sent link.new }) result }
    ensures closed { L.closed link.new ≡ L.closed link.old }
    ensures count { L.faults link.old ≤ L.faults link.new }
    ensures fault { IfErr result (λ end. end ≡ Served.Fault → Rose (L.faults link.old) (L.faults link.new)) }
{
    let HandedOut { texts, is_over } = taken;
    match send_all(link, texts.as_slice()) {
        Ok(()) => Ok(is_over),
        Err(fault) => Err(leave(rt, lock, bell, p, session, end_at(fault))),
    }
}

/// Takes the texts that wait for a session and sends them. Answers whether the program has ended.
///
/// # Errors
///
/// How the session ended, if it did: it was gone, or a send failed.
fn hand_out<H: Hosted<B>, B, D: Bell, L: Link, R: Wait>(
    rt: &R,
    lock: &Lock<H, B>,
    bell: &D,
    p: &mut Worker<H, B>,
    link: &mut L,
    session: u64,
) -> Result<bool, Served>
    requires lock { p.old.lock ≡ lock.now }
    requires free { p.old.in_turn ≡ false }
    requires session { Owns p.old.number session p.old.seen }
    ensures hands { HandsOut H.debugs session p.old p.new (record { answers = L.answers link.old; sent = L.sent link.old }) (record { answers = L.answers link.new; sent = L.sent link.new }) result }
    ensures closed { L.closed link.new ≡ L.closed link.old }
    ensures count { L.faults link.old ≤ L.faults link.new }
    ensures fault { IfErr result (λ end. end ≡ Served.Fault → Rose (L.faults link.old) (L.faults link.new)) }
{
    match take(rt, lock, bell, p, session) {
        Ok(Ok(taken)) => send_taken(rt, lock, bell, p, link, session, taken),
        Ok(Err(gone)) => Err(end_of(gone)),
        Err(Spent { ticket }) => Err(Served::Spent { ticket }),
    }
}

/// Tells a session a text, and sends what waits for it then.
fn answer<H: Hosted<B>, B, D: Bell, L: Link, R: Wait>(
    rt: &R,
    lock: &Lock<H, B>,
    bell: &D,
    p: &mut Worker<H, B>,
    link: &mut L,
    session: u64,
    text: String,
) -> Option<Served>
    requires lock { p.old.lock ≡ lock.now }
    requires free { p.old.in_turn ≡ false }
    requires session { Owns p.old.number session p.old.seen }
    ensures answers { Answers H.debugs session p.old p.new (string_bytes text) (record { answers = L.answers link.old; sent = L.sent link.old }) (record { answers = L.answers link.new; sent = L.sent link.new }) result }
    ensures closed { L.closed link.new ≡ L.closed link.old }
    ensures count { L.faults link.old ≤ L.faults link.new }
    ensures fault { IfSome result (λ end. end ≡ Served.Fault → Rose (L.faults link.old) (L.faults link.new)) }
{
    match tell_and_take(rt, lock, bell, p, session, text) {
        Ok(Answered::Taken(taken)) => {
            match send_taken(rt, lock, bell, p, link, session, taken) {
                Ok(_) => None,
                Err(end) => Some(end),
            }
        }
        Ok(Answered::Overrun) => Some(Served::Overrun),
        Ok(Answered::Memory) => Some(Served::Memory),
        Ok(Answered::Gone(gone)) => Some(end_of(gone)),
        Ok(Answered::GoneAfter(gone)) => Some(end_of(gone)),
        Ok(Answered::SpentAfter(Spent { ticket })) => Some(Served::Spent { ticket }),
        Err(Spent { ticket }) => Some(Served::Spent { ticket }),
    }
}

/// Sends what waits for a session that is told nothing. It ends where the program has ended.
fn wait<H: Hosted<B>, B, D: Bell, L: Link, R: Wait>(
    rt: &R,
    lock: &Lock<H, B>,
    bell: &D,
    p: &mut Worker<H, B>,
    link: &mut L,
    session: u64,
) -> Option<Served>
    requires lock { p.old.lock ≡ lock.now }
    requires free { p.old.in_turn ≡ false }
    requires session { Owns p.old.number session p.old.seen }
    ensures waits { Waits H.debugs session p.old p.new (record { answers = L.answers link.old; sent = L.sent link.old }) (record { answers = L.answers link.new; sent = L.sent link.new }) result }
    ensures closed { L.closed link.new ≡ L.closed link.old }
    ensures count { L.faults link.old ≤ L.faults link.new }
    ensures fault { IfSome result (λ end. end ≡ Served.Fault → Rose (L.faults link.old) (L.faults link.new)) }
{
    match hand_out(rt, lock, bell, p, link, session) {
        Ok(false) => None,
        Ok(true) => Some(leave(rt, lock, bell, p, session, Served::Over)),
        Err(end) => Some(end),
    }
}

/// Hears one answer of a session's link.
fn hear<H: Hosted<B>, B, D: Bell, L: Link, R: Wait>(
    rt: &R,
    lock: &Lock<H, B>,
    bell: &D,
    p: &mut Worker<H, B>,
    link: &mut L,
    session: u64,
) -> Option<Served>
    requires lock { p.old.lock ≡ lock.now }
    requires free { p.old.in_turn ≡ false }
    requires session { Owns p.old.number session p.old.seen }
    ensures hears { Hears H.debugs session p.old p.new (record { answers = L.answers link.old; sent = L.sent link.old }) (record { answers = L.answers link.new; sent = L.sent link.new }) result }
    ensures closed { L.closed link.new ≡ L.closed link.old }
    ensures count { L.faults link.old ≤ L.faults link.new }
    ensures fault { IfSome result (λ end. end ≡ Served.Fault → Rose (L.faults link.old) (L.faults link.new)) }
{
    match link.recv() {
        Recv::Text(text) => answer(rt, lock, bell, p, link, session, text),
        Recv::Quiet => wait(rt, lock, bell, p, link, session),
        Recv::Closed => Some(leave(rt, lock, bell, p, session, Served::Closed)),
        Recv::Binary => Some(leave(rt, lock, bell, p, session, Served::Binary)),
        Recv::TooBig => Some(leave(rt, lock, bell, p, session, Served::TooBig)),
        Recv::Failed => Some(leave(rt, lock, bell, p, session, Served::Fault)),
        Recv::Memory => Some(leave(rt, lock, bell, p, session, Served::Memory)),
    }
}

/// Serves a session that is attached, to its end.
fn serve_attached<H: Hosted<B>, B, D: Bell, L: Link, R: Wait>(
    rt: &R,
    lock: &Lock<H, B>,
    bell: &D,
    p: &mut Worker<H, B>,
    link: &mut L,
    session: u64,
) -> Served
    requires lock { p.old.lock ≡ lock.now }
    requires free { p.old.in_turn ≡ false }
    requires session { Owns p.old.number session p.old.seen }
    ensures hears { Hears H.debugs session p.old p.new (record { answers = L.answers link.old; sent = L.sent link.old }) (record { answers = L.answers link.new; sent = L.sent link.new }) (Some result) }
    ensures closed { L.closed link.new ≡ L.closed link.old }
    ensures count { L.faults link.old ≤ L.faults link.new }
    ensures fault { result ≡ Served.Fault → Rose (L.faults link.old) (L.faults link.new) }
{
    for _ in rt.forever() {
        if let Some(end) = hear(rt, lock, bell, p, link, session) {
            return end;
        }
    }
    unreachable!()
}

/// Serves a link that arrived: attaches a session, and serves it to its end.
fn serve<H: Hosted<B>, B, D: Bell, L: Link, R: Wait>(
    rt: &R,
    lock: &Lock<H, B>,
    bell: &D,
    p: &mut Worker<H, B>,
    link: &mut L,
) -> Served
    requires lock { p.old.lock ≡ lock.now }
    requires free { p.old.in_turn ≡ false }
    ensures serves { IsServed H.debugs p.old p.new (record { answers = L.answers link.old; sent = L.sent link.old }) (record { answers = L.answers link.new; sent = L.sent link.new }) result }
    ensures closed { L.closed link.new ≡ L.closed link.old }
    ensures count { L.faults link.old ≤ L.faults link.new }
    ensures fault { result ≡ Served.Fault → Rose (L.faults link.old) (L.faults link.new) }
{
    match attach(rt, lock, p) {
        Ok(Attached::Session(session)) => serve_attached(rt, lock, bell, p, link, session),
        Ok(Attached::Shut) => Served::Shut,
        Ok(Attached::Memory) => Served::Memory,
        Err(Spent { ticket }) => Served::Spent { ticket },
    }
}

/// Serves a link from its arrival to its close, by one session. Each text that arrives is told to the session, and what
/// waits for it is sent, also where nothing arrives. The link is closed with the code of the end.
pub fn serve_session<H: Hosted<B>, B, D: Bell, L: Link, R: Wait>(
    rt: &R,
    lock: &Lock<H, B>,
    bell: &D,
    p: &mut Worker<H, B>,
    link: &mut L,
) -> Served
    requires lock { p.old.lock ≡ lock.now }
    requires free { p.old.in_turn ≡ false }
    // Which entries the session left, and that its link was sent exactly what it would be sent with no other session there.
    ensures serves { IsServed H.debugs p.old p.new (record { answers = L.answers link.old; sent = L.sent link.old }) (record { answers = L.answers link.new; sent = L.sent link.new }) result }
    ensures closes { IsClosedBy result (L.closed link.old) (L.closed link.new) }
    ensures count { L.faults link.old ≤ L.faults link.new }
    ensures fault { result ≡ Served.Fault → Rose (L.faults link.old) (L.faults link.new) }
{
    let end = serve(rt, lock, bell, p, link);
    if let Some(code) = code_of(end) {
        // a peer that can't be told is gone all the same
        let _ = link.close(code);
    }
    end
}
