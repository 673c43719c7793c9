//! The command `serve`, from its files to its end.

ghost use Rattle.std.specs.Prelude.{◌≡◌, ◌⊎◌, ◌+◌, ◌<◌, ◌≤◌, [], length, IfOk, OnErr, false};
ghost use Rattle.cdp_host_isolation.specs.Makers.{entries_of};
ghost use Rattle.cdp_edge.specs.Outside.{Given, HandsIn};
ghost use Rattle.history_lock.specs.Histories.{IsSpent};
ghost use Rattle.history_lock.specs.Passes.{initial_pass, initial_passes};
ghost use Rattle.cdp_edge_server.specs.Contents.{called};
ghost use Rattle.cdp_host.specs.Debugged.{debugging};
ghost use Rattle.cdp_host.specs.Histories.{whole};
ghost use Rattle.cdp_host.specs.Hosts.{StandsFor};
ghost use Rattle.ws_service.specs.Joins.{AnswersForAll};
ghost use Rattle.debug_host_options.specs.Held.{serve_held, text_held};
ghost use Rattle.debug_host_commands.specs.RunCauses.{IsUnbegun};
ghost use Rattle.cdp_host_record.specs.Recordings.{RecordsIf};
ghost use Rattle.debug_host_commands.specs.Stored.{HasStored};
ghost use Rattle.debug_host_commands.specs.ServeCauses.{BecauseServe, BecauseStored, IsUnserved, MayServe, ServesNothing, ServesStored, ShowsThrow, clients_of, or_doors, outcome_of_serving, thrown_end, unopened};

use crate::explaining::Remains;
use crate::outcome::CommandEnd;
use crate::sources::{Program, read_sources};
use crate::storing::{Storing, after_storing, record_if, spent_if, store_journal};
use crate::throwing::{copy_if, note_throw};
use cdp_edge::{Shelf, Sink};
use cdp_edge_server::{Clock, Door, Harbor, HarborFault};
use cdp_host::{Beginning, Host};
use cdp_host_record::Recorded;
use cdp_host_turns::{Entry, Hosted, Lock, Worker};
use cdp_text::units::Units;
use debug_host_options::ServeWords;
use history_lock::{HistoryLock, Spent};
use js_tree::script::Script;
use std::alloc::{AllocError, Global};
use std::collections::VecDeque;
use std::marker::Brand;
use std::sync::Wait;
use std::thread::Threads;
use ws_service::{Clients, DoorsEnd, Ends, RunEnd, serve_port};

/// The end that the doors decide, or else this one.
fn or_doors(end: Option<CommandEnd<'static>>, doors: DoorsEnd) -> Option<CommandEnd<'static>>
    ensures { result ≡ or_doors end.entry doors }
{
    match doors {
        DoorsEnd::Over => end,
        DoorsEnd::Failed => Some(CommandEnd::NetworkFault),
        DoorsEnd::Spent => Some(CommandEnd::TicketsSpent),
    }
}

/// The end that the program and the doors decide; none where the program ended by a throw, whose value is to be shown.
fn outcome_of_serving(run: RunEnd, doors: DoorsEnd) -> Option<CommandEnd<'static>>
    ensures { result ≡ outcome_of_serving run doors }
{
    match run {
        RunEnd::Broken | RunEnd::Memory { .. } => Some(CommandEnd::OutOfMemory),
        RunEnd::WriteFault { .. } => Some(CommandEnd::CannotWrite),
        RunEnd::Shut => Some(CommandEnd::NetworkFault),
        RunEnd::Spent { .. } => or_doors(Some(CommandEnd::TicketsSpent), doors),
        RunEnd::Ended => or_doors(Some(CommandEnd::Done), doors),
        RunEnd::Threw => or_doors(None, doors),
    }
}

/// The lock of a host's history, the pass of its program, and one for each door.
#[derive(Drop)]
struct Opened<'p, B: Beginning> {
    lock: Lock<Recorded<Host<'p>>, B>,
    pass: Worker<Recorded<Host<'p>>, B>,
    doors: Vec<Worker<Recorded<Host<'p>>, B>>,
}

/// A lock over a host that has just started, with its passes.
fn open_lock<'p, B: Beginning>(
    alloc: Global,
    host: Recorded<Host<'p>>,
    sessions: usize,
) -> Result<Opened<'p, B>, AllocError>
    requires sessions { sessions ≤ 16 }
    requires stands { StandsFor B.scripts B.input B.wait host.host [] }
    requires journal { RecordsIf (debugging B.scripts B.input B.wait) [] host.journal }
    ensures pass { IfOk result (λ o. o.pass ≡ initial_pass o.lock (sessions + 1) sessions) }
    ensures doors { IfOk result (λ o. o.doors.items ≡ initial_passes o.lock (sessions + 1) sessions) }
{
    let (lock, mut doors) = HistoryLock::new(alloc, host, sessions + 1)?;
    let Some(pass) = doors.pop() else {
        return Err(AllocError);
    };
    Ok(Opened { lock, pass, doors })
}

/// How a program ended that threw, by the text of the value.
fn thrown_end(text: Result<Option<String>, AllocError>) -> CommandEnd<'static>
    ensures { result ≡ thrown_end text }
{
    match text {
        Ok(Some(text)) => CommandEnd::Threw(text),
        Ok(None) | Err(AllocError) => CommandEnd::ThrewUnshown,
    }
}

/// The last turn of all: the host is asked for the text of the value whose throw ended its program, if one did, and its
/// journal is stored under this name, if there is one.
///
/// # Errors
///
/// No ticket is left for a turn; nothing was stored.
#[tactic(auto, using(crate::proofs::ServeLemmas::refused_all))]
fn take_last_turn<'p, 'w, B: Beginning, R: Wait, F: Shelf>(
    rt: &R,
    lock: &Lock<Recorded<Host<'p>>, B>,
    p: &mut Worker<Recorded<Host<'p>>, B>,
    journal: Option<&'w str>,
    shelf: &mut F,
) -> Result<(CommandEnd<'static>, Storing<'w>), Spent>
    requires lock { p.old.lock ≡ lock.now }
    requires free { p.old.in_turn ≡ false }
    requires all { AnswersForAll p.old }
    ensures shows { IfOk result (λ shown. ShowsThrow shown.0
        (whole B.scripts B.input B.wait (entries_of p.old.seen)).program p.old.seen) }
    ensures stores { IfOk result (λ shown. HasStored shown.1 (debugging B.scripts B.input B.wait) p.old.seen
        (text_held journal.entry) (record { files = F.stored shelf.old; faults = F.faults shelf.old })
        (record { files = F.stored shelf.new; faults = F.faults shelf.new })) }
    ensures spent { OnErr result (IsSpent p.old.seen) }
    ensures untouched { OnErr result (shelf.new ≡ shelf.old) }
    ensures handed { F.handed shelf.new ≡ F.handed shelf.old }
{
    let mut turn = lock.enter(rt, p)?;
    let recorded = turn.state();
    <Recorded<Host<'p>> as Hosted<B>>::state(recorded);
    let text = recorded.host().uncaught_text();
    let storing = store_journal::<Host<'p>, B, F>(recorded, journal, shelf);
    lock.leave(p, turn, &Entry::take(0));
    Ok((thrown_end(text), storing))
}

/// How a program that ended by a throw is shown, and what became of its journal. Both are told by a last turn; where no
/// ticket is left for that, the end says so.
fn last_turn<'p, 'w, B: Beginning, R: Wait, F: Shelf>(
    rt: &R,
    lock: &Lock<Recorded<Host<'p>>, B>,
    p: &mut Worker<Recorded<Host<'p>>, B>,
    journal: Option<&'w str>,
    shelf: &mut F,
) -> (CommandEnd<'static>, Storing<'w>)
    requires lock { p.old.lock ≡ lock.now }
    requires free { p.old.in_turn ≡ false }
    requires all { AnswersForAll p.old }
    ensures shows { ShowsThrow result.0 (whole B.scripts B.input B.wait (entries_of p.old.seen)).program p.old.seen }
    ensures stores { HasStored result.1 (debugging B.scripts B.input B.wait) p.old.seen (text_held journal.entry) (record { files = F.stored shelf.old; faults = F.faults shelf.old }) (record { files = F.stored shelf.new; faults = F.faults shelf.new }) }
    ensures handed { F.handed shelf.new ≡ F.handed shelf.old }
{
    match take_last_turn(rt, lock, p, journal, shelf) {
        Ok(shown) => shown,
        Err(Spent { .. }) => (CommandEnd::TicketsSpent, spent_if(journal)),
    }
}

/// Stores the journal of a host by a last turn, if there is a name.
fn store_last<'p, 'w, B: Beginning, R: Wait, F: Shelf>(
    rt: &R,
    lock: &Lock<Recorded<Host<'p>>, B>,
    p: &mut Worker<Recorded<Host<'p>>, B>,
    journal: Option<&'w str>,
    shelf: &mut F,
) -> Storing<'w>
    requires lock { p.old.lock ≡ lock.now }
    requires free { p.old.in_turn ≡ false }
    requires all { AnswersForAll p.old }
    ensures stores { HasStored result (debugging B.scripts B.input B.wait) p.old.seen (text_held journal.entry) (record { files = F.stored shelf.old; faults = F.faults shelf.old }) (record { files = F.stored shelf.new; faults = F.faults shelf.new }) }
    ensures handed { F.handed shelf.new ≡ F.handed shelf.old }
{
    match journal {
        None => Storing::Done,
        Some(_) => last_turn(rt, lock, p, journal, shelf).1,
    }
}

/// The clients that are let in where DevTools is asked for, or isn't.
fn clients_of(devtools: bool) -> Clients
    ensures { result ≡ clients_of devtools }
{
    if devtools {
        Clients::Devtools
    } else {
        Clients::Plain
    }
}

/// The end of a port whose doors weren't opened.
fn unopened(fault: HarborFault) -> CommandEnd<'static>
    ensures is { result ≡ unopened fault }
    ensures unserved { IsUnserved result }
{
    match fault {
        HarborFault::Failed => CommandEnd::NetworkFault,
        HarborFault::Memory => CommandEnd::OutOfMemory,
    }
}

/// Serves the program of a host on a port, by the passes of its lock, and stores its journal under this name, if there
/// is one.
#[tactic(auto, using(crate::proofs::StoredLemmas::unstored))]
fn serve_host<
    'p,
    'w,
    B: Beginning + Send + Sync,
    R: Threads + Wait + Sync,
    F: Shelf,
    O: Sink + Send,
    P: Harbor,
    C: Clock + Send,
>(
    rt: &R,
    alloc: Global,
    opened: Opened<'p, B>,
    clients: Clients,
    port: u16,
    journal: Option<&'w str>,
    shelf: &mut F,
    out: &mut O,
    harbor: &mut P,
    clock: &mut C,
) -> CommandEnd<'w>
where
    P::Bell: Sync,
    P::Door: Send,
    <P::Door as Door>::Link: Send,
    requires some { 0 < length opened.doors.items }
    requires pass { opened.pass ≡ initial_pass opened.lock (length opened.doors.items + 1) (length opened.doors.items) }
    requires doors { opened.doors.items ≡ initial_passes opened.lock (length opened.doors.items + 1) (length opened.doors.items) }
    ensures cause { BecauseStored result (text_held journal.entry) (F.faults shelf.old) (F.faults shelf.new) B.scripts B.input port (length opened.entry.doors.items) (record { content = O.content out.old; faults = O.faults out.old }) (record { content = O.content out.new; faults = O.faults out.new }) (record { faults = P.faults harbor.old; opens = P.opens harbor.old; kept = P.kept harbor.old }) (record { faults = P.faults harbor.new; opens = P.opens harbor.new; kept = P.kept harbor.new }) }
    ensures part { ServesNothing result (record { content = O.content out.old; faults = O.faults out.old }) (record { content = O.content out.new; faults = O.faults out.new }) (record { files = F.stored shelf.old; faults = F.faults shelf.old }) (record { files = F.stored shelf.new; faults = F.faults shelf.new }) ⊎ ServesStored B.scripts B.input B.wait (length opened.entry.doors.items) clients (text_held journal.entry) (C.moment clock.old) (record { content = O.content out.old; faults = O.faults out.old }) (record { content = O.content out.new; faults = O.faults out.new }) (P.kept harbor.old) (P.kept harbor.new) (record { files = F.stored shelf.old; faults = F.faults shelf.old }) (record { files = F.stored shelf.new; faults = F.faults shelf.new }) result }
    ensures handed { F.handed shelf.new ≡ F.handed shelf.old }
    ensures once { (P.opens harbor.new ≡ P.opens harbor.old) ⊎ (P.opens harbor.new ≡ called (port, length opened.entry.doors.items) (P.opens harbor.old)) }
    ensures dials { P.dials harbor.new ≡ P.dials harbor.old }
{
    let Opened { lock, pass, doors } = opened;
    match serve_port(
        rt, alloc, &lock, pass, doors, harbor, port, out, clock, clients,
    ) {
        Ok((Ends { run, doors }, mut pass)) => match outcome_of_serving(run, doors) {
            Some(end) => after_storing(end, store_last(rt, &lock, &mut pass, journal, shelf)),
            None => {
                let (end, storing) = last_turn(rt, &lock, &mut pass, journal, shelf);
                after_storing(end, storing)
            }
        },
        Err(fault) => unopened(fault),
    }
}

/// Serves the program of these scripts, with these lines of input, on a port, and stores its journal under this name,
/// if there is one.
#[tactic(auto, using(crate::proofs::StoredLemmas::unstored))]
fn serve_program<
    'w,
    B: Beginning + Send + Sync,
    R: Threads + Wait + Sync,
    F: Shelf,
    O: Sink + Send,
    P: Harbor,
    C: Clock + Send,
>(
    rt: &R,
    alloc: Global,
    scripts: &[Script],
    input: VecDeque<Units>,
    wait: bool,
    clients: Clients,
    port: u16,
    sessions: usize,
    journal: Option<&'w str>,
    shelf: &mut F,
    out: &mut O,
    harbor: &mut P,
    clock: &mut C,
) -> CommandEnd<'w>
where
    P::Bell: Sync,
    P::Door: Send,
    <P::Door as Door>::Link: Send,
    requires scripts { B.scripts ≡ scripts.now }
    requires input { B.input ≡ input.items }
    requires wait { B.wait ≡ wait }
    requires sessions { (1 ≤ sessions) × (sessions ≤ 16) }
    ensures cause { BecauseStored result (text_held journal.entry) (F.faults shelf.old) (F.faults shelf.new) scripts.now input.items port sessions (record { content = O.content out.old; faults = O.faults out.old }) (record { content = O.content out.new; faults = O.faults out.new }) (record { faults = P.faults harbor.old; opens = P.opens harbor.old; kept = P.kept harbor.old }) (record { faults = P.faults harbor.new; opens = P.opens harbor.new; kept = P.kept harbor.new }) }
    ensures part { ServesNothing result (record { content = O.content out.old; faults = O.faults out.old }) (record { content = O.content out.new; faults = O.faults out.new }) (record { files = F.stored shelf.old; faults = F.faults shelf.old }) (record { files = F.stored shelf.new; faults = F.faults shelf.new }) ⊎ ServesStored scripts.now input.items wait sessions clients (text_held journal.entry) (C.moment clock.old) (record { content = O.content out.old; faults = O.faults out.old }) (record { content = O.content out.new; faults = O.faults out.new }) (P.kept harbor.old) (P.kept harbor.new) (record { files = F.stored shelf.old; faults = F.faults shelf.old }) (record { files = F.stored shelf.new; faults = F.faults shelf.new }) result }
    ensures handed { F.handed shelf.new ≡ F.handed shelf.old }
    ensures once { (P.opens harbor.new ≡ P.opens harbor.old) ⊎ (P.opens harbor.new ≡ called (port, sessions) (P.opens harbor.old)) }
    ensures dials { P.dials harbor.new ≡ P.dials harbor.old }
{
    let Ok(host) = Host::start(alloc, scripts, input, wait) else {
        return CommandEnd::OutOfMemory;
    };
    let Ok(record) = record_if(alloc, journal) else {
        return CommandEnd::OutOfMemory;
    };
    let Ok(opened) = open_lock::<B>(alloc, Recorded::new(host, record), sessions) else {
        return CommandEnd::OutOfMemory;
    };
    serve_host(
        rt, alloc, opened, clients, port, journal, shelf, out, harbor, clock,
    )
}

/// Serves the scripts of these names to clients: the input is read first, then the scripts in order, then the doors are
/// opened. Where all is over the journal is stored, if one is asked for. A program that never ends prints as it goes, and
/// the call doesn't return.
#[tactic(auto, using(crate::proofs::ServeLemmas::unread, crate::proofs::ServeLemmas::unserved_part))]
pub(crate) fn serve<
    'w,
    R: Threads + Wait + Sync,
    F: Shelf,
    O: Sink + Send,
    P: Harbor,
    C: Clock + Send,
>(
    rt: &R,
    alloc: Global,
    request: &ServeWords<'w>,
    shelf: &mut F,
    out: &mut O,
    harbor: &mut P,
    clock: &mut C,
    remains: &mut Remains,
) -> CommandEnd<'w>
where
    P::Bell: Sync,
    P::Door: Send,
    <P::Door as Door>::Link: Send,
    ensures cause { BecauseServe result (serve_held request.now) (HandsIn (F.files shelf.old) (F.handed shelf.old) (F.handed shelf.new)) (F.faults shelf.old) (F.faults shelf.new) (record { content = O.content out.old; faults = O.faults out.old }) (record { content = O.content out.new; faults = O.faults out.new }) (record { faults = P.faults harbor.old; opens = P.opens harbor.old; kept = P.kept harbor.old }) (record { faults = P.faults harbor.new; opens = P.opens harbor.new; kept = P.kept harbor.new }) }
    ensures part { Given (HandsIn (F.files shelf.old) (F.handed shelf.old) (F.handed shelf.new)) (λ given. MayServe given (serve_held request.now) (C.moment clock.old) (record { content = O.content out.old; faults = O.faults out.old }) (record { content = O.content out.new; faults = O.faults out.new }) (P.kept harbor.old) (P.kept harbor.new) (record { files = F.stored shelf.old; faults = F.faults shelf.old }) (record { files = F.stored shelf.new; faults = F.faults shelf.new }) result) }
    ensures unbegun { IsUnbegun result → out.new ≡ out.old }
    ensures once { (P.opens harbor.new ≡ P.opens harbor.old) ⊎ (P.opens harbor.new ≡ called ((serve_held request.now).port, (serve_held request.now).sessions) (P.opens harbor.old)) }
    ensures dials { P.dials harbor.new ≡ P.dials harbor.old }
{
    match read_sources(alloc, &request.sources, shelf, &mut remains.evidence) {
        Ok(Program { scripts, input }) => {
            let kept = copy_if(alloc, request.explain, &input);
            let end = serve_program::<Brand, R, F, O, P, C>(
                rt,
                alloc,
                &scripts,
                input,
                request.wait,
                clients_of(request.devtools),
                request.port,
                request.sessions.count,
                request.journal,
                shelf,
                out,
                harbor,
                clock,
            );
            note_throw(alloc, &end, &scripts, kept, remains);
            end
        }
        Err(end) => end,
    }
}
