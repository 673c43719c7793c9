//! What a journal's line does to the host.

ghost use Rattle.std.specs.Prelude.{◌≡◌, ◌<◌, ◌^◌, ℕ, List, [], Bool, false, true, IfOk, OnOk, map, string_bytes};
ghost use Rattle.std.specs.Option.{option_map};
ghost use Rattle.cdp_host_isolation.specs.Histories.{Entry};
ghost use Rattle.cdp_host_isolation.specs.Seats.{is_attached, seat_of};
ghost use Rattle.cdp_host_isolation.specs.Standing.{fell};
ghost use Rattle.js_tree.specs.declared.script.Script.{Script};
ghost use Rattle.cdp_host_seats.specs.Losses.{is_for_memory};
ghost use Rattle.cdp_host.specs.Histories.{whole};
ghost use Rattle.cdp_host.specs.Hosts.{StandsFor};
ghost use Rattle.cdp_host_turns.specs.Entries.{lost_for_memory};
ghost use Rattle.cdp_journal.specs.Lines.{Attach, Tell, Take, Detach, Run, Shut, IsInForm};
ghost use Rattle.debug_host_commands.specs.Journal.{entry_at, is_there};
ghost use Rattle.cdp_journal.specs.LineRead.{line_held};
ghost use Rattle.debug_host_commands.specs.Played.{Acts};

use crate::output::{
    attached_line, overrun_line, printed_lines, push_overruns, ran_line, sent_lines,
};
use cdp_host::{Host, SessionLost, Told};
use cdp_host_isolation::Loss;
use cdp_journal::Line;
use std::alloc::{AllocError, Global};

/// Does what a line asks for, and answers the lines of output; None, and nothing is done, where the line is refused.
///
/// # Errors
///
/// There is no memory, or a session was lost for want of it.
pub(crate) fn act(
    alloc: Global,
    host: &mut Host,
    line: Line,
) -> Result<Option<Vec<String>>, AllocError>
    requires works { host.old.broken ≡ false }
    requires form { IsInForm (line_held line) }
    ensures works { OnOk result (host.new.broken ≡ false) }
    ensures acts { IfOk result (λ lines. (scripts : List Script) (input : List (List ℕ)) (wait : Bool) (history : List Entry) → StandsFor scripts input wait host.old history
        → Acts scripts input wait history (entry_at scripts (whole scripts input wait history) (line_held line)) (option_map (λ all. map string_bytes all.items) lines) host.new) }
{
    match line {
        Line::Attach => attach(alloc, host),
        Line::Tell(session, text) => tell(alloc, host, session, &text),
        Line::Take(session) => take(alloc, host, session),
        Line::Detach(session) => detach(alloc, host, session),
        Line::Run(most, moment) => run_program(alloc, host, most, moment),
        Line::Shut => shut(alloc, host),
    }
}

/// Where the session is that a line names.
#[derive(Clone, Copy)]
enum Presence {
    /// It is attached.
    Attached,
    /// It isn't attached: the line is refused.
    Absent,
    /// It was lost for want of memory, and no run has told of that: for the history it is still attached.
    Fallen,
}

/// Where a session is, for the host and for the history for which it stands.
fn presence_of(host: &Host, session: u64) -> Presence
    requires { host.now.broken ≡ false }
    ensures held { result ≡ Presence.Attached → is_attached (seat_of session host.now.meaning.seats) ≡ true }
    ensures attached { result ≡ Presence.Attached → (scripts : List Script) (input : List (List ℕ)) (wait : Bool) (history : List Entry) → StandsFor scripts input wait host.now history
        → is_there (whole scripts input wait history) session ≡ true }
    ensures absent { result ≡ Presence.Absent → (scripts : List Script) (input : List (List ℕ)) (wait : Bool) (history : List Entry) → StandsFor scripts input wait host.now history
        → is_there (whole scripts input wait history) session ≡ false }
    ensures fallen { result ≡ Presence.Fallen → fell (seat_of session host.now.meaning.seats) ≡ true }
{
    if host.attached(session) {
        Presence::Attached
    } else if host.fell(session) {
        Presence::Fallen
    } else {
        Presence::Absent
    }
}

/// Attaches a session.
fn attach(alloc: Global, host: &mut Host) -> Result<Option<Vec<String>>, AllocError>
    requires { host.old.broken ≡ false }
    ensures works { OnOk result (host.new.broken ≡ false) }
    ensures acts { IfOk result (λ lines. (scripts : List Script) (input : List (List ℕ)) (wait : Bool) (history : List Entry) → StandsFor scripts input wait host.old history
        → Acts scripts input wait history (entry_at scripts (whole scripts input wait history) Attach) (option_map (λ all. map string_bytes all.items) lines) host.new) }
{
    let session = host.attach()?;
    let line = attached_line(alloc, session)?;
    Ok(Some(vec![in alloc; line]?))
}

/// Tells a session a text.
fn tell(
    alloc: Global,
    host: &mut Host,
    session: u64,
    text: &str,
) -> Result<Option<Vec<String>>, AllocError>
    requires { host.old.broken ≡ false }
    ensures works { OnOk result (host.new.broken ≡ false) }
    ensures acts { IfOk result (λ lines. (scripts : List Script) (input : List (List ℕ)) (wait : Bool) (history : List Entry) → StandsFor scripts input wait host.old history
        → Acts scripts input wait history (entry_at scripts (whole scripts input wait history) (Tell session text.now)) (option_map (λ all. map string_bytes all.items) lines) host.new) }
{
    match presence_of(host, session) {
        Presence::Attached => match host.tell(session, text) {
            Told::Kept => Ok(Some(Vec::new(alloc))),
            Told::Overrun => {
                let line = overrun_line(alloc, session)?;
                Ok(Some(vec![in alloc; line]?))
            }
            Told::Memory => Err(AllocError),
        },
        Presence::Absent => Ok(None),
        Presence::Fallen => Err(AllocError),
    }
}

/// Takes a session's texts.
fn take(alloc: Global, host: &mut Host, session: u64) -> Result<Option<Vec<String>>, AllocError>
    requires { host.old.broken ≡ false }
    ensures works { OnOk result (host.new.broken ≡ false) }
    ensures acts { IfOk result (λ lines. (scripts : List Script) (input : List (List ℕ)) (wait : Bool) (history : List Entry) → StandsFor scripts input wait host.old history
        → Acts scripts input wait history (entry_at scripts (whole scripts input wait history) (Take session)) (option_map (λ all. map string_bytes all.items) lines) host.new) }
{
    match presence_of(host, session) {
        Presence::Attached => {
            let texts = host.take(session);
            Ok(Some(sent_lines(alloc, session, &texts)?))
        }
        Presence::Absent => Ok(None),
        Presence::Fallen => Err(AllocError),
    }
}

/// Detaches a session.
fn detach(alloc: Global, host: &mut Host, session: u64) -> Result<Option<Vec<String>>, AllocError>
    requires { host.old.broken ≡ false }
    ensures works { OnOk result (host.new.broken ≡ false) }
    ensures acts { IfOk result (λ lines. (scripts : List Script) (input : List (List ℕ)) (wait : Bool) (history : List Entry) → StandsFor scripts input wait host.old history
        → Acts scripts input wait history (entry_at scripts (whole scripts input wait history) (Detach session)) (option_map (λ all. map string_bytes all.items) lines) host.new) }
{
    match presence_of(host, session) {
        Presence::Attached => {
            host.detach(session);
            Ok(Some(Vec::new(alloc)))
        }
        Presence::Absent => Ok(None),
        Presence::Fallen => Err(AllocError),
    }
}

/// Whether one of these sessions was lost for want of memory.
fn some_for_memory(losses: &[SessionLost]) -> bool
    ensures { result ≡ false → lost_for_memory losses.now ≡ [] }
{
    for lost in losses {
        if is_for_memory(lost.loss) {
            return true;
        }
    }
    false
}

/// Whether a loss is for want of memory.
fn is_for_memory(loss: Loss) -> bool
    ensures { result ≡ is_for_memory loss }
{
    match loss {
        Loss::Overrun => false,
        Loss::Memory => true,
    }
}

/// Runs the program at a moment.
fn run_program(
    alloc: Global,
    host: &mut Host,
    most: u64,
    moment: u64,
) -> Result<Option<Vec<String>>, AllocError>
    requires works { host.old.broken ≡ false }
    requires moment { moment < 2 ^ 53 }
    ensures works { OnOk result (host.new.broken ≡ false) }
    ensures acts { IfOk result (λ lines. (scripts : List Script) (input : List (List ℕ)) (wait : Bool) (history : List Entry) → StandsFor scripts input wait host.old history
        → Acts scripts input wait history (entry_at scripts (whole scripts input wait history) (Run most moment)) (option_map (λ all. map string_bytes all.items) lines) host.new) }
{
    let ran = host.run(most, moment)?;
    if some_for_memory(&ran.lost) {
        return Err(AllocError);
    }
    let mut lines = printed_lines(alloc, &ran.printed)?;
    push_overruns(alloc, &mut lines, &ran.lost)?;
    let steps = ran.steps;
    lines.push(ran_line(alloc, steps, host.state())?)?;
    Ok(Some(lines))
}

/// Shuts the program.
fn shut(alloc: Global, host: &mut Host) -> Result<Option<Vec<String>>, AllocError>
    requires { host.old.broken ≡ false }
    ensures works { OnOk result (host.new.broken ≡ false) }
    ensures acts { IfOk result (λ lines. (scripts : List Script) (input : List (List ℕ)) (wait : Bool) (history : List Entry) → StandsFor scripts input wait host.old history
        → Acts scripts input wait history (entry_at scripts (whole scripts input wait history) Shut) (option_map (λ all. map string_bytes all.items) lines) host.new) }
{
    host.shut();
    Ok(Some(Vec::new(alloc)))
}
