//! What a command says of its end.

ghost use Rattle.std.specs.Prelude.{◌≡◌, ◌≢◌, [], true, Bool, IfOk, string_bytes};
ghost use Rattle.cdp_edge.specs.Outside.{GainsPrefix, gains};
ghost use Rattle.debug_host_commands.specs.Status.{Says, closed_said, line_said, refusal_said, said, status_of, uncaught_said, unread_said, unstored_said};
ghost use Rattle.debug_host_script_files.specs.declared.fault.TextFault.TheVariants.{UnexpectedToken, TooLong};

use crate::explaining::{Remains, Task, lines_of};
use crate::outcome::CommandEnd;
use cdp_edge::{Sink, put};
use cdp_text::position::Pos;
use debug_host_script_files::TextFault;
use std::alloc::{AllocError, Global};

/// The exit status of an end.
fn status_of(outcome: &CommandEnd<'_>) -> u8
    ensures { result ≡ status_of outcome.now }
{
    match outcome {
        CommandEnd::Done => 0,
        CommandEnd::OutOfMemory => 1,
        CommandEnd::Usage => 2,
        CommandEnd::Refused(_, _) => 3,
        CommandEnd::CannotRead(_) | CommandEnd::CannotStore(_) => 4,
        CommandEnd::CannotWrite => 5,
        CommandEnd::LineRefused(_) => 6,
        CommandEnd::NetworkFault => 7,
        CommandEnd::Threw(_) | CommandEnd::ThrewUnshown => 8,
        CommandEnd::PeerClosed(_) => 9,
        CommandEnd::TicketsSpent => 10,
    }
}

/// Tells of an end on `err`, as far as memory and the sink allow, and answers whether a line was told whole. What they do
/// changes nothing else.
#[tactic(auto, using(crate::proofs::ReplayLemmas::untouched))]
fn report<E: Sink>(alloc: Global, outcome: CommandEnd<'_>, err: &mut E) -> bool
    ensures part { GainsPrefix (E.content err.old) (E.content err.new) (said outcome.entry) }
    ensures whole { result ≡ true → E.content err.new ≡ gains (E.content err.old) (said outcome.entry) }
    ensures some { result ≡ true → said outcome.entry ≢ [] }
{
    match outcome {
        CommandEnd::Done | CommandEnd::ThrewUnshown => false,
        CommandEnd::OutOfMemory => say(err, "debug_host: out of memory\n"),
        CommandEnd::Usage => say(err, "usage: debug_host run/replay/serve/send/drill\n"),
        CommandEnd::CannotWrite => say(err, "debug_host: cannot write\n"),
        CommandEnd::NetworkFault => say(err, "debug_host: network fault\n"),
        CommandEnd::TicketsSpent => say(err, "debug_host: tickets spent\n"),
        CommandEnd::Refused(name, refusal) => match refusal_text(alloc, name, refusal) {
            Ok(text) => say(err, &text),
            Err(AllocError) => false,
        },
        CommandEnd::CannotRead(name) => match unread_text(alloc, name) {
            Ok(text) => say(err, &text),
            Err(AllocError) => false,
        },
        CommandEnd::CannotStore(name) => match unstored_text(alloc, name) {
            Ok(text) => say(err, &text),
            Err(AllocError) => false,
        },
        CommandEnd::LineRefused(number) => match line_text(alloc, number) {
            Ok(text) => say(err, &text),
            Err(AllocError) => false,
        },
        CommandEnd::PeerClosed(replies) => match closed_text(alloc, replies) {
            Ok(text) => say(err, &text),
            Err(AllocError) => false,
        },
        CommandEnd::Threw(value) => match uncaught_text(alloc, &value) {
            Ok(text) => say(err, &text),
            Err(AllocError) => false,
        },
    }
}

/// Offers some lines, and answers whether they were taken whole; it takes no memory of its own.
fn say<E: Sink>(err: &mut E, lines: &str) -> bool
    ensures part { GainsPrefix (E.content err.old) (E.content err.new) lines.now }
    ensures whole { result ≡ true → E.content err.new ≡ gains (E.content err.old) lines.now }
{
    put(err, lines.as_bytes()).is_ok()
}

/// Tells of an end, and answers its status.
#[tactic(auto, using(crate::proofs::ReportLemmas::said))]
pub(crate) fn end<E: Sink>(alloc: Global, outcome: CommandEnd<'_>, err: &mut E) -> u8
    ensures status { result ≡ status_of outcome.entry }
    ensures says { (explains : Bool) → Says explains (E.content err.old) (E.content err.new) (said outcome.entry) }
{
    let status = status_of(&outcome);
    report(alloc, outcome, err);
    status
}

/// Tells of an end, explains it if that is asked for, and answers its status.
pub(crate) fn end_explained<E: Sink>(
    alloc: Global,
    outcome: CommandEnd<'_>,
    explains: bool,
    task: Task<'_>,
    remains: Remains,
    err: &mut E,
) -> u8
    ensures status { result ≡ status_of outcome.entry }
    ensures says { Says explains (E.content err.old) (E.content err.new) (said outcome.entry) }
{
    if !explains {
        return end(alloc, outcome, err);
    }
    let status = status_of(&outcome);
    explain(alloc, outcome, task, remains, err);
    status
}

/// Tells of an end and explains it.
#[tactic(auto, using(crate::proofs::ReportLemmas::said))]
fn explain<E: Sink>(
    alloc: Global,
    outcome: CommandEnd<'_>,
    task: Task<'_>,
    remains: Remains,
    err: &mut E,
)
    ensures { Says true (E.content err.old) (E.content err.new) (said outcome.entry) }
{
    let lines = lines_of(alloc, &outcome, task, remains);
    if report(alloc, outcome, err) {
        if let Ok(lines) = lines {
            say(err, &lines);
        }
    }
}

/// The line of a file that is refused.
fn refusal_text(alloc: Global, name: &str, refusal: TextFault) -> Result<String, AllocError>
    ensures { IfOk result (λ text. string_bytes text ≡ refusal_said name.now refusal) }
{
    match refusal {
        TextFault::NotUtf8 => format!(in alloc; "debug_host: {name}: not UTF-8\n"),
        TextFault::UnexpectedToken(at) => unexpected_text(alloc, name, at),
        TextFault::TooLong(units) => long_text(alloc, name, units),
        TextFault::TooDeep => format!(in alloc; "debug_host: {name}: too deep\n"),
        TextFault::TooManyTokens => format!(in alloc; "debug_host: {name}: too many tokens\n"),
    }
}

/// The line of a token that doesn't go on with a script.
fn unexpected_text(alloc: Global, name: &str, at: Pos) -> Result<String, AllocError>
    ensures { IfOk result (λ text. string_bytes text ≡ refusal_said name.now (UnexpectedToken at)) }
{
    let line = at.line;
    let column = at.col;
    format!(in alloc; "debug_host: {name}:{line}:{column}: unexpected token\n")
}

/// The line of a source of so many code units.
fn long_text(alloc: Global, name: &str, units: usize) -> Result<String, AllocError>
    ensures { IfOk result (λ text. string_bytes text ≡ refusal_said name.now (TooLong units)) }
{
    format!(in alloc; "debug_host: {name}: too long: {units} units\n")
}

/// The line of a file that can't be read.
fn unread_text(alloc: Global, name: &str) -> Result<String, AllocError>
    ensures { IfOk result (λ text. string_bytes text ≡ unread_said name.now) }
{
    format!(in alloc; "debug_host: cannot read {name}\n")
}

/// The line of a file that can't be stored.
fn unstored_text(alloc: Global, name: &str) -> Result<String, AllocError>
    ensures { IfOk result (λ text. string_bytes text ≡ unstored_said name.now) }
{
    format!(in alloc; "debug_host: cannot store {name}\n")
}

/// The line of a peer that closed after so many replies.
fn closed_text(alloc: Global, replies: u64) -> Result<String, AllocError>
    ensures { IfOk result (λ text. string_bytes text ≡ closed_said replies) }
{
    format!(in alloc; "debug_host: peer closed after {replies} replies\n")
}

/// The line of a line that is refused, of a journal or of a file of commands.
fn line_text(alloc: Global, number: u64) -> Result<String, AllocError>
    ensures { IfOk result (λ text. string_bytes text ≡ line_said number) }
{
    format!(in alloc; "debug_host: line {number} refused\n")
}

/// The line of an uncaught throw.
fn uncaught_text(alloc: Global, value: &str) -> Result<String, AllocError>
    ensures { IfOk result (λ text. string_bytes text ≡ uncaught_said value.now) }
{
    format!(in alloc; "Uncaught {value}\n")
}
