//! Conversations over a link.

ghost use Rattle.std.specs.Prelude.{◌≡◌, ◌∷◌, [], OnOk, OnErr, IsErrOf, Some};
ghost use Rattle.cdp_edge.specs.Outside.{Rose, gains, GainsLess};
ghost use Rattle.cdp_text.specs.Lines.{ended};
ghost use Rattle.cdp_edge_server.specs.Contents.{adds};
ghost use Rattle.cdp_edge_server.specs.Heard.{Text};
ghost use Rattle.cdp_client.specs.Conversations.{Closes, Converses, CountsLink, CountsSink, EndsTalk, Hears, IsClosedBy, Sends, Turns, Writes};
ghost use Rattle.cdp_client.specs.LineRead.{command_held};
ghost use Rattle.cdp_client.specs.Talks.{course_heard, lines_heard, command_text};

use crate::conversed::Conversed;
use crate::course::Course;
use crate::file::read_file;
use crate::line::Command;
use crate::texts::command_text;
use cdp_edge::{Sink, SinkFault, put};
use cdp_edge_server::{Link, LinkFault, Recv};
use std::alloc::{AllocError, Global};
use std::sync::Wait;

/// The close code of an end that was meant (RFC 6455, section 7.4.1).
const NORMAL: u16 = 1000;

/// Sends a command.
///
/// # Errors
///
/// As [`Link::send`]; `Memory` also where there is none for the text.
fn send<L: Link>(alloc: Global, link: &mut L, command: &Command<'_>) -> Result<(), LinkFault>
    ensures sent { OnOk result (L.sent link.new ≡ adds (L.sent link.old) (command_text (command_held command.now) ∷ [])) }
    ensures nothing { OnErr result (L.sent link.new ≡ L.sent link.old) }
    ensures answers { L.answers link.new ≡ L.answers link.old }
    ensures closed { L.closed link.new ≡ L.closed link.old }
    ensures quiet { OnOk result (L.faults link.new ≡ L.faults link.old) }
    ensures memory { IsErrOf result LinkFault.Memory → L.faults link.new ≡ L.faults link.old }
    ensures failed { IsErrOf result LinkFault.Failed → Rose (L.faults link.old) (L.faults link.new) }
{
    match command_text(alloc, command) {
        Ok(text) => link.send(text.as_str()),
        Err(AllocError) => Err(LinkFault::Memory),
    }
}

/// Sends a command. How the conversation ends, if it does.
fn ask<L: Link>(alloc: Global, link: &mut L, command: &Command<'_>) -> Option<Conversed>
    ensures sends { Sends (command_held command.now) (L.sent link.old) (L.sent link.new) result }
    ensures answers { L.answers link.new ≡ L.answers link.old }
    ensures closed { L.closed link.new ≡ L.closed link.old }
    ensures count { CountsLink result (L.faults link.old) (L.faults link.new) }
{
    match send(alloc, link, command) {
        Ok(()) => None,
        Err(LinkFault::Failed) => Some(Conversed::LinkFault),
        Err(LinkFault::Memory) => Some(Conversed::Memory),
    }
}

/// Closes the link, since all is done.
fn close<L: Link>(link: &mut L) -> Conversed
    ensures closes { Closes result }
    ensures answers { L.answers link.new ≡ L.answers link.old }
    ensures sent { L.sent link.new ≡ L.sent link.old }
    ensures closed { IsClosedBy (Some result) (L.closed link.old) (L.closed link.new) }
    ensures count { CountsLink (Some result) (L.faults link.old) (L.faults link.new) }
{
    match link.close(NORMAL) {
        Ok(()) => Conversed::Done,
        Err(LinkFault::Failed) => Conversed::LinkFault,
        Err(LinkFault::Memory) => Conversed::Memory,
    }
}

/// Writes the line of a text that arrives, in one write, and goes on after it.
///
/// # Errors
///
/// As [`put`]; `Memory` also where there is none for the line.
fn write<O: Sink>(
    alloc: Global,
    course: &mut Course<'_>,
    out: &mut O,
    text: &str,
) -> Result<(), SinkFault>
    ensures course { OnOk result (course.new ≡ course_heard course.old (Text text.now)) }
    ensures ok { OnOk result (O.content out.new ≡ gains (O.content out.old) (ended (lines_heard course.old (Text text.now)))) }
    ensures err { OnErr result (GainsLess (O.content out.old) (O.content out.new) (ended (lines_heard course.old (Text text.now)))) }
    ensures quiet { OnOk result (O.faults out.new ≡ O.faults out.old) }
    ensures memory { IsErrOf result SinkFault.Memory → O.faults out.new ≡ O.faults out.old }
    ensures failed { IsErrOf result SinkFault.Failed → Rose (O.faults out.old) (O.faults out.new) }
{
    match course.hear(alloc, text) {
        Ok(line) => put(out, line.as_bytes()),
        Err(AllocError) => Err(SinkFault::Memory),
    }
}

/// Writes the line of a text that arrives, and goes on after it. How the conversation ends, if it does.
fn note<O: Sink>(
    alloc: Global,
    course: &mut Course<'_>,
    out: &mut O,
    text: &str,
) -> Option<Conversed>
    ensures writes { Writes course.old (Text text.now) course.new (O.content out.old) (O.content out.new) result }
    ensures count { CountsSink result (O.faults out.old) (O.faults out.new) }
{
    match write(alloc, course, out, text) {
        Ok(()) => None,
        Err(SinkFault::Failed) => Some(Conversed::WriteFault),
        Err(SinkFault::Memory) => Some(Conversed::Memory),
    }
}

/// Hears one answer of the link. How the conversation ends, if it does.
fn hear<L: Link, O: Sink>(
    alloc: Global,
    link: &mut L,
    course: &mut Course<'_>,
    out: &mut O,
) -> Option<Conversed>
    ensures hears { Hears course.old course.new (record { answers = L.answers link.old; sent = L.sent link.old; written = O.content out.old }) (record { answers = L.answers link.new; sent = L.sent link.new; written = O.content out.new }) result }
    ensures closed { L.closed link.new ≡ L.closed link.old }
    ensures link_count { CountsLink result (L.faults link.old) (L.faults link.new) }
    ensures sink_count { CountsSink result (O.faults out.old) (O.faults out.new) }
{
    match link.recv() {
        Recv::Text(text) => note(alloc, course, out, text.as_str()),
        Recv::Binary => None,
        Recv::TooBig => None,
        Recv::Quiet => None,
        Recv::Closed => {
            let replies = course.replies();
            Some(Conversed::PeerClosed { replies })
        }
        Recv::Failed => Some(Conversed::LinkFault),
        Recv::Memory => Some(Conversed::Memory),
    }
}

/// Does what is next: sends a command, hears an answer, or closes. How the conversation ends, if it does.
fn take_turn<L: Link, O: Sink>(
    alloc: Global,
    link: &mut L,
    course: &mut Course<'_>,
    out: &mut O,
) -> Option<Conversed>
    ensures turns { Turns course.old course.new (record { answers = L.answers link.old; sent = L.sent link.old; written = O.content out.old }) (record { answers = L.answers link.new; sent = L.sent link.new; written = O.content out.new }) result }
    ensures closed { IsClosedBy result (L.closed link.old) (L.closed link.new) }
    ensures link_count { CountsLink result (L.faults link.old) (L.faults link.new) }
    ensures sink_count { CountsSink result (O.faults out.old) (O.faults out.new) }
{
    match course.take_command() {
        Some(command) => ask(alloc, link, &command),
        None => {
            if course.is_over() {
                Some(close(link))
            } else {
                hear(alloc, link, course, out)
            }
        }
    }
}

/// Takes turns until the conversation ends.
fn talk<L: Link, O: Sink, R: Wait>(
    rt: &R,
    alloc: Global,
    link: &mut L,
    course: &mut Course<'_>,
    out: &mut O,
) -> Conversed
    ensures ends { EndsTalk course.old result (record { answers = L.answers link.old; sent = L.sent link.old; written = O.content out.old }) (record { answers = L.answers link.new; sent = L.sent link.new; written = O.content out.new }) }
    ensures closed { IsClosedBy (Some result) (L.closed link.old) (L.closed link.new) }
    ensures link_count { CountsLink (Some result) (L.faults link.old) (L.faults link.new) }
    ensures sink_count { CountsSink (Some result) (O.faults out.old) (O.faults out.new) }
{
    for _ in rt.forever() {
        if let Some(end) = take_turn(alloc, link, course, out) {
            return end;
        }
    }
    unreachable!()
}

/// Speaks to a serving host over a link by the commands of a file, and writes each text that arrives as a line.
///
/// The file is UTF-8; its lines end with LF, and the last may lack it. A line is `METHOD`, `METHOD OBJECT` or
/// `wait METHOD`: a method is one or more characters without a space, OBJECT the parameters as a JSON object. All lines
/// are checked before anything is sent. Commands are numbered from 1 and sent as
/// `{"id":N,"method":METHOD,"params":OBJECT}`, each after the reply to the one before. The k-th `wait` for a method is
/// met when k events of it have arrived.
///
/// Each text that arrives is written as `reply N METHOD TEXT` where its `id` is that of the awaited reply, as
/// `event TEXT` where it is an object with a `method` and without `id`, and as `other TEXT` else; each line with its LF in
/// one write, and `%25`, `%0A` and `%0D` for `%`, LF and CR of the TEXT. Binary messages and those above the limit are
/// passed over. When all is done the link is closed with 1000.
pub fn converse<L: Link, O: Sink, R: Wait>(
    rt: &R,
    alloc: Global,
    link: &mut L,
    commands: &[u8],
    out: &mut O,
) -> Conversed
    // The lines that were written and the texts that were sent are the talk's over the link's answers, or a first part of
    // them at a fault; a file that isn't of its form is refused before anything is done.
    ensures converses { Converses commands.now result (record { answers = L.answers link.old; sent = L.sent link.old; written = O.content out.old }) (record { answers = L.answers link.new; sent = L.sent link.new; written = O.content out.new }) }
    // The link is closed with 1000 where all is done, and not closed at any other end.
    ensures closed { IsClosedBy (Some result) (L.closed link.old) (L.closed link.new) }
    // Each count rose just where the end says so.
    ensures link_count { CountsLink (Some result) (L.faults link.old) (L.faults link.new) }
    ensures sink_count { CountsSink (Some result) (O.faults out.old) (O.faults out.new) }
{
    match read_file(alloc, commands) {
        Ok(lines) => {
            let mut course = Course::new(lines);
            talk(rt, alloc, link, &mut course, out)
        }
        Err(end) => end,
    }
}
