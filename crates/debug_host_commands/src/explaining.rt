//! The lines that explain an end.

use crate::outcome::CommandEnd;
use cdp_text::units::text_of;
use debug_host_explanations::{
    FileRefusal, Frame, KeptFile, PortFault, ReadFault, command_lines, frame_lines, journal_lines,
    link_lines, refusal_lines, unread_lines, unstored_line, word_lines,
};
use debug_host_script_files::{Evidence, FileEvidence, TextFault};
use js_tree::script::Script;
use std::alloc::{AllocError, Global};

/// What a command was to do, as far as that explains its end.
#[derive(Clone, Copy)]
pub(crate) enum Task<'c> {
    /// Words asked for nothing.
    Words(&'c [String]),
    /// A program was to run.
    Run,
    /// A journal was to be replayed.
    Replay,
    /// Clients were to be served at this port.
    Serve(u16),
    /// Commands were to be sent to this port.
    Send(u16),
}

/// What is left of a fault, for who explains it.
#[derive(Drop)]
pub(crate) struct Remains {
    /// What is left of files that weren't all taken.
    pub(crate) evidence: Evidence,
    /// The calls that were active at an uncaught throw, the innermost first.
    pub(crate) calls: Vec<Frame>,
}

impl Remains {
    /// Nothing so far.
    pub(crate) fn new(alloc: Global) -> Remains {
        Remains {
            evidence: Evidence::new(alloc),
            calls: Vec::new(alloc),
        }
    }
}

/// The lines that explain an end. There are none where nothing more is known of it.
///
/// # Errors
///
/// There is no memory for the lines.
pub(crate) fn lines_of(
    alloc: Global,
    outcome: &CommandEnd<'_>,
    task: Task<'_>,
    remains: Remains,
) -> Result<String, AllocError> {
    let Remains { evidence, calls } = remains;
    match outcome {
        CommandEnd::Usage => lines_of_words(alloc, task),
        CommandEnd::Refused(name, refusal) => lines_of_refusal(alloc, *name, *refusal, evidence),
        CommandEnd::CannotRead(name) => unread_lines(alloc, *name, fault_of(&evidence.file)),
        CommandEnd::CannotStore(name) => unstored_line(alloc, *name),
        CommandEnd::LineRefused(number) => lines_of_line(alloc, task, *number, evidence),
        CommandEnd::NetworkFault => lines_of_port(alloc, task),
        CommandEnd::PeerClosed(_) => link_lines(alloc, PortFault::Closed),
        CommandEnd::Threw(_) => frame_lines(alloc, &calls),
        CommandEnd::Done
        | CommandEnd::ThrewUnshown
        | CommandEnd::OutOfMemory
        | CommandEnd::CannotWrite
        | CommandEnd::TicketsSpent => Ok(String::new(alloc)),
    }
}

/// Why words ask for nothing.
fn lines_of_words(alloc: Global, task: Task<'_>) -> Result<String, AllocError> {
    match task {
        Task::Words(words) => word_lines(alloc, words),
        Task::Run | Task::Replay | Task::Serve(_) | Task::Send(_) => Ok(String::new(alloc)),
    }
}

/// Why a file of this name is refused.
fn lines_of_refusal(
    alloc: Global,
    name: &str,
    refusal: TextFault,
    evidence: Evidence,
) -> Result<String, AllocError> {
    let Evidence { file, earlier } = evidence;
    let FileEvidence::Content(bytes) = file else {
        return Ok(String::new(alloc));
    };
    let mut files = Vec::new(alloc);
    for script in &earlier {
        files.push(kept(alloc, script)?)?;
    }
    files.push(KeptFile {
        name: String::from_str(alloc, name)?,
        bytes,
    })?;
    refusal_lines(alloc, &files, 0, refused_as(refusal))
}

/// A script's file.
fn kept(alloc: Global, script: &Script) -> Result<KeptFile, AllocError> {
    Ok(KeptFile {
        name: text_of(alloc, script.url.as_slice())?,
        bytes: text_of(alloc, script.source.as_slice())?.into_bytes(),
    })
}

/// A refusal, as the explanations have it.
fn refused_as(refusal: TextFault) -> FileRefusal {
    match refusal {
        TextFault::NotUtf8 => FileRefusal::NotUtf8,
        TextFault::UnexpectedToken(at) => FileRefusal::UnexpectedToken(at),
        TextFault::TooLong(_) => FileRefusal::TooLong,
        TextFault::TooDeep => FileRefusal::TooDeep,
        TextFault::TooManyTokens => FileRefusal::TooManyTokens,
    }
}

/// Why a file can't be read, by what is left of it.
fn fault_of(evidence: &FileEvidence) -> ReadFault {
    match evidence {
        FileEvidence::NotThere => ReadFault::NotThere,
        FileEvidence::Nothing | FileEvidence::Unreachable | FileEvidence::Content(_) =>
            ReadFault::Other,
    }
}

/// Why the line of this number of a journal or of a file of commands is refused.
fn lines_of_line(
    alloc: Global,
    task: Task<'_>,
    number: u64,
    evidence: Evidence,
) -> Result<String, AllocError> {
    let Evidence { file, earlier: _ } = evidence;
    let FileEvidence::Content(bytes) = file else {
        return Ok(String::new(alloc));
    };
    match task {
        Task::Replay => journal_lines(alloc, &bytes, number),
        Task::Send(_) => command_lines(alloc, &bytes, number),
        Task::Words(_) | Task::Run | Task::Serve(_) => Ok(String::new(alloc)),
    }
}

/// What may be done about a port that can't be used.
fn lines_of_port(alloc: Global, task: Task<'_>) -> Result<String, AllocError> {
    match task {
        Task::Serve(port) => link_lines(alloc, PortFault::Serving { port }),
        Task::Send(port) => link_lines(alloc, PortFault::Dialling { port }),
        Task::Words(_) | Task::Run | Task::Replay => Ok(String::new(alloc)),
    }
}
