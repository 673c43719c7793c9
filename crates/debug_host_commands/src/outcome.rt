//! How a command ends.

use debug_host_script_files::TextFault;

/// How a command ends, with the name of the file whose fault that is.
#[derive(Drop)]
pub(crate) enum CommandEnd<'w> {
    /// A run by its last script; a replay and a file of commands with its last line.
    Done,
    /// A run by a throw of a value that is shown so.
    Threw(String),
    /// A run by a throw of a value for whose text no memory was left.
    ThrewUnshown,
    OutOfMemory,
    /// The words aren't of a command's form.
    Usage,
    Refused(&'w str, TextFault),
    CannotRead(&'w str),
    CannotStore(&'w str),
    CannotWrite,
    /// The number, from 1, of the line that is refused, of a journal or of a file of commands.
    LineRefused(u64),
    /// A port couldn't be opened or dialled, or a door of it or a link to it failed.
    NetworkFault,
    /// The peer closed after so many replies, before all commands were done.
    PeerClosed(u64),
    /// No further turn can be taken: the ticket word is 2^62.
    TicketsSpent,
}
