//! Why a file can't be read, or stored.

use crate::shown::Quoted;
use std::alloc::{AllocError, Global};

/// Why a file can't be read, as far as the system says.
#[derive(Clone, Copy)]
pub enum ReadFault {
    /// No file has the name.
    NotThere,
    /// The name is that of a folder.
    Directory,
    /// The system doesn't let this user read it.
    NotPermitted,
    /// Something else, or nothing is known.
    Other,
}

/// Why the file of this name can't be read.
///
/// # Errors
///
/// There is no memory for the line.
pub fn unread_lines(alloc: Global, name: &str, fault: ReadFault) -> Result<String, AllocError> {
    let quoted = Quoted(name);
    match fault {
        ReadFault::NotThere => missing_line(alloc, name),
        ReadFault::Directory => {
            format!(in alloc; "  {quoted} is a folder, and a file is needed\n")
        }
        ReadFault::NotPermitted => {
            format!(in alloc;
                "  the file {quoted} is there, and its permissions don't let this user read it\n"
            )
        }
        ReadFault::Other => format!(in alloc; "  the system doesn't give the file {quoted}\n"),
    }
}

/// The line of a file that isn't there.
fn missing_line(alloc: Global, name: &str) -> Result<String, AllocError> {
    let quoted = Quoted(name);
    if name.starts_with("/") {
        format!(in alloc; "  no file has the name {quoted}\n")
    } else {
        format!(in alloc;
            "  no file has the name {quoted}; a name counts from the folder in which the command is given\n"
        )
    }
}

/// What may be done about a file of this name that can't be stored.
///
/// # Errors
///
/// There is no memory for the line.
pub fn unstored_line(alloc: Global, name: &str) -> Result<String, AllocError> {
    let quoted = Quoted(name);
    format!(in alloc;
        "  the system doesn't store the file {quoted}: see that its folder is there, and that this user may write there\n"
    )
}
