//! Why a line of a file of commands is refused.

use crate::file_lines::{bad_line, line_at};
use crate::shown::Cut;
use cdp_text::parts::{behind, halves};
use std::alloc::{AllocError, Global};
use std::fmt;

/// Why a line is refused.
#[derive(Clone, Copy)]
enum LineFault<'t> {
    /// It begins with a space.
    Space,
    /// A wait for no method, or for more than one.
    Wait,
    /// What stands behind this method is no JSON object.
    Parameters(&'t str),
}

impl fmt::Display for LineFault<'_> {
    fn fmt<W: fmt::Write>(&self, f: &mut fmt::Formatter<W>) -> fmt::Result {
        match self {
            LineFault::Space => f.write_str("the line begins with a space"),
            LineFault::Wait => f.write_str("wait needs one method: wait METHOD"),
            LineFault::Parameters(method) => {
                let method = Cut::line(method, 0);
                write!(
                    f,
                    "what follows {method} is no JSON object: METHOD {{\"NAME\": VALUE}}"
                )
            }
        }
    }
}

/// Why the line of this number, from 1, of a file of commands is refused, and the line itself. Nothing where there is no
/// such line.
///
/// # Errors
///
/// There is no memory for the lines.
pub fn command_lines(alloc: Global, commands: &[u8], number: u64) -> Result<String, AllocError> {
    let Some(line) = line_at(commands, number) else {
        return Ok(String::new(alloc));
    };
    match str::from_utf8(line) {
        Ok(text) => text_lines(alloc, number, text),
        Err(_) => bad_line(alloc, number, line),
    }
}

/// The lines of a line of this text.
fn text_lines(alloc: Global, number: u64, text: &str) -> Result<String, AllocError> {
    if text.is_empty() {
        return format!(in alloc; "  line {number}: the line is empty\n");
    }
    let line = Cut::line(text, 0);
    match fault_of(text) {
        Some(fault) => format!(in alloc; "  line {number}: {fault}\n    {line}\n"),
        None => Ok(String::new(alloc)),
    }
}

/// Why a line of this text is refused, which isn't empty: a wait is in form with one method alone, and a method with an
/// object alone. A method by itself is in form.
fn fault_of(text: &str) -> Option<LineFault<'_>> {
    if behind(text, "wait ").is_some() {
        return Some(LineFault::Wait);
    }
    let (method, _) = halves(text, ' ')?;
    if method.is_empty() {
        Some(LineFault::Space)
    } else {
        Some(LineFault::Parameters(method))
    }
}
