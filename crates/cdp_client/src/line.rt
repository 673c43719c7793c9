//! The lines of a file of commands.

ghost use Rattle.std.specs.Prelude.{◌≡◌, ◌+◌, ◌<◌, ◌^◌, Some, IfOk};
ghost use Rattle.std.specs.Option.{option_map};
ghost use Rattle.cdp_client.specs.Lines.{command_from, is_method, is_object, line_from, line_of, line_of_text, next_id, wait_of};
ghost use Rattle.cdp_client.specs.LineRead.{line_held};

use crate::values::value_of;
use cdp_text::parts::{behind, halves};
use std::alloc::{AllocError, Global};

/// A command.
#[derive(Clone, Copy)]
pub(crate) struct Command<'c> {
    /// Its number: commands are numbered from 1.
    pub(crate) id: u64,
    /// Its method.
    pub(crate) method: &'c str,
    /// The JSON object that is its parameters, if there is one.
    pub(crate) params: Option<&'c str>,
}

/// What a line asks for.
#[derive(Clone, Copy)]
pub(crate) enum Line<'c> {
    /// Send a command, and go on once it is answered.
    Send(Command<'c>),
    /// Go on once an event of this method has arrived.
    Wait(&'c str),
}

/// Whether a text is a method: one or more characters without a space.
fn is_method(text: &str) -> bool
    ensures { result ≡ is_method text.now }
{
    match halves(text, ' ') {
        Some(_) => false,
        None => !text.is_empty(),
    }
}

/// Whether a text is a JSON object.
fn is_object(alloc: Global, text: &str) -> Result<bool, AllocError>
    ensures { IfOk result (λ is. is ≡ is_object text.now) }
{
    match value_of(alloc, text)? {
        Some(value) => Ok(value.is_object()),
        None => Ok(false),
    }
}

/// The line of these bytes, without their LF, where its command has this number: `METHOD`, `METHOD OBJECT` or
/// `wait METHOD`. None for all other bytes.
pub(crate) fn read_line<'c>(
    alloc: Global,
    id: u64,
    bytes: &'c [u8],
) -> Result<Option<Line<'c>>, AllocError>
    ensures { IfOk result (λ line. option_map line_held line ≡ line_of id bytes.now) }
{
    match str::from_utf8(bytes) {
        Ok(text) => read_text(alloc, id, text),
        Err(_) => Ok(None),
    }
}

/// The line of this text.
fn read_text<'c>(alloc: Global, id: u64, text: &'c str) -> Result<Option<Line<'c>>, AllocError>
    ensures { IfOk result (λ line. option_map line_held line ≡ line_of_text id text.now) }
{
    match behind(text, "wait ") {
        Some(method) => Ok(read_wait(method)),
        None => read_command(alloc, id, text),
    }
}

/// A wait for this method.
fn read_wait(method: &str) -> Option<Line<'_>>
    ensures { option_map line_held result ≡ wait_of method.now }
{
    if is_method(method) {
        Some(Line::Wait(method))
    } else {
        None
    }
}

/// The command of this number and text.
fn read_command<'c>(alloc: Global, id: u64, text: &'c str) -> Result<Option<Line<'c>>, AllocError>
    ensures { IfOk result (λ line. option_map line_held line ≡ line_from id text.now None) }
{
    match halves(text, ' ') {
        Some((method, object)) => read_call(alloc, id, method, object),
        None => Ok(read_bare(id, text)),
    }
}

/// The command of this number and method without parameters.
fn read_bare(id: u64, method: &str) -> Option<Line<'_>>
    ensures { option_map line_held result ≡ command_from id method.now None }
{
    if is_method(method) {
        let params = None;
        Some(Line::Send(Command { id, method, params }))
    } else {
        None
    }
}

/// The command of this number, method and parameters.
fn read_call<'c>(
    alloc: Global,
    id: u64,
    method: &'c str,
    object: &'c str,
) -> Result<Option<Line<'c>>, AllocError>
    ensures { IfOk result (λ line. option_map line_held line
        ≡ command_from id method.now (Some (record { front = method.now; back = object.now }))) }
{
    if !is_method(method) {
        return Ok(None);
    }
    if is_object(alloc, object)? {
        let params = Some(object);
        Ok(Some(Line::Send(Command { id, method, params })))
    } else {
        Ok(None)
    }
}

/// The number of the next command after this line, where its own is this.
pub(crate) fn id_after(line: &Line<'_>, id: u64) -> u64
    requires { id + 1 < 2 ^ 64 }
    ensures { result ≡ next_id id (Some (line_held line.now)) }
{
    match line {
        Line::Send(_) => id + 1,
        Line::Wait(_) => id,
    }
}
