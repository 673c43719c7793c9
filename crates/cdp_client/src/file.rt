//! Files of commands: all lines are read before the first is acted on.

ghost use Rattle.std.specs.Prelude.{◌≡◌, Ok, map, IfOk, IfErr, OnOk};
ghost use Rattle.cdp_client.specs.Conversations.{IsUnread};
ghost use Rattle.cdp_client.specs.LineRead.{line_held};
ghost use Rattle.cdp_client.specs.Lines.{IsInForm, file_read};

use crate::conversed::Conversed;
use crate::line::{Line, id_after, read_line};
use cdp_text::lines::cut_line;
use std::alloc::{AllocError, Global};
use std::collections::VecDeque;

/// The lines of a file.
///
/// # Errors
///
/// `Refused` with the number of the first line that isn't of its form, and `Memory`.
pub(crate) fn read_file<'c>(alloc: Global, file: &'c [u8]) -> Result<VecDeque<Line<'c>>, Conversed>
    ensures lines { IfOk result (λ lines. file_read file.now ≡ Ok (map line_held lines.items)) }
    ensures fault { IfErr result (λ end. IsUnread file.now end) }
{
    let mut lines = VecDeque::new(alloc);
    let mut rest = file;
    let mut number: u64 = 1;
    let mut id: u64 = 1;
    while let Some((text, after)) = cut_line(rest) {
        let line = match read_line(alloc, id, text) {
            Ok(Some(line)) => line,
            Ok(None) => return Err(Conversed::Refused { line: number }),
            Err(AllocError) => return Err(Conversed::Memory),
        };
        id = id_after(&line, id);
        if lines.push_back(line).is_err() {
            return Err(Conversed::Memory);
        }
        rest = after;
        number += 1;
    }
    Ok(lines)
}

/// Checks that each line of a file of commands is of its form.
///
/// # Errors
///
/// `Refused` with the number of the first line that isn't, and `Memory`.
pub fn check_file(alloc: Global, file: &[u8]) -> Result<(), Conversed>
    ensures form { OnOk result (IsInForm file.now) }
    ensures fault { IfErr result (λ end. IsUnread file.now end) }
{
    match read_file(alloc, file) {
        Ok(_) => Ok(()),
        Err(end) => Err(end),
    }
}
