//! Why a line of a journal is refused.

use crate::file_lines::{bad_line, line_at};
use crate::journal_fault::{LAST_MOMENT, LineFault, MOST_STEPS, MOST_TOLD};
use crate::sessions::absence;
use crate::shown::Cut;
use cdp_text::decimal::read_decimal;
use cdp_text::parts::{behind, halves};
use std::alloc::{AllocError, Global};

/// Why the line of this number, from 1, of a journal is refused, and the line itself. Nothing where there is no such
/// line.
///
/// # Errors
///
/// There is no memory for the lines.
pub fn journal_lines(alloc: Global, journal: &[u8], number: u64) -> Result<String, AllocError> {
    let Some(line) = line_at(journal, number) else {
        return Ok(String::new(alloc));
    };
    if follows_memory(journal, number) {
        return format!(in alloc; "  line {number}: no line follows memory, which ends a journal\n");
    }
    match str::from_utf8(line) {
        Ok(text) => text_lines(alloc, journal, number, text),
        Err(_) => bad_line(alloc, number, line),
    }
}

/// Whether the line before that of this number, from 1, is `memory`.
fn follows_memory(journal: &[u8], number: u64) -> bool {
    match line_at(journal, number.saturating_sub(1)) {
        Some(line) => number > 1 && line == b"memory".as_slice(),
        None => false,
    }
}

/// The lines of a line of this text.
fn text_lines(
    alloc: Global,
    journal: &[u8],
    number: u64,
    text: &str,
) -> Result<String, AllocError> {
    if text.is_empty() {
        return format!(in alloc; "  line {number}: the line is empty\n");
    }
    let line = Cut::line(text, 0);
    match fault_of(journal, number, text) {
        Some(fault) => format!(in alloc; "  line {number}: {fault}\n    {line}\n"),
        None => Ok(String::new(alloc)),
    }
}

/// Why a line of this text is refused, which isn't empty. None where it is in form and needs no session.
fn fault_of<'t>(journal: &[u8], number: u64, text: &'t str) -> Option<LineFault<'t>> {
    if text.ends_with("\r") {
        return Some(LineFault::CarriageReturn);
    }
    if text == "attach" || text == "shut" {
        return None;
    }
    let (word, rest) = match halves(text, ' ') {
        Some((word, rest)) => (word, Some(rest)),
        None => (text, None),
    };
    match word {
        "" => Some(LineFault::Space),
        "attach" | "shut" | "memory" => Some(LineFault::Alone(word)),
        "take" | "detach" => Some(session_fault(journal, number, word, rest)),
        "tell" => Some(tell_fault(journal, number, rest)),
        "run" => run_fault(rest),
        _ => Some(LineFault::Unknown(word)),
    }
}

/// Why a line of this word and a session's number is refused.
fn session_fault<'t>(
    journal: &[u8],
    number: u64,
    word: &'t str,
    rest: Option<&'t str>,
) -> LineFault<'t> {
    match rest {
        None => LineFault::Session(word),
        Some(text) => match read_decimal(text) {
            None => LineFault::Number(text),
            Some(session) => absence(journal, number, session),
        },
    }
}

/// Why a line with a text for a session is refused.
fn tell_fault<'t>(journal: &[u8], number: u64, rest: Option<&'t str>) -> LineFault<'t> {
    let Some(rest) = rest else {
        return LineFault::Tell;
    };
    let (session, text) = match halves(rest, ' ') {
        Some((session, text)) => (session, Some(text)),
        None => (rest, None),
    };
    match (read_decimal(session), text) {
        (None, _) => LineFault::Number(session),
        (Some(_), None) => LineFault::TextSpace,
        (Some(session), Some(text)) => match text_fault(text) {
            Some(fault) => fault,
            None => absence(journal, number, session),
        },
    }
}

/// Why a text isn't told, as it is written.
fn text_fault(text: &str) -> Option<LineFault<'static>> {
    if halves(text, '\r').is_some() {
        return Some(LineFault::RawReturn);
    }
    if has_bad_form(text) {
        return Some(LineFault::Percent);
    }
    // A form stands for one character of one byte.
    let forms = text.as_bytes().iter().filter(|byte| **byte == b'%').count();
    let told = text.len().saturating_sub(forms.saturating_mul(2));
    if told > MOST_TOLD {
        Some(LineFault::LongText(told))
    } else {
        None
    }
}

/// Whether a text has a `%` that begins none of `%25`, `%0A` and `%0D`.
fn has_bad_form(text: &str) -> bool {
    for rest in text.split('%').skip(1) {
        if behind(rest, "25").is_none()
            && behind(rest, "0A").is_none()
            && behind(rest, "0D").is_none()
        {
            return true;
        }
    }
    false
}

/// Why a run is refused, by what stands behind its word.
fn run_fault(rest: Option<&str>) -> Option<LineFault<'_>> {
    let Some((steps, moment)) = rest.and_then(|rest| halves(rest, ' ')) else {
        return Some(LineFault::Run);
    };
    if halves(moment, ' ').is_some() {
        return Some(LineFault::Run);
    }
    match (read_decimal(steps), read_decimal(moment)) {
        (None, _) => Some(LineFault::Number(steps)),
        (Some(_), None) => Some(LineFault::Number(moment)),
        (Some(steps), Some(moment)) => limit_fault(steps, moment),
    }
}

/// The limit past which a run's numbers are.
fn limit_fault(steps: u64, moment: u64) -> Option<LineFault<'static>> {
    if steps > MOST_STEPS {
        Some(LineFault::Steps(steps))
    } else if moment > LAST_MOMENT {
        Some(LineFault::Moment(moment))
    } else {
        None
    }
}
