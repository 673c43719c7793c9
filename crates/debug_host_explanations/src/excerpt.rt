//! A line of a source, with a caret under a place.

use crate::shown::{Cut, shown};
use cdp_text::position::is_line_terminator;
use cdp_text::units::text_of;
use std::alloc::{AllocError, Global};

/// The most characters before a place that are shown, where there are no more.
const MOST_BEFORE: usize = 60;

/// How many characters before a place are shown, where there are more than the most.
const KEPT_BEFORE: usize = 40;

/// Adds the line of a source in which the unit behind so many stands, and a line with a caret under that place. Nothing
/// where that line is blank.
///
/// # Errors
///
/// There is no memory for the lines.
pub(crate) fn push_excerpt(
    alloc: Global,
    lines: &mut String,
    source: &[u16],
    at: usize,
) -> Result<(), AllocError> {
    let before = text_of(alloc, line_before(source.get(..at).unwrap_or(source)))?;
    let after = text_of(alloc, line_behind(source.get(at..).unwrap_or(&[])))?;
    if before.trim().is_empty() && after.trim().is_empty() {
        return Ok(());
    }
    let count = before.chars().count();
    let skipped = if count > MOST_BEFORE {
        count.saturating_sub(KEPT_BEFORE)
    } else {
        0
    };
    push_line(lines, &before, skipped)?;
    let rest = Cut::line(&after, count.saturating_sub(skipped));
    write!(lines, "{rest}\n")?;
    push_caret(lines, &before, skipped)
}

/// What stands behind the last line terminator.
fn line_before(units: &[u16]) -> &[u16] {
    match units.iter().rposition(|unit| is_line_terminator(*unit)) {
        Some(end) => units.get(end.saturating_add(1)..).unwrap_or(&[]),
        None => units,
    }
}

/// What stands before the first line terminator.
fn line_behind(units: &[u16]) -> &[u16] {
    match units.iter().position(|unit| is_line_terminator(*unit)) {
        Some(end) => units.get(..end).unwrap_or(units),
        None => units,
    }
}

/// Adds what stands before a place, less so many characters.
fn push_line(lines: &mut String, before: &str, skipped: usize) -> Result<(), AllocError> {
    lines.push_str("    ")?;
    if skipped > 0 {
        lines.push_str("...")?;
    }
    for character in before.chars().skip(skipped) {
        lines.push(shown(character))?;
    }
    Ok(())
}

/// Adds a caret under the place behind these characters, less so many. A tab is a tab there too.
fn push_caret(lines: &mut String, before: &str, skipped: usize) -> Result<(), AllocError> {
    lines.push_str("    ")?;
    if skipped > 0 {
        lines.push_str("   ")?;
    }
    for character in before.chars().skip(skipped) {
        lines.push(if character == '\t' { '\t' } else { ' ' })?;
    }
    lines.push_str("^\n")
}
