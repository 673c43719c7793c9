//! The sessions of a journal's lines.

use crate::journal_fault::LineFault;
use cdp_text::decimal::read_decimal_units;
use cdp_text::lines::cut_line;

/// What lines do to a session and to the others.
#[derive(Clone, Copy)]
struct Attached {
    /// How many sessions they attach.
    count: u64,
    /// The number, from 1, of the last line that detaches the session.
    detached: Option<u64>,
}

/// What becomes of a session by a line of this number.
fn after_line(before: Attached, session: u64, number: u64, line: &[u8]) -> Attached {
    if line == b"attach".as_slice() {
        return Attached {
            count: before.count.saturating_add(1),
            detached: before.detached,
        };
    }
    match line.strip_prefix(b"detach ") {
        Some(rest) if read_decimal_units(rest) == Some(session) => Attached {
            count: before.count,
            detached: Some(number),
        },
        _ => before,
    }
}

/// What the lines before this number do to a session. They are in form.
fn attached_before(journal: &[u8], number: u64, session: u64) -> Attached {
    let mut attached = Attached {
        count: 0,
        detached: None,
    };
    let mut rest = journal;
    for at in 1..number {
        let Some((line, after)) = cut_line(rest) else {
            return attached;
        };
        attached = after_line(attached, session, at, line);
        rest = after;
    }
    attached
}

/// Why a session isn't attached before the line of this number. The lines before it were applied.
pub(crate) fn absence(journal: &[u8], number: u64, session: u64) -> LineFault<'static> {
    let Attached { count, detached } = attached_before(journal, number, session);
    if session == 0 || session > count {
        return LineFault::NeverAttached {
            session,
            attached: count,
        };
    }
    match detached {
        Some(line) => LineFault::Detached { session, line },
        None => LineFault::Lost { session },
    }
}
