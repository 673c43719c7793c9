//! A change to the breakpoints of a session.

use cdp_text::position::{Place, Pos};

/// What becomes of a session's breakpoints.
#[derive(Clone, Copy)]
pub(crate) enum Kind {
    /// One is set at a place of the script.
    Set(Place),
    /// The one that was asked for at a place is removed.
    Remove(Place),
    /// All are gone, and the session with them.
    Leave,
}

/// A change to the breakpoints of a session.
#[derive(Clone, Copy)]
pub(crate) struct Change {
    /// The session, counted from 0.
    pub(crate) session: usize,
    /// What becomes of its breakpoints.
    pub(crate) kind: Kind,
}

/// The place of a line and a column, with a space between them, in the script of the number 1.
fn place_in(text: &str) -> Option<Place> {
    let (line, col) = text.split_once(' ')?;
    let pos = Pos {
        line: line.parse().ok()?,
        col: col.parse().ok()?,
    };
    Some(Place { script: 1, pos })
}

/// The change of a line: `SESSION set LINE COLUMN`, `SESSION remove LINE COLUMN` or `SESSION leave -`.
pub(crate) fn change_in(text: &str) -> Option<Change> {
    let (session, rest) = text.split_once(' ')?;
    let (word, place) = rest.split_once(' ')?;
    let kind = match word {
        "set" => Kind::Set(place_in(place)?),
        "remove" => Kind::Remove(place_in(place)?),
        "leave" => Kind::Leave,
        _ => return None,
    };
    Some(Change {
        session: session.parse().ok()?,
        kind,
    })
}
