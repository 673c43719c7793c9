//! Why a journal's line is refused, as a text.

use crate::shown::Quoted;
use std::fmt;

/// The greatest number of steps of a run.
pub(crate) const MOST_STEPS: u64 = (1 << 32) - 1;

/// The last moment of a run, in milliseconds since the epoch.
pub(crate) const LAST_MOMENT: u64 = (1 << 53) - 1;

/// The greatest number of bytes of a text that a session is told.
pub(crate) const MOST_TOLD: usize = 1 << 20;

/// Why a line is refused.
#[derive(Clone, Copy)]
pub(crate) enum LineFault<'t> {
    /// It ends with CR.
    CarriageReturn,
    /// It begins with a space.
    Space,
    /// It begins with another word.
    Unknown(&'t str),
    /// Something stands behind a word that stands alone.
    Alone(&'t str),
    /// Behind this word no session's number stands.
    Session(&'t str),
    /// A session's number and a text are missing.
    Tell,
    /// A text is missing.
    TextSpace,
    /// A run has other than two numbers.
    Run,
    /// This is no number.
    Number(&'t str),
    /// A text has a CR.
    RawReturn,
    /// A text has a `%` that stands for itself.
    Percent,
    /// A text has so many bytes.
    LongText(usize),
    /// A run has so many steps.
    Steps(u64),
    /// A run is at this moment.
    Moment(u64),
    /// This session isn't attached, and the lines before attach so many.
    NeverAttached { session: u64, attached: u64 },
    /// This session was detached by the line of this number.
    Detached { session: u64, line: u64 },
    /// This session was lost.
    Lost { session: u64 },
}

impl fmt::Display for LineFault<'_> {
    fn fmt<W: fmt::Write>(&self, f: &mut fmt::Formatter<W>) -> fmt::Result {
        match *self {
            LineFault::CarriageReturn => f.write_str(
                "lines end with LF, and this one ends with CR LF",
            ),
            LineFault::Space => f.write_str("the line begins with a space"),
            LineFault::Unknown(word) => {
                let word = Quoted(word);
                write!(
                    f,
                    "there is no {word}; a line begins with attach, tell, take, detach, run or shut"
                )
            }
            LineFault::Alone(word) => write!(f, "{word} stands alone"),
            LineFault::Session(word) => {
                write!(f, "{word} needs a session's number: {word} SESSION")
            }
            LineFault::Tell => {
                f.write_str("tell needs a session's number and a text: tell SESSION TEXT")
            }
            LineFault::TextSpace => f.write_str(
                "a space follows the session's number, also before an empty text: tell SESSION TEXT",
            ),
            LineFault::Run => f.write_str("run needs two numbers: run STEPS MILLISECONDS"),
            LineFault::Number(text) => {
                let text = Quoted(text);
                write!(
                    f,
                    "{text} is no number: numbers are decimals below 2^64, without sign or leading zero"
                )
            }
            LineFault::RawReturn => f.write_str("in a text CR is written %0D"),
            LineFault::Percent => {
                f.write_str("in a text '%' is written %25, and stands in %25, %0A and %0D alone")
            }
            LineFault::LongText(bytes) => write!(
                f,
                "the text has {bytes} bytes, and a session is told at most {MOST_TOLD}"
            ),
            LineFault::Steps(steps) => write!(
                f,
                "a run has at most {MOST_STEPS} steps, and these are {steps}"
            ),
            LineFault::Moment(moment) => write!(
                f,
                "the last moment is {LAST_MOMENT}, in milliseconds since 1970, and this is {moment}"
            ),
            LineFault::NeverAttached { session, attached } => {
                write_attached(f, session, attached)
            }
            LineFault::Detached { session, line } => write!(
                f,
                "session {session} isn't attached: line {line} detached it"
            ),
            LineFault::Lost { session } => write!(
                f,
                "session {session} isn't attached: it was lost, as 'overrun {session}' in the output says"
            ),
        }
    }
}

/// Writes that a session isn't attached where so many were.
fn write_attached<W: fmt::Write>(
    f: &mut fmt::Formatter<W>,
    session: u64,
    attached: u64,
) -> fmt::Result {
    match attached {
        0 => write!(
            f,
            "session {session} isn't attached: the lines before attach none"
        ),
        1 => write!(
            f,
            "session {session} isn't attached: the lines before attach session 1 alone"
        ),
        _ => write!(
            f,
            "session {session} isn't attached: the lines before attach the sessions 1 to {attached}"
        ),
    }
}
