//! Why a file isn't taken.

use cdp_text::position::Pos;
use thiserror::Error;

/// Why a text isn't taken as a script, or as input.
#[derive(Clone, Copy, Debug, Error)]
pub enum TextFault {
    /// Its bytes aren't UTF-8.
    #[error("not UTF-8")]
    NotUtf8,
    /// At this position neither a token begins nor the end stands that goes on with a script.
    #[error("unexpected token")]
    UnexpectedToken(Pos),
    /// It has so many code units, more than a script may have.
    #[error("too long: {0} units")]
    TooLong(usize),
    /// Its tree would be too deep.
    #[error("too deep")]
    TooDeep,
    /// It has more tokens than a script may have.
    #[error("too many tokens")]
    TooManyTokens,
}

/// Why a file isn't taken.
#[derive(Clone, Copy, Debug, Error)]
pub enum FileFault {
    /// The shelf doesn't give it, and is blamed.
    #[error("the file can't be read")]
    CannotRead,
    /// It was read, and isn't taken.
    #[error("{0}")]
    Refused(TextFault),
    /// No memory was left.
    #[error("out of memory")]
    Memory,
}
