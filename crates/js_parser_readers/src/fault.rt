//! Why a source isn't parsed.

ghost use Rattle.std.specs.Prelude.{◌≡◌};
ghost use Rattle.js_parser_readers.specs.declared.fault.ParseError.TheVariants.{Memory};

use std::alloc::{AllocError, AllocFailed};
use thiserror::Error;

/// Why a source isn't parsed. A place counts the code units of the source before it.
#[derive(Clone, Copy, Debug, Error)]
pub enum ParseFault {
    /// The source has so many code units, more than a script may have.
    #[error("the source is too long: {units} code units")]
    TooLong { units: usize },
    /// Neither a token, white space, a line terminator nor a comment begins at this place
    /// (ECMA-262, 12).
    #[error("no token begins at {at}")]
    Token { at: usize },
    /// The tokens before this place begin a source of the language, and the one that begins there,
    /// or the end of the source, doesn't go on with one.
    #[error("a syntax error at {at}")]
    Syntax { at: usize },
    /// The token that begins at this place is one more than a source may have.
    #[error("too many tokens: the one at {at} is one more than a source may have")]
    TooMany { at: usize },
    /// The tree would be too deep.
    #[error("the source is nested too deeply")]
    TooDeep,
    /// No memory was left.
    #[error("out of memory")]
    Memory,
}

/// Why tokens aren't read.
#[derive(Clone, Copy, Debug)]
pub enum ParseError {
    /// No memory was left.
    Memory,
    /// The tree would be too deep: so many tokens are left behind those that show it.
    TooDeep { left: usize },
    /// So many tokens are left from the faulty one on; none, where it is the end.
    Syntax { left: usize },
}

impl From<AllocError> for ParseError {
    ghost from_gives = { λ _ e. e ≡ Memory };

    fn from(_e: AllocError) -> ParseError {
        ParseError::Memory
    }
}

impl<T: Drop> From<AllocFailed<T>> for ParseError {
    ghost from_gives = { λ _ e. e ≡ Memory };

    fn from(_e: AllocFailed<T>) -> ParseError {
        ParseError::Memory
    }
}
