//! What is told of a source: its tree, or the fault that stands in it.

ghost use Rattle.std.specs.Prelude.{◌≡◌, ◌-◌, length, nat_lt, slice_get};
ghost use Rattle.js_parser.specs.Lexing as spec;
ghost use Rattle.js_parser.specs.Lexing.{lexed_view, stop_view};
ghost use Rattle.js_parser_readers.specs.Views.{tokens_view};

use crate::lexing::{Lexed, LexingEnd};
use js_parser_descent::limits::MOST_HEIGHT;
use js_parser_readers::fault::{ParseError, ParseFault};

/// The fault for want of further tokens, or else at the end of the source.
fn stop_fault(end: usize, stop: Option<LexingEnd>) -> ParseFault
    ensures { result ≡ spec.stop_fault end (stop_view stop) }
{
    match stop {
        None => ParseFault::Syntax { at: end },
        Some(LexingEnd::Bad { at }) => ParseFault::Token { at },
        Some(LexingEnd::Many { at }) => ParseFault::TooMany { at },
    }
}

/// The start of the token from which so many are left, or else the end of the source.
fn place(lexed: &Lexed<'_>, end: usize, left: usize) -> usize
    ensures { result ≡ spec.start_or end (slice_get (tokens_view lexed.now.tokens.items) (length lexed.now.tokens.items - left)) }
{
    match lexed.tokens.get(lexed.tokens.len().saturating_sub(left)) {
        Some(token) => token.start,
        None => end,
    }
}

/// The fault of a source of so many units whose tokens aren't read.
pub fn fault_of(lexed: &Lexed<'_>, end: usize, error: ParseError) -> ParseFault
    ensures { result ≡ spec.fault_of (lexed_view lexed.now) end error }
{
    match error {
        ParseError::Memory => ParseFault::Memory,
        ParseError::TooDeep { .. } => ParseFault::TooDeep,
        ParseError::Syntax { left: 0 } => stop_fault(end, lexed.stop),
        ParseError::Syntax { left } => ParseFault::Syntax {
            at: place(lexed, end, left),
        },
    }
}

/// A tree of this height, unless it is too deep.
fn unless_deep<T: Drop>(tree: T, height: u32) -> Result<T, ParseFault>
    ensures { result ≡ spec.unless_deep (nat_lt MOST_HEIGHT height) tree }
{
    if height > MOST_HEIGHT {
        Err(ParseFault::TooDeep)
    } else {
        Ok(tree)
    }
}

/// A tree that was read from all tokens, with its height, or the fault of the source.
pub fn tree_or_fault<T: Drop>(
    lexed: &Lexed<'_>,
    end: usize,
    read: Result<(T, u32), ParseError>,
) -> Result<T, ParseFault>
    ensures { result ≡ spec.tree_or_fault (lexed_view lexed.now) end read }
{
    let (tree, height) = match read {
        Ok(read) => read,
        Err(error) => return Err(fault_of(lexed, end, error)),
    };
    match lexed.stop {
        None => unless_deep(tree, height),
        Some(stop) => Err(stop_fault(end, Some(stop))),
    }
}
