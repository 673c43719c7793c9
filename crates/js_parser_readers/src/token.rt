//! Lent tokens, the next one first.

ghost use Rattle.std.specs.Prelude.{◌≡◌};
ghost use Rattle.js_parser_language.specs.Tokens.{head_of, is_on_line, tail_of};
ghost use Rattle.js_parser_readers.specs.Giving.{Gives};
ghost use Rattle.js_parser_language.specs.Kinds.{is_kind};
ghost use Rattle.js_parser_readers.specs.Reading as reading;
ghost use Rattle.js_parser_readers.specs.Views.{tokens_view};

use crate::fault::ParseError;
use js_lexer::token::{Token, TokenKind};

/// Whether the next token is of this kind.
pub fn is_next(kind: TokenKind, tokens: &[Token<'_>]) -> bool
    ensures { result ≡ is_kind kind (head_of (tokens_view tokens.now)) }
{
    match tokens {
        [token, ..] => token.kind == kind,
        [] => false,
    }
}

/// Whether no line terminator stands before the next token.
pub fn is_on_line(tokens: &[Token<'_>]) -> bool
    ensures { result ≡ is_on_line (head_of (tokens_view tokens.now)) }
{
    match tokens {
        [token, ..] => !token.newline_before,
        [] => true,
    }
}

/// The tokens after the next one.
pub fn tail<'t, 's>(tokens: &'t [Token<'s>]) -> &'t [Token<'s>]
    ensures { tokens_view result.now ≡ tail_of (tokens_view tokens.now) }
{
    match tokens {
        [_, rest @ ..] => rest,
        [] => tokens,
    }
}

/// The tokens after the next one, which is to be of this kind.
///
/// # Errors
///
/// `Syntax` at the next token where it is of another kind or the end.
#[tactic(auto, unfolding(crate::specs::Reading::expect))]
pub fn expect<'t, 's>(
    kind: TokenKind,
    tokens: &'t [Token<'s>],
) -> Result<&'t [Token<'s>], ParseError>
    ensures { Gives (λ rest. (tt, tokens_view rest.now)) result (reading.expect kind (tokens_view tokens.now)) }
{
    if is_next(kind, tokens) {
        Ok(tail(tokens))
    } else {
        Err(ParseError::Syntax { left: tokens.len() })
    }
}
