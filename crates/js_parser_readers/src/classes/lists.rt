//! How lists go on and end, and what a single token is.

ghost use Rattle.std.specs.Prelude.{◌≡◌};
ghost use Rattle.js_parser_language.specs.Tokens.{head_of, is_word};
ghost use Rattle.js_parser_readers.specs.Heads.{after_view};
ghost use Rattle.js_parser_readers.specs.Parsing.{is_name_next};
ghost use Rattle.js_parser_readers.specs.Reading.{after, ends_list};
ghost use Rattle.js_parser_readers.specs.Views.{tokens_view};

use crate::token::is_next;
use js_lexer::token::{Token, TokenKind};

/// What comes after an element of a list.
#[derive(Clone, Copy)]
pub enum AfterElement {
    /// A comma.
    GoesOn,
    /// The token that ends the list.
    Ends,
}

/// What the next token says of a list that a token of this kind ends. `None` where it is neither
/// that token nor a comma.
pub fn after_of(closer: TokenKind, tokens: &[Token<'_>]) -> Option<AfterElement>
    ensures { after_view result ≡ after closer (head_of (tokens_view tokens.now)) }
{
    if is_next(closer, tokens) {
        Some(AfterElement::Ends)
    } else if is_next(TokenKind::Comma, tokens) {
        Some(AfterElement::GoesOn)
    } else {
        None
    }
}

/// Whether a list of statements ends here: a `}` or the end of the source comes.
pub fn ends_list(tokens: &[Token<'_>]) -> bool
    ensures { result ≡ ends_list (head_of (tokens_view tokens.now)) }
{
    tokens.is_empty() || is_next(TokenKind::RightBrace, tokens)
}

/// Whether a token of this kind is a name or a reserved word (ECMA-262, 12.7, IdentifierName).
pub(crate) fn is_word(kind: TokenKind) -> bool
    ensures { result ≡ is_word kind }
{
    match kind {
        TokenKind::Number | TokenKind::String => false,
        TokenKind::LeftBrace | TokenKind::RightBrace => false,
        TokenKind::LeftParenthesis | TokenKind::RightParenthesis => false,
        TokenKind::LeftBracket | TokenKind::RightBracket => false,
        TokenKind::Dot | TokenKind::Semicolon | TokenKind::Comma => false,
        TokenKind::LessThan | TokenKind::GreaterThan => false,
        TokenKind::LessThanOrEqual | TokenKind::GreaterThanOrEqual => false,
        TokenKind::Equal | TokenKind::NotEqual => false,
        TokenKind::StrictEqual | TokenKind::StrictNotEqual => false,
        TokenKind::Plus | TokenKind::Minus => false,
        TokenKind::Multiply | TokenKind::Divide | TokenKind::Remainder => false,
        TokenKind::Increment | TokenKind::Decrement => false,
        TokenKind::LeftShift | TokenKind::RightShift | TokenKind::UnsignedRightShift => false,
        TokenKind::BitwiseAnd | TokenKind::BitwiseOr | TokenKind::BitwiseXor => false,
        TokenKind::LogicalNot | TokenKind::BitwiseNot => false,
        TokenKind::LogicalAnd | TokenKind::LogicalOr => false,
        TokenKind::Question | TokenKind::Colon => false,
        TokenKind::Assign | TokenKind::AddAssign | TokenKind::SubtractAssign => false,
        TokenKind::MultiplyAssign | TokenKind::DivideAssign | TokenKind::RemainderAssign => false,
        TokenKind::LeftShiftAssign | TokenKind::RightShiftAssign => false,
        TokenKind::UnsignedRightShiftAssign | TokenKind::BitwiseAndAssign => false,
        TokenKind::BitwiseOrAssign | TokenKind::BitwiseXorAssign | TokenKind::Arrow => false,
        _ => true,
    }
}

/// Whether the next token is a name that isn't reserved.
pub fn is_name_next(tokens: &[Token<'_>]) -> bool
    ensures { result ≡ is_name_next (head_of (tokens_view tokens.now)) }
{
    is_next(TokenKind::Name, tokens)
}
