//! What the next tokens begin or go on with in an object literal (ECMA-262, 13.2.5).

ghost use Rattle.std.specs.Prelude.{◌≡◌};
ghost use Rattle.js_parser_language.specs.Tokens.{head_of};
ghost use Rattle.js_parser_readers.specs.Classes.{after_key, is_shorthand, key_start};
ghost use Rattle.js_parser_readers.specs.Heads.{after_key_view, key_start_view};
ghost use Rattle.js_parser_readers.specs.Views.{tokens_view};

use crate::classes::lists::{is_name_next, is_word};
use crate::token::tail;
use js_lexer::number::number_value;
use js_lexer::token::{Token, TokenKind};
use js_tree::integer::SafeInteger;

/// What begins the key of a property.
#[derive(Clone, Copy)]
pub enum KeyStart<'s> {
    /// A name or a reserved word, with its text.
    Word(&'s [u16]),
    /// A string literal, with its text in quotes.
    String(&'s [u16]),
    /// A numeric literal, with its value.
    Number(SafeInteger),
    /// `[`
    Computed,
}

/// What comes behind a key.
#[derive(Clone, Copy)]
pub enum AfterKey {
    /// `:`
    Colon,
    /// `(`
    Parameters,
}

/// The key that the next token begins. `None` where it begins none.
pub fn key_start_of<'s>(tokens: &[Token<'s>]) -> Option<KeyStart<'s>>
    ensures { key_start_view result ≡ key_start (head_of (tokens_view tokens.now)) }
{
    let [token, ..] = tokens else {
        return None;
    };
    match token.kind {
        TokenKind::String => Some(KeyStart::String(token.text)),
        TokenKind::Number => Some(KeyStart::Number(SafeInteger {
            value: number_value(token.text),
        })),
        TokenKind::LeftBracket => Some(KeyStart::Computed),
        kind if is_word(kind) => Some(KeyStart::Word(token.text)),
        _ => None,
    }
}

/// What the next token says of the key before it. `None` where that is no key with a value or
/// parameters.
pub fn after_key_of(tokens: &[Token<'_>]) -> Option<AfterKey>
    ensures { after_key_view result ≡ after_key (head_of (tokens_view tokens.now)) }
{
    let [token, ..] = tokens else {
        return None;
    };
    match token.kind {
        TokenKind::Colon => Some(AfterKey::Colon),
        TokenKind::LeftParenthesis => Some(AfterKey::Parameters),
        _ => None,
    }
}

/// Whether a name with neither a colon nor a parenthesis behind it comes.
pub fn is_shorthand(tokens: &[Token<'_>]) -> bool
    ensures { result ≡ is_shorthand (tokens_view tokens.now) }
{
    is_name_next(tokens) && after_key_of(tail(tokens)).is_none()
}
