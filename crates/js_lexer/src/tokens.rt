//! The tokens of a source.

ghost use Rattle.std.specs.Prelude.{◌≡◌, ◌≤◌, ◌<◌, ◌+◌, ◌^◌, length, IfSome};
ghost use Rattle.js_lexer.specs.Classes.{begins, is_word_part, leading};
ghost use Rattle.js_lexer.specs.Numbers as numbers;
ghost use Rattle.js_lexer.specs.Gaps as gaps;
ghost use Rattle.js_lexer.specs.Scanning.{number_token, string_token, token_at};

use crate::classes::{is_digit, is_quote, is_word_part, is_word_start, word_len};
use crate::gap::{gap_len, has_line_terminator};
use crate::number::number_of;
use crate::punctuators::punctuator;
use crate::spelling::begins_with;
use crate::strings::characters_len;
use crate::token::{BadToken, Token, TokenKind};
use crate::words::word_kind;

/// Whether a unit comes next that may not stand at once behind a number.
fn goes_on(units: &[u16]) -> bool
    ensures { result ≡ begins numbers.goes_on units.now }
{
    match units {
        [u, ..] => is_word_part(*u) || *u == 0x2E,
        [] => false,
    }
}

/// The number at the front, with its length.
fn number(units: &[u16]) -> Option<(TokenKind, usize)>
    ensures value { result ≡ number_token (leading is_word_part units.now) units.now }
    ensures within { IfSome result (λ t. t.1 ≤ length units.now) }
{
    let len = word_len(units);
    let (text, more) = units.split_at(len);
    if number_of(text).is_some() && !goes_on(more) {
        Some((TokenKind::Number, len))
    } else {
        None
    }
}

/// The string literal at the front, which begins with a quote, with its length.
fn string(units: &[u16]) -> Option<(TokenKind, usize)>
    ensures value { result ≡ string_token units.now }
    ensures within { IfSome result (λ t. t.1 ≤ length units.now) }
{
    let [quote, body @ ..] = units else {
        return None;
    };
    let len = characters_len(*quote, body);
    let (_, after) = body.split_at(len);
    match after {
        [end, ..] if *end == *quote => Some((TokenKind::String, len + 2)),
        _ => None,
    }
}

/// Whether `//` or `/*` stands here.
fn opens_comment(units: &[u16]) -> bool
    ensures { result ≡ gaps.opens_comment units.now }
{
    begins_with(units, "//") || begins_with(units, "/*")
}

/// The token at the front, with its length.
#[tactic(auto, unfolding(crate::specs::Scanning::token_at))]
fn token(units: &[u16]) -> Option<(TokenKind, usize)>
    ensures longest { result ≡ token_at units.now }
    ensures within { IfSome result (λ t. t.1 ≤ length units.now) }
{
    match units {
        [u, ..] if is_word_start(*u) => {
            let len = word_len(units);
            let (text, _) = units.split_at(len);
            Some((word_kind(text), len))
        }
        [u, ..] if is_digit(*u) => number(units),
        [u, ..] if is_quote(*u) => string(units),
        _ if opens_comment(units) => None,
        _ => punctuator(units),
    }
}

/// What is left of a source.
#[derive(Clone, Copy)]
pub struct Tokens<'s> {
    left: &'s [u16],
    at: usize,
    done: bool,
    ghost fits: { at + length left.now < 2 ^ 64 },
}

impl<'s> Tokens<'s> {
    ghost use Rattle.std.specs.Prelude.{◌≡◌};
    ghost use Rattle.js_lexer.specs.State.{items_of, tokens_left};
    ghost use Rattle.js_lexer.specs.Tokens.{Tile};

    /// The tokens of a source, in order, which tile it with the gaps between them. Where no token
    /// begins, the last item is the bad token's place.
    pub fn new(source: &'s [u16]) -> Tokens<'s>
        ensures tile { Tile 0 source.now (tokens_left result) }
        ensures items { tokens_left result ≡ items_of source.now }
    {
        Tokens {
            left: source,
            at: 0,
            done: false,
        }
    }
}

impl<'s> Iterator for Tokens<'s> {
    ghost use Rattle.std.specs.Iterator.{YieldsFirstBy, item_count};
    ghost use Rattle.js_lexer.specs.State.{tokens_left, item_view};

    type Item = Result<Token<'s>, BadToken>;

    ghost next_gives = { YieldsFirstBy item_view tokens_left };

    ghost remaining = { item_count tokens_left };

    fn next(&mut self) -> Option<Result<Token<'s>, BadToken>> {
        if self.done {
            return None;
        }
        let (gap, here) = self.left.split_at(gap_len(self.left));
        let start = self.at + gap.len();
        let Some((kind, len)) = token(here) else {
            self.done = true;
            if here.is_empty() {
                return None;
            }
            return Some(Err(BadToken { at: start }));
        };
        let (text, left) = here.split_at(len);
        self.left = left;
        self.at = start + len;
        Some(Ok(Token {
            kind,
            text,
            start,
            newline_before: has_line_terminator(gap),
        }))
    }
}
