//! String literals (ECMA-262, 12.9.4).

ghost use Rattle.std.specs.Prelude.{◌≡◌, ◌≤◌, ◌<◌, ◌+◌, ◌++◌, ◌==◌, length, IfSome, IfOk, OnOk, Some, None};
ghost use Rattle.std.specs.Option.{ForSome};
ghost use Rattle.js_lexer.specs.Classes as classes;
ghost use Rattle.js_lexer.specs.Classes.{begins, leading};
ghost use Rattle.js_lexer.specs.Strings as spec;
ghost use Rattle.js_lexer.specs.Strings.{IsString, IsStringLiteral, units_of};
ghost use Rattle.js_lexer.specs.Characters.{Fits, hex_at, unit_at, code_point_at, unicode_at, escape_at, character_at, character_len, string_value};
ghost use Rattle.js_lexer.specs.Pieces.{run};

use crate::classes::is_digit;
use crate::number::{digit_value, digits_value};
use cdp_text::position::is_line_terminator;
use cdp_text::units::Units;
use std::alloc::{AllocError, Global};

/// A character of a string literal: how many units it has, and the code point that it stands for.
/// A line continuation stands for none.
#[derive(Clone, Copy)]
struct Character {
    len: usize,
    value: Option<u32>,
}

/// The greatest code point.
const MAX_CODE_POINT: u64 = 0x10_FFFF;

/// Whether a unit may stand raw in a string literal in this quote.
fn is_plain(quote: u16, c: u16) -> bool
    ensures { result ≡ spec.is_plain quote c }
{
    !(c == quote || c == 0x5C || c == 0x0A || c == 0x0D)
}

/// Whether a unit is a hexadecimal digit.
fn is_hex(c: u16) -> bool
    ensures { result ≡ spec.is_hex c }
{
    digit_value(c) < 16
}

/// What `\` and such a unit stand for.
fn single_value(c: u16) -> u32
    ensures value { result ≡ spec.single_value c }
    ensures small { result ≤ 0xFFFF }
{
    u32::from(match c {
        0x62 => 0x08,
        0x74 => 0x09,
        0x6E => 0x0A,
        0x76 => 0x0B,
        0x66 => 0x0C,
        0x72 => 0x0D,
        _ => c,
    })
}

/// The escape whose two digits stand behind `\x`.
fn hex_at(units: &[u16]) -> Option<Character>
    ensures value { result ≡ hex_at units.now }
    ensures fits { IfSome result (Fits (length units.now + 2)) }
{
    match units {
        [a, b, ..] if is_hex(*a) && is_hex(*b) => Some(Character {
            len: 4,
            value: Some(digit_value(*a) * 16 + digit_value(*b)),
        }),
        _ => None,
    }
}

/// The escape whose four digits stand behind `\u`.
fn unit_at(units: &[u16]) -> Option<Character>
    ensures value { result ≡ unit_at units.now }
    ensures fits { IfSome result (Fits (length units.now + 2)) }
{
    match units {
        [a, b, c, d, ..] if is_hex(*a) && is_hex(*b) && is_hex(*c) && is_hex(*d) => {
            let high = digit_value(*a) * 16 + digit_value(*b);
            let low = digit_value(*c) * 16 + digit_value(*d);
            Some(Character {
                len: 6,
                value: Some(high * 256 + low),
            })
        }
        _ => None,
    }
}

/// How many units at the front are hexadecimal digits.
fn hex_len(units: &[u16]) -> usize
    ensures value { result ≡ leading spec.is_hex units.now }
    ensures within { result ≤ length units.now }
{
    for (i, u) in units.iter().enumerate() {
        if !is_hex(*u) {
            return i;
        }
    }
    units.len()
}

/// The escape whose digits and `}` stand behind `\u{`.
fn code_point_at(units: &[u16]) -> Option<Character>
    ensures value { result ≡ code_point_at units.now }
    ensures fits { IfSome result (Fits (length units.now + 3)) }
{
    let len = hex_len(units);
    let (digits, after) = units.split_at(len);
    let [0x7D, ..] = after else {
        return None;
    };
    match digits_value(16, digits) {
        Some(value) if len != 0 && value <= MAX_CODE_POINT => Some(Character {
            len: len + 4,
            value: Some(value as u32),
        }),
        _ => None,
    }
}

/// The escape whose rest stands behind `\u`.
fn unicode_at(units: &[u16]) -> Option<Character>
    ensures value { result ≡ unicode_at units.now }
    ensures fits { IfSome result (Fits (length units.now + 2)) }
{
    match units {
        [0x7B, digits @ ..] => code_point_at(digits),
        _ => unit_at(units),
    }
}

/// Whether a digit comes next.
fn digit_next(units: &[u16]) -> bool
    ensures { result ≡ begins classes.is_digit units.now }
{
    match units {
        [u, ..] => is_digit(*u),
        [] => false,
    }
}

/// Whether an LF comes next.
fn line_feed_next(units: &[u16]) -> bool
    ensures { result ≡ begins (λ c. c == 10) units.now }
{
    matches!(units, [0x0A, ..])
}

/// The escape whose rest stands behind a `\`.
fn escape_at(units: &[u16]) -> Option<Character>
    ensures value { result ≡ escape_at units.now }
    ensures fits { IfSome result (Fits (length units.now + 1)) }
{
    let [c, after @ ..] = units else {
        return None;
    };
    match *c {
        0x30 if !digit_next(after) => Some(Character {
            len: 2,
            value: Some(0),
        }),
        0x30..=0x39 => None,
        0x78 => hex_at(after),
        0x75 => unicode_at(after),
        0x0D if line_feed_next(after) => Some(Character {
            len: 3,
            value: None,
        }),
        _ if is_line_terminator(*c) => Some(Character {
            len: 2,
            value: None,
        }),
        _ => Some(Character {
            len: 2,
            value: Some(single_value(*c)),
        }),
    }
}

/// The character at the front of a string literal's rest.
fn character_at(quote: u16, units: &[u16]) -> Option<Character>
    ensures value { result ≡ character_at quote units.now }
    ensures fits { IfSome result (Fits (length units.now)) }
{
    match units {
        [0x5C, after @ ..] => escape_at(after),
        [c, ..] if is_plain(quote, *c) => Some(Character {
            len: 1,
            value: Some(u32::from(*c)),
        }),
        _ => None,
    }
}

/// How many units at the front are characters of a string literal in this quote.
#[tactic(auto, using(crate::proofs::RunLemmas::run_steps))]
pub(crate) fn characters_len(quote: u16, units: &[u16]) -> usize
    ensures value { result ≡ run (character_len quote) 0 units.now }
    ensures within { result ≤ length units.now }
{
    let mut rest = units;
    let mut len = 0;
    while let Some(character) = character_at(quote, rest) {
        let (_, after) = rest.split_at(character.len);
        len += character.len;
        rest = after;
    }
    len
}

/// Adds the units of a code point, or nothing (ECMA-262, 11.1.1, UTF16EncodeCodePoint).
fn push_code_point(units: &mut Vec<u16>, value: Option<u32>) -> Result<(), AllocError>
    requires { ForSome value (λ v. v ≤ 0x10FFFF) }
    ensures { OnOk result (units.new.items ≡ units.old.items ++ units_of value) }
{
    match value {
        None => {}
        Some(c) if c <= 0xFFFF => units.push(c as u16)?,
        Some(c) => {
            let above = c - 0x1_0000;
            units.push((0xD800 + above / 0x400) as u16)?;
            units.push((0xDC00 + above % 0x400) as u16)?;
        }
    }
    Ok(())
}

/// The units that a token of the kind `String` stands for (ECMA-262, 12.9.4.2), from its text. Of
/// a text that is no string literal it decodes what begins one.
#[tactic(auto, using(crate::proofs::LiteralLemmas::decoded_steps))]
pub fn string_value(alloc: Global, text: &[u16]) -> Result<Units, AllocError>
    ensures value { IfOk result (λ u. u ≡ string_value text.now) }
    ensures meaning { IsStringLiteral text.now → IsString text.now (string_value text.now) }
{
    let mut units = Vec::new(alloc);
    if let [quote, body @ ..] = text {
        let mut rest = body;
        while let Some(character) = character_at(*quote, rest) {
            push_code_point(&mut units, character.value)?;
            let (_, after) = rest.split_at(character.len);
            rest = after;
        }
    }
    Ok(Units::from_vec(units))
}
