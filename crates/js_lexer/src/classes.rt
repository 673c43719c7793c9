//! Classes of code units.

ghost use Rattle.std.specs.Prelude.{◌≡◌, ◌≤◌, length};
ghost use Rattle.js_lexer.specs.Classes as spec;
ghost use Rattle.js_lexer.specs.Classes.{leading};

use cdp_text::position::is_line_terminator;

/// Whether a unit is white space (ECMA-262, 12.2).
pub fn is_white_space(c: u16) -> bool
    ensures { result ≡ spec.is_white_space c }
{
    matches!(
        c,
        0x0009 | 0x000B | 0x000C | 0x0020 | 0x00A0 | 0x1680 | 0x2000..=0x200A
            | 0x202F
            | 0x205F
            | 0x3000
            | 0xFEFF
    )
}

/// Whether a unit is white space or a line terminator.
pub fn is_blank(c: u16) -> bool
    ensures { result ≡ spec.is_blank c }
{
    is_white_space(c) || is_line_terminator(c)
}

/// Whether a unit is a digit, 0 to 9.
pub fn is_digit(c: u16) -> bool
    ensures { result ≡ spec.is_digit c }
{
    0x30 <= c && c <= 0x39
}

/// Whether a word begins with this unit: a letter, `$` or `_`.
pub fn is_word_start(c: u16) -> bool
    ensures { result ≡ spec.is_word_start c }
{
    (0x41 <= c && c <= 0x5A) || (0x61 <= c && c <= 0x7A) || c == 0x24 || c == 0x5F
}

/// Whether a word goes on with this unit: a letter, `$`, `_` or a digit.
pub fn is_word_part(c: u16) -> bool
    ensures { result ≡ spec.is_word_part c }
{
    is_word_start(c) || is_digit(c)
}

/// Whether a string literal begins with this unit: `"` or `'`.
pub fn is_quote(c: u16) -> bool
    ensures { result ≡ spec.is_quote c }
{
    c == 0x22 || c == 0x27
}

/// How many units at the front are letters, `$`, `_` and digits.
pub fn word_len(units: &[u16]) -> usize
    ensures value { result ≡ leading spec.is_word_part units.now }
    ensures within { result ≤ length units.now }
{
    for (i, u) in units.iter().enumerate() {
        if !is_word_part(*u) {
            return i;
        }
    }
    units.len()
}
