//! Texts of one line.

ghost use Rattle.std.specs.Prelude.{◌≡◌, ◌<◌, ◌∷◌, ◌++◌, ℕ, Some, None, OnOk, IfOk, IfSome, IfNone, false, length, string_bytes};
ghost use Rattle.std.specs.List.{list_any};
ghost use Rattle.std.specs.Option.{option_map};
ghost use Rattle.cdp_journal.specs.Escapes.{byte_escaped, escaped, is_line_end, is_plain, stands_for, unescaped, unescaped_form};

use cdp_text::parts::{behind, halves};
use memchr::memchr3;
use std::alloc::{AllocError, Global};

/// What is written for a byte that doesn't stand for itself: `%25`, `%0A` and `%0D` for `%`, LF and CR.
fn form_of(byte: u8) -> &'static str
    requires { is_plain byte ≡ false }
    ensures { result.now ≡ byte_escaped byte }
{
    if byte == b'%' {
        "%25"
    } else if byte == b'\n' {
        "%0A"
    } else {
        "%0D"
    }
}

/// What stands before the first byte of a text that doesn't stand for itself, what is written for that, and what stands
/// behind it; None where the text is written as it is.
fn first_form(text: &str) -> Option<(&str, &'static str, &str)>
    ensures parts { IfSome result (λ parts. escaped text.now ≡ parts.0.now ++ parts.1.now ++ escaped parts.2.now) }
    ensures shorter { IfSome result (λ parts. length parts.2.now < length text.now) }
    ensures none { IfNone result (escaped text.now ≡ text.now) }
{
    let bytes = text.as_bytes();
    match memchr3(b'%', b'\n', b'\r', bytes) {
        Some(place) => {
            let form = form_of(bytes[place]);
            Some((&text[..place], form, &text[place + 1..]))
        }
        None => None,
    }
}

/// Puts a text behind another as it is written in one line: with `%25`, `%0A` and `%0D` for `%`, LF and CR.
pub fn push_escaped(line: &mut String, text: &str) -> Result<(), AllocError>
    ensures { OnOk result (string_bytes line.new ≡ string_bytes line.old ++ escaped text.now) }
{
    let mut rest = text;
    while let Some((plain, form, after)) = first_form(rest) {
        line.push_str(plain)?;
        line.push_str(form)?;
        rest = after;
    }
    line.push_str(rest)
}

/// Whether a text holds LF or CR.
fn has_line_end(text: &str) -> bool
    ensures { result ≡ list_any is_line_end text.now }
{
    text.as_bytes()
        .iter()
        .any(|byte| *byte == b'\n' || *byte == b'\r')
}

/// The character for which a `%` before this text stands, and what is behind that; None where it stands for none.
fn read_form(text: &str) -> Option<(char, &str)>
    ensures parts { IfSome result (λ form. (first : ℕ) × (second : ℕ) × (text.now ≡ first ∷ second ∷ form.1.now) × (stands_for first second ≡ Some form.0)) }
    ensures none { IfNone result (unescaped_form text.now ≡ None) }
{
    if let Some(rest) = behind(text, "25") {
        Some(('%', rest))
    } else if let Some(rest) = behind(text, "0A") {
        Some(('\n', rest))
    } else if let Some(rest) = behind(text, "0D") {
        Some(('\r', rest))
    } else {
        None
    }
}

/// The text that is written so, with `%25`, `%0A` and `%0D` for `%`, LF and CR; None where one of these stands for itself.
pub fn unescape(alloc: Global, written: &str) -> Result<Option<String>, AllocError>
    ensures { IfOk result (λ text. option_map string_bytes text ≡ unescaped written.now) }
{
    if has_line_end(written) {
        return Ok(None);
    }
    let mut text = String::new(alloc);
    let mut rest = written;
    while let Some((plain, form)) = halves(rest, '%') {
        let Some((character, after)) = read_form(form) else {
            return Ok(None);
        };
        text.push_str(plain)?;
        text.push(character)?;
        rest = after;
    }
    text.push_str(rest)?;
    Ok(Some(text))
}
