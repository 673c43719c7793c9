//! Why no token begins where a script goes on, or why it can't end there.

use crate::bracket::{Bracket, Hold};
use crate::reason::Reason;
use cdp_text::position::Pos;

/// Why no token begins with this text, which isn't empty.
pub(crate) fn bad_reason<'t>(text: &'t str) -> Reason<'t> {
    if text.starts_with("/") {
        return Reason::OpenComment;
    }
    if text.starts_with("`") {
        return Reason::NoForm("templates: '`'");
    }
    match text.chars().next() {
        Some(quote) if quote == '"' || quote == '\'' => string_reason(text, quote),
        Some(first) if first.is_ascii_digit() => Reason::NoNumber(number_text(text)),
        Some(first) => Reason::NoToken(text.get(..first.len_utf8()).unwrap_or(text)),
        None => Reason::End,
    }
}

/// Why no string begins with this text, which begins with a quote: its line ends first, or an escape is none.
fn string_reason(text: &str, quote: char) -> Reason<'static> {
    let mut escaped = false;
    let mut last = quote;
    for character in text.chars().skip(1) {
        if escaped {
            escaped = false;
        } else if character == '\r' || (character == '\n' && last != '\r') {
            return Reason::OpenString;
        } else if character == quote {
            return Reason::Escape;
        } else {
            escaped = character == '\\';
        }
        last = character;
    }
    Reason::OpenString
}

/// The digits, letters and dots with which a text begins.
fn number_text(text: &str) -> &str {
    let end = text.find(|c: char| !c.is_ascii_alphanumeric() && c != '.' && c != '_');
    text.get(..end.unwrap_or(text.len())).unwrap_or(text)
}

/// Why a script can't end in this bracket, which is at this position, behind a token of this text.
pub(crate) fn end_reason<'t>(bracket: &Bracket, at: Pos, last: &'t str) -> Reason<'t> {
    match bracket.hold {
        Hold::Script if last.is_empty() => Reason::End,
        Hold::Script => Reason::EndBehind(last),
        Hold::Block | Hold::Function | Hold::Object => Reason::OpenBracket { bracket: "{", at },
        Hold::Elements => Reason::OpenBracket { bracket: "[", at },
        Hold::Parentheses(_) => Reason::OpenBracket { bracket: "(", at },
    }
}
