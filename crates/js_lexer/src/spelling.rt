//! Looking up a text in a table of tokens with one spelling each.

ghost use Rattle.std.specs.Prelude.{◌≡◌, ◌≤◌, length, IfSome};
ghost use Rattle.js_lexer.specs.Spellings.{is_prefix_of, is_same, kind_in, first_in, entries};

use crate::token::TokenKind;

/// Whether these units begin with an ASCII text.
pub fn begins_with(units: &[u16], text: &str) -> bool
    ensures { result ≡ is_prefix_of text.now units.now }
{
    let mut rest = units;
    for b in text.as_bytes() {
        let [u, after @ ..] = rest else {
            return false;
        };
        if *u != u16::from(*b) {
            return false;
        }
        rest = after;
    }
    true
}

/// Whether these units are an ASCII text.
fn is_same(units: &[u16], text: &str) -> bool
    ensures { result ≡ is_same text.now units.now }
{
    units.len() == text.len() && begins_with(units, text)
}

/// The kind of a word: that of the table's entry with this text, or `Name` where there is none.
pub fn kind_in(table: &[(TokenKind, &str)], text: &[u16]) -> TokenKind
    ensures { result ≡ kind_in (entries table.now) text.now }
{
    for (kind, spelling) in table {
        if is_same(text, spelling) {
            return *kind;
        }
    }
    TokenKind::Name
}

/// The first entry of the table whose text stands at the front, with its length.
#[tactic(auto, using(crate::proofs::SpellingLemmas::prefix_fits))]
pub fn first_in(table: &[(TokenKind, &str)], units: &[u16]) -> Option<(TokenKind, usize)>
    ensures entry { result ≡ first_in (entries table.now) units.now }
    ensures within { IfSome result (λ t. t.1 ≤ length units.now) }
{
    for (kind, spelling) in table {
        if begins_with(units, spelling) {
            return Some((*kind, spelling.len()));
        }
    }
    None
}
