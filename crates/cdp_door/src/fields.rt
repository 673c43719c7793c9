//! The header fields of a request, and the words of their values.

ghost use Rattle.std.specs.Prelude.{◌≡◌, ◌<◌, ◌∷◌, [], length, map, reverse, All, IfSome, IfNone};
ghost use Rattle.std.specs.Option.{option_map};
ghost use Rattle.std.specs.Str.{str_eq_ignore_ascii_case};
ghost use Rattle.httparse.specs.Grammar.{is_ows, skip_ows};
ghost use Rattle.httparse.specs.Spans.{header_bytes, IsHeaderWithin};
ghost use Rattle.cdp_door.specs.Fields.{first_value, parts_of, is_word, has_word, is_there_and};

use cdp_text::parts::unit_halves;
use httparse::spans::HeaderSpan;
use std::marker::Model;

/// The fields of a head, by where their names and values lie in it. A contract sees each as its name and its value.
#[derive(Drop)]
pub struct Fields<'b, 's> {
    bytes: &'b [u8],
    spans: &'s [HeaderSpan],
}

impl<'b, 's> Model for Fields<'b, 's> {
    ghost use Rattle.std.specs.Prelude.{ℕ, List, length, map, All};
    ghost use Rattle.httparse.specs.Spans.{header_bytes, IsHeaderWithin};

    ghost Value = { List (List ℕ × List ℕ) };

    ghost view = { λ a. map (header_bytes a.bytes.now) a.spans.now };

    ghost invariant = { λ a. All (IsHeaderWithin (length a.bytes.now)) a.spans.now };
}

impl<'b, 's> Fields<'b, 's> {
    /// The fields that lie there in the bytes.
    pub fn new(bytes: &'b [u8], spans: &'s [HeaderSpan]) -> Fields<'b, 's>
        requires { All (IsHeaderWithin (length bytes.now)) spans.now }
        ensures { result ≡ map (header_bytes bytes.now) spans.now }
    {
        Fields { bytes, spans }
    }

    /// The value of the first field of this name, which has no ASCII case.
    pub fn first(&self, name: &str) -> Option<&'b [u8]>
        ensures { option_map (λ value. value.now) result ≡ first_value name.now self.now }
    {
        first_in(self.bytes, self.spans, name)
    }

    /// Whether the first field of this name is there and has this word among its parts.
    pub fn has_word(&self, name: &str, word: &str) -> bool
        ensures { result ≡ is_there_and (has_word word.now) (first_value name.now self.now) }
    {
        match self.first(name) {
            Some(value) => has_word(value, word),
            None => false,
        }
    }
}

/// The value of the first of these fields that has this name.
fn first_in<'b>(bytes: &'b [u8], spans: &[HeaderSpan], name: &str) -> Option<&'b [u8]>
    requires { All (IsHeaderWithin (length bytes.now)) spans.now }
    ensures { option_map (λ value. value.now) result
        ≡ first_value name.now (map (header_bytes bytes.now) spans.now) }
{
    let mut rest = spans;
    while let Some((span, others)) = rest.split_first() {
        if is_same(span.name.of(bytes), name) {
            return Some(span.value.of(bytes));
        }
        rest = others;
    }
    None
}

/// Whether two texts are the same without ASCII case.
pub fn is_same(text: &[u8], word: &str) -> bool
    ensures { result ≡ str_eq_ignore_ascii_case text.now word.now }
{
    text.eq_ignore_ascii_case(word.as_bytes())
}

/// Whether a value has this word among its parts.
fn has_word(value: &[u8], word: &str) -> bool
    ensures { result ≡ has_word word.now value.now }
{
    let mut rest = value;
    while let Some((part, after)) = cut(rest) {
        if is_word(part, word) {
            return true;
        }
        rest = after;
    }
    is_word(rest, word)
}

/// The first part of a value and what stands after its comma; None where there is no comma.
fn cut(value: &[u8]) -> Option<(&[u8], &[u8])>
    ensures first { IfSome result (λ cut. parts_of value.now ≡ cut.0.now ∷ parts_of cut.1.now) }
    ensures shorter { IfSome result (λ cut. length cut.1.now < length value.now) }
    ensures last { IfNone result (parts_of value.now ≡ value.now ∷ []) }
{
    unit_halves(value, b',')
}

/// Whether a part is this word but for the blanks around it and for ASCII case.
#[tactic(auto, using(crate::proofs::PartLemmas::trims))]
fn is_word(part: &[u8], word: &str) -> bool
    ensures { result ≡ is_word word.now part.now }
{
    is_same(without_last_blanks(without_first_blanks(part)), word)
}

/// Whether a byte is a space or a tab.
fn is_blank(byte: u8) -> bool
    ensures { result ≡ is_ows byte }
{
    byte == b' ' || byte == b'\t'
}

/// The bytes from the first that is no blank.
fn without_first_blanks(bytes: &[u8]) -> &[u8]
    ensures { result.now ≡ skip_ows bytes.now }
{
    let mut rest = bytes;
    while let Some((first, others)) = rest.split_first() {
        if !is_blank(*first) {
            return rest;
        }
        rest = others;
    }
    rest
}

/// The bytes up to the last that is no blank.
#[tactic(auto, using(crate::proofs::PartLemmas::ends))]
fn without_last_blanks(bytes: &[u8]) -> &[u8]
    ensures { result.now ≡ reverse (skip_ows (reverse bytes.now)) }
{
    let mut rest = bytes;
    while let Some((last, others)) = rest.split_last() {
        if !is_blank(*last) {
            return rest;
        }
        rest = others;
    }
    rest
}
