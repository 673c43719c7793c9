//! The parts of a text: what stands behind a front, and around the first byte of a kind.
ghost use Rattle.std.specs.Prelude.{◌≡◌, ◌≢◌, ◌<◌, ◌∷◌, ◌++◌, ℕ, List, length, map, slice_index, IfSome, IfNone};
ghost use Rattle.std.specs.Option.{option_map};
ghost use Rattle.cdp_text.specs.Parts.{behind, halves};

use crate::code_unit::CodeUnit;

/// What stands behind this front of a text; None where the text doesn't begin with it.
pub fn behind<'t>(text: &'t str, front: &str) -> Option<&'t str>
    ensures value { option_map (λ rest. rest.now) result ≡ behind front.now text.now }
    ensures parts { IfSome result (λ rest. text.now ≡ front.now ++ rest.now) }
    ensures none { IfNone result ((rest : List ℕ) → text.now ≢ front.now ++ rest) }
{
    text.strip_prefix(front)
}

/// What stands before and behind the first such ASCII character of a text; None where there is none.
pub fn halves(text: &str, separator: char) -> Option<(&str, &str)>
    requires { separator < 128 }
    ensures value { option_map (λ parts. record { front = parts.0.now; back = parts.1.now }) result ≡ halves separator text.now }
    ensures parts { IfSome result (λ parts. (text.now ≡ parts.0.now ++ separator ∷ parts.1.now)
        × ((i : ℕ) → i < length parts.0.now → slice_index parts.0.now i ≢ separator)) }
    ensures none { IfNone result ((i : ℕ) → i < length text.now → slice_index text.now i ≢ separator) }
{
    text.split_once(separator)
}

/// What stands before and behind the first such byte or unit; None where there is none.
pub fn unit_halves<C: CodeUnit>(units: &[C], separator: C) -> Option<(&[C], &[C])>
    ensures { option_map (λ parts. record { front = map C.code parts.0.now; back = map C.code parts.1.now }) result
        ≡ halves (C.code separator) (map C.code units.now) }
{
    let code = separator.code();
    for i in 0..units.len() {
        if units[i].code() == code {
            return Some((&units[..i], &units[i + 1..]));
        }
    }
    None
}
