//! Numeric literals (ECMA-262, 12.9.3), of integers.

ghost use Rattle.std.specs.Prelude.{◌≡◌, ◌^◌, ◌<◌, ◌≤◌, Some, None, nat_lt, if◌then◌else◌};
ghost use Rattle.std.specs.List.{list_all};
ghost use Rattle.js_lexer.specs.Numbers as spec;
ghost use Rattle.js_lexer.specs.Numbers.{IsNumber};
ghost use Rattle.js_lexer.specs.Scanning.{number_of};

/// The greatest number, 2^53 - 1.
pub const MAX_NUMBER: u64 = 0x1F_FFFF_FFFF_FFFF;

/// What a digit is worth, 0 to 15; 16 for a unit that is no digit.
pub(crate) fn digit_value(c: u16) -> u32
    ensures value { result ≡ spec.digit_value c }
    ensures small { result ≤ 16 }
{
    let value = match c {
        0x30..=0x39 => c - 0x30,
        0x61..=0x66 => c - 0x57,
        0x41..=0x46 => c - 0x37,
        _ => 16,
    };
    u32::from(value)
}

/// The base that the letter after a 0 names; 10 for a unit that names none.
fn base_of(c: u16) -> u64
    ensures value { result ≡ spec.base_of c }
    ensures some { 1 ≤ result }
    ensures small { result ≤ 16 }
{
    match c {
        0x78 | 0x58 => 16,
        0x6F | 0x4F => 8,
        0x62 | 0x42 => 2,
        _ => 10,
    }
}

/// The base of a literal, and its digits.
fn base_and_digits(text: &[u16]) -> (u64, &[u16])
    ensures base { result.0 ≡ (spec.base_and_digits text.now).0 }
    ensures digits { result.1.now ≡ (spec.base_and_digits text.now).1 }
    ensures some { 1 ≤ result.0 }
    ensures small { result.0 ≤ 16 }
{
    if let [zero, letter, digits @ ..] = text {
        let base = base_of(*letter);
        if *zero == 0x30 && base != 10 {
            return (base, digits);
        }
    }
    (10, text)
}

/// Whether each unit is a digit of this base.
fn all_digits(base: u64, units: &[u16]) -> bool
    ensures { result ≡ list_all (λ c. nat_lt (spec.digit_value c) base) units.now }
{
    units.iter().all(|c| u64::from(digit_value(*c)) < base)
}

/// Whether these are digits of this base, one at least.
fn are_digits(base: u64, units: &[u16]) -> bool
    ensures { result ≡ spec.are_digits base units.now }
{
    all_digits(base, units) && !units.is_empty()
}

/// Whether these are the digits of a decimal literal: no 0 stands before others.
fn is_decimal(digits: &[u16]) -> bool
    ensures { result ≡ spec.is_decimal digits.now }
{
    are_digits(10, digits) && (digits[0] != 0x30 || digits.len() == 1)
}

/// What digits are worth, or `None` where that is above the greatest number.
#[tactic(auto, using(crate::proofs::NumberLemmas::digits_value_grows))]
pub(crate) fn digits_value(base: u64, digits: &[u16]) -> Option<u64>
    requires some { 1 ≤ base }
    requires small { base ≤ 16 }
    ensures { result ≡ (if nat_lt (spec.digits_value base 0 digits.now) (2 ^ 53) then Some (spec.digits_value base 0 digits.now) else None) }
{
    let mut value = 0;
    for d in digits {
        value = value * base + u64::from(digit_value(*d));
        if value > MAX_NUMBER {
            return None;
        }
    }
    Some(value)
}

/// The value of a text that is a number: a numeric literal of at most 2^53 - 1. `None` exactly
/// where it isn't one.
pub(crate) fn number_of(text: &[u16]) -> Option<u64>
    ensures { result ≡ number_of text.now }
{
    let (base, digits) = base_and_digits(text);
    let is_numeral = if base == 10 {
        is_decimal(digits)
    } else {
        are_digits(base, digits)
    };
    if is_numeral {
        digits_value(base, digits)
    } else {
        None
    }
}

/// The value of a token of the kind `Number` (ECMA-262, 12.9.3.3), from its text.
pub fn number_value(text: &[u16]) -> u64
    requires { IsNumber text.now }
    ensures value { result ≡ spec.number_value text.now }
    ensures safe { result < 2 ^ 53 }
{
    match number_of(text) {
        Some(value) => value,
        None => unreachable!(),
    }
}
