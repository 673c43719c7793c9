//! Shortest decimal texts of numbers below 2^64.
ghost use Rattle.std.specs.Prelude.{◌≡◌, ◌≢◌, ℕ, ◌<◌, ◌^◌, IfSome, IfNone, decimal, map};
ghost use Rattle.cdp_text.specs.Decimal.{begins_shortest, decimal_value, digits_number};

use crate::code_unit::CodeUnit;

const ZERO: u16 = 48;

const NINE: u16 = 57;

/// The number whose shortest decimal text this is: `0`, or digits of which the first isn't `0`.
/// None for every other text, also for a sign or a space, and from 2^64 on.
pub fn read_decimal(text: &str) -> Option<u64>
    ensures value { result ≡ decimal_value text.now }
    ensures shortest { IfSome result (λ n. text.now ≡ decimal n) }
    ensures none { IfNone result ((n : ℕ) → n < 2 ^ 64 → text.now ≢ decimal n) }
{
    read_decimal_units(text.as_bytes())
}

/// The number whose shortest decimal text these bytes or units are, as `read_decimal` reads it.
#[tactic(auto, using(crate::proofs::DecimalLemmas::told_by_value), unfolding(crate::specs::Decimal::decimal_value))]
pub fn read_decimal_units<C: CodeUnit>(digits: &[C]) -> Option<u64>
    ensures value { result ≡ decimal_value (map C.code digits.now) }
    ensures shortest { IfSome result (λ n. map C.code digits.now ≡ decimal n) }
    ensures none { IfNone result ((n : ℕ) → n < 2 ^ 64 → map C.code digits.now ≢ decimal n) }
{
    if begins_shortest(digits) {
        read_digits(digits)
    } else {
        None
    }
}

// There is one digit, or there are more and the first isn't `0`.
#[tactic(auto, using(crate::proofs::DecimalLemmas::begins_in))]
fn begins_shortest<C: CodeUnit>(digits: &[C]) -> bool
    ensures { result ≡ begins_shortest (map C.code digits.now) }
{
    match digits {
        [] => false,
        [_] => true,
        [first, ..] => first.code() != ZERO,
    }
}

// The number of these digits, leading zeros allowed.
#[tactic(auto, using(crate::proofs::DecimalLemmas::digits_number_past))]
fn read_digits<C: CodeUnit>(digits: &[C]) -> Option<u64>
    ensures { result ≡ digits_number (map C.code digits.now) }
{
    let mut number: u64 = 0;
    for digit in digits {
        let code = digit.code();
        if code < ZERO || NINE < code {
            return None;
        }
        number = number.checked_mul(10)?.checked_add(u64::from(code - ZERO))?;
    }
    Some(number)
}
