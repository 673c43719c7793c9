//! Texts and keys.

ghost use Rattle.std.specs.Prelude.{◌≡◌, true};
ghost use Rattle.std.specs.Str.{all_ascii_digits};
ghost use Rattle.js_heap.specs.Keys.{same_units, stands_before, is_shortest, index_within, index_of_key};

/// Whether two texts have the same units.
#[tactic(auto, using(crate::proofs::KeyLemmas::units_rules))]
pub fn same_units(a: &[u16], b: &[u16]) -> bool
    ensures { result ≡ same_units a.now b.now }
{
    a == b
}

/// Whether a key that is this array index, or none, stands before one that is that (ECMA-262, 10.1.11).
pub fn stands_before(first: Option<u32>, second: Option<u32>) -> bool
    ensures { result ≡ stands_before first second }
{
    match (first, second) {
        (Some(i), Some(j)) => i < j,
        (Some(_), None) => true,
        (None, _) => false,
    }
}

/// Whether a decimal text has no zero in front of another digit.
fn is_shortest(key: &[u16]) -> bool
    ensures { result ≡ is_shortest key.now }
{
    match key {
        [] => false,
        [_] => true,
        [first, ..] => *first != 48,
    }
}

/// Whether all units are decimal digits.
fn is_digits(key: &[u16]) -> bool
    ensures { result ≡ all_ascii_digits key.now }
{
    for unit in key {
        if *unit < 48 || 57 < *unit {
            return false;
        }
    }
    true
}

/// The value of digits, where it is below 2^32 - 1.
fn index_within(key: &[u16]) -> Option<u32>
    requires { all_ascii_digits key.now ≡ true }
    ensures { result ≡ index_within key.now }
{
    let mut value = 0u64;
    for unit in key {
        value = value * 10 + u64::from(*unit - 48);
        if 4_294_967_295 <= value {
            return None;
        }
    }
    Some(value as u32)
}

/// The array index that a key is, from 0 to 2^32 - 2 (6.1.7).
pub fn index_of_key(key: &[u16]) -> Option<u32>
    ensures { result ≡ index_of_key key.now }
{
    if is_shortest(key) && is_digits(key) {
        return index_within(key);
    }
    None
}
