//! Texts that are written as they are: ASCII without controls, `"` and `\`.

ghost use Rattle.std.specs.Prelude.{◌≡◌, ◌+◌, ◌++◌, ◌∷◌, [], ◌<◌, ◌≤◌, true, length, All, OnErr, OnOk, string_bytes, string_capacity, string_len};
ghost use Rattle.cdp_json.specs.Plain as spec;

use std::alloc::AllocError;

/// Whether a unit stands for itself in a text in quotes.
fn is_plain_unit(unit: u16) -> bool
    ensures { result ≡ spec.is_plain_unit unit }
{
    (32..128).contains(&unit) && unit != 34 && unit != 92
}

/// Whether a text of these units is written as it is.
pub(crate) fn is_plain(units: &[u16]) -> bool
    ensures { result ≡ spec.is_plain units.now }
{
    units.iter().all(|unit| is_plain_unit(*unit))
}

/// Appends a character of ASCII, for which there is room.
fn put_in_room(out: &mut String, unit: u16)
    requires ascii { unit < 128 }
    requires room { string_len out.old < string_capacity out.old }
    ensures bytes { string_bytes out.new ≡ string_bytes out.old ++ unit ∷ [] }
    ensures len { string_len out.new ≡ string_len out.old + 1 }
    ensures capacity { string_capacity out.old ≤ string_capacity out.new }
{
    out.push(char::from(unit as u8)).unwrap();
}

/// Appends units of ASCII, each as its byte; there is room for them.
fn put_ascii(out: &mut String, units: &[u16])
    requires ascii { All (λ unit. unit < 128) units.now }
    requires room { string_len out.old + length units.now ≤ string_capacity out.old }
    ensures bytes { string_bytes out.new ≡ string_bytes out.old ++ units.now }
    ensures len { string_len out.new ≡ string_len out.old + length units.now }
    ensures capacity { string_capacity out.old ≤ string_capacity out.new }
{
    for unit in units {
        put_in_room(out, *unit);
    }
}

/// Appends a plain text in quotes. Errors: there is no memory for it, and nothing is appended.
#[tactic(auto, using(crate::proofs::PlainLemmas::plain_is_ascii))]
pub(crate) fn put_plain(out: &mut String, units: &[u16]) -> Result<(), AllocError>
    requires { spec.is_plain units.now ≡ true }
    ensures put { OnOk result (string_bytes out.new ≡ string_bytes out.old ++ 34 ∷ (units.now ++ 34 ∷ [])) }
    ensures kept { OnErr result (string_bytes out.new ≡ string_bytes out.old) }
{
    out.reserve(units.len() + 2)?;
    put_in_room(out, 34);
    put_ascii(out, units);
    put_in_room(out, 34);
    Ok(())
}
