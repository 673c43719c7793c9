//! Operators on numbers: integers from -(2^53 - 1) to 2^53 - 1.

ghost use Rattle.std.specs.Prelude.{◌≡◌, ◌<◌};
ghost use Rattle.js_heap.specs.Operators.{to_unsigned, to_signed, shift_count, shifted_right};

/// A number modulo 2^32 (ECMA-262, 7.1.7).
pub fn to_unsigned(z: i64) -> u32
    ensures { result ≡ to_unsigned z }
{
    z.rem_euclid(4_294_967_296) as u32
}

/// The signed number of 32 bits (7.1.6).
pub fn to_signed(n: u32) -> i64
    ensures { result ≡ to_signed n }
{
    if n < 2_147_483_648 {
        n as i64
    } else {
        n as i64 - 4_294_967_296
    }
}

/// The count of a shift (6.1.6.1.9).
pub fn shift_count(z: i64) -> u32
    ensures { result ≡ shift_count z }
{
    to_unsigned(z) % 32
}

/// The bits of a number moved to the right, its sign kept (6.1.6.1.10).
pub fn shifted_right(z: i64, count: u32) -> i64
    requires { count < 64 }
    ensures { result ≡ shifted_right z count }
{
    z >> count
}
