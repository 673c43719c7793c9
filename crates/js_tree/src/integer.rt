//! The values of numeric literals.

ghost use Rattle.std.specs.Prelude.{◌<◌, ◌^◌};

/// An integer from 0 to 2^53 - 1, the greatest that is safe (ECMA-262, 21.1.2.5).
#[derive(Clone, Copy)]
pub struct SafeInteger {
    /// The integer.
    pub value: u64,
    pub ghost safe: { value < 2 ^ 53 },
}
