//! Results of operations on numbers, and the errors that operations may come to.

ghost use Rattle.std.specs.Prelude.{◌≡◌, ◌<◌, ◌^◌, nat_abs, nat_lt, IfOk};
ghost use Rattle.js_heap.specs.Operators.{safe, quotient, remainder, not_safe, not_numbers, not_a_text, not_comparable};

use cdp_text::units::ascii;
use js_heap::built_in::ErrorClass;
use js_heap::computed::Computed;
use js_heap::value::Value;
use std::alloc::{AllocError, Global};

/// The RangeError of a result that isn't a safe integer.
pub fn not_safe(alloc: Global) -> Result<Computed, AllocError>
    ensures { IfOk result (λ r. r ≡ not_safe) }
{
    let message = ascii(alloc, b"Result is not a safe integer")?;
    Ok(Computed::Error(ErrorClass::RangeError, message))
}

/// The TypeError of operands that aren't numbers.
pub(crate) fn not_numbers(alloc: Global) -> Result<Computed, AllocError>
    ensures { IfOk result (λ r. r ≡ not_numbers) }
{
    let message = ascii(alloc, b"Operands must be numbers")?;
    Ok(Computed::Error(ErrorClass::TypeError, message))
}

/// The TypeError of an object in place of a text.
pub fn not_a_text(alloc: Global) -> Result<Computed, AllocError>
    ensures { IfOk result (λ r. r ≡ not_a_text) }
{
    let message = ascii(alloc, b"Cannot convert an object to text")?;
    Ok(Computed::Error(ErrorClass::TypeError, message))
}

/// The TypeError of values of types that don't compare.
pub(crate) fn not_comparable(alloc: Global) -> Result<Computed, AllocError>
    ensures { IfOk result (λ r. r ≡ not_comparable) }
{
    let message = ascii(alloc, b"Cannot compare values of different types")?;
    Ok(Computed::Error(ErrorClass::TypeError, message))
}

/// Whether a number is a safe integer (ECMA-262, 21.1.2.5).
#[inline(always)]
pub fn is_safe_integer(number: i64) -> bool
    ensures { result ≡ nat_lt (nat_abs number) (2 ^ 53) }
{
    number.unsigned_abs() < 9_007_199_254_740_992
}

/// The number, where it is a safe integer.
pub fn safe(alloc: Global, z: i64) -> Result<Computed, AllocError>
    ensures { IfOk result (λ r. r ≡ safe z) }
{
    if is_safe_integer(z) {
        Ok(Computed::Value(Value::Number(z)))
    } else {
        not_safe(alloc)
    }
}

/// A quotient without a rest (ECMA-262, 6.1.6.1.5).
pub(crate) fn quotient(alloc: Global, y: i64, z: i64) -> Result<Computed, AllocError>
    requires { nat_abs y < 2 ^ 53 }
    ensures { IfOk result (λ r. r ≡ quotient y z) }
{
    if z == 0 || y % z != 0 {
        return not_safe(alloc);
    }
    safe(alloc, y / z)
}

/// The rest of a division, with the dividend's sign (6.1.6.1.6).
pub(crate) fn remainder(alloc: Global, y: i64, z: i64) -> Result<Computed, AllocError>
    requires { nat_abs y < 2 ^ 53 }
    ensures { IfOk result (λ r. r ≡ remainder y z) }
{
    if z == 0 {
        return not_safe(alloc);
    }
    safe(alloc, y % z)
}
