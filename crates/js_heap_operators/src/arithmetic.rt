//! Operators on two numbers.

ghost use Rattle.std.specs.Prelude.{◌≡◌, ◌<◌, ◌^◌, nat_abs, IfOk, ◌*ℤ◌, ◌*◌, ◌%◌};
ghost use Rattle.js_heap.specs.Values.{a_number};
ghost use Rattle.js_heap.specs.Operators.{on_numbers, safe, to_unsigned, to_signed, shift_count};

use crate::numbers::{shift_count, shifted_right, to_signed, to_unsigned};
use crate::results::{not_numbers, not_safe, quotient, remainder, safe};
use js_heap::computed::Computed;
use js_heap::value::Value;
use js_tree_operators::operator::BinaryOperator;
use std::alloc::{AllocError, Global};

/// A product, where it is a safe integer.
fn product(alloc: Global, y: i64, z: i64) -> Result<Computed, AllocError>
    ensures { IfOk result (λ r. r ≡ safe (y *ℤ z)) }
{
    match y.checked_mul(z) {
        Some(p) => safe(alloc, p),
        None => not_safe(alloc),
    }
}

/// A number of 32 bits as a signed one.
fn signed(n: u32) -> Computed
    ensures { result ≡ a_number (to_signed n) }
{
    Computed::Value(Value::Number(to_signed(n)))
}

/// Bits moved to the left (ECMA-262, 6.1.6.1.9).
fn shifted_left(y: i64, z: i64) -> u32
    ensures { result ≡ (to_unsigned y * 2 ^ shift_count z) % 2 ^ 32 }
{
    let scale = 1u64 << shift_count(z);
    ((u64::from(to_unsigned(y)) * scale) % 4_294_967_296) as u32
}

/// An operator on two numbers (13.7, 13.8.2, 13.9, 13.12).
pub fn on_numbers(
    alloc: Global,
    operator: BinaryOperator,
    y: i64,
    z: i64,
) -> Result<Computed, AllocError>
    requires first { nat_abs y < 2 ^ 53 }
    requires second { nat_abs z < 2 ^ 53 }
    ensures { IfOk result (λ r. r ≡ on_numbers operator y z) }
{
    match operator {
        BinaryOperator::Add => safe(alloc, y + z),
        BinaryOperator::Subtract => safe(alloc, y - z),
        BinaryOperator::Multiply => product(alloc, y, z),
        BinaryOperator::Divide => quotient(alloc, y, z),
        BinaryOperator::Remainder => remainder(alloc, y, z),
        BinaryOperator::BitwiseAnd => Ok(signed(to_unsigned(y) & to_unsigned(z))),
        BinaryOperator::BitwiseOr => Ok(signed(to_unsigned(y) | to_unsigned(z))),
        BinaryOperator::BitwiseXor => Ok(signed(to_unsigned(y) ^ to_unsigned(z))),
        BinaryOperator::LeftShift => Ok(signed(shifted_left(y, z))),
        BinaryOperator::RightShift => {
            let shifted = shifted_right(to_signed(to_unsigned(y)), shift_count(z));
            Ok(Computed::Value(Value::Number(shifted)))
        }
        BinaryOperator::UnsignedRightShift => {
            let shifted = to_unsigned(y) >> shift_count(z);
            Ok(Computed::Value(Value::Number(i64::from(shifted))))
        }
        _ => not_numbers(alloc),
    }
}
