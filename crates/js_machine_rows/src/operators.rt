//! Rows of operators.

ghost use Rattle.std.specs.Prelude.{◌≡◌, IfSome, IsTrue, ◌+ℤ◌, ◌-ℤ◌, ◌*ℤ◌};
ghost use Rattle.js_heap.specs.World.{World as AnyWorld};
ghost use Rattle.js_heap.specs.declared.value.Value.TheVariants as value;
ghost use Rattle.js_heap.specs.declared.computed.Computed.TheVariants.{Value as a_value};
ghost use Rattle.js_heap.specs.Operators.{safe, to_signed, binary_result, unary_result};
ghost use Rattle.js_semantics.specs.State.{give};
ghost use Rattle.js_semantics.specs.BuiltIns.{argument};
ghost use Rattle.js_semantics.specs.References.{with_result};
ghost use Rattle.js_heap.specs.Safe.{IsSafe};
ghost use Rattle.js_machine_actions.specs.Flow.{Yields};
ghost use Rattle.js_machine_rows.specs.Does.{Replies};

use crate::answers::replied;
use js_heap::value::Value;
use js_heap_memory::names::NameTable;
use js_heap_memory::slots::argument;
use js_heap_memory::world::World;
use js_heap_operators::numbers::{shift_count, shifted_right, to_signed, to_unsigned};
use js_heap_operators::operators::{binary_result, unary_result};
use js_heap_operators::results::is_safe_integer;
use js_machine_actions::action_end::ActionEnd;
use js_machine_actions::errors::with_result;
use js_machine_actions::seen::NamedWorld;
use js_machine_engine::reduced::Reduced;
use js_tree_operators::operator::{BinaryOperator, UnaryOperator};
use std::alloc::Global;

// ---- two numbers

/// A number that is a safe integer; none of another.
#[inline(always)]
pub fn safe_number(number: i64) -> Option<Value>
    ensures { IfSome result (λ v. safe number ≡ a_value v) }
{
    if is_safe_integer(number) {
        Some(Value::Number(number))
    } else {
        None
    }
}

/// A sum, where it is a safe integer.
#[inline(always)]
fn sum(y: i64, z: i64) -> Option<Value>
    ensures { IfSome result (λ v. safe (y +ℤ z) ≡ a_value v) }
{
    match y.checked_add(z) {
        Some(number) => safe_number(number),
        None => None,
    }
}

/// A difference, where it is a safe integer.
#[inline(always)]
fn difference(y: i64, z: i64) -> Option<Value>
    ensures { IfSome result (λ v. safe (y -ℤ z) ≡ a_value v) }
{
    match y.checked_sub(z) {
        Some(number) => safe_number(number),
        None => None,
    }
}

/// A product, where it is a safe integer.
#[inline(always)]
fn product(y: i64, z: i64) -> Option<Value>
    ensures { IfSome result (λ v. safe (y *ℤ z) ≡ a_value v) }
{
    match y.checked_mul(z) {
        Some(number) => safe_number(number),
        None => None,
    }
}

/// A boolean as a value.
#[inline(always)]
fn truth(b: bool) -> Option<Value>
    ensures { result ≡ Some (value.Bool b) }
{
    Some(Value::Bool(b))
}

/// A number of 32 bits as a signed one.
#[inline(always)]
fn signed(n: u32) -> Option<Value>
    ensures { result ≡ Some (value.Number (to_signed n)) }
{
    Some(Value::Number(to_signed(n)))
}

/// An operator on two numbers, where it has a safe integer or a truth and is one of the frequent ones.
#[inline(always)]
fn on_two_numbers(operator: BinaryOperator, y: i64, z: i64) -> Option<Value>
    ensures { (w : AnyWorld) → IfSome result (λ v. binary_result w operator (value.Number y) (value.Number z) ≡ a_value v) }
{
    match operator {
        BinaryOperator::Add => sum(y, z),
        BinaryOperator::Subtract => difference(y, z),
        BinaryOperator::Multiply => product(y, z),
        BinaryOperator::LessThan => truth(y < z),
        BinaryOperator::GreaterThan => truth(z < y),
        BinaryOperator::LessThanOrEqual => truth(!(z < y)),
        BinaryOperator::GreaterThanOrEqual => truth(!(y < z)),
        BinaryOperator::StrictEqual | BinaryOperator::Equal => truth(y == z),
        BinaryOperator::StrictNotEqual | BinaryOperator::NotEqual => truth(!(y == z)),
        BinaryOperator::BitwiseAnd => signed(to_unsigned(y) & to_unsigned(z)),
        BinaryOperator::BitwiseOr => signed(to_unsigned(y) | to_unsigned(z)),
        BinaryOperator::BitwiseXor => signed(to_unsigned(y) ^ to_unsigned(z)),
        BinaryOperator::RightShift => {
            let shifted = shifted_right(to_signed(to_unsigned(y)), shift_count(z));
            Some(Value::Number(shifted))
        }
        BinaryOperator::UnsignedRightShift => {
            let shifted = to_unsigned(y) >> shift_count(z);
            Some(Value::Number(i64::from(shifted)))
        }
        _ => None,
    }
}

/// The value of an operator on two values, where it is found without a text or an error.
#[inline(always)]
pub(crate) fn quick_result(operator: BinaryOperator, left: Value, right: Value) -> Option<Value>
    ensures { (w : AnyWorld) → IfSome result (λ v. binary_result w operator left right ≡ a_value v) }
{
    match (left, right) {
        (Value::Number(y), Value::Number(z)) => on_two_numbers(operator, y, z),
        _ => None,
    }
}

// ---- two values

/// Whether a number is a safe integer; every other value is safe.
pub fn is_safe(value: Value) -> bool
    ensures safe { IsTrue result → IsSafe value }
    ensures exact { IsSafe value → IsTrue result }
{
    match value {
        Value::Number(z) => is_safe_integer(z),
        _ => true,
    }
}

/// The value of an operator on two values. No number of a run is outside the safe integers.
#[cold]
#[inline(never)]
fn binary_slowly<W: World>(
    alloc: Global,
    world: &mut W,
    names: &NameTable,
    operator: BinaryOperator,
    left: Value,
    right: Value,
) -> Result<Value, ActionEnd>
    ensures { Yields (with_result (binary_result (W.world names.now world.old) operator left right)) (W.world names.now world.old) result (W.world names.now world.new) }
{
    if !is_safe(left) {
        return Err(ActionEnd::Memory);
    }
    if !is_safe(right) {
        return Err(ActionEnd::Memory);
    }
    let computed = binary_result(
        alloc,
        &NamedWorld {
            names,
            world: &*world,
        },
        operator,
        left,
        right,
    )?;
    with_result(alloc, world, names, computed)
}

/// The value of an operator on two values.
#[inline(always)]
#[tactic(auto, using(crate::proofs::ReadingLemmas::value_rules))]
fn binary_value<W: World>(
    alloc: Global,
    world: &mut W,
    names: &NameTable,
    operator: BinaryOperator,
    left: Value,
    right: Value,
) -> Result<Value, ActionEnd>
    ensures { Yields (with_result (binary_result (W.world names.now world.old) operator left right)) (W.world names.now world.old) result (W.world names.now world.new) }
{
    match quick_result(operator, left, right) {
        Some(value) => Ok(value),
        None => binary_slowly(alloc, world, names, operator, left, right),
    }
}

/// An operator on two values (ECMA-262, 13.6 to 13.12).
#[inline(always)]
pub fn binary<W: World>(
    alloc: Global,
    world: &mut W,
    names: &NameTable,
    operator: BinaryOperator,
    values: &[Value],
) -> Reduced
    ensures { Replies names.now (with_result (binary_result (W.world names.now world.old) operator (argument values.now 0) (argument values.now 1)) give) (W.world names.now world.old) result (W.world names.now world.new) }
{
    let left = argument(values, 0);
    let right = argument(values, 1);
    replied(binary_value(alloc, world, names, operator, left, right))
}

// ---- one value

/// The value of an operator on one value.
fn unary_value<W: World>(
    alloc: Global,
    world: &mut W,
    names: &NameTable,
    operator: UnaryOperator,
    value: Value,
) -> Result<Value, ActionEnd>
    ensures { Yields (with_result (unary_result (W.world names.now world.old) operator value)) (W.world names.now world.old) result (W.world names.now world.new) }
{
    if !is_safe(value) {
        return Err(ActionEnd::Memory);
    }
    let computed = unary_result(
        alloc,
        &NamedWorld {
            names,
            world: &*world,
        },
        operator,
        value,
    )?;
    with_result(alloc, world, names, computed)
}

/// An operator on one value (13.5).
pub fn unary<W: World>(
    alloc: Global,
    world: &mut W,
    names: &NameTable,
    operator: UnaryOperator,
    values: &[Value],
) -> Reduced
    ensures { Replies names.now (with_result (unary_result (W.world names.now world.old) operator (argument values.now 0)) give) (W.world names.now world.old) result (W.world names.now world.new) }
{
    let value = argument(values, 0);
    replied(unary_value(alloc, world, names, operator, value))
}
