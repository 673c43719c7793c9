//! Operators on values.

ghost use Rattle.std.specs.Prelude.{◌≡◌, ◌<◌, IfOk, min};
ghost use Rattle.std.specs.Fmt.{signed_decimal};
ghost use Rattle.js_heap.specs.Values.{text_of, key_of, units_at, bool_text};
ghost use Rattle.js_heap.specs.Operators.{units_before, is_before, is_equal, answer_of, negated, numeric, joined_texts, sum_of, binary_result, number_result, unary_result, update_result};
ghost use Rattle.js_heap.specs.Safe.{IsSafe};

use crate::arithmetic::on_numbers;
use crate::numbers::{to_signed, to_unsigned};
use crate::results::{not_a_text, not_comparable, not_numbers};
use crate::text::joined;
use crate::values::{is_same, is_truthy, type_text};
use cdp_text::units::{Units, ascii};
use js_heap::computed::Computed;
use js_heap::reading::Cells;
use js_heap::value::Value;
use js_tree_operators::operator::{BinaryOperator, UnaryOperator, UpdateOperator};
use std::alloc::{AllocError, Global};

/// The text of a boolean.
pub fn bool_text(b: bool) -> &'static [u8]
    ensures { result.now ≡ bool_text b }
{
    if b { b"true" } else { b"false" }
}

/// The decimal text of a number.
pub fn number_text(alloc: Global, z: i64) -> Result<Units, AllocError>
    ensures { IfOk result (λ units. units ≡ signed_decimal z) }
{
    let text = format!(in alloc; "{z}")?;
    ascii(alloc, text.as_bytes())
}

/// The text of a primitive value (ECMA-262, 7.1.17); none of an object.
pub fn text_of<C: Cells>(alloc: Global, cells: &C, v: Value) -> Result<Option<Units>, AllocError>
    ensures { IfOk result (λ text. text ≡ text_of (C.world cells.now) v) }
{
    match v {
        Value::Undefined => Ok(Some(ascii(alloc, b"undefined")?)),
        Value::Null => Ok(Some(ascii(alloc, b"null")?)),
        Value::Bool(b) => Ok(Some(ascii(alloc, bool_text(b))?)),
        Value::Number(z) => Ok(Some(number_text(alloc, z)?)),
        Value::Text(a) => Ok(Some(Units::from_slice(alloc, cells.units_at(a))?)),
        Value::Object(_) => Ok(None),
    }
}

/// The key that a value is: a string, or the decimal text of a number.
pub fn key_of<C: Cells>(alloc: Global, cells: &C, v: Value) -> Result<Option<Units>, AllocError>
    ensures { IfOk result (λ key. key ≡ key_of (C.world cells.now) v) }
{
    match v {
        Value::Number(z) => Ok(Some(number_text(alloc, z)?)),
        Value::Text(a) => Ok(Some(Units::from_slice(alloc, cells.units_at(a))?)),
        _ => Ok(None),
    }
}

/// The truth of a comparison, or the error where the values don't compare.
fn answer_of(alloc: Global, answer: Option<bool>) -> Result<Computed, AllocError>
    ensures { IfOk result (λ r. r ≡ answer_of answer) }
{
    match answer {
        None => not_comparable(alloc),
        Some(b) => Ok(Computed::Value(Value::Bool(b))),
    }
}

/// The other answer to a comparison; none where the values don't compare.
fn negated(answer: Option<bool>) -> Option<bool>
    ensures { result ≡ negated answer }
{
    match answer {
        None => None,
        Some(b) => Some(!b),
    }
}

/// Whether one value equals another by `==` (7.2.14); none where their types don't compare.
fn is_equal<C: Cells>(cells: &C, v: Value, u: Value) -> Option<bool>
    ensures { result ≡ is_equal (C.world cells.now) v u }
{
    match (v, u) {
        (Value::Undefined | Value::Null, Value::Undefined | Value::Null) => Some(true),
        (Value::Undefined | Value::Null, _) => Some(false),
        (_, Value::Undefined | Value::Null) => Some(false),
        (Value::Bool(_), Value::Bool(_)) => Some(is_same(cells, v, u)),
        (Value::Number(y), Value::Number(z)) => Some(y == z),
        (Value::Text(_), Value::Text(_)) => Some(is_same(cells, v, u)),
        (Value::Object(_), Value::Object(_)) => Some(is_same(cells, v, u)),
        _ => None,
    }
}

/// An operator on two values that are to be numbers.
pub(crate) fn numeric(
    alloc: Global,
    operator: BinaryOperator,
    v: Value,
    u: Value,
) -> Result<Computed, AllocError>
    requires first { IsSafe v }
    requires second { IsSafe u }
    ensures { IfOk result (λ r. r ≡ numeric operator v u) }
{
    match (v, u) {
        (Value::Number(y), Value::Number(z)) => on_numbers(alloc, operator, y, z),
        _ => not_numbers(alloc),
    }
}

/// The lesser of two lengths.
fn shorter(first: usize, second: usize) -> usize
    ensures { result ≡ min first second }
{
    if first < second { first } else { second }
}

/// Whether a text stands before another, by units (7.2.13).
fn units_before(a: &[u16], b: &[u16]) -> bool
    ensures { result ≡ units_before a.now b.now }
{
    let shared = shorter(a.len(), b.len());
    for i in 0..shared {
        if a[i] != b[i] {
            return a[i] < b[i];
        }
    }
    a.len() < b.len()
}

/// Whether a value stands before another (7.2.13): two numbers or two strings; none for other values.
pub fn is_before<C: Cells>(cells: &C, v: Value, u: Value) -> Option<bool>
    ensures { result ≡ is_before (C.world cells.now) v u }
{
    match (v, u) {
        (Value::Number(y), Value::Number(z)) => Some(y < z),
        (Value::Text(a), Value::Text(b)) => Some(units_before(
            cells.units_at(a),
            cells.units_at(b),
        )),
        _ => None,
    }
}

/// Two texts joined, or the error where one is none.
fn joined_texts(
    alloc: Global,
    first: Option<Units>,
    second: Option<Units>,
) -> Result<Computed, AllocError>
    ensures { IfOk result (λ r. r ≡ joined_texts first second) }
{
    match (first, second) {
        (Some(t), Some(u)) => Ok(Computed::Text(joined(alloc, t.as_slice(), u.as_slice())?)),
        _ => not_a_text(alloc),
    }
}

/// `+` (13.15.3): a sum of numbers, or a text where one side is a string.
fn sum_of<C: Cells>(alloc: Global, cells: &C, v: Value, u: Value) -> Result<Computed, AllocError>
    requires first { IsSafe v }
    requires second { IsSafe u }
    ensures { IfOk result (λ r. r ≡ sum_of (C.world cells.now) v u) }
{
    match (v, u) {
        (Value::Text(_), _) => joined_texts(
            alloc,
            text_of(alloc, cells, v)?,
            text_of(alloc, cells, u)?,
        ),
        (_, Value::Text(_)) => joined_texts(
            alloc,
            text_of(alloc, cells, v)?,
            text_of(alloc, cells, u)?,
        ),
        _ => numeric(alloc, BinaryOperator::Add, v, u),
    }
}

/// An operator on two values (13.7 to 13.12).
pub fn binary_result<C: Cells>(
    alloc: Global,
    cells: &C,
    operator: BinaryOperator,
    v: Value,
    u: Value,
) -> Result<Computed, AllocError>
    requires first { IsSafe v }
    requires second { IsSafe u }
    ensures { IfOk result (λ r. r ≡ binary_result (C.world cells.now) operator v u) }
{
    match operator {
        BinaryOperator::Add => sum_of(alloc, cells, v, u),
        BinaryOperator::LessThan => answer_of(alloc, is_before(cells, v, u)),
        BinaryOperator::GreaterThan => answer_of(alloc, is_before(cells, u, v)),
        BinaryOperator::LessThanOrEqual => answer_of(alloc, negated(is_before(cells, u, v))),
        BinaryOperator::GreaterThanOrEqual => answer_of(alloc, negated(is_before(cells, v, u))),
        BinaryOperator::StrictEqual => Ok(Computed::Value(Value::Bool(is_same(cells, v, u)))),
        BinaryOperator::StrictNotEqual => Ok(Computed::Value(Value::Bool(!is_same(cells, v, u)))),
        BinaryOperator::Equal => answer_of(alloc, is_equal(cells, v, u)),
        BinaryOperator::NotEqual => answer_of(alloc, negated(is_equal(cells, v, u))),
        _ => numeric(alloc, operator, v, u),
    }
}

/// `+`, `-` and `~` of a number; the TypeError of any other value.
fn number_result(alloc: Global, operator: UnaryOperator, v: Value) -> Result<Computed, AllocError>
    requires { IsSafe v }
    ensures { IfOk result (λ r. r ≡ number_result operator v) }
{
    match (operator, v) {
        (UnaryOperator::Plus, Value::Number(z)) => Ok(Computed::Value(Value::Number(z))),
        (UnaryOperator::Minus, Value::Number(z)) => Ok(Computed::Value(Value::Number(-z))),
        (UnaryOperator::BitwiseNot, Value::Number(z)) => {
            let flipped = 4_294_967_295 - to_unsigned(z);
            Ok(Computed::Value(Value::Number(to_signed(flipped))))
        }
        _ => not_numbers(alloc),
    }
}

/// An operator on one value (13.5).
pub fn unary_result<C: Cells>(
    alloc: Global,
    cells: &C,
    operator: UnaryOperator,
    v: Value,
) -> Result<Computed, AllocError>
    requires { IsSafe v }
    ensures { IfOk result (λ r. r ≡ unary_result (C.world cells.now) operator v) }
{
    match operator {
        UnaryOperator::Void => Ok(Computed::Value(Value::Undefined)),
        UnaryOperator::Typeof => Ok(Computed::Text(ascii(alloc, type_text(cells, v))?)),
        UnaryOperator::LogicalNot => Ok(Computed::Value(Value::Bool(!is_truthy(cells, v)))),
        _ => number_result(alloc, operator, v),
    }
}

/// `++` and `--` (13.4).
pub fn update_result(
    alloc: Global,
    operator: UpdateOperator,
    v: Value,
) -> Result<Computed, AllocError>
    requires { IsSafe v }
    ensures { IfOk result (λ r. r ≡ update_result operator v) }
{
    match operator {
        UpdateOperator::Increment => numeric(alloc, BinaryOperator::Add, v, Value::Number(1)),
        UpdateOperator::Decrement => numeric(alloc, BinaryOperator::Subtract, v, Value::Number(1)),
    }
}
