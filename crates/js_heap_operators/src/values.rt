//! Values: their texts, types and truth.

ghost use Rattle.std.specs.Prelude.{◌≡◌};
ghost use Rattle.js_heap.specs.Values.{units_at, type_text, is_truthy, is_same, same_address, class_text};

use js_heap::built_in::ErrorClass;
use js_heap::keys::same_units;
use js_heap::reading::Cells;
use js_heap::value::{Addr, Value};

/// Whether a value counts as true (ECMA-262, 7.1.2).
pub fn is_truthy<C: Cells>(cells: &C, v: Value) -> bool
    ensures { result ≡ is_truthy (C.world cells.now) v }
{
    match v {
        Value::Undefined | Value::Null => false,
        Value::Bool(b) => b,
        Value::Number(z) => z != 0,
        Value::Text(a) => !cells.units_at(a).is_empty(),
        Value::Object(_) => true,
    }
}

/// Whether two values are the same by `===` (7.2.15).
pub fn is_same<C: Cells>(cells: &C, v: Value, u: Value) -> bool
    ensures { result ≡ is_same (C.world cells.now) v u }
{
    match (v, u) {
        (Value::Undefined, Value::Undefined) => true,
        (Value::Null, Value::Null) => true,
        (Value::Bool(a), Value::Bool(b)) => a == b,
        (Value::Number(y), Value::Number(z)) => y == z,
        (Value::Text(a), Value::Text(b)) => same_units(cells.units_at(a), cells.units_at(b)),
        (Value::Object(a), Value::Object(b)) => same_address(a, b),
        _ => false,
    }
}

/// Whether two addresses are the same.
pub fn same_address(a: Addr, b: Addr) -> bool
    ensures { result ≡ same_address a b }
{
    match (a, b) {
        (Addr::Base(m), Addr::Base(n)) => m == n,
        (Addr::Scratch(m), Addr::Scratch(n)) => m == n,
        _ => false,
    }
}

/// What `typeof` says (13.5.3).
pub fn type_text<C: Cells>(cells: &C, v: Value) -> &'static [u8]
    ensures { result.now ≡ type_text (C.world cells.now) v }
{
    match v {
        Value::Undefined => b"undefined",
        Value::Null => b"object",
        Value::Bool(_) => b"boolean",
        Value::Number(_) => b"number",
        Value::Text(_) => b"string",
        Value::Object(a) => cells.object_type(a),
    }
}

/// The name of a class of errors.
pub fn class_text(class: ErrorClass) -> &'static [u8]
    ensures { result.now ≡ class_text class }
{
    match class {
        ErrorClass::Error => b"Error",
        ErrorClass::TypeError => b"TypeError",
        ErrorClass::RangeError => b"RangeError",
        ErrorClass::ReferenceError => b"ReferenceError",
    }
}
