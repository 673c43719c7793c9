//! Properties of values: reading, and the changes by writing and deleting.

ghost use Rattle.std.specs.Prelude.{◌≡◌, IfOk, codes, pos};
ghost use Rattle.js_heap.specs.Keys.{index_of_key};
ghost use Rattle.js_heap.specs.declared.value.Value.TheVariants as values;
ghost use Rattle.js_heap.specs.Values.{a_number};
ghost use Rattle.js_heap.specs.BuiltIns.{function_value};
ghost use Rattle.js_heap.specs.declared.computed.Computed.TheVariants.{Value as a_value};
ghost use Rattle.js_heap.specs.Properties.{bad_key, cannot_read, cannot_set, not_changeable, array_method, string_method, element_or_method, unit_or_method, function_property, error_property, property_of, element_change, length_change, array_change, property_written, property_deleted, bad_length};
ghost use Rattle.js_heap.specs.declared.built_in.ErrorClass.TheVariants as classes;
ghost use Rattle.js_heap.specs.declared.computed.Written.TheVariants.{Refused as refused};

use crate::text::{is_ascii, quoted};
use crate::values::class_text;
use cdp_text::units::{Units, ascii};
use js_heap::built_in::{BuiltIn, ErrorClass, built_in_at};
use js_heap::change::Change;
use js_heap::computed::{Computed, Written};
use js_heap::keys::index_of_key;
use js_heap::reading::Cells;
use js_heap::value::{Addr, Value};
use std::alloc::{AllocError, Global};

/// The TypeError of a key that is neither a string nor a number.
pub fn bad_key(alloc: Global) -> Result<Computed, AllocError>
    ensures { IfOk result (λ r. r ≡ bad_key) }
{
    let message = ascii(alloc, b"Property key must be a string or a number")?;
    Ok(Computed::Error(ErrorClass::TypeError, message))
}

/// The TypeError of reading a property of undefined.
fn cannot_read_undefined(alloc: Global, key: &[u16]) -> Result<Computed, AllocError>
    ensures { IfOk result (λ r. r ≡ cannot_read (codes "undefined") key.now) }
{
    let message = quoted(
        alloc,
        b"Cannot read properties of undefined (reading '",
        key,
        b"')",
    )?;
    Ok(Computed::Error(ErrorClass::TypeError, message))
}

/// The TypeError of reading a property of null.
fn cannot_read_null(alloc: Global, key: &[u16]) -> Result<Computed, AllocError>
    ensures { IfOk result (λ r. r ≡ cannot_read (codes "null") key.now) }
{
    let message = quoted(
        alloc,
        b"Cannot read properties of null (reading '",
        key,
        b"')",
    )?;
    Ok(Computed::Error(ErrorClass::TypeError, message))
}

// ---- reading

/// A built-in function as a value.
fn method(f: BuiltIn) -> Computed
    ensures { result ≡ a_value (function_value f) }
{
    Computed::Value(Value::Object(built_in_at(f)))
}

/// The method of arrays with this key; undefined where there is none.
fn array_method(key: &[u16]) -> Computed
    ensures { result ≡ array_method key.now }
{
    if is_ascii(key, b"push") {
        return method(BuiltIn::ArrayPush);
    }
    if is_ascii(key, b"pop") {
        return method(BuiltIn::ArrayPop);
    }
    if is_ascii(key, b"indexOf") {
        return method(BuiltIn::ArrayIndexOf);
    }
    if is_ascii(key, b"join") {
        return method(BuiltIn::ArrayJoin);
    }
    if is_ascii(key, b"slice") {
        return method(BuiltIn::ArraySlice);
    }
    Computed::Value(Value::Undefined)
}

/// The method of strings with this key; undefined where there is none.
fn string_method(key: &[u16]) -> Computed
    ensures { result ≡ string_method key.now }
{
    if is_ascii(key, b"indexOf") {
        return method(BuiltIn::StringIndexOf);
    }
    if is_ascii(key, b"slice") {
        return method(BuiltIn::StringSlice);
    }
    if is_ascii(key, b"charCodeAt") {
        return method(BuiltIn::StringCharCodeAt);
    }
    Computed::Value(Value::Undefined)
}

/// The value of a property that isn't there.
fn undefined() -> Computed
    ensures { result ≡ a_value values.Undefined }
{
    Computed::Value(Value::Undefined)
}

/// A length as a number. No memory holds a list whose length 63 bits don't count.
fn size(len: usize) -> Result<Computed, AllocError>
    ensures { IfOk result (λ r. r ≡ a_number (pos len)) }
{
    match i64::try_from(len) {
        Ok(len) => Ok(Computed::Value(Value::Number(len))),
        Err(_) => Err(AllocError),
    }
}

/// A property of an array (10.4.2).
pub fn element_or_method(elements: &[Value], key: &[u16]) -> Result<Computed, AllocError>
    ensures { IfOk result (λ r. r ≡ element_or_method elements.now key.now (index_of_key key.now)) }
{
    match index_of_key(key) {
        Some(i) => match elements.get(i as usize) {
            Some(element) => Ok(Computed::Value(*element)),
            None => Ok(undefined()),
        },
        None => {
            if is_ascii(key, b"length") {
                size(elements.len())
            } else {
                Ok(array_method(key))
            }
        }
    }
}

/// A property of a string (10.4.3).
fn unit_or_method(alloc: Global, units: &[u16], key: &[u16]) -> Result<Computed, AllocError>
    ensures { IfOk result (λ r. r ≡ unit_or_method units.now key.now (index_of_key key.now)) }
{
    match index_of_key(key) {
        Some(i) => match units.get(i as usize) {
            Some(unit) => Ok(Computed::Text(Units::from_slice(alloc, &[*unit])?)),
            None => Ok(undefined()),
        },
        None => {
            if is_ascii(key, b"length") {
                size(units.len())
            } else {
                Ok(string_method(key))
            }
        }
    }
}

/// A property of a function (20.2.4).
pub fn function_property(
    alloc: Global,
    name: &[u16],
    len: u32,
    key: &[u16],
) -> Result<Computed, AllocError>
    ensures { IfOk result (λ r. r ≡ function_property name.now len key.now) }
{
    if is_ascii(key, b"name") {
        return Ok(Computed::Text(Units::from_slice(alloc, name)?));
    }
    if is_ascii(key, b"length") {
        return Ok(Computed::Value(Value::Number(i64::from(len))));
    }
    Ok(undefined())
}

/// A property of an error that isn't its own (20.5.3).
pub fn error_property(alloc: Global, class: ErrorClass, key: &[u16]) -> Result<Computed, AllocError>
    ensures { IfOk result (λ r. r ≡ error_property class key.now) }
{
    if is_ascii(key, b"name") {
        return Ok(Computed::Text(ascii(alloc, class_text(class))?));
    }
    if is_ascii(key, b"message") {
        return Ok(Computed::Text(ascii(alloc, b"")?));
    }
    Ok(undefined())
}

/// What reading a property of a value gives (ECMA-262, 13.3.2).
pub fn property_of<C: Cells>(
    alloc: Global,
    cells: &C,
    of: Value,
    key: &[u16],
) -> Result<Computed, AllocError>
    ensures { IfOk result (λ r. r ≡ property_of (C.world cells.now) of key.now) }
{
    match of {
        Value::Undefined => cannot_read_undefined(alloc, key),
        Value::Null => cannot_read_null(alloc, key),
        Value::Bool(_) | Value::Number(_) => Ok(undefined()),
        Value::Text(a) => unit_or_method(alloc, cells.units_at(a), key),
        Value::Object(a) => cells.property(alloc, a, key),
    }
}

// ---- writing and deleting

/// The TypeError of a property that isn't changed.
pub fn not_changeable(alloc: Global, key: &[u16]) -> Result<Written, AllocError>
    ensures { IfOk result (λ r. r ≡ not_changeable key.now) }
{
    let message = quoted(alloc, b"Cannot change property '", key, b"'")?;
    Ok(Written::Refused(ErrorClass::TypeError, message))
}

/// The TypeError of writing a property of undefined.
fn cannot_set_undefined(alloc: Global, key: &[u16]) -> Result<Written, AllocError>
    ensures { IfOk result (λ r. r ≡ refused classes.TypeError (cannot_set (codes "undefined") key.now)) }
{
    let message = quoted(
        alloc,
        b"Cannot set properties of undefined (setting '",
        key,
        b"')",
    )?;
    Ok(Written::Refused(ErrorClass::TypeError, message))
}

/// The TypeError of writing a property of null.
fn cannot_set_null(alloc: Global, key: &[u16]) -> Result<Written, AllocError>
    ensures { IfOk result (λ r. r ≡ refused classes.TypeError (cannot_set (codes "null") key.now)) }
{
    let message = quoted(
        alloc,
        b"Cannot set properties of null (setting '",
        key,
        b"')",
    )?;
    Ok(Written::Refused(ErrorClass::TypeError, message))
}

/// The RangeError of a length that an array can't be given.
fn bad_length(alloc: Global) -> Result<Written, AllocError>
    ensures { IfOk result (λ r. r ≡ bad_length) }
{
    let message = ascii(alloc, b"Invalid array length")?;
    Ok(Written::Refused(ErrorClass::RangeError, message))
}

/// An element at an index up to the length; further on the RangeError of a length.
fn element_change(
    alloc: Global,
    a: Addr,
    elements: &[Value],
    index: u32,
    value: Value,
) -> Result<Written, AllocError>
    ensures { IfOk result (λ r. r ≡ element_change a elements.now index value) }
{
    if index as usize <= elements.len() {
        Ok(Written::Change(a, Change::Element { index, value }))
    } else {
        bad_length(alloc)
    }
}

/// A length up to the present one (10.4.2.4). No memory holds an array whose length 32 bits don't count.
fn length_change(
    alloc: Global,
    a: Addr,
    elements: &[Value],
    value: Value,
) -> Result<Written, AllocError>
    ensures { IfOk result (λ r. r ≡ length_change a elements.now value) }
{
    let Ok(len) = u32::try_from(elements.len()) else {
        return Err(AllocError);
    };
    match value {
        Value::Number(l) => {
            if 0 <= l && l <= i64::from(len) {
                Ok(Written::Change(a, Change::Length(l as u32)))
            } else {
                bad_length(alloc)
            }
        }
        _ => bad_length(alloc),
    }
}

/// What writing a property of an array changes (10.4.2.1).
pub fn array_change(
    alloc: Global,
    a: Addr,
    elements: &[Value],
    key: &[u16],
    value: Value,
) -> Result<Written, AllocError>
    ensures { IfOk result (λ r. r ≡ array_change a elements.now key.now (index_of_key key.now) value) }
{
    match index_of_key(key) {
        Some(i) => element_change(alloc, a, elements, i, value),
        None => {
            if is_ascii(key, b"length") {
                length_change(alloc, a, elements, value)
            } else {
                not_changeable(alloc, key)
            }
        }
    }
}

/// What writing a property of a value changes (10.1.9).
pub fn property_written<C: Cells>(
    alloc: Global,
    cells: &C,
    of: Value,
    key: &[u16],
    value: Value,
) -> Result<Written, AllocError>
    ensures { IfOk result (λ r. r ≡ property_written (C.world cells.now) of key.now value) }
{
    match of {
        Value::Undefined => cannot_set_undefined(alloc, key),
        Value::Null => cannot_set_null(alloc, key),
        Value::Object(a) => cells.change(alloc, a, key, value),
        _ => not_changeable(alloc, key),
    }
}

/// What deleting a property of a value changes (13.5.1.2).
pub fn property_deleted<C: Cells>(
    alloc: Global,
    cells: &C,
    of: Value,
    key: &[u16],
) -> Result<Written, AllocError>
    ensures { IfOk result (λ r. r ≡ property_deleted (C.world cells.now) of key.now) }
{
    match of {
        Value::Undefined => cannot_set_undefined(alloc, key),
        Value::Null => cannot_set_null(alloc, key),
        Value::Object(a) => cells.removal(alloc, a, key),
        _ => not_changeable(alloc, key),
    }
}
