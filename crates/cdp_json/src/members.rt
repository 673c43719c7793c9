//! Members of a JSON value, read as values of a kind.

ghost use Rattle.std.specs.Prelude.{◌≡◌, IfOk, codes};
ghost use Rattle.std.specs.Option.{option_map};
ghost use Rattle.serde_json.specs.View.{view};
ghost use Rattle.serde_json.specs.Find.{get, as_bool, as_str};
ghost use Rattle.cdp_json.specs.Members.{required, optional, text_of, coordinate_of, column_of, position_of, is_integer};

use cdp_text::position::Pos;
use cdp_text::units::{Units, units_of};
use serde_json::Value;
use std::alloc::{AllocError, Global};

/// The string of a member, if it has one.
pub(crate) fn str_at<'v>(value: &'v Value, name: &str) -> Option<&'v str>
    ensures { option_map (λ s. s.now) result ≡ required as_str name.now (view value.now) }
{
    match value.get(name) {
        Some(member) => member.as_str(),
        None => None,
    }
}

/// A text, in units.
pub(crate) fn text(alloc: Global, value: &Value) -> Result<Option<Units>, AllocError>
    ensures { IfOk result (λ units. units ≡ text_of (view value.now)) }
{
    match value.as_str() {
        Some(text) => Ok(Some(units_of(alloc, text)?)),
        None => Ok(None),
    }
}

/// The text of a member, in units.
pub(crate) fn text_at(alloc: Global, value: &Value, name: &str) -> Result<Option<Units>, AllocError>
    ensures { IfOk result (λ units. units ≡ required text_of name.now (view value.now)) }
{
    match value.get(name) {
        Some(member) => text(alloc, member),
        None => Ok(None),
    }
}

/// The text of a member that may be absent, in units.
pub(crate) fn optional_text_at(
    alloc: Global,
    value: &Value,
    name: &str,
) -> Result<Option<Option<Units>>, AllocError>
    ensures { IfOk result (λ units. units ≡ optional text_of name.now (view value.now)) }
{
    match value.get(name) {
        Some(member) => Ok(text(alloc, member)?.map(Some)),
        None => Ok(Some(None)),
    }
}

/// The truth value of a member.
pub(crate) fn bool_at(value: &Value, name: &str) -> Option<bool>
    ensures { result ≡ required as_bool name.now (view value.now) }
{
    match value.get(name) {
        Some(member) => member.as_bool(),
        None => None,
    }
}

/// The truth value of a member that may be absent.
pub(crate) fn optional_bool_at(value: &Value, name: &str) -> Option<Option<bool>>
    ensures { result ≡ optional as_bool name.now (view value.now) }
{
    match value.get(name) {
        Some(member) => member.as_bool().map(Some),
        None => Some(None),
    }
}

/// Whether a value is an integer without fraction or exponent.
pub(crate) fn is_integer(value: &Value) -> bool
    ensures { result ≡ is_integer (view value.now) }
{
    value.is_u64() || value.is_i64()
}

/// A line or a column: an integer from 0 to 2^32-1.
pub(crate) fn coordinate(value: &Value) -> Option<u32>
    ensures { result ≡ coordinate_of (view value.now) }
{
    match value.as_u64() {
        Some(number) => {
            if number < 0x1_0000_0000 {
                Some(number as u32)
            } else {
                None
            }
        }
        None => None,
    }
}

/// The line of a position.
fn line(value: &Value) -> Option<u32>
    ensures { result ≡ required coordinate_of (codes "lineNumber") (view value.now) }
{
    match value.get("lineNumber") {
        Some(member) => coordinate(member),
        None => None,
    }
}

/// The column of a position, 0 where it is absent.
fn column(value: &Value) -> Option<u32>
    ensures { result ≡ column_of (get (codes "columnNumber") (view value.now)) }
{
    match value.get("columnNumber") {
        Some(member) => coordinate(member),
        None => Some(0),
    }
}

/// A line with a column.
pub(crate) fn position(value: &Value) -> Option<Pos>
    ensures { result ≡ position_of (view value.now) }
{
    match line(value) {
        Some(line) => match column(value) {
            Some(col) => Some(Pos { line, col }),
            None => None,
        },
        None => None,
    }
}
