//! JSON values whose numbers are safe integers, as the arguments of a call are.

ghost use Rattle.std.specs.Prelude.{◌≡◌, ◌∷◌, ◌++◌, [], map, IfOk, OnOk, option_map};
ghost use Rattle.cdp_text.specs.Units.{utf16_of};
ghost use Rattle.serde_json.specs.View.{view, number_view};
ghost use Rattle.serde_json.specs.View as read;
ghost use Rattle.cdp_json.specs.Json as json;
ghost use Rattle.cdp_json.specs.SafeValues.{safe_integer_of, safe_items_of, safe_members_of, safe_value_of};
ghost use Rattle.cdp_json.specs.Views.{json_view, member_view, items_view, members_view};

use crate::value::{Json, Member, boolean, list, null, number, object, text};
use cdp_text::units::units_of;
use serde_json::{Map, Number, Value};
use std::alloc::{AllocError, Global};

/// An integer from -(2^53-1) to 2^53-1, without fraction or exponent.
fn safe_integer(value: &Number) -> Option<i64>
    ensures { result ≡ safe_integer_of (number_view value.now) }
{
    match value.as_i128() {
        Some(integer) => {
            if integer.unsigned_abs() < 0x20_0000_0000_0000 {
                Some(integer as i64)
            } else {
                None
            }
        }
        None => None,
    }
}

/// The value that a number is, where it is a safe integer.
#[tactic(auto, using(crate::proofs::ViewLemmas::json_laws))]
fn safe_number(value: &Number) -> Option<Json>
    ensures { option_map json_view result ≡ option_map json.number (safe_integer_of (number_view value.now)) }
{
    match safe_integer(value) {
        Some(integer) => Some(number(integer)),
        None => None,
    }
}

/// The list of these values, where all are there.
fn made_list(items: Option<Vec<Json>>) -> Option<Json>
    ensures { option_map json_view result ≡ option_map json.list (option_map (λ vec. items_view vec.items) items) }
{
    match items {
        Some(items) => Some(list(items)),
        None => None,
    }
}

/// The object of these members, where all are there.
fn made_object(members: Option<Vec<Member>>) -> Option<Json>
    ensures { option_map json_view result ≡ option_map json.object (option_map (λ vec. members_view vec.items) members) }
{
    match members {
        Some(members) => Some(object(members)),
        None => None,
    }
}

/// Puts a member of this name behind others.
fn put_named(
    alloc: Global,
    members: &mut Vec<Member>,
    name: &str,
    value: Json,
) -> Result<(), AllocError>
    ensures { OnOk result (map member_view members.new.items ≡ map member_view members.old.items ++ (utf16_of name.now, json_view value) ∷ []) }
{
    let key = units_of(alloc, name)?;
    members.push(Member::new(key, value))?;
    Ok(())
}

/// The value, where each of its numbers is a safe integer. Errors: there is no memory for it.
#[cycle(safe)]
pub(crate) fn safe_value(alloc: Global, value: &Value) -> Result<Option<Json>, AllocError>
    ensures { IfOk result (λ made. option_map json_view made ≡ safe_value_of (view value.now)) }
{
    match value {
        Value::Null => Ok(Some(null())),
        Value::Bool(truth) => Ok(Some(boolean(*truth))),
        Value::Number(integer) => Ok(safe_number(integer)),
        Value::String(units) => Ok(Some(text(units_of(alloc, units.as_str())?))),
        Value::Array(values) => Ok(made_list(safe_items(alloc, values)?)),
        Value::Object(pairs) => Ok(made_object(safe_members(alloc, pairs)?)),
    }
}

/// The values of a list, in order. Errors: there is no memory for them.
#[cycle(safe)]
fn safe_items(alloc: Global, values: &Vec<Value>) -> Result<Option<Vec<Json>>, AllocError>
    ensures { IfOk result (λ made. option_map (λ vec. items_view vec.items) made ≡ safe_items_of (read.items_view values.now.items)) }
{
    let mut items = Vec::new(alloc);
    for value in values {
        match safe_value(alloc, value)? {
            Some(item) => items.push(item)?,
            None => return Ok(None),
        }
    }
    Ok(Some(items))
}

/// The members of an object, in ascending order of the UTF-8 bytes of their names. Errors: there is no memory for them.
#[cycle(safe)]
fn safe_members(
    alloc: Global,
    pairs: &Map<String, Value>,
) -> Result<Option<Vec<Member>>, AllocError>
    ensures { IfOk result (λ made. option_map (λ vec. members_view vec.items) made ≡ safe_members_of (read.members_view pairs.now.entries)) }
{
    let mut members = Vec::new(alloc);
    for (name, value) in pairs.iter() {
        match safe_value(alloc, value)? {
            Some(value) => put_named(alloc, &mut members, name.as_str(), value)?,
            None => return Ok(None),
        }
    }
    Ok(Some(members))
}
