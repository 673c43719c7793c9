//! The values of JSON trees, which borrow the text that they were read from.

ghost use Rattle.std.specs.Prelude.{◌≡◌, IfOk, OnOk, option_map};
ghost use Rattle.json.specs.Value as trees;
ghost use Rattle.serde_json.specs.Data.{number, array, object, no_members, put};
ghost use Rattle.serde_json.specs.Read.{number_of, of_json, of_items, of_members};
ghost use Rattle.serde_json.specs.View.{view, items_view, members_view};

use crate::numbers::read_number;
use serde_json::{Map, Value};
use std::alloc::{AllocError, Global};

/// The value of a number's text, where a float holds it.
fn value_of_number(text: &str) -> Option<Value>
    ensures { option_map view result ≡ option_map number (number_of text.now) }
{
    match read_number(text) {
        Some(number) => Some(Value::Number(number)),
        None => None,
    }
}

/// The array of these values, where all are there.
fn made_array(items: Option<Vec<Value>>) -> Option<Value>
    ensures { option_map view result ≡ option_map array (option_map (λ vec. items_view vec.items) items) }
{
    match items {
        Some(items) => Some(Value::Array(items)),
        None => None,
    }
}

/// The object of these members, where all are there.
fn made_object(members: Option<Map<String, Value>>) -> Option<Value>
    ensures { option_map view result ≡ option_map object (option_map (λ map. members_view map.entries) members) }
{
    match members {
        Some(members) => Some(Value::Object(members)),
        None => None,
    }
}

/// The value of a tree, where a float holds each of its numbers. Errors: there is no memory for it.
#[cycle(trees)]
pub(crate) fn value_of(alloc: Global, tree: &json::Value<'_>) -> Result<Option<Value>, AllocError>
    ensures { IfOk result (λ value. option_map view value ≡ of_json (trees.value_view tree.now)) }
{
    match tree {
        json::Value::Null => Ok(Some(Value::Null)),
        json::Value::Bool(truth) => Ok(Some(Value::Bool(*truth))),
        json::Value::Number(text) => Ok(value_of_number(text)),
        json::Value::String(text) => Ok(Some(Value::String(String::from_str(alloc, text)?))),
        json::Value::Array(items) => Ok(made_array(values_of(alloc, items)?)),
        json::Value::Object(members) => Ok(made_object(map_of(alloc, members)?)),
    }
}

/// The values of an array's items, in order, where all have one. Errors: there is no memory for them.
#[cycle(trees)]
fn values_of(alloc: Global, items: &Vec<json::Value<'_>>) -> Result<Option<Vec<Value>>, AllocError>
    ensures { IfOk result
        (λ made. option_map (λ vec. items_view vec.items) made ≡ of_items (trees.items_view items.now.items)) }
{
    let mut values = Vec::new(alloc);
    for item in items {
        match value_of(alloc, item)? {
            Some(value) => values.push(value)?,
            None => return Ok(None),
        }
    }
    Ok(Some(values))
}

/// The values of an object's members, where all have one; the last of a name counts. Errors: there is no memory for
/// them.
#[cycle(trees)]
fn map_of(
    alloc: Global,
    members: &Vec<(&str, json::Value<'_>)>,
) -> Result<Option<Map<String, Value>>, AllocError>
    ensures { IfOk result (λ made. option_map (λ map. members_view map.entries) made
        ≡ of_members (trees.members_view members.now.items) no_members) }
{
    let mut values = Map::new(alloc);
    for member in members {
        match value_of(alloc, &member.1)? {
            Some(value) => put_named(alloc, &mut values, member.0, value)?,
            None => return Ok(None),
        }
    }
    Ok(Some(values))
}

/// Puts the value of a name in, in place of one that is there. Errors: there is no memory for it.
fn put_named(
    alloc: Global,
    values: &mut Map<String, Value>,
    name: &str,
    value: Value,
) -> Result<(), AllocError>
    ensures { OnOk result
        (members_view values.new.entries ≡ put name.now (view value) (members_view values.old.entries)) }
{
    let name = String::from_str(alloc, name)?;
    drop(values.insert(name, value)?);
    Ok(())
}
