//! The calls of functions, read off JSON values.
//!
//! Each answers `None` where a parameter is missing or of another kind.

ghost use Rattle.std.specs.Prelude.{◌≡◌, IfOk, codes, option_map};
ghost use Rattle.serde_json.specs.Find.{get};
ghost use Rattle.serde_json.specs.View.{view, items_view};
ghost use Rattle.cdp_json.specs.ArgumentViews.{argument_view};
ghost use Rattle.cdp_json.specs.Arguments as spec;
ghost use Rattle.cdp_json.specs.Arguments.{argument_of, arguments_from, arguments_of, is_serializable, object_or_value, value_from};
ghost use Rattle.cdp_json.specs.Calls.{call_of};
ghost use Rattle.cdp_json.specs.Views.{json_view};

use crate::arguments::{Argument, Arguments};
use crate::flags::flags;
use crate::members::{optional_text_at, text, text_at};
use crate::params::FunctionCall;
use crate::safe_values::safe_value;
use crate::value::Json;
use cdp_text::units::Units;
use serde_json::Value;
use std::alloc::{AllocError, Global};

/// The argument of this value, where it is there.
fn made_value(value: Option<Json>) -> Option<Argument>
    ensures { option_map argument_view result ≡ option_map spec.a_value (option_map json_view value) }
{
    match value {
        Some(value) => Some(Argument::Value(value)),
        None => None,
    }
}

/// The argument of this object, where it is there.
fn made_object(object_id: Option<Units>) -> Option<Argument>
    ensures { option_map argument_view result ≡ option_map spec.an_object object_id }
{
    match object_id {
        Some(object_id) => Some(Argument::Object { object_id }),
        None => None,
    }
}

/// `value?`
fn value_argument(alloc: Global, value: &Value) -> Result<Option<Argument>, AllocError>
    ensures { IfOk result (λ made. option_map argument_view made ≡ value_from (get (codes "value") (view value.now))) }
{
    match value.get("value") {
        Some(member) => Ok(made_value(safe_value(alloc, member)?)),
        None => Ok(Some(Argument::Undefined)),
    }
}

/// `value?, objectId?`: the id alone is read where both are there
fn object_or_value(alloc: Global, value: &Value) -> Result<Option<Argument>, AllocError>
    ensures { IfOk result (λ made. option_map argument_view made ≡ object_or_value (get (codes "objectId") (view value.now)) (view value.now)) }
{
    match value.get("objectId") {
        Some(member) => Ok(made_object(text(alloc, member)?)),
        None => value_argument(alloc, value),
    }
}

/// Whether a value is an object without the member `unserializableValue`.
fn serializable(value: &Value) -> bool
    ensures { result ≡ is_serializable (view value.now) }
{
    value.is_object() && value.get("unserializableValue").is_none()
}

/// An argument.
fn argument(alloc: Global, value: &Value) -> Result<Option<Argument>, AllocError>
    ensures { IfOk result (λ made. option_map argument_view made ≡ argument_of (view value.now)) }
{
    if serializable(value) {
        object_or_value(alloc, value)
    } else {
        Ok(None)
    }
}

/// The arguments of a list, in order.
fn listed(alloc: Global, values: &[Value]) -> Result<Option<Arguments>, AllocError>
    ensures { IfOk result (λ made. made ≡ arguments_from (items_view values.now)) }
{
    let mut items = Vec::new(alloc);
    for value in values {
        match argument(alloc, value)? {
            Some(item) => items.push(item)?,
            None => return Ok(None),
        }
    }
    Ok(Some(Arguments::from_vec(items)))
}

/// The arguments of a list, where the value is one.
fn in_list(alloc: Global, value: &Value) -> Result<Option<Arguments>, AllocError>
    ensures { IfOk result (λ made. made ≡ spec.given_arguments (Some (view value.now))) }
{
    match value.as_array() {
        Some(values) => listed(alloc, values.as_slice()),
        None => Ok(None),
    }
}

/// `arguments?`
fn arguments(alloc: Global, value: &Value) -> Result<Option<Arguments>, AllocError>
    ensures { IfOk result (λ made. made ≡ arguments_of (view value.now)) }
{
    match value.get("arguments") {
        Some(member) => in_list(alloc, member),
        None => Ok(Some(Arguments::from_vec(Vec::new(alloc)))),
    }
}

/// `functionDeclaration, objectId?, arguments?, objectGroup?`, and the flags of an evaluation
pub(crate) fn call(alloc: Global, value: &Value) -> Result<Option<FunctionCall>, AllocError>
    ensures { IfOk result (λ call. call ≡ call_of (view value.now)) }
{
    let Some(function_declaration) = text_at(alloc, value, "functionDeclaration")? else {
        return Ok(None);
    };
    let Some(object_id) = optional_text_at(alloc, value, "objectId")? else {
        return Ok(None);
    };
    let Some(arguments) = arguments(alloc, value)? else {
        return Ok(None);
    };
    let Some(object_group) = optional_text_at(alloc, value, "objectGroup")? else {
        return Ok(None);
    };
    let Some(flags) = flags(value) else {
        return Ok(None);
    };
    Ok(Some(FunctionCall {
        function_declaration,
        object_id,
        arguments,
        object_group,
        return_by_value: flags.return_by_value,
        generate_preview: flags.generate_preview,
        throw_on_side_effect: flags.throw_on_side_effect,
    }))
}
