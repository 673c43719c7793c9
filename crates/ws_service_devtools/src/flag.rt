//! The parameter `throwOnSideEffect` of evaluations (Chrome DevTools Protocol 1.3, Runtime.evaluate).

ghost use Rattle.std.specs.Prelude.{◌≡◌, ◌≤◌, ◌<◌, ℕ, None, Some, codes, true, IfOk, option_and_then};
ghost use Rattle.std.specs.Option.{option_map};
ghost use Rattle.serde_json.specs.Data.{depth, object};
ghost use Rattle.serde_json.specs.Find.{as_object, get};
ghost use Rattle.serde_json.specs.View.{members_view, view};
ghost use Rattle.ws_service_devtools.specs.Texts.{IsWithoutFlag, Updates, clears_flag, flag_name};

use serde_json::{Map, Value};
use std::alloc::{AllocError, Global};

/// Its name.
const FLAG: &str = "throwOnSideEffect";

/// Whether a command has it as false.
pub(crate) fn clears_flag(command: &Value) -> bool
    ensures { result ≡ clears_flag (view command.now) }
{
    match command.get("params").and_then(|params| params.get(FLAG)) {
        Some(flag) => flag.as_bool() == Some(false),
        None => false,
    }
}

/// The members of a value that is an object.
fn members_of(value: Option<Value>) -> Option<Map<String, Value>>
    ensures { option_map (λ members. members_view members.entries) result ≡ option_and_then as_object (option_map view value) }
{
    match value {
        Some(Value::Object(members)) => Some(members),
        _ => None,
    }
}

/// Takes the parameters out of a command that has some.
fn take_params(command: &mut Map<String, Value>) -> Map<String, Value>
    requires { clears_flag (object (members_view command.old.entries)) ≡ true }
    ensures given { get (codes "params") (object (members_view command.old.entries)) ≡ Some (object (members_view result.entries)) }
    ensures others { Updates (codes "params") None (object (members_view command.old.entries)) (object (members_view command.new.entries)) }
    ensures shallower { depth (object (members_view command.new.entries)) ≤ depth (object (members_view command.old.entries)) }
    ensures inside { depth (object (members_view result.entries)) < depth (object (members_view command.old.entries)) }
{
    match members_of(command.remove("params")) {
        Some(params) => params,
        None => unreachable!(),
    }
}

/// These parameters without it.
fn without_parameter(mut params: Map<String, Value>) -> Value
    ensures without { Updates flag_name None (object (members_view params.entries)) (view result) }
    ensures depth { depth (view result) ≤ depth (object (members_view params.entries)) }
{
    params.remove(FLAG);
    Value::Object(params)
}

/// A command without parameters, with these.
fn with_params(
    alloc: Global,
    mut command: Map<String, Value>,
    params: Value,
) -> Result<Value, AllocError>
    ensures with { IfOk result (λ whole. Updates (codes "params") (Some (view params)) (object (members_view command.entries)) (view whole)) }
    ensures depth { IfOk result (λ whole. (n : ℕ) → depth (view params) < n → depth (object (members_view command.entries)) ≤ n → depth (view whole) ≤ n) }
{
    let name = String::from_str(alloc, "params")?;
    match command.insert(name, params) {
        Ok(_) => Ok(Value::Object(command)),
        Err(_) => Err(AllocError),
    }
}

/// A command that clears it, without it.
pub(crate) fn without_flag(alloc: Global, command: Value) -> Result<Value, AllocError>
    requires { clears_flag (view command) ≡ true }
    ensures without { IfOk result (λ other. IsWithoutFlag (view command) (view other)) }
    ensures depth { IfOk result (λ other. depth (view other) ≤ depth (view command)) }
{
    let Value::Object(mut members) = command else {
        unreachable!()
    };
    let params = take_params(&mut members);
    with_params(alloc, members, without_parameter(params))
}
