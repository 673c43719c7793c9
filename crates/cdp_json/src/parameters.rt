//! The parameters of commands, read off JSON values: one function for each method that has some.
//!
//! Each answers `None` where a parameter is missing or of another kind.

ghost use Rattle.std.specs.Prelude.{◌≡◌, IfOk, Some, codes, option_map, option_and_then};
ghost use Rattle.serde_json.specs.View.{view};
ghost use Rattle.serde_json.specs.Find.{as_str};
ghost use Rattle.cdp_json.specs.Members.{required, optional};
ghost use Rattle.cdp_json.specs.Parameters.{location_from, location_of, unless_empty, condition_of, continue_of, by_url_from, by_url_of, at_location_from, at_location_of, remove_of, active_of, skip_of, state_named, state_of, depth_of, possible_from, possible_of, source_of, evaluation_from, evaluation_of, evaluate_of, on_frame_from, on_frame_of, call_function_of, properties_from, properties_of, release_of, release_group_of, params_of};

use crate::calls::call;
use crate::flags::{EvaluationFlags, flag_or_false, flags};
use crate::members::{
    bool_at, is_integer, optional_bool_at, optional_text_at, position, str_at, text, text_at,
};
use crate::method::Method;
use crate::params::{Evaluation, ExceptionPauses, Location, Params};
use cdp_text::position::Pos;
use cdp_text::units::Units;
use serde_json::Value;
use std::alloc::{AllocError, Global};

/// The location of a script's id and a position, where both are there.
fn location_from(script_id: Option<Units>, position: Option<Pos>) -> Option<Location>
    ensures { result ≡ location_from script_id position }
{
    match script_id {
        Some(script_id) => match position {
            Some(position) => Some(Location {
                script_id,
                position,
            }),
            None => None,
        },
        None => None,
    }
}

/// A location: `scriptId`, `lineNumber`, `columnNumber?`.
fn location(alloc: Global, value: &Value) -> Result<Option<Location>, AllocError>
    ensures { IfOk result (λ location. location ≡ location_of (view value.now)) }
{
    let script_id = text_at(alloc, value, "scriptId")?;
    Ok(location_from(script_id, position(value)))
}

/// The location that a member is.
fn location_at(alloc: Global, value: &Value, name: &str) -> Result<Option<Location>, AllocError>
    ensures { IfOk result (λ location. location ≡ required location_of name.now (view value.now)) }
{
    match value.get(name) {
        Some(member) => location(alloc, member),
        None => Ok(None),
    }
}

/// The location that a member is which may be absent.
fn optional_location_at(
    alloc: Global,
    value: &Value,
    name: &str,
) -> Result<Option<Option<Location>>, AllocError>
    ensures { IfOk result (λ location. location ≡ optional location_of name.now (view value.now)) }
{
    match value.get(name) {
        Some(member) => Ok(given(location(alloc, member)?)),
        None => Ok(Some(None)),
    }
}

/// A location that is there, where it is one.
fn given(location: Option<Location>) -> Option<Option<Location>>
    ensures { result ≡ option_map Some location }
{
    match location {
        Some(location) => Some(Some(location)),
        None => None,
    }
}

/// A text, unless it is empty.
fn unless_empty(units: Units) -> Option<Units>
    ensures { result ≡ unless_empty units }
{
    if units.is_empty() { None } else { Some(units) }
}

/// A condition that is there, where it is a text; an empty one is none.
fn given_condition(text: Option<Units>) -> Option<Option<Units>>
    ensures { result ≡ option_map unless_empty text }
{
    match text {
        Some(units) => Some(unless_empty(units)),
        None => None,
    }
}

/// The condition of a breakpoint.
fn condition(alloc: Global, value: &Value) -> Result<Option<Option<Units>>, AllocError>
    ensures { IfOk result (λ condition. condition ≡ condition_of (view value.now)) }
{
    match value.get("condition") {
        Some(member) => Ok(given_condition(text(alloc, member)?)),
        None => Ok(Some(None)),
    }
}

/// `location`
fn continue_to(alloc: Global, value: &Value) -> Result<Option<Params>, AllocError>
    ensures { IfOk result (λ params. params ≡ continue_of (view value.now)) }
{
    match location_at(alloc, value, "location")? {
        Some(location) => Ok(Some(Params::ContinueToLocation { location })),
        None => Ok(None),
    }
}

/// The parameters of a breakpoint by URL, where all are there.
fn by_url_from(
    url: Option<Units>,
    position: Option<Pos>,
    condition: Option<Option<Units>>,
) -> Option<Params>
    ensures { result ≡ by_url_from url position condition }
{
    match url {
        Some(url) => match position {
            Some(position) => match condition {
                Some(condition) => Some(Params::SetBreakpointByUrl {
                    url,
                    position,
                    condition,
                }),
                None => None,
            },
            None => None,
        },
        None => None,
    }
}

/// `lineNumber, url, columnNumber?, condition?`
fn by_url(alloc: Global, value: &Value) -> Result<Option<Params>, AllocError>
    ensures { IfOk result (λ params. params ≡ by_url_of (view value.now)) }
{
    let url = text_at(alloc, value, "url")?;
    let condition = condition(alloc, value)?;
    Ok(by_url_from(url, position(value), condition))
}

/// The parameters of a breakpoint at a location, where all are there.
fn at_location_from(location: Option<Location>, condition: Option<Option<Units>>) -> Option<Params>
    ensures { result ≡ at_location_from location condition }
{
    match location {
        Some(location) => match condition {
            Some(condition) => Some(Params::SetBreakpoint {
                location,
                condition,
            }),
            None => None,
        },
        None => None,
    }
}

/// `location, condition?`
fn at_location(alloc: Global, value: &Value) -> Result<Option<Params>, AllocError>
    ensures { IfOk result (λ params. params ≡ at_location_of (view value.now)) }
{
    let location = location_at(alloc, value, "location")?;
    let condition = condition(alloc, value)?;
    Ok(at_location_from(location, condition))
}

/// `breakpointId`
fn remove(alloc: Global, value: &Value) -> Result<Option<Params>, AllocError>
    ensures { IfOk result (λ params. params ≡ remove_of (view value.now)) }
{
    match text_at(alloc, value, "breakpointId")? {
        Some(breakpoint_id) => Ok(Some(Params::RemoveBreakpoint { breakpoint_id })),
        None => Ok(None),
    }
}

/// `active`
fn activity(value: &Value) -> Option<Params>
    ensures { result ≡ active_of (view value.now) }
{
    match bool_at(value, "active") {
        Some(active) => Some(Params::SetBreakpointsActive { active }),
        None => None,
    }
}

/// `skip`
fn skipping(value: &Value) -> Option<Params>
    ensures { result ≡ skip_of (view value.now) }
{
    match bool_at(value, "skip") {
        Some(skip) => Some(Params::SetSkipAllPauses { skip }),
        None => None,
    }
}

/// The state of this name.
fn state_named(name: &str) -> Option<ExceptionPauses>
    ensures { result ≡ state_named name.now }
{
    match name {
        "none" => Some(ExceptionPauses::Never),
        "uncaught" => Some(ExceptionPauses::Uncaught),
        "all" => Some(ExceptionPauses::All),
        _ => None,
    }
}

/// The state that `state` names.
fn pauses(value: &Value) -> Option<ExceptionPauses>
    ensures { result ≡ option_and_then state_named (required as_str (codes "state") (view value.now)) }
{
    match str_at(value, "state") {
        Some(name) => state_named(name),
        None => None,
    }
}

/// `state`: `none`, `uncaught` or `all`
fn pausing(value: &Value) -> Option<Params>
    ensures { result ≡ state_of (view value.now) }
{
    match pauses(value) {
        Some(state) => Some(Params::SetPauseOnExceptions { state }),
        None => None,
    }
}

/// `maxDepth`: any integer
fn stack_depth(value: &Value) -> Option<Params>
    ensures { result ≡ depth_of (view value.now) }
{
    match value.get("maxDepth") {
        Some(member) => {
            if is_integer(member) {
                Some(Params::SetAsyncCallStackDepth)
            } else {
                None
            }
        }
        None => None,
    }
}

/// The range from a start to an end of the same script.
fn possible_from(start: Option<Location>, end: Option<Option<Location>>) -> Option<Params>
    ensures { result ≡ possible_from start end }
{
    match start {
        Some(start) => match end {
            Some(Some(end)) => {
                if start.script_id == end.script_id {
                    Some(Params::GetPossibleBreakpoints {
                        start,
                        end: Some(end),
                    })
                } else {
                    None
                }
            }
            Some(None) => Some(Params::GetPossibleBreakpoints { start, end: None }),
            None => None,
        },
        None => None,
    }
}

/// `start, end?`, of one script
fn possible(alloc: Global, value: &Value) -> Result<Option<Params>, AllocError>
    ensures { IfOk result (λ params. params ≡ possible_of (view value.now)) }
{
    let start = location_at(alloc, value, "start")?;
    let end = optional_location_at(alloc, value, "end")?;
    Ok(possible_from(start, end))
}

/// `scriptId`
fn source(alloc: Global, value: &Value) -> Result<Option<Params>, AllocError>
    ensures { IfOk result (λ params. params ≡ source_of (view value.now)) }
{
    match text_at(alloc, value, "scriptId")? {
        Some(script_id) => Ok(Some(Params::GetScriptSource { script_id })),
        None => Ok(None),
    }
}

/// An evaluation, where all of its parameters are there.
fn evaluation_from(
    expression: Option<Units>,
    object_group: Option<Option<Units>>,
    flags: Option<EvaluationFlags>,
) -> Option<Evaluation>
    ensures { result ≡ evaluation_from expression object_group flags }
{
    match expression {
        Some(expression) => match object_group {
            Some(object_group) => match flags {
                Some(flags) => Some(Evaluation {
                    expression,
                    object_group,
                    return_by_value: flags.return_by_value,
                    generate_preview: flags.generate_preview,
                    throw_on_side_effect: flags.throw_on_side_effect,
                }),
                None => None,
            },
            None => None,
        },
        None => None,
    }
}

/// `expression, objectGroup?, silent?, returnByValue?, generatePreview?, throwOnSideEffect?`
fn evaluation(alloc: Global, value: &Value) -> Result<Option<Evaluation>, AllocError>
    ensures { IfOk result (λ evaluation. evaluation ≡ evaluation_of (view value.now)) }
{
    let expression = text_at(alloc, value, "expression")?;
    let object_group = optional_text_at(alloc, value, "objectGroup")?;
    Ok(evaluation_from(expression, object_group, flags(value)))
}

/// The parameters of an evaluation.
fn evaluate(alloc: Global, value: &Value) -> Result<Option<Params>, AllocError>
    ensures { IfOk result (λ params. params ≡ evaluate_of (view value.now)) }
{
    match evaluation(alloc, value)? {
        Some(evaluation) => Ok(Some(Params::Evaluate { evaluation })),
        None => Ok(None),
    }
}

/// The parameters of an evaluation in a frame, where all are there.
fn on_frame_from(call_frame_id: Option<Units>, evaluation: Option<Evaluation>) -> Option<Params>
    ensures { result ≡ on_frame_from call_frame_id evaluation }
{
    match call_frame_id {
        Some(call_frame_id) => match evaluation {
            Some(evaluation) => Some(Params::EvaluateOnCallFrame {
                call_frame_id,
                evaluation,
            }),
            None => None,
        },
        None => None,
    }
}

/// `callFrameId`, and the parameters of an evaluation
fn on_frame(alloc: Global, value: &Value) -> Result<Option<Params>, AllocError>
    ensures { IfOk result (λ params. params ≡ on_frame_of (view value.now)) }
{
    let call_frame_id = text_at(alloc, value, "callFrameId")?;
    let evaluation = evaluation(alloc, value)?;
    Ok(on_frame_from(call_frame_id, evaluation))
}

/// The parameters of a call.
fn call_function(alloc: Global, value: &Value) -> Result<Option<Params>, AllocError>
    ensures { IfOk result (λ params. params ≡ call_function_of (view value.now)) }
{
    match call(alloc, value)? {
        Some(call) => Ok(Some(Params::CallFunctionOn { call })),
        None => Ok(None),
    }
}

/// The parameters of a list of properties, where all are of their kinds.
fn properties_from(
    object_id: Option<Units>,
    own: Option<Option<bool>>,
    preview: Option<Option<bool>>,
) -> Option<Params>
    ensures { result ≡ properties_from object_id own preview }
{
    match object_id {
        Some(object_id) => match own {
            Some(own) => match preview {
                Some(preview) => Some(Params::GetProperties {
                    object_id,
                    own_properties: flag_or_false(own),
                    generate_preview: flag_or_false(preview),
                }),
                None => None,
            },
            None => None,
        },
        None => None,
    }
}

/// `objectId, ownProperties?, generatePreview?`
fn properties(alloc: Global, value: &Value) -> Result<Option<Params>, AllocError>
    ensures { IfOk result (λ params. params ≡ properties_of (view value.now)) }
{
    let object_id = text_at(alloc, value, "objectId")?;
    let own = optional_bool_at(value, "ownProperties");
    let preview = optional_bool_at(value, "generatePreview");
    Ok(properties_from(object_id, own, preview))
}

/// `objectId`
fn release(alloc: Global, value: &Value) -> Result<Option<Params>, AllocError>
    ensures { IfOk result (λ params. params ≡ release_of (view value.now)) }
{
    match text_at(alloc, value, "objectId")? {
        Some(object_id) => Ok(Some(Params::ReleaseObject { object_id })),
        None => Ok(None),
    }
}

/// `objectGroup`
fn release_group(alloc: Global, value: &Value) -> Result<Option<Params>, AllocError>
    ensures { IfOk result (λ params. params ≡ release_group_of (view value.now)) }
{
    match text_at(alloc, value, "objectGroup")? {
        Some(object_group) => Ok(Some(Params::ReleaseObjectGroup { object_group })),
        None => Ok(None),
    }
}

/// The parameters of a method, read off the members of a JSON value.
pub(crate) fn params(
    alloc: Global,
    method: Method,
    value: &Value,
) -> Result<Option<Params>, AllocError>
    ensures { IfOk result (λ params. params ≡ params_of method (view value.now)) }
{
    match method {
        Method::DebuggerEnable => Ok(Some(Params::DebuggerEnable)),
        Method::DebuggerDisable => Ok(Some(Params::DebuggerDisable)),
        Method::Pause => Ok(Some(Params::Pause)),
        Method::Resume => Ok(Some(Params::Resume)),
        Method::StepInto => Ok(Some(Params::StepInto)),
        Method::StepOver => Ok(Some(Params::StepOver)),
        Method::StepOut => Ok(Some(Params::StepOut)),
        Method::ContinueToLocation => continue_to(alloc, value),
        Method::SetBreakpointByUrl => by_url(alloc, value),
        Method::SetBreakpoint => at_location(alloc, value),
        Method::RemoveBreakpoint => remove(alloc, value),
        Method::SetBreakpointsActive => Ok(activity(value)),
        Method::SetSkipAllPauses => Ok(skipping(value)),
        Method::SetPauseOnExceptions => Ok(pausing(value)),
        Method::SetAsyncCallStackDepth => Ok(stack_depth(value)),
        Method::GetPossibleBreakpoints => possible(alloc, value),
        Method::GetScriptSource => source(alloc, value),
        Method::EvaluateOnCallFrame => on_frame(alloc, value),
        Method::RuntimeEnable => Ok(Some(Params::RuntimeEnable)),
        Method::RuntimeDisable => Ok(Some(Params::RuntimeDisable)),
        Method::Evaluate => evaluate(alloc, value),
        Method::CallFunctionOn => call_function(alloc, value),
        Method::GetProperties => properties(alloc, value),
        Method::ReleaseObject => release(alloc, value),
        Method::ReleaseObjectGroup => release_group(alloc, value),
        Method::GlobalLexicalScopeNames => Ok(Some(Params::GlobalLexicalScopeNames)),
        Method::RunIfWaitingForDebugger => Ok(Some(Params::RunIfWaitingForDebugger)),
    }
}
