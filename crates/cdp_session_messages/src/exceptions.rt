//! The results of evaluations as JSON values (Chrome DevTools Protocol 1.3, `Runtime.ExceptionDetails`).

ghost use Rattle.std.specs.Prelude.{◌≡◌, ◌≤◌, ◌^◌, map, IfOk, option_to_list};
ghost use Rattle.cdp_json.specs.Views.{json_view, member_view};
ghost use Rattle.cdp_session_messages.specs.Exceptions as exceptions;

use crate::members::{put_given, put_number};
use cdp_json::copied;
use cdp_json::parts::{ascii_member, member, object_of_one, put_ascii_text, put_value};
use cdp_json::value::{Json, Member, object};
use std::alloc::{AllocError, Global};

/// What went wrong: the exception, if one was described, its number among those of the session, and a text.
fn details(
    alloc: Global,
    exception: Option<Member>,
    id: u64,
    shown: &[u8],
) -> Result<Json, AllocError>
    requires { id ≤ 2 ^ 62 }
    ensures { IfOk result (λ j. json_view j ≡ exceptions.details (map member_view (option_to_list exception)) id shown.now) }
{
    let mut members = Vec::new(alloc);
    put_number(alloc, &mut members, b"columnNumber", 0)?;
    put_given(&mut members, exception)?;
    put_number(alloc, &mut members, b"exceptionId", id)?;
    put_number(alloc, &mut members, b"lineNumber", 0)?;
    put_ascii_text(alloc, &mut members, b"text", shown)?;
    Ok(object(members))
}

/// The result that says what went wrong, and has what was described.
fn details_result(alloc: Global, says: Json, described: Json) -> Result<Json, AllocError>
    ensures { IfOk result (λ j. json_view j ≡ exceptions.details_result (json_view says) (json_view described)) }
{
    let mut members = Vec::new(alloc);
    put_value(alloc, &mut members, b"exceptionDetails", says)?;
    put_value(alloc, &mut members, b"result", described)?;
    Ok(object(members))
}

/// The result of a throw, whose value was described once; the number is that of the exception among those of the session.
pub fn thrown_result(alloc: Global, id: u64, described: Json) -> Result<Json, AllocError>
    requires { id ≤ 2 ^ 62 }
    ensures { IfOk result (λ j. json_view j ≡ exceptions.thrown_result id (json_view described)) }
{
    let copy = copied(alloc, &described)?;
    let exception = member(alloc, b"exception", copy)?;
    let says = details(alloc, Some(exception), id, b"Uncaught")?;
    details_result(alloc, says, described)
}

/// What would have had an effect, described.
pub fn effect_object(alloc: Global) -> Result<Json, AllocError>
    ensures { IfOk result (λ j. json_view j ≡ exceptions.effect_object) }
{
    let shown = b"EvalError: Possible side-effect in debug-evaluate";
    let mut members = Vec::new(alloc);
    put_ascii_text(alloc, &mut members, b"className", b"EvalError")?;
    put_ascii_text(alloc, &mut members, b"description", shown)?;
    put_ascii_text(alloc, &mut members, b"subtype", b"error")?;
    put_ascii_text(alloc, &mut members, b"type", b"object")?;
    Ok(object(members))
}

/// The result of a text that is no expression.
pub fn syntax_result(alloc: Global, id: u64) -> Result<Json, AllocError>
    requires { id ≤ 2 ^ 62 }
    ensures { IfOk result (λ j. json_view j ≡ exceptions.syntax_result id) }
{
    let shown = b"Uncaught SyntaxError: Unexpected token";
    let says = details(alloc, None, id, shown)?;
    let kind = ascii_member(alloc, b"type", b"undefined")?;
    let described = object_of_one(alloc, kind)?;
    details_result(alloc, says, described)
}
