//! The events of the end of a run (Chrome DevTools Protocol 1.3, `Runtime.exceptionThrown` and
//! `Runtime.executionContextDestroyed`).

ghost use Rattle.std.specs.Prelude.{◌≡◌, ◌<◌, ◌≤◌, ◌^◌, map, string_bytes, IfOk};
ghost use Rattle.cdp_json.specs.Views.{json_view, member_view};
ghost use Rattle.cdp_session_messages.specs.Ends as ends;

use crate::members::put_number;
use cdp_json::event_text;
use cdp_json::parts::{
    member, object_of_one, put_ascii_text, put_copied_text, put_value, script_id,
};
use cdp_json::value::{Json, Member, number, object};
use cdp_text::position::Place;
use js_tree::script::Script;
use js_tree::scripts::script_numbered;
use remote_objects::url_of;
use std::alloc::{AllocError, Global};

// ---- where a throw stands

/// The URL of the script that a place is in; that of no script is empty.
pub fn url_at(scripts: &[Script], place: Place) -> &[u16]
    ensures { result.now ≡ ends.url_at scripts.now place }
{
    url_of(script_numbered(scripts, place.script))
}

// ---- the events

/// The members of what went wrong (`Runtime.ExceptionDetails`): where, the exception as it is described, its number among
/// those of the session, and the URL of its script.
fn throw_members(
    alloc: Global,
    place: Place,
    exception: Json,
    id: u64,
    url: &[u16],
) -> Result<Vec<Member>, AllocError>
    requires { id ≤ 2 ^ 62 }
    ensures { IfOk result (λ ms. map member_view ms.items ≡ ends.throw_pairs place (json_view exception) id url.now) }
{
    let mut members = Vec::new(alloc);
    put_number(
        alloc,
        &mut members,
        b"columnNumber",
        u64::from(place.pos.col),
    )?;
    put_value(alloc, &mut members, b"exception", exception)?;
    put_number(alloc, &mut members, b"exceptionId", id)?;
    put_number(
        alloc,
        &mut members,
        b"lineNumber",
        u64::from(place.pos.line),
    )?;
    let script = script_id(alloc, place.script)?;
    put_value(alloc, &mut members, b"scriptId", script)?;
    put_ascii_text(alloc, &mut members, b"text", b"Uncaught")?;
    put_copied_text(alloc, &mut members, b"url", url)?;
    Ok(members)
}

/// What went wrong (`Runtime.ExceptionDetails`).
pub fn throw_details(
    alloc: Global,
    place: Place,
    exception: Json,
    id: u64,
    url: &[u16],
) -> Result<Json, AllocError>
    requires { id ≤ 2 ^ 62 }
    ensures { IfOk result (λ j. json_view j ≡ ends.throw_details place (json_view exception) id url.now) }
{
    let members = throw_members(alloc, place, exception, id, url)?;
    Ok(object(members))
}

/// What `Runtime.exceptionThrown` says: what went wrong, and when.
fn throw_params(alloc: Global, details: Json, moment: u64) -> Result<Json, AllocError>
    requires { moment < 2 ^ 53 }
    ensures { IfOk result (λ j. json_view j ≡ ends.throw_params (json_view details) moment) }
{
    let mut members = Vec::new(alloc);
    put_value(alloc, &mut members, b"exceptionDetails", details)?;
    put_number(alloc, &mut members, b"timestamp", moment)?;
    Ok(object(members))
}

/// The event `Runtime.exceptionThrown`.
pub fn throw_text(alloc: Global, details: Json, moment: u64) -> Result<String, AllocError>
    requires { moment < 2 ^ 53 }
    ensures { IfOk result (λ t. string_bytes t ≡ ends.throw_text (json_view details) moment) }
{
    let params = throw_params(alloc, details, moment)?;
    event_text(alloc, "Runtime.exceptionThrown", &params)
}

/// What `Runtime.executionContextDestroyed` says: it is the only context, in which the scripts ran.
fn context_params(alloc: Global) -> Result<Json, AllocError>
    ensures { IfOk result (λ j. json_view j ≡ ends.context_params) }
{
    object_of_one(alloc, member(alloc, b"executionContextId", number(1))?)
}

/// The event `Runtime.executionContextDestroyed`.
pub fn context_destroyed_text(alloc: Global) -> Result<String, AllocError>
    ensures { IfOk result (λ t. string_bytes t ≡ ends.context_destroyed_text) }
{
    let params = context_params(alloc)?;
    event_text(alloc, "Runtime.executionContextDestroyed", &params)
}
