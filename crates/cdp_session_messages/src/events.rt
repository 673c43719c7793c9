//! The events that a session is sent (Chrome DevTools Protocol 1.3, domains Debugger and Runtime).

ghost use Rattle.std.specs.Prelude.{◌≡◌, IfOk, string_bytes};
ghost use Rattle.cdp_json.specs.Views.{json_view};
ghost use Rattle.cdp_session_messages.specs.Results as results;

use cdp_json::event_text;
use cdp_json::parts::{member, nothing, object_of_one, put_ascii_text, put_value};
use cdp_json::value::{Json, number, object};
use std::alloc::{AllocError, Global};

/// The bytes of the event `Debugger.resumed`.
pub const RESUMED_SIZE: usize = 41;

/// The event `Debugger.resumed`.
pub fn resumed_text(alloc: Global) -> Result<String, AllocError>
    ensures { IfOk result (λ t. string_bytes t ≡ results.resumed_text) }
{
    event_text(alloc, "Debugger.resumed", &nothing(alloc))
}

/// The only context, in which the scripts run (Chrome DevTools Protocol 1.3, `Runtime.ExecutionContextDescription`).
fn context(alloc: Global) -> Result<Json, AllocError>
    ensures { IfOk result (λ j. json_view j ≡ results.context) }
{
    let mut members = Vec::new(alloc);
    put_value(alloc, &mut members, b"id", number(1))?;
    put_ascii_text(alloc, &mut members, b"name", b"debug_host")?;
    put_ascii_text(alloc, &mut members, b"origin", b"")?;
    Ok(object(members))
}

/// The event `Runtime.executionContextCreated`.
pub fn context_created_text(alloc: Global) -> Result<String, AllocError>
    ensures { IfOk result (λ t. string_bytes t ≡ results.context_created_text) }
{
    let context = context(alloc)?;
    let params = object_of_one(alloc, member(alloc, b"context", context)?)?;
    event_text(alloc, "Runtime.executionContextCreated", &params)
}
