//! The messages that a session is sent (JSON-RPC 2.0): replies, refusals and events.

ghost use Rattle.std.specs.Prelude.{◌≡◌, ◌++◌, IfOk, OnOk, string_bytes};
ghost use Rattle.cdp_json.specs.Messages as messages;
ghost use Rattle.cdp_json.specs.Messages.{id_text};
ghost use Rattle.cdp_json.specs.Views.{json_view};

use crate::compact::{put_json, put_number, put_quoted, put_string};
use crate::refusal::{Refusal, code, message};
use crate::value::Json;
use std::alloc::{AllocError, Global};
use std::fmt::Write;

/// The reply to the command of this id: `{"id":..,"result":..}`.
pub fn result_text(alloc: Global, id: u64, result_value: &Json) -> Result<String, AllocError>
    ensures { IfOk result (λ text. string_bytes text ≡ messages.result_text id (json_view result_value.now)) }
{
    let mut out = format!(in alloc; "{{\"id\":{id},\"result\":")?;
    put_json(&mut out, result_value)?;
    out.push_str("}")?;
    Ok(out)
}

/// The reply to a command that is refused: `{"error":{"code":..,"message":..},"id":..}`, without an `id` where none was
/// read.
pub fn refusal_text(alloc: Global, id: Option<u64>, refusal: &Refusal) -> Result<String, AllocError>
    ensures { IfOk result (λ text. string_bytes text ≡ messages.refusal_text id refusal.now) }
{
    let mut out = error_text(alloc, refusal)?;
    put_id(&mut out, id)?;
    out.push_str("}")?;
    Ok(out)
}

/// The beginning of a refusal: `{"error":{"code":..,"message":..}`.
fn error_text(alloc: Global, refusal: &Refusal) -> Result<String, AllocError>
    ensures { IfOk result (λ text. string_bytes text ≡ messages.error_text refusal.now) }
{
    let units = message(alloc, refusal)?;
    let mut out = String::from_str(alloc, "{\"error\":{\"code\":")?;
    put_number(&mut out, code(refusal))?;
    out.push_str(",\"message\":")?;
    put_string(&mut out, units.as_slice())?;
    out.push_str("}")?;
    Ok(out)
}

/// Appends the member `id`, where there is an id.
fn put_id(out: &mut String, id: Option<u64>) -> Result<(), AllocError>
    ensures { OnOk result (string_bytes out.new ≡ string_bytes out.old ++ id_text id) }
{
    match id {
        None => Ok(()),
        Some(id) => write!(out, ",\"id\":{id}"),
    }
}

/// An event of this method: `{"method":..,"params":..}`.
pub fn event_text(alloc: Global, method: &str, params: &Json) -> Result<String, AllocError>
    ensures { IfOk result (λ text. string_bytes text ≡ messages.event_text method.now (json_view params.now)) }
{
    let mut out = String::from_str(alloc, "{\"method\":")?;
    put_quoted(&mut out, method)?;
    out.push_str(",\"params\":")?;
    put_json(&mut out, params)?;
    out.push_str("}")?;
    Ok(out)
}
