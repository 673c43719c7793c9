//! The event of a print (Chrome DevTools Protocol 1.3, `Runtime.consoleAPICalled`).

ghost use Rattle.std.specs.Prelude.{◌≡◌, ◌<◌, ◌^◌, map, string_bytes, IfOk};
ghost use Rattle.cdp_json.specs.Views.{json_view};
ghost use Rattle.cdp_session_messages.specs.Prints as prints;

use crate::members::put_number;
use cdp_json::event_text;
use cdp_json::parts::{put_ascii_text, put_value};
use cdp_json::value::{Json, list, object};
use std::alloc::{AllocError, Global};

/// What `Runtime.consoleAPICalled` says: the values, in which context they were printed, when, and by which call.
fn print_params(alloc: Global, values: Vec<Json>, moment: u64) -> Result<Json, AllocError>
    requires { moment < 2 ^ 53 }
    ensures { IfOk result (λ j. json_view j ≡ prints.print_params (map json_view values.items) moment) }
{
    let mut members = Vec::new(alloc);
    put_value(alloc, &mut members, b"args", list(values))?;
    put_number(alloc, &mut members, b"executionContextId", 1)?;
    put_number(alloc, &mut members, b"timestamp", moment)?;
    put_ascii_text(alloc, &mut members, b"type", b"log")?;
    Ok(object(members))
}

/// The event `Runtime.consoleAPICalled`.
pub fn print_text(alloc: Global, values: Vec<Json>, moment: u64) -> Result<String, AllocError>
    requires { moment < 2 ^ 53 }
    ensures { IfOk result (λ t. string_bytes t ≡ prints.print_text (map json_view values.items) moment) }
{
    let params = print_params(alloc, values, moment)?;
    event_text(alloc, "Runtime.consoleAPICalled", &params)
}
