//! The beginnings and the end of messages (JSON-RPC 2.0), around a result or parameters that are written in between.

ghost use Rattle.std.specs.Prelude.{OnOk};
ghost use Rattle.cdp_json.specs.Envelopes.{event_front, message_back, result_front};
ghost use Rattle.cdp_json.specs.Pieces.{Wrote};

use crate::pen::Pen;
use std::alloc::AllocError;

/// Writes the reply to the command of this id, up to its result: `{"id":..,"result":`.
///
/// # Errors
///
/// There is no memory for it, and a part of it may have been written.
pub fn begin_result(id: u64, pen: &mut Pen) -> Result<(), AllocError>
    ensures { OnOk result (Wrote pen.old (result_front id) pen.new) }
{
    pen.put("{\"id\":")?;
    pen.natural(id)?;
    pen.put(",\"result\":")
}

/// Writes an event of this method, up to its parameters: `{"method":..,"params":`.
///
/// # Errors
///
/// There is no memory for it, and a part of it may have been written.
pub fn begin_event(method: &str, pen: &mut Pen) -> Result<(), AllocError>
    ensures { OnOk result (Wrote pen.old (event_front method.now) pen.new) }
{
    pen.put("{\"method\":")?;
    pen.quoted_str(method)?;
    pen.put(",\"params\":")
}

/// Writes the end of a message, behind its result or its parameters: `}`.
///
/// # Errors
///
/// There is no memory for it, and nothing is written.
pub fn end_message(pen: &mut Pen) -> Result<(), AllocError>
    ensures { OnOk result (Wrote pen.old message_back pen.new) }
{
    pen.put("}")
}
