//! The results of evaluations, written without a tree (Chrome DevTools Protocol 1.3, `Runtime.ExceptionDetails`).

ghost use Rattle.std.specs.Prelude.{◌≡◌, string_bytes, IfOk, OnOk};
ghost use Rattle.cdp_json.specs.Pieces.{Wrote};
ghost use Rattle.cdp_session.specs.ResultTexts as results;

use cdp_json::pen::Pen;
use std::alloc::{AllocError, Global};

/// Room for what stands around the text of a value, in bytes.
const RESULT_ROOM: usize = 16;

/// Room for what is said of a throw beside the text of its value, in bytes.
const THROWN_ROOM: usize = 256;

/// The result that has a value, which was described by this text.
pub(crate) fn value_text(alloc: Global, described: &str) -> Result<String, AllocError>
    ensures { IfOk result (λ text. string_bytes text ≡ results.value_text described.now) }
{
    let mut pen = Pen::with_room(alloc, described.len() + RESULT_ROOM)?;
    pen.put("{\"result\":")?;
    pen.put(described)?;
    pen.put("}")?;
    Ok(pen.finish())
}

/// Writes what went wrong: the value that was thrown, and the number of the exception among those of the session.
fn write_uncaught(id: u64, described: &str, pen: &mut Pen) -> Result<(), AllocError>
    ensures { OnOk result (Wrote pen.old (results.uncaught_text id described.now) pen.new) }
{
    pen.put("{\"columnNumber\":0,\"exception\":")?;
    pen.put(described)?;
    pen.put(",\"exceptionId\":")?;
    pen.natural(id)?;
    pen.put(",\"lineNumber\":0,\"text\":\"Uncaught\"}")
}

/// The result of a throw, whose value was described once by this text; the number is that of the exception among those
/// of the session.
pub(crate) fn thrown_text(alloc: Global, id: u64, described: &str) -> Result<String, AllocError>
    ensures { IfOk result (λ text. string_bytes text ≡ results.thrown_text id described.now) }
{
    let mut pen = Pen::with_room(alloc, described.len() + THROWN_ROOM)?;
    pen.put("{\"exceptionDetails\":")?;
    write_uncaught(id, described, &mut pen)?;
    pen.put(",\"result\":")?;
    pen.put(described)?;
    pen.put("}")?;
    Ok(pen.finish())
}
