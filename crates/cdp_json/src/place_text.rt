//! Places in scripts, written without a tree (Chrome DevTools Protocol 1.3, `Debugger.Location`).

ghost use Rattle.std.specs.Prelude.{OnOk};
ghost use Rattle.cdp_json.specs.Compact.{compact_text};
ghost use Rattle.cdp_json.specs.Parts as parts;
ghost use Rattle.cdp_json.specs.Pieces.{Wrote};

use crate::pen::Pen;
use cdp_text::position::Place;
use std::alloc::AllocError;

/// Writes a place.
///
/// # Errors
///
/// There is no memory for it, and a part of it may have been written.
pub fn write_location(place: Place, pen: &mut Pen) -> Result<(), AllocError>
    ensures { OnOk result (Wrote pen.old (compact_text (parts.location place)) pen.new) }
{
    pen.put("{\"columnNumber\":")?;
    pen.natural(u64::from(place.pos.col))?;
    pen.put(",\"lineNumber\":")?;
    pen.natural(u64::from(place.pos.line))?;
    pen.put(",\"scriptId\":")?;
    pen.quoted_natural(u64::from(place.script))?;
    pen.put("}")
}
