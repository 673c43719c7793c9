//! The break locations of a script.

ghost use Rattle.std.specs.Prelude.{◌≡◌, ◌+◌, ◌<◌, ◌≤◌, ◌^◌, IfOk, length};
ghost use Rattle.std.specs.List.{Contains};
ghost use Rattle.cdp_text.specs.Position.{position};
ghost use Rattle.js_semantics.specs.Frames.{offset_of};
ghost use Rattle.locations.specs.declared.marks.Marked.{Marked};
ghost use Rattle.locations.specs.Kinds.{kind_of};
ghost use Rattle.locations.specs.Locations.{script_marks, locations_below, break_locations};
ghost use Rattle.locations.specs.Order.{IsAscending, IsAt};

use crate::kinds::kinds_of;
use crate::marks::Marked;
use crate::spot::{Spot, SpotKind};
use crate::statements::statements_marks;
use cdp_text::line_table::LineTable;
use js_tree::script::Script;
use std::alloc::{AllocError, Global};

/// The marks of a script.
fn marks_of(alloc: Global, script: &Script) -> Result<Vec<Marked>, AllocError>
    ensures { IfOk result (λ marks. marks.items ≡ script_marks script.now) }
{
    let mut marks = Vec::new(alloc);
    statements_marks(&mut marks, &script.body)?;
    Ok(marks)
}

/// The locations where this is what stands at each offset of a source, which has as many or one more.
fn spots_of(
    alloc: Global,
    source: &[u16],
    kinds: &[Option<SpotKind>],
) -> Result<Vec<Spot>, AllocError>
    requires short { length source.now < 2 ^ 32 }
    requires within { length kinds.now ≤ length source.now + 1 }
    ensures { IfOk result (λ spots. spots.items ≡ locations_below source.now (kind_of kinds.now) (length kinds.now)) }
{
    let lines = LineTable::new(alloc, source)?;
    let mut spots = Vec::new(alloc);
    for (offset, kind) in kinds.iter().enumerate() {
        if let Some(kind) = *kind {
            let pos = lines.pos_at(source, offset);
            spots.push(Spot { pos, kind })?;
        }
    }
    Ok(spots)
}

/// The break locations of a script in ascending order, one for each place. A mark of several kinds is the strongest.
pub fn break_locations(alloc: Global, script: &Script) -> Result<Vec<Spot>, AllocError>
    requires { length script.now.source < 2 ^ 32 }
    ensures exact { IfOk result (λ spots. spots.items ≡ break_locations script.now) }
    ensures ascending { IfOk result (λ spots. IsAscending spots.items) }
    // Each mark of the script stands at one of them.
    ensures covers { IfOk result (λ spots. (m : Marked) → Contains (script_marks script.now) m → IsAt spots.items (position script.now.source (offset_of script.now.spans m.mark))) }
{
    let marks = marks_of(alloc, script)?;
    let kinds = kinds_of(alloc, script, &marks)?;
    spots_of(alloc, script.source.as_slice(), &kinds)
}
