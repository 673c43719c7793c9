//! What a preview shows (Chrome DevTools Protocol 1.3, `Runtime.ObjectPreview`).

ghost use Rattle.std.specs.Prelude.{◌≡◌, List, ℕ, option_copied, IfOk};
ghost use Rattle.js_heap_memory.specs.Cells.{cell_at};
ghost use Rattle.remote_objects.specs.Previews as previews;

use cdp_text::units::Units;
use js_heap_memory::stored::Stored;
use std::alloc::{AllocError, Global};

/// Up to this many units a text is shown whole.
pub(crate) const MOST_UNITS: usize = 100;

/// So many properties of an object are listed.
pub(crate) const MOST_PROPERTIES: usize = 5;

/// So many elements of an array are listed.
pub(crate) const MOST_ELEMENTS: usize = 100;

/// `…`
const ELLIPSIS: u16 = 0x2026;

// ---- texts

/// A text of more than 100 units is cut to 99 and an ellipsis.
pub(crate) fn shortened(alloc: Global, units: &[u16]) -> Result<Units, AllocError>
    ensures { IfOk result (λ short. short ≡ previews.shortened units.now) }
{
    if units.len() <= MOST_UNITS {
        return Units::from_slice(alloc, units);
    }
    let mut items = Vec::from_slice(alloc, &units[..MOST_UNITS - 1])?;
    items.push(ELLIPSIS)?;
    Ok(Units::from_vec(items))
}

// ---- cells

/// Whether a cell has a preview: an object, an array or an error has one, a function has none.
pub(crate) fn has_preview(cell: Option<&Stored>) -> bool
    ensures { (names : List (List ℕ)) → result ≡ previews.has_preview (cell_at names (option_copied cell.entry)) }
{
    match cell {
        Some(Stored::Function(_)) => false,
        _ => true,
    }
}
