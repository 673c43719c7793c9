//! Texts compared with ASCII bytes and made of other texts.

ghost use Rattle.std.specs.Prelude.{◌≡◌, ◌++◌, IfOk};
ghost use Rattle.js_heap.specs.Keys.{same_units};

use cdp_text::units::{Units, ascii};
use std::alloc::{AllocError, Global};

/// Whether a text is these bytes, one unit for each.
pub(crate) fn is_ascii(units: &[u16], bytes: &[u8]) -> bool
    ensures { result ≡ same_units units.now bytes.now }
{
    if units.len() != bytes.len() {
        return false;
    }
    for i in 0..units.len() {
        if units[i] != u16::from(bytes[i]) {
            return false;
        }
    }
    true
}

/// Two texts one behind the other.
pub fn joined(alloc: Global, first: &[u16], second: &[u16]) -> Result<Units, AllocError>
    ensures { IfOk result (λ units. units ≡ first.now ++ second.now) }
{
    let mut items = Vec::from_slice(alloc, first)?;
    items.extend_from_slice(second)?;
    Ok(Units::from_vec(items))
}

/// A text between two ASCII texts.
pub fn quoted(
    alloc: Global,
    before: &[u8],
    text: &[u16],
    behind: &[u8],
) -> Result<Units, AllocError>
    ensures { IfOk result (λ units. units ≡ before.now ++ text.now ++ behind.now) }
{
    let opened = ascii(alloc, before)?;
    let named = joined(alloc, opened.as_slice(), text)?;
    let closing = ascii(alloc, behind)?;
    joined(alloc, named.as_slice(), closing.as_slice())
}
