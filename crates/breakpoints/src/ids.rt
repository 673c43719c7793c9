//! The ids of breakpoints, and the comparison of texts.

ghost use Rattle.std.specs.Prelude.{◌≡◌, bytes_eq, IfOk};
ghost use Rattle.breakpoints.specs.Ids.{place_id, url_id};

use cdp_text::position::{Place, Pos};
use cdp_text::units::{Units, ascii};
use std::alloc::{AllocError, Global};

/// The id of a breakpoint at a position of the scripts of a URL.
pub(crate) fn url_id(alloc: Global, pos: Pos, url: &[u16]) -> Result<Units, AllocError>
    ensures { IfOk result (λ id. id ≡ url_id pos url.now) }
{
    let (line, col) = (pos.line, pos.col);
    let front = format!(in alloc; "1:{line}:{col}:")?;
    let mut units = ascii(alloc, front.as_bytes())?.into_vec();
    units.extend_from_slice(url)?;
    Ok(Units::from_vec(units))
}

/// The id of a breakpoint at a place of one script.
pub(crate) fn place_id(alloc: Global, place: Place) -> Result<Units, AllocError>
    ensures { IfOk result (λ id. id ≡ place_id place) }
{
    let (line, col, script) = (place.pos.line, place.pos.col, place.script);
    let text = format!(in alloc; "4:{line}:{col}:{script}")?;
    ascii(alloc, text.as_bytes())
}

/// Whether two texts are the same.
pub(crate) fn is_same(a: &[u16], b: &[u16]) -> bool
    ensures { result ≡ bytes_eq a.now b.now }
{
    a == b
}
