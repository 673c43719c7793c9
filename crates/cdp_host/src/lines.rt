//! Where the lines of scripts begin.

ghost use Rattle.std.specs.Prelude.{◌≡◌, IfOk};
ghost use Rattle.frames_scopes.specs.Places.{starts_of};
ghost use Rattle.cdp_host.specs.Arrivals.{IsShort};
ghost use Rattle.cdp_host.specs.Hosts.{AreLines};

use cdp_text::line_table::LineTable;
use js_tree::script::Script;
use std::alloc::{AllocError, Global};

/// The first length of a source, in units, at which positions aren't of 32 bits any more.
const LENGTH_LIMIT: usize = 1 << 32;

/// Where the lines of a script begin. A script that is too long for positions of 32 bits, which no parsed one is, is answered
/// by want of memory.
fn lines_of(alloc: Global, script: &Script) -> Result<LineTable, AllocError>
    ensures starts { IfOk result (λ lines. lines ≡ starts_of script.now) }
    ensures short { IfOk result (λ _. IsShort script.now) }
{
    let source = script.source.as_slice();
    if source.len() >= LENGTH_LIMIT {
        return Err(AllocError);
    }
    LineTable::new(alloc, source)
}

/// Where the lines of each script begin, found once.
///
/// # Errors
///
/// There is no memory for them.
pub(crate) fn lines_of_all(alloc: Global, scripts: &[Script]) -> Result<Vec<LineTable>, AllocError>
    ensures { IfOk result (λ lines. AreLines scripts.now lines.items) }
{
    let mut lines = Vec::with_capacity(alloc, scripts.len())?;
    for script in scripts {
        lines.push(lines_of(alloc, script)?)?;
    }
    Ok(lines)
}
