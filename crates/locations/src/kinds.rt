//! What stands at each offset of a source.

ghost use Rattle.std.specs.Prelude.{◌≡◌, ◌<◌, ℕ, None, IfOk, length};
ghost use Rattle.locations.specs.Kinds.{stronger, with_mark, kind_of, AreKinds};

use crate::marks::Marked;
use crate::spot::SpotKind;
use js_semantics::offsets::offset_of;
use js_tree::script::Script;
use std::alloc::{AllocError, Global};

/// Of two kinds the stronger one.
fn stronger(first: SpotKind, second: SpotKind) -> SpotKind
    ensures { result ≡ stronger first second }
{
    match first {
        SpotKind::Plain => second,
        SpotKind::Debugger => match second {
            SpotKind::Plain => SpotKind::Debugger,
            SpotKind::Debugger => SpotKind::Debugger,
            SpotKind::Return => SpotKind::Return,
            SpotKind::Call => SpotKind::Call,
        },
        SpotKind::Return => match second {
            SpotKind::Plain => SpotKind::Return,
            SpotKind::Debugger => SpotKind::Return,
            SpotKind::Return => SpotKind::Return,
            SpotKind::Call => SpotKind::Call,
        },
        SpotKind::Call => SpotKind::Call,
    }
}

/// What stands where a mark is added to what stood there.
fn with_mark(before: Option<SpotKind>, kind: SpotKind) -> Option<SpotKind>
    ensures { result ≡ with_mark before kind }
{
    match before {
        None => Some(kind),
        Some(before) => Some(stronger(before, kind)),
    }
}

/// So many offsets at which nothing stands.
fn no_kinds(alloc: Global, count: usize) -> Result<Vec<Option<SpotKind>>, AllocError>
    ensures long { IfOk result (λ kinds. length kinds.items ≡ count) }
    ensures empty { IfOk result (λ kinds. (x : ℕ) → kind_of kinds.items x ≡ None) }
{
    let mut kinds = Vec::new(alloc);
    for _i in 0..count {
        kinds.push(None)?;
    }
    Ok(kinds)
}

/// What stands at each offset of a script that has these marks.
pub fn kinds_of(
    alloc: Global,
    script: &Script,
    marks: &[Marked],
) -> Result<Vec<Option<SpotKind>>, AllocError>
    requires { length script.now.source < usize.MAX }
    ensures { IfOk result (λ kinds. AreKinds script.now marks.now kinds.items) }
{
    let mut kinds = no_kinds(alloc, script.source.len() + 1)?;
    for marked in marks {
        let offset = offset_of(script, marked.mark);
        kinds[offset] = with_mark(kinds[offset], marked.kind);
    }
    Ok(kinds)
}
