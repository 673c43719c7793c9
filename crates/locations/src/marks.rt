//! Marks of a script's tree, as they are collected.

ghost use Rattle.std.specs.Prelude.{◌≡◌, ◌++◌, OnOk};
ghost use Rattle.locations.specs.Marks as definitions;

use crate::spot::SpotKind;
use js_semantics::form::Mark;
use std::alloc::AllocError;

/// A mark of a script's tree, and what stands there.
#[derive(Clone, Copy)]
pub struct Marked {
    pub mark: Mark,
    pub kind: SpotKind,
}

/// Adds a mark.
pub fn add(marks: &mut Vec<Marked>, kind: SpotKind, mark: Mark) -> Result<(), AllocError>
    ensures { OnOk result (marks.new.items ≡ marks.old.items ++ definitions.at kind mark) }
{
    marks.push(Marked { mark, kind })?;
    Ok(())
}
