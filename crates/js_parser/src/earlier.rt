//! The names of earlier scripts (ECMA-262, 16.1.1).

ghost use Rattle.std.specs.Prelude.{◌≡◌, IfOk};

use cdp_text::units::Units;
use js_parser_readers::name_set::NameSet;
use std::alloc::{AllocError, Global};

/// The names that earlier scripts declare, the first of them the one taken last.
pub fn earlier_names<'s>(alloc: Global, declared: &'s [Units]) -> Result<NameSet<'s>, AllocError>
    ensures { IfOk result (λ names. names ≡ declared.now) }
{
    let mut names = NameSet::new(alloc);
    let mut left = declared;
    while let [before @ .., name] = left {
        names.insert(name.as_slice())?;
        left = before;
    }
    Ok(names)
}
