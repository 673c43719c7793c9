//! The enumerable parts of a cell.

ghost use Rattle.std.specs.Prelude.{◌≡◌, length, nat_lt};
ghost use Rattle.js_heap_parts.specs.Parts.{enumerable};

use crate::part::Part;
use crate::parts::Parts;
use std::marker::Model;

/// The enumerable parts of a cell that are still to come, in order. Contracts see their list.
#[derive(Drop)]
pub struct EnumerableParts<'w> {
    parts: Parts<'w>,
}

impl<'w> Model for EnumerableParts<'w> {
    ghost use Rattle.std.specs.Prelude.{List};
    ghost use Rattle.js_heap_parts.specs.Parts.{CellPart, enumerable};

    ghost Value = { List CellPart };

    ghost view = { λ p. enumerable p.parts };
}

impl<'w> EnumerableParts<'w> {
    /// The enumerable ones of these.
    pub(crate) fn of(parts: Parts<'w>) -> EnumerableParts<'w>
        ensures { result ≡ enumerable parts.entry }
    {
        EnumerableParts { parts }
    }

    /// Whether there are more than so many.
    pub fn are_more_than(mut self, most: usize) -> bool
        ensures { result ≡ nat_lt most (length self.entry) }
    {
        self.nth(most).is_some()
    }
}

impl<'w> Iterator for EnumerableParts<'w> {
    ghost use Rattle.std.specs.Iterator.{YieldsFirstBy, item_count};
    ghost use Rattle.js_heap_parts.specs.Shown.{part_shown};

    type Item = Part<'w>;

    ghost next_gives = { YieldsFirstBy part_shown (λ left. left) };

    ghost remaining = { item_count (λ left. left) };

    fn next(&mut self) -> Option<Part<'w>> {
        while let Some(part) = self.parts.next() {
            if part.enumerable {
                return Some(part);
            }
        }
        None
    }
}
