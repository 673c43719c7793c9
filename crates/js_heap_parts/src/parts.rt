//! The parts of a cell.

ghost use Rattle.std.specs.Prelude.{◌≡◌, List, ℕ, option_copied};
ghost use Rattle.js_heap_memory.specs.Cells.{cell_at};
ghost use Rattle.js_heap_parts.specs.Parts.{enumerable, object_parts, scope_parts};

use crate::enumerable::EnumerableParts;
use crate::left::{Left, parts_of_object, parts_of_scope, split};
use crate::part::Part;
use js_heap_memory::names::NameTable;
use js_heap_memory::stored::Stored;
use std::marker::Model;

/// The parts of a cell that are still to come, in the order of its own keys (ECMA-262, 10.1.11). It takes no memory.
/// Contracts see their list.
#[derive(Drop)]
pub struct Parts<'w> {
    left: Left<'w>,
}

impl<'w> Model for Parts<'w> {
    ghost use Rattle.std.specs.Prelude.{List};
    ghost use Rattle.js_heap_parts.specs.Parts.{CellPart};
    ghost use Rattle.js_heap_parts.specs.Left.{parts_left};

    ghost Value = { List CellPart };

    ghost view = { λ p. parts_left p.left };
}

impl<'w> Parts<'w> {
    /// All parts of an object with this cell: its own properties. A text and a function have none, since what their
    /// properties hold has no cell.
    pub fn of_object(cell: Option<&'w Stored>) -> Parts<'w>
        ensures { (names : List (List ℕ)) → result ≡ object_parts (cell_at names (option_copied cell.entry)) }
    {
        Parts {
            left: parts_of_object(cell),
        }
    }

    /// All parts of a scope with this cell, with the table of the texts of names: the names that have a value.
    pub fn of_scope(names: &'w NameTable, cell: Option<&'w Stored>) -> Parts<'w>
        ensures { result ≡ scope_parts (cell_at names.now (option_copied cell.entry)) }
    {
        Parts {
            left: parts_of_scope(names, cell),
        }
    }

    /// Those that are enumerable.
    pub fn enumerable(self) -> EnumerableParts<'w>
        ensures { result ≡ enumerable self.entry }
    {
        EnumerableParts::of(self)
    }
}

impl<'w> Iterator for Parts<'w> {
    ghost use Rattle.std.specs.Iterator.{YieldsFirstBy, item_count};
    ghost use Rattle.js_heap_parts.specs.Shown.{part_shown};

    type Item = Part<'w>;

    ghost next_gives = { YieldsFirstBy part_shown (λ left. left) };

    ghost remaining = { item_count (λ left. left) };

    fn next(&mut self) -> Option<Part<'w>> {
        let (part, left) = split(self.left)?;
        self.left = left;
        Some(part)
    }
}
