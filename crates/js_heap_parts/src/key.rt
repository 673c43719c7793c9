//! The keys of parts.

ghost use Rattle.std.specs.Prelude.{◌≡◌, IfOk};
ghost use Rattle.js_heap_memory.specs.Names.{name_of};

use js_heap_memory::names::{NameId, NameTable};
use std::alloc::AllocError;

/// A name of a scope: its number, with the table of its text.
#[derive(Clone, Copy)]
pub struct KnownName<'w> {
    /// The table.
    pub names: &'w NameTable,
    /// The number.
    pub id: NameId,
}

/// The key of a part.
#[derive(Clone, Copy)]
pub enum Key<'w> {
    /// The index of an element.
    Index(usize),
    /// The key of a property, as the cell keeps it.
    Name(&'w [u16]),
    /// The name of a scope's binding.
    Known(KnownName<'w>),
}

impl<'w> KnownName<'w> {
    /// The text.
    ///
    /// # Errors
    ///
    /// The table doesn't have it, as no table has the texts of numbers that it didn't give; no memory holds such a text.
    pub fn text(self) -> Result<&'w [u16], AllocError>
        ensures { IfOk result (λ text. text.now ≡ name_of self.entry.names.now self.entry.id.number) }
    {
        self.names.text(self.id)
    }
}
