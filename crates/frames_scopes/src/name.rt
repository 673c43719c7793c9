//! The names of functions.

ghost use Rattle.std.specs.Prelude.{◌≡◌, IfOk, option_copied};
ghost use Rattle.frames_scopes.specs.Names.{shown_name};

use js_heap_memory::names::NameTable;
use js_heap_memory::stored::FunctionName;
use js_machine_actions::seen::name_text;
use std::alloc::AllocError;
use std::marker::Model;

/// The name of a function, as a frame or a scope shows it. Contracts see its text, which is empty where there is none.
#[derive(Drop)]
pub struct Name<'m> {
    names: &'m NameTable,
    name: Option<&'m FunctionName>,
}

impl<'m> Model for Name<'m> {
    ghost use Rattle.std.specs.Prelude.{List, ℕ, option_copied};
    ghost use Rattle.frames_scopes.specs.Names.{shown_name};

    ghost Value = { List ℕ };

    ghost view = { λ n. shown_name n.names.now (option_copied n.name) };
}

impl<'m> Name<'m> {
    /// A name with the table of its text, or none.
    pub(crate) fn new(names: &'m NameTable, name: Option<&'m FunctionName>) -> Name<'m>
        ensures { result ≡ shown_name names.now (option_copied name.entry) }
    {
        Name { names, name }
    }

    /// The text.
    ///
    /// # Errors
    ///
    /// The table doesn't have it, as no table has the texts of numbers that it didn't give; no memory holds such a text.
    pub fn text(&self) -> Result<&'m [u16], AllocError>
        ensures { IfOk result (λ text. text.now ≡ self.now) }
    {
        match self.name {
            Some(name) => name_text(self.names, name),
            None => Ok(&[]),
        }
    }
}
