//! A log of files that only clauses read. It takes no memory, and its calls do nothing when they run.

ghost use Rattle.std.specs.Prelude.{◌≡◌, List, []};
ghost use Rattle.std.specs.Borrow.{ftrue};
ghost use Rattle.cdp_edge.specs.Logs.{NamedFile, with_file};

use std::marker::{Model, PhantomData};

/// The files that a shelf handed in, or stored, one after another.
#[derive(Drop)]
pub(crate) struct FileLog {
    marker: PhantomData<u8>,
    pub(crate) ghost files: { List NamedFile },
}

impl Model for FileLog {
    ghost also_owns = { λ _. ftrue };
}

impl FileLog {
    /// A log of no file.
    pub(crate) fn new() -> FileLog
        ensures { result.files ≡ [] }
    {
        FileLog {
            marker: PhantomData,
        }
    }

    /// Adds a file of this name, with these bytes.
    pub(crate) fn note(&mut self, _name: &[u8], _bytes: &[u8])
        ensures { self.new.files ≡ with_file self.old.files _name.now _bytes.now }
    {}
}
