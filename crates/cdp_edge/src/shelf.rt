//! A shelf has files. It counts its faults and tells the calls that failed. It keeps a log of what it handed in and of
//! what it stored, and it may tell its files.

ghost use Rattle.std.specs.Prelude.{◌≡◌, List, Option, IsErrOf};
ghost use Rattle.cdp_edge.specs.Blame.{Faults, Read, Store};
ghost use Rattle.cdp_edge.specs.Outside.{IfTold, NamedFile, Tells, Accounts, StoresTold, handed_after, stored_after};

use std::alloc::Global;
use thiserror::Error;

/// Why a call of a shelf gave nothing.
#[derive(Clone, Copy, Debug, PartialEq, Eq, Error)]
pub enum ShelfFault {
    /// No file has the name.
    #[error("no such file")]
    NotThere,
    /// The file is there or may be, and the call failed.
    #[error("the file can't be reached")]
    Failed,
    /// No memory was left for the call.
    #[error("out of memory")]
    Memory,
}

/// What has files by their names.
pub trait Shelf {
    /// How often a call failed or named a file that isn't there, and those calls, in order.
    ghost faults: { Self → Faults };

    /// The files, where they are told: those of the system can change at any time, and nothing is told of them.
    ghost files: { Self → Option (List NamedFile) };

    /// What it handed in so far: of each read that succeeded the name that was asked for and the bytes that were the
    /// answer, in order.
    ghost handed: { Self → List NamedFile };

    /// What it stored so far: of each store that succeeded the name and the bytes, in order.
    ghost stored: { Self → List NamedFile };

    /// Reads the content of the file of this name.
    ///
    /// # Errors
    ///
    /// `NotThere` where no file has the name, and `Failed`: the call is then blamed. `Memory` at
    /// want of memory.
    fn read(&mut self, alloc: Global, name: &str) -> Result<Vec<u8>, ShelfFault>
        ensures handed { handed self.new ≡ handed_after result name.now (handed self.old) }
        ensures stored { stored self.new ≡ stored self.old }
        ensures content { IfTold (files self.old) (λ all. Tells result name.now all) }
        ensures files { files self.new ≡ files self.old }
        ensures faults { Accounts result (Read name.now) (faults self.old) (faults self.new) };

    /// Stores these bytes as all of the file of this name, which need not be there.
    ///
    /// # Errors
    ///
    /// `Failed`, and the call is blamed: nothing is known of the file then. `Memory` at want of memory: the file is as
    /// it was.
    fn store(&mut self, name: &str, bytes: &[u8]) -> Result<(), ShelfFault>
        ensures stored { stored self.new ≡ stored_after result name.now bytes.now (stored self.old) }
        ensures handed { handed self.new ≡ handed self.old }
        ensures files { StoresTold result name.now bytes.now (files self.old) (files self.new) }
        ensures there { IsErrOf result ShelfFault.NotThere → ⊥ }
        ensures faults { Accounts result (Store name.now) (faults self.old) (faults self.new) };
}
