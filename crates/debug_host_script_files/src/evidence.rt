//! What is left of files that weren't all taken.

use js_tree::script::Script;
use std::alloc::Global;

/// What is left of a file that isn't taken.
#[derive(Drop)]
pub enum FileEvidence {
    /// Nothing: each file was taken, or memory was wanting.
    Nothing,
    /// No file has the name.
    NotThere,
    /// The file is there or may be, and can't be read.
    Unreachable,
    /// The bytes of the file.
    Content(Vec<u8>),
}

/// What is left of files that weren't all taken, for who explains why.
#[derive(Drop)]
pub struct Evidence {
    /// What is left of the file that isn't taken.
    pub file: FileEvidence,
    /// The scripts that were read before it.
    pub earlier: Vec<Script>,
}

impl Evidence {
    /// Nothing so far.
    pub fn new(alloc: Global) -> Evidence {
        Evidence {
            file: FileEvidence::Nothing,
            earlier: Vec::new(alloc),
        }
    }
}
