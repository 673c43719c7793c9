//! Files that were read.

/// A file as it was read.
#[derive(Drop)]
pub struct KeptFile {
    /// Its name.
    pub name: String,
    /// Its bytes.
    pub bytes: Vec<u8>,
}
