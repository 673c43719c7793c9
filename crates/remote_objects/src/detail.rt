//! How much is described.

/// Whether objects are described with previews of their properties.
#[derive(Clone, Copy)]
pub enum Detail {
    /// Without.
    Plain,
    /// With.
    Previewed,
}
