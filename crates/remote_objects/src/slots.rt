//! The flags of properties.

/// What may be done with a property (ECMA-262, 6.1.7.1).
#[derive(Clone, Copy)]
pub(crate) struct Flags {
    pub writable: bool,
    pub enumerable: bool,
    pub configurable: bool,
}
