//! How long a source may be.

/// The greatest number of code units that a source may have.
pub const MOST_UNITS: usize = 1_048_576;

/// The greatest number of tokens that a source may have.
pub const MOST_TOKENS: usize = 200_000;
