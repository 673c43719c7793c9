//! How much a program and the evaluations of a session may make.

/// As many cells as a program may make.
pub const MOST_CELLS: u32 = 1_048_576;

/// As many units as the texts of a program may have together.
pub const MOST_UNITS: u32 = 67_108_864;

/// As many cells as the evaluations of a session may make.
pub const MOST_SCRATCH_CELLS: u32 = 65_536;

/// As many units as the texts of these cells may have together.
pub const MOST_SCRATCH_UNITS: u32 = 1_048_576;
