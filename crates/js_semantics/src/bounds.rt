//! How far a run may go.

/// As many calls as may be active at a time.
pub const MOST_FRAMES: usize = 1000;

/// As many steps as an evaluation may take.
pub const MOST_STEPS: u64 = 100_000;
