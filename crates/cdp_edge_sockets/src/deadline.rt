//! When a call is given up.

use std::rt::Clock;
use std::time::{Duration, Instant};

/// How long a peer may be silent, or take nothing, while a call waits for it, in seconds.
const PATIENCE: u64 = 5;

/// The moment at which a call began.
#[derive(Drop)]
pub struct Deadline {
    start: Option<Instant>,
}

impl Deadline {
    /// A deadline from now.
    pub fn new<R: Clock>(rt: &R) -> Deadline {
        Deadline {
            start: Instant::now(rt).ok(),
        }
    }

    /// How long it is until then. None where it has passed, or the clock can't be read.
    pub fn left<R: Clock>(&self, rt: &R) -> Option<Duration> {
        let start = self.start.as_ref()?;
        let elapsed = start.elapsed(rt).ok()?;
        let left = Duration::from_secs(PATIENCE).checked_sub(elapsed)?;
        if left.is_zero() { None } else { Some(left) }
    }
}
