//! The system's clock.

ghost use Rattle.std.specs.Prelude.{None};

use cdp_edge_server::Clock;
use std::time::{SystemTime, UNIX_EPOCH};

/// The last moment that is told: the greatest whole number that JSON carries everywhere.
const LAST_MS: u64 = 9_007_199_254_740_991;

/// The time of day as the system has it. Where that can't be read it is the beginning of 1970.
#[derive(Drop)]
pub struct SystemClock<R: std::rt::Clock + Drop> {
    rt: R,
}

impl<R: std::rt::Clock + Drop> SystemClock<R> {
    /// The clock of this system.
    pub fn new(rt: R) -> SystemClock<R> {
        SystemClock { rt }
    }
}

impl<R: std::rt::Clock + Drop> Clock for SystemClock<R> {
    ghost moment = { λ _. None };

    fn now_ms(&mut self) -> u64 {
        let Ok(now) = SystemTime::now(&self.rt) else {
            return 0;
        };
        match now.duration_since(UNIX_EPOCH) {
            Ok(since) => u64::try_from(since.as_millis())
                .unwrap_or(LAST_MS)
                .min(LAST_MS),
            Err(_) => 0,
        }
    }
}
