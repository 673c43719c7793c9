//! A clock tells the time of day.

ghost use Rattle.std.specs.Prelude.{◌≡◌, ◌≤◌, ℕ, Option, Some};
ghost use Rattle.cdp_edge.specs.Outside.{IfTold};

use std::marker::Model;

/// What tells the time of day.
pub trait Clock: Drop {
    /// The moment that each answer is, where one is told.
    ghost moment: { Self → Option ℕ };

    /// Milliseconds since the beginning of 1970, below 2^53.
    fn now_ms(&mut self) -> u64
        ensures within { result ≤ 9_007_199_254_740_991 }
        ensures told { IfTold (moment self.old) (λ ms. result ≡ ms) }
        ensures same { moment self.new ≡ moment self.old };
}

/// A clock that stands still, for tests. A contract sees its moment.
#[derive(Drop)]
pub struct FixedClock {
    ms: u64,
}

impl Model for FixedClock {
    ghost Value = { ℕ };

    ghost view = { λ a. a.ms };

    ghost invariant = { λ a. a.ms ≤ 9_007_199_254_740_991 };
}

impl FixedClock {
    /// A clock that stands at this moment.
    pub fn new(ms: u64) -> FixedClock
        requires { ms ≤ 9_007_199_254_740_991 }
        ensures { result ≡ ms }
    {
        FixedClock { ms }
    }
}

impl Clock for FixedClock {
    ghost moment = { λ clock. Some clock };

    fn now_ms(&mut self) -> u64 {
        self.ms
    }
}
