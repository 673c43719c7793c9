//! How many clients a server takes.

ghost use Rattle.std.specs.Prelude.{◌≤◌};

/// The most clients that a server may take at once.
pub(crate) const MOST_SESSIONS: u64 = 16;

/// How many clients a server takes at once, from 1 to 16.
#[derive(Clone, Copy)]
pub struct SessionCount {
    /// The number.
    pub count: usize,
    pub ghost within: { (1 ≤ count) × (count ≤ 16) },
}
