//! Sessions that were lost.

use cdp_host_isolation::Loss;

/// A session that was lost, and why.
#[derive(Clone, Copy)]
pub struct SessionLost {
    /// Its number.
    pub session: u64,
    /// Why it was lost.
    pub loss: Loss,
}
