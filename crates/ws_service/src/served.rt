//! How serving a link ends.

/// How serving a link ended.
#[derive(Clone, Copy)]
pub enum Served {
    /// The peer closed, or went away.
    Closed,
    /// A message came above the limit; the link is closed with 1009.
    TooBig,
    /// A binary message came; the link is closed with 1003.
    Binary,
    /// More texts would have waited for the peer than may; the link is closed with 1008.
    Overrun,
    /// The program was shut; the link is closed with 1000.
    Shut,
    /// The program has ended, and its last texts were sent; the link is closed with 1000.
    Over,
    /// The link failed, and its count rose.
    Fault,
    /// No ticket is left: the ticket word is 2^62.
    Spent {
        /// The ticket word.
        ticket: u64,
    },
    /// No memory was left for the session.
    Memory,
}
