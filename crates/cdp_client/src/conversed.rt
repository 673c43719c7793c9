//! How a conversation ends.

/// How a conversation ended.
#[derive(Clone, Copy)]
pub enum Conversed {
    /// Every command was answered and every wait met, and the link is closed with 1000.
    Done,
    /// A line of the file isn't of its form; nothing was sent.
    Refused {
        /// The number of the line, from 1.
        line: u64,
    },
    /// The peer closed, or went away, with a command or a wait still open.
    PeerClosed {
        /// How many commands were answered.
        replies: u64,
    },
    /// The link failed, and its count rose.
    LinkFault,
    /// The sink refused a write, and its count rose.
    WriteFault,
    /// No memory was left for the conversation.
    Memory,
}
