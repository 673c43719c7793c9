//! How a run ended.

/// How a run of scripts ended.
#[derive(Drop)]
pub enum PlainRunEnd {
    /// By its last script.
    Ended,
    /// By a throw that no `catch` took, of a value that is shown so.
    Threw(String),
    /// The sink took no more.
    CannotWrite,
    /// No memory was left.
    Memory,
}
