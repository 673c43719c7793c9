//! A text that was heard and not yet handed in.

ghost use Rattle.std.specs.Prelude.{◌≤◌, length, string_bytes};

/// A text for which memory was wanting, of at most 1,048,576 bytes.
#[derive(Drop)]
pub(crate) struct Unread {
    pub(crate) text: String,
    ghost within: { length (string_bytes text) ≤ 1_048_576 },
}
