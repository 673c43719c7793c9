//! How high trees may be, and how high they are read.
//!
//! Trees are read three levels deeper than a source may have, so that one only just too deep is told from a syntax fault.

/// The greatest height that the tree of a source may have.
pub const MOST_HEIGHT: u32 = 200;

/// So many levels more are read than the tree of a source may have. Where a tree would be too high with three levels to
/// spare, some first tokens begin only trees that are too high for a source: that is what `TooDeep` is to say (the laws of
/// `js_parser_laws`, `.deep`). With one level to spare it would be said too early: `(a, b)` is higher than `(a, b) => {}`, which
/// begins alike.
pub const LEVELS_TO_SPARE: u32 = 3;

/// The greatest height of a tree that is read.
pub const MOST_ROOM: u32 = MOST_HEIGHT + LEVELS_TO_SPARE;
