//! Changes of cells, and what is counted.

use crate::value::Value;
use cdp_text::units::Units;

/// A change of one cell.
#[derive(Drop)]
pub enum Change {
    /// Of an object or an error: the property of this key has this value.
    Put { key: Units, value: Value },
    /// Of an object or an error: there is no property of this key.
    Remove { key: Units },
    /// Of an array: the element at an index up to the length.
    Element { index: u32, value: Value },
    /// Of an array: a length up to the present one.
    Length(u32),
    /// Of a scope: one more name, without a value.
    Declare { name: Units, constant: bool },
    /// Of a scope: the value of a declared name.
    Bind { name: Units, value: Value },
}

/// What a world counts: the cells that were made, and the units that they hold.
#[derive(Clone, Copy, Debug, PartialEq, Eq)]
pub enum Counted {
    Cells,
    Units,
}
