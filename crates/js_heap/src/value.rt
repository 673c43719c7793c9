//! Addresses and values.

/// Where a cell is: in the program's heap, or among the cells that evaluations made, counted from 0.
#[derive(Clone, Copy)]
pub enum Addr {
    Base(u32),
    Scratch(u32),
}

/// A value of the language (ECMA-262, 6.1). A string or an object is the address of its cell.
#[derive(Clone, Copy)]
pub enum Value {
    Undefined,
    Null,
    Bool(bool),
    /// A safe integer.
    Number(i64),
    Text(Addr),
    Object(Addr),
}
