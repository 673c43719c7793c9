//! What a machine keeps of the forms that it is in.

use js_heap::value::{Addr, Value};
use js_machine_nodes::op::Op;
use js_semantics::form::{Completion, SourceMark};

/// A form of which a part is being reduced.
#[derive(Clone, Copy)]
pub struct Task {
    pub op: Op,
    pub info: u32,
    /// The place of its next part in the table's list of parts.
    pub at: u32,
    /// Where the parts end that are reduced from left to right, and those begin that are kept for later.
    pub mid: u32,
    /// Where its parts end.
    pub end: u32,
    /// How many values the tasks around it have.
    pub base: u32,
    /// The scope in which its parts are.
    pub inner: Addr,
}

/// A form that becomes a task, before its first value. The scope is that in which its parts are.
#[derive(Clone, Copy)]
pub struct NewTask {
    pub op: Op,
    pub info: u32,
    /// The place of its first part in the table's list of parts.
    pub at: u32,
    /// Where the parts end that are reduced from left to right, and those begin that are kept for later.
    pub mid: u32,
    /// Where its parts end.
    pub end: u32,
    pub inner: Addr,
}

/// What a `finally` that runs keeps; the list of a `for .. of`, and the index of its next turn; where the kept parts of an
/// object literal begin, behind a method with a computed key.
#[derive(Clone, Copy)]
pub enum Extra {
    Kept(Completion),
    Turn(Value, u32),
    Rest(u32),
}

/// Where a machine stands: what is about to be reduced.
#[derive(Clone, Copy)]
pub enum Point {
    /// The innermost task, whose parts have their values.
    Row,
    /// A node without parts to reduce.
    Leaf(u32),
    /// A throw that stands.
    Stands(Value, SourceMark),
    /// Nothing: all is reduced to a value.
    Done(Value),
}

/// Which of the points it is, without what goes with it.
#[derive(Clone, Copy)]
pub enum PointKind {
    Row,
    Leaf,
    Stands,
    Done,
}

/// What is about to be reduced: a form whose parts have their values. The scope is that in which its parts are.
#[derive(Clone, Copy)]
pub struct Redex {
    pub op: Op,
    pub info: u32,
    /// Where its kept parts begin and end in the table's list of parts.
    pub mid: u32,
    pub end: u32,
    pub inner: Addr,
}
