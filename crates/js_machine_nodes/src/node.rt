//! Nodes, and what they point at.

use crate::op::Op;
use js_heap::built_in::Code;
use js_heap_memory::names::NameId;
use js_heap_memory::stored::{Slot, Slots};
use js_semantics::form::{Mark, Source};

/// A node: what it does, and where its parts stand in the table's list of parts.
#[derive(Clone, Copy)]
pub struct Node {
    pub op: Op,
    /// The number of a name, of a node of the source, of a constant, or of an entry, as `op` says.
    pub info: u32,
    /// Where its parts begin.
    pub first: u32,
    /// Where the parts end that are reduced from left to right, and those begin that are kept for later.
    pub mid: u32,
    /// Where its parts end.
    pub end: u32,
}

/// A script, by its number from 1 on, and its top-level names.
#[derive(Drop)]
pub struct ScriptEntry {
    pub number: u32,
    pub names: Slots,
}

/// A `for` with names: its node in the source, and whether the names are constant.
#[derive(Drop)]
pub struct ForEntry {
    pub node: u32,
    pub constant: bool,
    pub names: Slots,
}

/// A `for .. of`: its node in the source, and its name.
#[derive(Clone, Copy)]
pub struct ForOfEntry {
    pub node: u32,
    pub slot: Slot,
}

/// A call: its place, the node of the statement that it stands in, and the name or key of its callee.
#[derive(Clone, Copy)]
pub struct CallEntry {
    pub place: Mark,
    pub statement: u32,
    pub name: NameId,
}

/// A member of an object literal: a fixed key, or a key that is computed and stands before the value.
#[derive(Clone, Copy)]
pub enum MemberEntry {
    Keyed(NameId),
    Computed,
}

/// A function's code; its body and the functions that the body declares are the parts of its node.
#[derive(Drop)]
pub struct FunctionEntry {
    pub code: Code,
    /// Its node in the source.
    pub node: u32,
    pub name: NameId,
    pub parameters: Vec<NameId>,
    /// The names that its body declares.
    pub names: Slots,
    pub is_arrow: bool,
    pub is_named: bool,
    /// Its node in the table.
    pub at: u32,
}

/// A source: the node of its tree, and by the numbers of its own nodes the functions' entries, counted from 1; 0 is none.
#[derive(Drop)]
pub struct SourceEntry {
    pub source: Source,
    pub root: u32,
    pub functions: Vec<u32>,
}
