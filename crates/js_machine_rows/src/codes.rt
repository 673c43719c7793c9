//! The code of functions, found by a source and a node of it.

ghost use Rattle.std.specs.Prelude.{◌≡◌, List, ℕ, slice_get};
ghost use Rattle.js_semantics.specs.Functions.{same_source, function_at};
ghost use Rattle.js_machine_nodes.specs.Codes.{HasFunctions, code_of_entry, indexed_code};
ghost use Rattle.js_machine_nodes.specs.Trees.{program_of};
ghost use Rattle.js_machine_rows.specs.Codes.{code_at, code_placed};

use crate::entries::function_entry;
use crate::parts::part_at;
use js_heap_operators::values::same_address;
use js_machine_nodes::node::{Node, SourceEntry};
use js_machine_nodes::table::NodeTable;
use js_semantics::form::Source;

/// Where a function's code is: the number of its entry, its body, and where the functions begin and end that its body declares.
#[derive(Clone, Copy)]
pub struct CodePlace {
    pub number: u32,
    pub body: u32,
    pub first: u32,
    pub end: u32,
}

/// The code of the entry of a number whose node is this one.
fn place_of_node(table: &NodeTable, number: u32, node: Node) -> Option<CodePlace>
    ensures { (ts : List (List ℕ)) → code_at ts table.now result ≡ code_placed ts table.now node (slice_get table.now.functions.items number) }
{
    match part_at(table, node.mid, node.end, 0) {
        Some(body) => Some(CodePlace {
            number,
            body,
            first: node.mid + 1,
            end: node.end,
        }),
        None => None,
    }
}

/// The code of an entry.
fn place_of_entry(table: &NodeTable, number: u32) -> Option<CodePlace>
    ensures { (ts : List (List ℕ)) → code_at ts table.now result ≡ code_of_entry ts table.now (slice_get table.now.functions.items number) }
{
    match function_entry(table, number) {
        Some(entry) => match table.node(entry.at) {
            Some(node) => place_of_node(table, number, node),
            None => None,
        },
        None => None,
    }
}

/// The number in a source's index of a node.
fn number_of(entry: &SourceEntry, node: u32) -> Option<u32>
    ensures { result ≡ slice_get entry.now.functions.items node }
{
    entry.functions.get(node as usize).copied()
}

/// The code of the function of a node, as the source's index has it.
fn indexed(table: &NodeTable, entry: &SourceEntry, node: u32) -> Option<CodePlace>
    ensures { (ts : List (List ℕ)) → code_at ts table.now result ≡ indexed_code ts table.now entry.now node }
{
    match number_of(entry, node) {
        Some(0) => None,
        Some(number) => place_of_entry(table, number - 1),
        None => None,
    }
}

/// Whether a source is another.
fn same_source(first: Source, second: Source) -> bool
    ensures { result ≡ same_source first second }
{
    match (first, second) {
        (Source::Script(m), Source::Script(n)) => m == n,
        (Source::Kept(a), Source::Kept(b)) => same_address(a, b),
        _ => false,
    }
}

/// The code of the function of a node of a source.
pub fn function_at(table: &NodeTable, source: Source, node: u32) -> Option<CodePlace>
    requires { HasFunctions table.now }
    ensures { (ts : List (List ℕ)) → code_at ts table.now result ≡ function_at (program_of ts table.now) source node }
{
    for i in 0..table.sources.len() {
        let entry = table.sources.at(i);
        if same_source(entry.source, source) {
            return indexed(table, entry, node);
        }
    }
    None
}
