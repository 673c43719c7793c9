//! The index of a source's functions, by their nodes in it.
//!
//! The walk goes from the last part to the first, so that of functions with one number the first stands.

ghost use Rattle.std.specs.Prelude.{◌≡◌, ◌+◌, ◌<◌, ℕ, OnOk, IfOk, length, nat_eq, if◌then◌else◌};
ghost use Rattle.js_machine_nodes.specs.Trees.{IsTable};
ghost use Rattle.js_machine_compiler.specs.Grown.{HasPlaces};
ghost use Rattle.js_machine_compiler.specs.Index.{number_at, number_with, function_node, body_node, IsFilled, IsIndexed, AreIndexed};

use crate::nodes::counted_from_one;
use js_machine_nodes::node::{Node, SourceEntry};
use js_machine_nodes::op::{Op, is_literal};
use js_machine_nodes::table::NodeTable;
use std::alloc::{AllocError, Global};

/// Makes an index so long that it has a place for a node; new places hold 0.
fn make_place(index: &mut Vec<u32>, node: u32) -> Result<(), AllocError>
    ensures same { OnOk result ((x : ℕ) → number_at index.new.items x ≡ number_at index.old.items x) }
    ensures place { OnOk result (node < length index.new.items) }
{
    for _i in index.len()..node as usize + 1 {
        index.push(0)?;
    }
    Ok(())
}

/// Puts a number at a node.
#[tactic(auto, using(crate::proofs::PlaceLemmas::number_set))]
fn put_at(index: &mut Vec<u32>, node: u32, number: u32) -> Result<(), AllocError>
    ensures { OnOk result ((x : ℕ) → number_at index.new.items x ≡ (if nat_eq node x then number else number_at index.old.items x)) }
{
    make_place(index, node)?;
    index[node as usize] = number;
    Ok(())
}

/// The node in its source of the function of an entry, where it has a body.
fn body_node(table: &NodeTable, node: Node) -> Option<u32>
    ensures { result ≡ body_node table.now node }
{
    if node.mid < node.end {
        match table.functions.get(node.info as usize) {
            Some(entry) => Some(entry.node),
            None => None,
        }
    } else {
        None
    }
}

/// The node in its source of the function that a node is, where it has a body.
fn function_node(table: &NodeTable, node: Node) -> Option<u32>
    ensures { result ≡ function_node table.now node }
{
    match node.op {
        Op::Function => body_node(table, node),
        Op::Method => body_node(table, node),
        _ => None,
    }
}

/// Puts the function that a node is, where it has a body: the number of its entry, counted from 1.
fn put_function(table: &NodeTable, index: &mut Vec<u32>, node: Node) -> Result<(), AllocError>
    ensures { OnOk result ((x : ℕ) → number_at index.new.items x ≡ number_with (function_node table.now node) (node.info + 1) index.old.items x) }
{
    match function_node(table, node) {
        Some(at) => {
            let number = counted_from_one(node.info)?;
            put_at(index, at, number)
        }
        None => Ok(()),
    }
}

/// Puts the functions in the tree of a node.
fn index_node(table: &NodeTable, index: &mut Vec<u32>, number: u32) -> Result<(), AllocError>
    requires table { IsTable table.now }
    requires places { HasPlaces table.now }
    ensures { OnOk result (IsFilled table.now number index.old.items index.new.items) }
{
    let Some(node) = table.node(number) else {
        return Ok(());
    };
    if is_literal(node.op) {
        return Ok(());
    }
    for place in (node.first..node.end).rev() {
        index_node(table, index, table.kid(place))?;
    }
    put_function(table, index, node)
}

/// A source with the index of its functions.
pub fn indexed_source(
    alloc: Global,
    table: &NodeTable,
    source: &SourceEntry,
) -> Result<SourceEntry, AllocError>
    requires table { IsTable table.now }
    requires places { HasPlaces table.now }
    ensures { IfOk result (λ e. IsIndexed table.now source.now e) }
{
    let mut functions = Vec::new(alloc);
    index_node(table, &mut functions, source.root)?;
    Ok(SourceEntry {
        source: source.source,
        root: source.root,
        functions,
    })
}

/// The sources of a table, each with the index of its functions.
pub fn indexed_sources(alloc: Global, table: &NodeTable) -> Result<Vec<SourceEntry>, AllocError>
    requires table { IsTable table.now }
    requires places { HasPlaces table.now }
    ensures { IfOk result (λ es. AreIndexed table.now table.now.sources.items es.items) }
{
    let mut sources = Vec::new(alloc);
    for i in 0..table.sources.len() {
        sources.push(indexed_source(alloc, table, table.sources.at(i))?)?;
    }
    Ok(sources)
}
