//! One source more.

ghost use Rattle.std.specs.Prelude.{IfOk};
ghost use Rattle.js_machine_terms.specs.Views.{term_view};
ghost use Rattle.pure_eval.specs.Whole.{IsWhole};
ghost use Rattle.pure_eval.specs.Adding.{IsAdded};
ghost use Rattle.pure_eval.specs.Holding.{IsCodeAdded, IsHeldAt, code_term};

use crate::closed::{are_closed, are_placed, is_within};
use js_heap::value::Addr;
use js_heap_memory::names::NameTable;
use js_machine_compiler::functions::indexed_source;
use js_machine_compiler::terms::add_term;
use js_machine_nodes::node::SourceEntry;
use js_machine_nodes::table::NodeTable;
use js_machine_terms::term::Term;
use js_semantics::form::Source;
use std::alloc::{AllocError, Global};

/// The code of a term, behind the others; the answer is the entry of its source, were it kept at an address. The table
/// doesn't get the source.
///
/// # Errors
///
/// There is no memory for it, or something in it comes up in a run alone. The table is then given up.
pub fn add_code(
    alloc: Global,
    names: &mut NameTable,
    table: &mut NodeTable,
    at: Addr,
    term: &Term,
) -> Result<SourceEntry, AllocError>
    requires { IsWhole table.old }
    ensures { IfOk result (λ entry. IsCodeAdded names.old table.old at (term_view term.now)
        names.new table.new entry) }
{
    let nodes = table.nodes.len();
    let functions = table.functions.len();
    let Some(root) = add_term(alloc, names, table, term)? else {
        return Err(AllocError);
    };
    if !are_closed(table, nodes) {
        return Err(AllocError);
    }
    if !are_placed(table, functions) {
        return Err(AllocError);
    }
    let plain = SourceEntry {
        source: Source::Kept(at),
        root,
        functions: Vec::new(alloc),
    };
    let entry = indexed_source(alloc, table, &plain)?;
    if !is_within(table, &entry) {
        return Err(AllocError);
    }
    Ok(entry)
}

/// The code of a term, or code that is held.
fn code_or_held(
    alloc: Global,
    names: &mut NameTable,
    table: &mut NodeTable,
    at: Addr,
    term: &Term,
    held: Option<SourceEntry>,
) -> Result<SourceEntry, AllocError>
    requires whole { IsWhole table.old }
    requires held { IsHeldAt names.old table.old at held }
    ensures { IfOk result (λ entry. IsCodeAdded names.old table.old at
        (code_term names.old table.old (term_view term.now) held) names.new table.new entry) }
{
    match held {
        Some(entry) => Ok(entry),
        None => add_code(alloc, names, table, at, term),
    }
}

/// The source of a term, or of code that is held, which is kept at an address, behind the others; the answer is its node.
///
/// # Errors
///
/// There is no memory for it, or something in it comes up in a run alone. The table is then given up.
pub fn add_source(
    alloc: Global,
    names: &mut NameTable,
    table: &mut NodeTable,
    at: Addr,
    term: &Term,
    held: Option<SourceEntry>,
) -> Result<u32, AllocError>
    requires whole { IsWhole table.old }
    requires held { IsHeldAt names.old table.old at held }
    ensures { IfOk result (λ root. IsAdded names.old table.old at
        (code_term names.old table.old (term_view term.now) held) names.new table.new root) }
{
    let entry = code_or_held(alloc, names, table, at, term, held)?;
    let root = entry.root;
    table.sources.push(entry)?;
    Ok(root)
}
