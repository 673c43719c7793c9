//! The nodes of terms.

ghost use Rattle.std.specs.Prelude.{◌<◌, length, OnOk, IfOk, Some};
ghost use Rattle.js_semantics.specs.Terms as semantics;
ghost use Rattle.js_machine_nodes.specs.Trees.{EachBelow};
ghost use Rattle.js_machine_terms.specs.Views.{term_view, terms_view, listed_view};
ghost use Rattle.js_machine_compiler.specs.Grown.{KeepsTable, Grows, HasTree, HaveTrees, HoldsTerm, HoldsAll};

use crate::entries::put;
use crate::forms::form_entry;
use crate::nodes::{Instruction, add_node};
use js_heap::value::Value;
use js_heap_memory::names::NameTable;
use js_machine_nodes::op::Op;
use js_machine_nodes::table::NodeTable;
use js_machine_terms::term::{Term, Terms};
use js_semantics::form::Form;
use std::alloc::{AllocError, Global};

/// A node for a value.
pub fn add_literal(alloc: Global, table: &mut NodeTable, value: Value) -> Result<u32, AllocError>
    ensures keeps { OnOk result (KeepsTable table.old table.new) }
    ensures tree { IfOk result (λ n. (ts : _) → HasTree ts table.new n (semantics.done value)) }
{
    let info = put(&mut table.constants, value)?;
    let none = Vec::new(alloc);
    let entry = Instruction {
        op: Op::Literal,
        info,
    };
    add_node(table, entry, &none, &none)
}

/// A node for a form whose parts have nodes; none where no node has the form.
fn add_part(
    alloc: Global,
    names: &mut NameTable,
    table: &mut NodeTable,
    form: &Form,
    now: &Vec<u32>,
    later: &Vec<u32>,
) -> Result<Option<u32>, AllocError>
    ensures grows { EachBelow (length table.old.nodes.items) now.now.items → EachBelow (length table.old.nodes.items) later.now.items → OnOk result (Grows names.old table.old names.new table.new) }
    ensures tree { (xs : _) (ys : _) → HaveTrees names.old table.old now.now.items xs → HaveTrees names.old table.old later.now.items ys → IfOk result (λ o. HoldsTerm names.new table.new (semantics.part form.now xs ys) o) }
{
    match form_entry(alloc, names, table, form)? {
        Some(entry) => Ok(Some(add_node(table, entry, now, later)?)),
        None => Ok(None),
    }
}

/// A node for a term; none where something in it comes up in a run alone, or is a literal without its cell.
#[cycle(add_term)]
pub fn add_term(
    alloc: Global,
    names: &mut NameTable,
    table: &mut NodeTable,
    term: &Term,
) -> Result<Option<u32>, AllocError>
    ensures grows { OnOk result (Grows names.old table.old names.new table.new) }
    ensures tree { IfOk result (λ o. HoldsTerm names.new table.new (term_view term.now) o) }
{
    match term {
        Term::Done(value) => Ok(Some(add_literal(alloc, table, *value)?)),
        Term::Standing(..) => Ok(None),
        Term::Part { form, now, later } => {
            let Some(now) = add_terms(alloc, names, table, now)? else {
                return Ok(None);
            };
            let Some(later) = add_terms(alloc, names, table, later)? else {
                return Ok(None);
            };
            add_part(alloc, names, table, form, &now, &later)
        }
    }
}

/// Nodes for terms, in order.
#[cycle(add_term)]
#[tactic(auto, using(js_machine_terms::proofs::TermLemmas::terms_listed))]
fn add_terms(
    alloc: Global,
    names: &mut NameTable,
    table: &mut NodeTable,
    terms: &Terms,
) -> Result<Option<Vec<u32>>, AllocError>
    ensures grows { OnOk result (Grows names.old table.old names.new table.new) }
    ensures trees { IfOk result (λ o. HoldsAll names.new table.new (terms_view terms.now) o) }
{
    add_items(alloc, names, table, &terms.items)
}

/// Nodes for a list of terms, in order; none where one of them has none.
#[cycle(add_term)]
fn add_items(
    alloc: Global,
    names: &mut NameTable,
    table: &mut NodeTable,
    items: &Vec<Term>,
) -> Result<Option<Vec<u32>>, AllocError>
    ensures grows { OnOk result (Grows names.old table.old names.new table.new) }
    ensures trees { IfOk result (λ o. HoldsAll names.new table.new (listed_view items.now.items) o) }
{
    let mut nodes = Vec::new(alloc);
    for item in items {
        match add_term(alloc, names, table, item)? {
            Some(node) => nodes.push(node)?,
            None => return Ok(None),
        }
    }
    Ok(Some(nodes))
}
