//! The code of scripts.

ghost use Rattle.std.specs.Prelude.{◌≡◌, ◌+◌, OnOk, IfOk, IfSome};
ghost use Rattle.js_heap_memory.specs.Names.{GoesOn};
ghost use Rattle.js_machine_terms.specs.Views.{term_view, terms_view, listed_view};
ghost use Rattle.js_semantics.specs.Run.{program_from};
ghost use Rattle.js_machine_nodes.specs.Trees.{IsEmpty, IsTable};
ghost use Rattle.js_machine_compiler.specs.Grown.{HoldsTerm, HoldsAll, HasPlaces};
ghost use Rattle.js_machine_compiler.specs.Scripts.{Continues, AddsSource, IsProgram, HaveNodes, IsIndexedCode, AreCompiled};

use crate::functions::indexed_sources;
use crate::nodes::{Instruction, add_node, counted_from_one, next_number};
use crate::terms::add_term;
use js_heap_memory::names::NameTable;
use js_machine_nodes::node::SourceEntry;
use js_machine_nodes::op::Op;
use js_machine_nodes::shared_list::SharedList;
use js_machine_nodes::table::NodeTable;
use js_machine_terms::term::{Term, Terms};
use js_semantics::form::Source;
use std::alloc::{AllocError, Global};

/// The code of scripts: the table of their nodes, and the node of all scripts one after another.
#[derive(Drop)]
pub struct ScriptCode {
    pub table: NodeTable,
    pub root: u32,
}

/// The number of the script behind this many.
fn script_number(before: usize) -> Result<u32, AllocError>
    ensures { IfOk result (λ n. n ≡ before + 1) }
{
    let number = next_number(before)?;
    counted_from_one(number)
}

/// A script behind the others: its nodes, and its source; the answer is its node.
fn add_script(
    alloc: Global,
    names: &mut NameTable,
    table: &mut NodeTable,
    number: u32,
    script: &Term,
) -> Result<Option<u32>, AllocError>
    ensures continues { OnOk result (Continues names.old table.old names.new table.new) }
    ensures tree { IfOk result (λ o. HoldsTerm names.new table.new (term_view script.now) o) }
    ensures source { IfOk result (λ o. AddsSource table.old table.new number o) }
{
    match add_term(alloc, names, table, script)? {
        Some(root) => {
            table.sources.push(SourceEntry {
                source: Source::Script(number),
                root,
                functions: Vec::new(alloc),
            })?;
            Ok(Some(root))
        }
        None => Ok(None),
    }
}

/// Scripts one after another, numbered from 1 on; the answer is their nodes.
fn add_scripts(
    alloc: Global,
    names: &mut NameTable,
    table: &mut NodeTable,
    scripts: &[Term],
) -> Result<Option<Vec<u32>>, AllocError>
    requires { IsEmpty table.old }
    ensures continues { OnOk result (Continues names.old table.old names.new table.new) }
    ensures trees { IfOk result (λ o. HoldsAll names.new table.new (listed_view scripts.now) o) }
    ensures program { IfOk result (λ o. IfSome o (λ nodes. IsProgram names.new table.new (program_from 1 (listed_view scripts.now)))) }
{
    let mut roots = Vec::new(alloc);
    for (i, script) in scripts.iter().enumerate() {
        let number = script_number(i)?;
        match add_script(alloc, names, table, number, script)? {
            Some(root) => roots.push(root)?,
            None => return Ok(None),
        }
    }
    Ok(Some(roots))
}

/// The code of scripts whose sources have no index yet.
fn nodes_of_scripts(
    alloc: Global,
    names: &mut NameTable,
    scripts: &Terms,
) -> Result<Option<ScriptCode>, AllocError>
    ensures goes_on { OnOk result (GoesOn names.old names.new) }
    ensures code { IfOk result (λ o. HaveNodes names.new (terms_view scripts.now) o) }
{
    let mut table = NodeTable::new(alloc);
    let Some(roots) = add_scripts(alloc, names, &mut table, scripts.slice())? else {
        return Ok(None);
    };
    let none = Vec::new(alloc);
    let entry = Instruction {
        op: Op::Scripts,
        info: 0,
    };
    let root = add_node(&mut table, entry, &roots, &none)?;
    Ok(Some(ScriptCode { table, root }))
}

/// Code whose sources have their indexes.
fn with_indexes(alloc: Global, mut code: ScriptCode) -> Result<ScriptCode, AllocError>
    requires table { IsTable code.table }
    requires places { HasPlaces code.table }
    ensures { IfOk result (λ c. IsIndexedCode code c) }
{
    code.table.sources = SharedList::from_vec(indexed_sources(alloc, &code.table)?);
    Ok(code)
}

/// The code of scripts; none where something in them comes up in a run alone, or is a literal without its cell.
pub fn code_of_scripts(
    alloc: Global,
    names: &mut NameTable,
    scripts: &Terms,
) -> Result<Option<ScriptCode>, AllocError>
    ensures goes_on { OnOk result (GoesOn names.old names.new) }
    ensures code { IfOk result (λ o. AreCompiled names.new (terms_view scripts.now) o) }
{
    match nodes_of_scripts(alloc, names, scripts)? {
        Some(code) => Ok(Some(with_indexes(alloc, code)?)),
        None => Ok(None),
    }
}
