//! Functions that a list of parts declares.

ghost use Rattle.std.specs.Prelude.{◌≡◌, List, ℕ, option_copied};
ghost use Rattle.js_heap.specs.declared.value.Addr.{Addr as AnyAddr};
ghost use Rattle.js_semantics.specs.State.{Action};
ghost use Rattle.js_machine_nodes.specs.Trees.{tree, trees};
ghost use Rattle.js_semantics.specs.Functions.{with_functions};
ghost use Rattle.js_semantics.specs.Terms.{one};
ghost use Rattle.js_machine_actions.specs.Flow.{Passes};
ghost use Rattle.js_machine_rows.specs.Declaring.{is_function_op, declared, declared_if};

use crate::entries::{function_entry, parameter_count};
use crate::parts::part_at;
use js_heap::value::Addr;
use js_heap_memory::names::NameTable;
use js_heap_memory::world::World;
use js_machine_actions::action_end::ActionEnd;
use js_machine_actions::functions::declared_function;
use js_machine_engine::code::RunningCode;
use js_machine_nodes::node::FunctionEntry;
use js_machine_nodes::op::Op;
use js_machine_nodes::table::NodeTable;
use std::alloc::Global;

/// Makes a function, the value of its name (ECMA-262, 14.2.3, 10.2.11).
fn declare_entry<W: World>(
    alloc: Global,
    world: &mut W,
    names: &NameTable,
    scope: Addr,
    entry: &FunctionEntry,
) -> Result<(), ActionEnd>
    ensures { Passes (declared names.now scope entry.now) (W.world names.now world.old) result (W.world names.now world.new) }
{
    let count = parameter_count(entry)?;
    declared_function(alloc, world, names, scope, entry.code, count, entry.name)
}

/// Whether a node is a function that is declared or an expression.
fn is_function(op: Op) -> bool
    ensures { result ≡ is_function_op op }
{
    match op {
        Op::Function => true,
        _ => false,
    }
}

/// The function that a part is, if it is one.
fn entry_of_part(table: &NodeTable, part: u32) -> Option<&FunctionEntry>
    ensures { (ts : List (List ℕ)) (scope : AnyAddr) (k : Action) → with_functions scope (one (tree ts table.now part)) k ≡ declared_if ts scope (option_copied result) k }
{
    match table.node(part) {
        Some(node) => {
            if is_function(node.op) {
                function_entry(table, node.info)
            } else {
                None
            }
        }
        None => None,
    }
}

/// Makes the function that a part is, if it is one.
fn with_function<W: World>(
    code: &RunningCode<'_, '_>,
    world: &mut W,
    scope: Addr,
    part: u32,
) -> Result<(), ActionEnd>
    ensures { Passes (with_functions scope (one (tree code.now.names.now code.now.table.now part))) (W.world code.now.names.now world.old) result (W.world code.now.names.now world.new) }
{
    match entry_of_part(code.table, part) {
        Some(entry) => declare_entry(code.alloc, world, code.names, scope, entry),
        None => Ok(()),
    }
}

/// Makes the functions among the parts from a place of the table's list up to another, in order, each the value of its name
/// (14.2.3, 10.2.11).
pub fn with_functions<W: World>(
    code: &RunningCode<'_, '_>,
    world: &mut W,
    scope: Addr,
    from: u32,
    to: u32,
) -> Result<(), ActionEnd>
    ensures { Passes (with_functions scope (trees code.now.names.now code.now.table.now from to)) (W.world code.now.names.now world.old) result (W.world code.now.names.now world.new) }
{
    for index in 0..to.saturating_sub(from) {
        match part_at(code.table, from, to, index) {
            Some(part) => with_function(code, world, scope, part)?,
            None => return Ok(()),
        }
    }
    Ok(())
}
