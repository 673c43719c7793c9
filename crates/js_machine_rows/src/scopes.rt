//! Scopes that are no function's.

ghost use Rattle.std.specs.Prelude.{[]};
ghost use Rattle.js_heap.specs.declared.cell.ScopeKind.TheVariants as scopes;
ghost use Rattle.js_semantics.specs.Functions.{new_scope};
ghost use Rattle.js_machine_nodes.specs.Trees.{trees};
ghost use Rattle.js_heap_memory.specs.Cells.{bindings};
ghost use Rattle.js_machine_actions.specs.Flow.{Yields};
ghost use Rattle.js_machine_rows.specs.Over.{scope_declared};

use crate::declared::with_functions;
use js_heap::cell::ScopeKind;
use js_heap::value::Addr;
use js_heap_memory::names::NameTable;
use js_heap_memory::stored::{FunctionName, Slot, Slots};
use js_heap_memory::world::World;
use js_machine_actions::action_end::ActionEnd;
use js_machine_actions::functions::new_scope;
use js_machine_engine::code::RunningCode;
use std::alloc::Global;

/// Makes a scope with these names.
pub fn nameless_scope<W: World>(
    alloc: Global,
    names: &NameTable,
    world: &mut W,
    kind: ScopeKind,
    outer: Addr,
    slots: &[Slot],
) -> Result<Addr, ActionEnd>
    ensures { Yields (new_scope kind [] outer (bindings names.now slots.now)) (W.world names.now world.old) result (W.world names.now world.new) }
{
    let slots = Slots::from_vec(Vec::from_slice(alloc, slots)?);
    new_scope(world, names, kind, FunctionName::Empty, outer, slots)
}

/// Makes the scope of a block with these names, and the functions among the parts from a place of the table's list up to
/// another.
pub fn block_scope<W: World>(
    code: &RunningCode<'_, '_>,
    world: &mut W,
    outer: Addr,
    slots: &[Slot],
    from: u32,
    to: u32,
) -> Result<Addr, ActionEnd>
    ensures { Yields (scope_declared scopes.Block outer (bindings code.now.names.now slots.now) (trees code.now.names.now code.now.table.now from to)) (W.world code.now.names.now world.old) result (W.world code.now.names.now world.new) }
{
    let scope = nameless_scope(
        code.alloc,
        code.names,
        world,
        ScopeKind::Block,
        outer,
        slots,
    )?;
    with_functions(code, world, scope, from, to)?;
    Ok(scope)
}
