//! Writing properties, with what is found most often first.

ghost use Rattle.std.specs.Prelude.{◌≡◌, List, ℕ, true, option_copied};
ghost use Rattle.js_heap.specs.World.{read_cell};
ghost use Rattle.js_heap.specs.declared.change.Change.TheVariants as changes;
ghost use Rattle.js_semantics.specs.State.{write};
ghost use Rattle.js_heap.specs.Properties.{property_written};
ghost use Rattle.js_semantics.specs.References.{with_written};
ghost use Rattle.js_heap_memory.specs.Cells.{cell_at};
ghost use Rattle.js_heap_memory.specs.Names.{name_of};
ghost use Rattle.js_machine_actions.specs.Flow.{Passes};
ghost use Rattle.js_machine_actions.specs.References.{index_written};
ghost use Rattle.js_machine_rows.specs.References.{is_object_cell, has_place};

use crate::reading::index_of;
use js_heap::value::{Addr, Value};
use js_heap_memory::names::{NameId, NameTable};
use js_heap_memory::stored::Stored;
use js_heap_memory::world::World;
use js_machine_actions::action_end::ActionEnd;
use js_machine_actions::cells::{put, put_element};
use js_machine_actions::properties::{put_index, put_member};
use std::alloc::Global;

// ---- properties with a fixed key

/// Whether a cell is an object's, and no other thing's.
#[inline(always)]
fn is_object_cell(cell: Option<&Stored>) -> bool
    ensures { (names : List (List ℕ)) → result ≡ is_object_cell (cell_at names (option_copied cell.entry)) }
{
    match cell {
        Some(Stored::Object { .. }) => true,
        _ => false,
    }
}

/// Whether an object is at an address, and no other thing.
#[inline(always)]
fn is_object<W: World>(world: &W, names: &NameTable, a: Addr) -> bool
    ensures { result ≡ is_object_cell (read_cell (W.world names.now world.now) a) }
{
    let _ = names.len();
    is_object_cell(world.find(a))
}

/// Writes a property with a fixed key of the object at an address.
fn put_own<W: World>(
    world: &mut W,
    names: &NameTable,
    a: Addr,
    key: NameId,
    value: Value,
) -> Result<(), ActionEnd>
    ensures { Passes (write a (changes.Put (name_of names.now key.number) value)) (W.world names.now world.old) result (W.world names.now world.new) }
{
    let text = names.text(key)?;
    put(world, names, a, text, value)
}

/// Writes a property with a fixed key (ECMA-262, 10.1.9).
#[inline(always)]
pub fn put_member_value<W: World>(
    alloc: Global,
    world: &mut W,
    names: &NameTable,
    object: Value,
    key: NameId,
    value: Value,
) -> Result<(), ActionEnd>
    ensures { Passes (with_written (property_written (W.world names.now world.old) object (name_of names.now key.number) value)) (W.world names.now world.old) result (W.world names.now world.new) }
{
    let Value::Object(a) = object else {
        return put_member(alloc, world, names, object, key, value);
    };
    if is_object(world, names, a) {
        put_own(world, names, a, key, value)
    } else {
        put_member(alloc, world, names, object, key, value)
    }
}

// ---- properties with a computed key

/// Whether a cell is that of an array with an element at this index, or of this length.
#[inline(always)]
fn has_place_in(cell: Option<&Stored>, at: u32) -> bool
    ensures { (names : List (List ℕ)) → result ≡ has_place (cell_at names (option_copied cell.entry)) at }
{
    match cell {
        Some(Stored::Array { elements }) => at as usize <= elements.slice().len(),
        _ => false,
    }
}

/// Whether an array with an element at this index, or of this length, is at an address.
#[inline(always)]
fn has_place<W: World>(world: &W, names: &NameTable, a: Addr, at: u32) -> bool
    ensures { result ≡ has_place (read_cell (W.world names.now world.now) a) at }
{
    let _ = names.len();
    has_place_in(world.find(a), at)
}

/// Writes a property with a computed key of any value.
#[cold]
#[inline(never)]
fn put_index_slowly<W: World>(
    alloc: Global,
    world: &mut W,
    names: &NameTable,
    object: Value,
    index: Value,
    value: Value,
) -> Result<(), ActionEnd>
    ensures { Passes (index_written (W.world names.now world.old) object index value) (W.world names.now world.old) result (W.world names.now world.new) }
{
    put_index(alloc, world, names, object, index, value)
}

/// Writes a property with a computed key (10.1.9).
#[inline(always)]
pub fn put_index_value<W: World>(
    alloc: Global,
    world: &mut W,
    names: &NameTable,
    object: Value,
    index: Value,
    value: Value,
) -> Result<(), ActionEnd>
    ensures { Passes (index_written (W.world names.now world.old) object index value) (W.world names.now world.old) result (W.world names.now world.new) }
{
    let Value::Object(a) = object else {
        return put_index_slowly(alloc, world, names, object, index, value);
    };
    let Some(at) = index_of(index) else {
        return put_index_slowly(alloc, world, names, object, index, value);
    };
    if has_place(world, names, a, at) {
        put_element(world, names, a, at, value)
    } else {
        put_index_slowly(alloc, world, names, object, index, value)
    }
}
