//! Reading, writing and deleting properties of values.

ghost use Rattle.js_heap.specs.Properties.{property_of, property_written, property_deleted};
ghost use Rattle.js_semantics.specs.References.{with_result, with_written};
ghost use Rattle.js_heap_memory.specs.Names.{name_of};
ghost use Rattle.js_machine_actions.specs.References.{indexed, index_written, index_deleted};
ghost use Rattle.js_machine_actions.specs.Flow.{Yields, Passes};

use crate::action_end::ActionEnd;
use crate::errors::{bad_key, with_result, with_written};
use crate::seen::NamedWorld;
use js_heap::value::Value;
use js_heap_memory::names::{NameId, NameTable};
use js_heap_memory::world::World;
use js_heap_operators::operators::key_of;
use js_heap_operators::properties::{property_deleted, property_of, property_written};
use std::alloc::Global;

/// The value of a property (ECMA-262, 13.3.2).
pub fn get_property<W: World>(
    alloc: Global,
    world: &mut W,
    names: &NameTable,
    object: Value,
    key: &[u16],
) -> Result<Value, ActionEnd>
    ensures { Yields (with_result (property_of (W.world names.now world.old) object key.now)) (W.world names.now world.old) result (W.world names.now world.new) }
{
    let value = property_of(
        alloc,
        &NamedWorld {
            names,
            world: &*world,
        },
        object,
        key,
    )?;
    with_result(alloc, world, names, value)
}

/// The value of a property with a computed key.
pub fn get_index<W: World>(
    alloc: Global,
    world: &mut W,
    names: &NameTable,
    object: Value,
    index: Value,
) -> Result<Value, ActionEnd>
    ensures { Yields (indexed (W.world names.now world.old) object index) (W.world names.now world.old) result (W.world names.now world.new) }
{
    let key = key_of(
        alloc,
        &NamedWorld {
            names,
            world: &*world,
        },
        index,
    )?;
    match key {
        Some(key) => get_property(alloc, world, names, object, key.as_slice()),
        None => Err(bad_key(alloc, world, names)),
    }
}

/// Writes a property (10.1.9).
pub fn put_property<W: World>(
    alloc: Global,
    world: &mut W,
    names: &NameTable,
    object: Value,
    key: &[u16],
    value: Value,
) -> Result<(), ActionEnd>
    ensures { Passes (with_written (property_written (W.world names.now world.old) object key.now value)) (W.world names.now world.old) result (W.world names.now world.new) }
{
    let written = property_written(
        alloc,
        &NamedWorld {
            names,
            world: &*world,
        },
        object,
        key,
        value,
    )?;
    with_written(alloc, world, names, written)
}

/// Writes a property with a computed key.
pub fn put_index<W: World>(
    alloc: Global,
    world: &mut W,
    names: &NameTable,
    object: Value,
    index: Value,
    value: Value,
) -> Result<(), ActionEnd>
    ensures { Passes (index_written (W.world names.now world.old) object index value) (W.world names.now world.old) result (W.world names.now world.new) }
{
    let key = key_of(
        alloc,
        &NamedWorld {
            names,
            world: &*world,
        },
        index,
    )?;
    match key {
        Some(key) => put_property(alloc, world, names, object, key.as_slice(), value),
        None => Err(bad_key(alloc, world, names)),
    }
}

/// Deletes a property (13.5.1.2).
pub fn remove_property<W: World>(
    alloc: Global,
    world: &mut W,
    names: &NameTable,
    object: Value,
    key: &[u16],
) -> Result<(), ActionEnd>
    ensures { Passes (with_written (property_deleted (W.world names.now world.old) object key.now)) (W.world names.now world.old) result (W.world names.now world.new) }
{
    let written = property_deleted(
        alloc,
        &NamedWorld {
            names,
            world: &*world,
        },
        object,
        key,
    )?;
    with_written(alloc, world, names, written)
}

/// Deletes a property with a computed key.
pub fn remove_index<W: World>(
    alloc: Global,
    world: &mut W,
    names: &NameTable,
    object: Value,
    index: Value,
) -> Result<(), ActionEnd>
    ensures { Passes (index_deleted (W.world names.now world.old) object index) (W.world names.now world.old) result (W.world names.now world.new) }
{
    let key = key_of(
        alloc,
        &NamedWorld {
            names,
            world: &*world,
        },
        index,
    )?;
    match key {
        Some(key) => remove_property(alloc, world, names, object, key.as_slice()),
        None => Err(bad_key(alloc, world, names)),
    }
}

// ---- keys that are names

/// Writes a property whose key is a name.
#[cold]
#[inline(never)]
pub fn put_member<W: World>(
    alloc: Global,
    world: &mut W,
    names: &NameTable,
    object: Value,
    key: NameId,
    value: Value,
) -> Result<(), ActionEnd>
    ensures { Passes (with_written (property_written (W.world names.now world.old) object (name_of names.now key.number) value)) (W.world names.now world.old) result (W.world names.now world.new) }
{
    let text = names.text(key)?;
    put_property(alloc, world, names, object, text, value)
}
