//! Rows that write and delete properties. Each form has the values that its row needs; a row without them gives undefined.

ghost use Rattle.std.specs.Prelude.{true};
ghost use Rattle.js_heap.specs.declared.value.Value.TheVariants as value;
ghost use Rattle.js_semantics.specs.State.{give};
ghost use Rattle.js_semantics.specs.BuiltIns.{last_of};
ghost use Rattle.js_semantics.specs.References.{with_written};
ghost use Rattle.js_heap.specs.Properties.{property_deleted};
ghost use Rattle.js_machine_actions.specs.Flow.{Passes};
ghost use Rattle.js_heap_memory.specs.Names.{name_of};
ghost use Rattle.js_machine_rows.specs.Does.{Replies};
ghost use Rattle.js_machine_rows.specs.References.{member_put, index_put, member_removed, index_removed};

use crate::answers::replied_with;
use crate::writing::{put_index_value, put_member_value};
use js_heap::value::Value;
use js_heap_memory::names::{NameId, NameTable};
use js_heap_memory::world::World;
use js_machine_actions::action_end::ActionEnd;
use js_machine_actions::lists::last_of;
use js_machine_actions::properties::{remove_index, remove_property};
use js_machine_engine::reduced::Reduced;
use std::alloc::Global;

// ---- assigning

/// `=` to a property with a fixed key (ECMA-262, 13.15.2).
#[inline(always)]
pub fn assign_member<W: World>(
    alloc: Global,
    world: &mut W,
    names: &NameTable,
    values: &[Value],
    key: NameId,
) -> Reduced
    ensures { Replies names.now (member_put (W.world names.now world.old) values.now (name_of names.now key.number) (last_of values.now) (give (last_of values.now))) (W.world names.now world.old) result (W.world names.now world.new) }
{
    match values {
        [object, ..] => {
            let value = last_of(values);
            let written = put_member_value(alloc, world, names, *object, key, value);
            replied_with(written, value)
        }
        [] => Reduced::Gives(Value::Undefined),
    }
}

/// `=` to a property with a computed key.
#[inline(always)]
pub fn assign_index<W: World>(
    alloc: Global,
    world: &mut W,
    names: &NameTable,
    values: &[Value],
) -> Reduced
    ensures { Replies names.now (index_put (W.world names.now world.old) values.now (last_of values.now) (give (last_of values.now))) (W.world names.now world.old) result (W.world names.now world.new) }
{
    match values {
        [object, index, ..] => {
            let value = last_of(values);
            let written = put_index_value(alloc, world, names, *object, *index, value);
            replied_with(written, value)
        }
        _ => Reduced::Gives(Value::Undefined),
    }
}

// ---- deleting

/// Deletes a property with a fixed key.
fn delete_own<W: World>(
    alloc: Global,
    world: &mut W,
    names: &NameTable,
    object: Value,
    key: NameId,
) -> Result<(), ActionEnd>
    ensures { Passes (with_written (property_deleted (W.world names.now world.old) object (name_of names.now key.number))) (W.world names.now world.old) result (W.world names.now world.new) }
{
    let text = names.text(key)?;
    remove_property(alloc, world, names, object, text)
}

/// `delete` of a property with a fixed key (13.5.1.2).
pub fn delete_member<W: World>(
    alloc: Global,
    world: &mut W,
    names: &NameTable,
    values: &[Value],
    key: NameId,
) -> Reduced
    ensures { Replies names.now (member_removed (W.world names.now world.old) values.now (name_of names.now key.number) (give (value.Bool true))) (W.world names.now world.old) result (W.world names.now world.new) }
{
    match values {
        [object, ..] => {
            let deleted = delete_own(alloc, world, names, *object, key);
            replied_with(deleted, Value::Bool(true))
        }
        [] => Reduced::Gives(Value::Undefined),
    }
}

/// `delete` of a property with a computed key.
pub fn delete_index<W: World>(
    alloc: Global,
    world: &mut W,
    names: &NameTable,
    values: &[Value],
) -> Reduced
    ensures { Replies names.now (index_removed (W.world names.now world.old) values.now (give (value.Bool true))) (W.world names.now world.old) result (W.world names.now world.new) }
{
    match values {
        [object, index, ..] => {
            let deleted = remove_index(alloc, world, names, *object, *index);
            replied_with(deleted, Value::Bool(true))
        }
        _ => Reduced::Gives(Value::Undefined),
    }
}
