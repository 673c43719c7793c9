//! Object literals.

ghost use Rattle.js_semantics.specs.Rows.{object_or_fail};
ghost use Rattle.js_machine_actions.specs.Flow.{Gives};

use crate::action_end::ActionEnd;
use crate::cells::make;
use crate::errors::fail_with;
use js_heap::built_in::ErrorClass;
use js_heap::value::Value;
use js_heap_memory::names::NameTable;
use js_heap_memory::properties::PropertyMap;
use js_heap_memory::stored::Stored;
use js_heap_memory::world::World;
use std::alloc::Global;

/// Makes the object of properties; none where a computed key was no key (ECMA-262, 13.2.5).
pub fn object_or_fail<W: World>(
    alloc: Global,
    world: &mut W,
    names: &NameTable,
    properties: Option<PropertyMap>,
) -> Result<Value, ActionEnd>
    ensures { Gives (object_or_fail properties) (W.world names.now world.old) result (W.world names.now world.new) }
{
    match properties {
        Some(properties) => {
            let a = make(world, names, Stored::Object { properties })?;
            Ok(Value::Object(a))
        }
        None => Err(fail_with(
            alloc,
            world,
            names,
            ErrorClass::TypeError,
            b"Property key must be a string or a number",
        )),
    }
}
