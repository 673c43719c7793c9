//! The arguments of a call.

ghost use Rattle.std.specs.Prelude.{List, [], ℕ};
ghost use Rattle.cdp_json.specs.Views.{json_view, list_view, object_view};
ghost use Rattle.js_heap.specs.World.{make_cell};
ghost use Rattle.js_heap.specs.Worlds.{Keeps};
ghost use Rattle.js_semantics.specs.Evaluation as evaluation;
ghost use Rattle.js_heap_memory.specs.Calls.{Tries};
ghost use Rattle.js_heap_memory.specs.Cells.{cell_of};
ghost use Rattle.pure_eval.specs.Arguments.{json_of, jsons_of, members_of, argument_of, arguments_of};

use crate::literals::make_text;
use cdp_json::value::{Json, JsonList, JsonObject};
use cdp_text::units::Units;
use js_heap::cell::Values;
use js_heap::value::Value;
use js_heap_memory::properties::PropertyMap;
use js_heap_memory::stored::Stored;
use js_heap_memory::world::{Refused, World};
use std::alloc::Global;

/// An argument of a call: a value, or what is made of a JSON value.
#[derive(Drop)]
pub enum Argument {
    /// This value.
    Given(Value),
    /// What is made of this JSON value.
    Json(Json),
}

/// The object of a new cell.
fn make_object_of<W: World>(world: &mut W, cell: Stored) -> Result<Value, Refused>
    ensures made { (names : List (List ℕ)) → Tries (evaluation.object_value (make_cell (W.world names world.old) (cell_of names cell))) result (W.world names world.new) }
    ensures keeps { (names : List (List ℕ)) → Keeps (W.world names world.old) (W.world names world.new) }
{
    let at = world.make(cell)?;
    Ok(Value::Object(at))
}

/// The text of a new cell.
fn make_text_of<W: World>(alloc: Global, world: &mut W, units: &Units) -> Result<Value, Refused>
    ensures made { (names : List (List ℕ)) → Tries (evaluation.make_json (W.world names world.old) (evaluation.json_string units.now)) result (W.world names world.new) }
    ensures keeps { (names : List (List ℕ)) → Keeps (W.world names world.old) (W.world names world.new) }
{
    let at = make_text(alloc, world, units)?;
    Ok(Value::Text(at))
}

/// The value of a JSON value: each part is made before its whole, from left to right.
#[cycle(made)]
fn make_json<W: World>(alloc: Global, world: &mut W, json: &Json) -> Result<Value, Refused>
    ensures made { (names : List (List ℕ)) → Tries (evaluation.make_json (W.world names world.old) (json_of (json_view json.now))) result (W.world names world.new) }
    ensures keeps { (names : List (List ℕ)) → Keeps (W.world names world.old) (W.world names world.new) }
{
    match json {
        Json::Null => Ok(Value::Null),
        Json::Bool(truth) => Ok(Value::Bool(*truth)),
        Json::Number(number) => Ok(Value::Number(*number)),
        Json::Text(units) => make_text_of(alloc, world, units),
        Json::List(list) => make_array(alloc, world, list),
        Json::Object(object) => make_object(alloc, world, object),
    }
}

/// The array of a list.
#[cycle(made)]
fn make_array<W: World>(alloc: Global, world: &mut W, list: &JsonList) -> Result<Value, Refused>
    ensures made { (names : List (List ℕ)) → Tries (evaluation.make_json (W.world names world.old) (evaluation.json_array (jsons_of (list_view list.now)))) result (W.world names world.new) }
    ensures keeps { (names : List (List ℕ)) → Keeps (W.world names world.old) (W.world names world.new) }
{
    let elements = make_elements(alloc, world, list)?;
    make_object_of(world, Stored::Array { elements })
}

/// The values of a list, in order.
#[cycle(made)]
fn make_elements<W: World>(alloc: Global, world: &mut W, list: &JsonList) -> Result<Values, Refused>
    ensures made { (names : List (List ℕ)) → Tries (evaluation.make_jsons (W.world names world.old) (jsons_of (list_view list.now))) result (W.world names world.new) }
    ensures keeps { (names : List (List ℕ)) → Keeps (W.world names world.old) (W.world names world.new) }
{
    let mut values = Vec::new(alloc);
    for item in list.as_slice() {
        let value = make_json(alloc, world, item)?;
        values.push(value)?;
    }
    Ok(Values::from_vec(values))
}

/// The object of members.
#[cycle(made)]
fn make_object<W: World>(
    alloc: Global,
    world: &mut W,
    object: &JsonObject,
) -> Result<Value, Refused>
    ensures made { (names : List (List ℕ)) → Tries (evaluation.make_json (W.world names world.old) (evaluation.json_object (members_of (object_view object.now)))) result (W.world names world.new) }
    ensures keeps { (names : List (List ℕ)) → Keeps (W.world names world.old) (W.world names world.new) }
{
    let properties = make_properties(alloc, world, object)?;
    make_object_of(world, Stored::Object { properties })
}

/// The properties of members, whose values are made in order.
#[cycle(made)]
fn make_properties<W: World>(
    alloc: Global,
    world: &mut W,
    object: &JsonObject,
) -> Result<PropertyMap, Refused>
    ensures made { (names : List (List ℕ)) → Tries (evaluation.make_members (W.world names world.old) [] (members_of (object_view object.now))) result (W.world names world.new) }
    ensures keeps { (names : List (List ℕ)) → Keeps (W.world names world.old) (W.world names world.new) }
{
    let mut properties = PropertyMap::new(alloc);
    for member in object.as_slice() {
        let value = make_json(alloc, world, &member.value)?;
        properties.put(member.key.as_slice(), value)?;
    }
    Ok(properties)
}

/// The value of an argument.
fn make_argument<W: World>(
    alloc: Global,
    world: &mut W,
    argument: &Argument,
) -> Result<Value, Refused>
    ensures made { (names : List (List ℕ)) → Tries (evaluation.make_argument (W.world names world.old) (argument_of argument.now)) result (W.world names world.new) }
    ensures keeps { (names : List (List ℕ)) → Keeps (W.world names world.old) (W.world names world.new) }
{
    match argument {
        Argument::Given(value) => Ok(*value),
        Argument::Json(json) => make_json(alloc, world, json),
    }
}

/// The values of the arguments of a call, which are made from left to right.
pub fn make_arguments<W: World>(
    alloc: Global,
    world: &mut W,
    arguments: &[Argument],
) -> Result<Values, Refused>
    ensures made { (names : List (List ℕ)) → Tries (evaluation.make_arguments (W.world names world.old) (arguments_of arguments.now)) result (W.world names world.new) }
    // Also where one is refused, the cells before them stay.
    ensures keeps { (names : List (List ℕ)) → Keeps (W.world names world.old) (W.world names world.new) }
{
    let mut values = Vec::new(alloc);
    for argument in arguments {
        let value = make_argument(alloc, world, argument)?;
        values.push(value)?;
    }
    Ok(Values::from_vec(values))
}
