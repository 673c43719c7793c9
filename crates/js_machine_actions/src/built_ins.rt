//! Calls of the built-in functions that neither print nor read a line.

ghost use Rattle.js_semantics.specs.BuiltIns.{wrong_type, line_value, new_error, error_of, text_or_fail, string_of, make_texts, new_array, keys_of, built_in_call};
ghost use Rattle.js_machine_actions.specs.BuiltIns.{StaysInside};
ghost use Rattle.js_machine_actions.specs.Flow.{Ends, Yields, Gives};

use crate::action_end::ActionEnd;
use crate::arrays::on_array;
use crate::cells::{make, make_text};
use crate::errors::{fail_with, with_message, with_result};
use crate::lists::{is_array, keys_at};
use crate::seen::NamedWorld;
use crate::strings::on_string;
use cdp_text::units::Units;
use js_heap::built_in::{BuiltIn, ErrorClass};
use js_heap::cell::Values;
use js_heap::value::Value;
use js_heap_memory::names::NameTable;
use js_heap_memory::properties::PropertyMap;
use js_heap_memory::slots::argument;
use js_heap_memory::stored::Stored;
use js_heap_memory::world::World;
use js_heap_operators::operators::text_of;
use js_heap_operators::results::not_a_text;
use std::alloc::Global;

/// The TypeError of an argument of a wrong type.
pub(crate) fn wrong_type<W: World>(alloc: Global, world: &mut W, names: &NameTable) -> ActionEnd
    ensures { Ends wrong_type (W.world names.now world.old) result (W.world names.now world.new) }
{
    fail_with(
        alloc,
        world,
        names,
        ErrorClass::TypeError,
        b"Argument has a wrong type",
    )
}

/// The value of a line of the input.
pub fn line_value<W: World>(
    world: &mut W,
    names: &NameTable,
    line: Option<Units>,
) -> Result<Value, ActionEnd>
    ensures { Gives (line_value line) (W.world names.now world.old) result (W.world names.now world.new) }
{
    match line {
        None => Ok(Value::Null),
        Some(line) => make_text(world, names, line),
    }
}

// ---- errors and strings

/// A new error of this class with these properties.
fn new_error<W: World>(
    world: &mut W,
    names: &NameTable,
    class: ErrorClass,
    properties: PropertyMap,
) -> Result<Value, ActionEnd>
    ensures { Gives (new_error class properties) (W.world names.now world.old) result (W.world names.now world.new) }
{
    let a = make(world, names, Stored::Error { class, properties })?;
    Ok(Value::Object(a))
}

/// An error with the message of a string, or without one (ECMA-262, 20.5.1.1).
fn error_of<W: World>(
    alloc: Global,
    world: &mut W,
    names: &NameTable,
    class: ErrorClass,
    message: Value,
) -> Result<Value, ActionEnd>
    ensures { Gives (error_of class message) (W.world names.now world.old) result (W.world names.now world.new) }
{
    match message {
        Value::Text(_) => {
            let properties = with_message(alloc, message)?;
            new_error(world, names, class, properties)
        }
        Value::Undefined => new_error(world, names, class, PropertyMap::new(alloc)),
        _ => Err(wrong_type(alloc, world, names)),
    }
}

/// A new string with this text; where there is none, the TypeError of an object in place of a text.
fn text_or_fail<W: World>(
    alloc: Global,
    world: &mut W,
    names: &NameTable,
    text: Option<Units>,
) -> Result<Value, ActionEnd>
    ensures { Gives (text_or_fail text) (W.world names.now world.old) result (W.world names.now world.new) }
{
    match text {
        None => {
            let error = not_a_text(alloc)?;
            with_result(alloc, world, names, error)
        }
        Some(units) => make_text(world, names, units),
    }
}

/// The text of a primitive; of a string the string itself (22.1.1.1).
fn string_of<W: World>(
    alloc: Global,
    world: &mut W,
    names: &NameTable,
    value: Value,
) -> Result<Value, ActionEnd>
    ensures { Gives (string_of (W.world names.now world.old) value) (W.world names.now world.old) result (W.world names.now world.new) }
{
    match value {
        Value::Text(_) => Ok(value),
        _ => {
            let seen = NamedWorld {
                names,
                world: &*world,
            };
            let text = text_of(alloc, &seen, value)?;
            text_or_fail(alloc, world, names, text)
        }
    }
}

// ---- Object.keys

/// Makes the cells of texts, one after another.
fn make_texts<W: World>(
    alloc: Global,
    world: &mut W,
    names: &NameTable,
    texts: &[Units],
) -> Result<Values, ActionEnd>
    ensures { Yields (make_texts texts.now) (W.world names.now world.old) result (W.world names.now world.new) }
{
    let mut values = Vec::new(alloc);
    for i in 0..texts.len() {
        let units = texts[i].clone()?;
        let value = make_text(world, names, units)?;
        values.push(value)?;
    }
    Ok(Values::from_vec(values))
}

/// Makes an array of values.
pub fn new_array<W: World>(
    world: &mut W,
    names: &NameTable,
    elements: Values,
) -> Result<Value, ActionEnd>
    ensures { Gives (new_array elements) (W.world names.now world.old) result (W.world names.now world.new) }
{
    let a = make(world, names, Stored::Array { elements })?;
    Ok(Value::Object(a))
}

/// `Object.keys` (20.1.2.18)
fn keys_of<W: World>(
    alloc: Global,
    world: &mut W,
    names: &NameTable,
    value: Value,
) -> Result<Value, ActionEnd>
    ensures { Gives (keys_of (W.world names.now world.old) value) (W.world names.now world.old) result (W.world names.now world.new) }
{
    match value {
        Value::Object(a) => {
            let keys = keys_at(alloc, world, names, a)?;
            let texts = make_texts(alloc, world, names, keys.as_slice())?;
            new_array(world, names, texts)
        }
        _ => Err(wrong_type(alloc, world, names)),
    }
}

// ---- calls

/// A call of a built-in function with a `this` and arguments.
pub fn built_in_call<W: World>(
    alloc: Global,
    world: &mut W,
    names: &NameTable,
    f: BuiltIn,
    receiver: Value,
    arguments: &[Value],
) -> Result<Value, ActionEnd>
    requires { StaysInside f }
    ensures { Gives (built_in_call (W.world names.now world.old) f receiver arguments.now) (W.world names.now world.old) result (W.world names.now world.new) }
{
    match f {
        BuiltIn::ConsoleLog | BuiltIn::ReadLine => unreachable!(),
        BuiltIn::MakeError(class) => {
            error_of(alloc, world, names, class, argument(arguments, 0))
        }
        BuiltIn::ObjectKeys => keys_of(alloc, world, names, argument(arguments, 0)),
        BuiltIn::ArrayIsArray => {
            let answer = is_array(world, names, argument(arguments, 0));
            Ok(Value::Bool(answer))
        }
        BuiltIn::MakeString => string_of(alloc, world, names, argument(arguments, 0)),
        BuiltIn::StringIndexOf | BuiltIn::StringSlice | BuiltIn::StringCharCodeAt => {
            on_string(alloc, world, names, f, receiver, arguments)
        }
        _ => on_array(alloc, world, names, f, receiver, arguments),
    }
}
