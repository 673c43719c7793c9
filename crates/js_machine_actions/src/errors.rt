//! Errors that steps meet, and results of operations.

ghost use Rattle.std.specs.Prelude.{◌≡◌, IfOk, [], ◌∷◌};
ghost use Rattle.js_heap.specs.BuiltIns.{message_property};
ghost use Rattle.js_heap.specs.Properties.{bad_key};
ghost use Rattle.js_semantics.specs.State.{fail, give};
ghost use Rattle.js_semantics.specs.References.{with_result, with_written};
ghost use Rattle.js_machine_actions.specs.Flow.{Ends, Yields, Passes, raised_or, with_error};
ghost use Rattle.js_machine_actions.specs.References.{IsOfProperty};

use crate::action_end::ActionEnd;
use crate::cells::{cut, make, make_text, put, put_element, remove};
use cdp_text::units::{Units, ascii};
use js_heap::built_in::ErrorClass;
use js_heap::cell::Property;
use js_heap::change::Change;
use js_heap::computed::{Computed, Written};
use js_heap::value::Value;
use js_heap_memory::names::NameTable;
use js_heap_memory::properties::PropertyMap;
use js_heap_memory::stored::Stored;
use js_heap_memory::world::World;
use std::alloc::{AllocError, Global};

/// The properties of an error with this message.
pub(crate) fn with_message(alloc: Global, message: Value) -> Result<PropertyMap, AllocError>
    ensures { IfOk result (λ properties. properties ≡ message_property message ∷ []) }
{
    let mut properties = PropertyMap::new(alloc);
    properties.add(Property {
        key: ascii(alloc, b"message")?,
        value: message,
        writable: true,
        enumerable: false,
        configurable: true,
    })?;
    Ok(properties)
}

/// Makes an error with a message.
fn make_error<W: World>(
    alloc: Global,
    world: &mut W,
    names: &NameTable,
    class: ErrorClass,
    message: Units,
) -> Result<Value, ActionEnd>
    ensures { Yields (with_error class message) (W.world names.now world.old) result (W.world names.now world.new) }
{
    let text = make_text(world, names, message)?;
    let properties = with_message(alloc, text)?;
    let a = make(world, names, Stored::Error { class, properties })?;
    Ok(Value::Object(a))
}

/// The raise of a value, if it was made.
fn raised_or(made: Result<Value, ActionEnd>) -> ActionEnd
    ensures { result ≡ raised_or made }
{
    match made {
        Ok(value) => ActionEnd::Raised(value),
        Err(stop) => stop,
    }
}

/// Raises an error that a step meets.
pub fn fail<W: World>(
    alloc: Global,
    world: &mut W,
    names: &NameTable,
    class: ErrorClass,
    message: Units,
) -> ActionEnd
    ensures { Ends (fail class message) (W.world names.now world.old) result (W.world names.now world.new) }
{
    raised_or(make_error(alloc, world, names, class, message))
}

/// Raises an error with a message of ASCII bytes.
pub fn fail_with<W: World>(
    alloc: Global,
    world: &mut W,
    names: &NameTable,
    class: ErrorClass,
    message: &[u8],
) -> ActionEnd
    ensures { Ends (fail class message.now) (W.world names.now world.old) result (W.world names.now world.new) }
{
    match ascii(alloc, message) {
        Ok(units) => fail(alloc, world, names, class, units),
        Err(_) => ActionEnd::Memory,
    }
}

/// Goes on with a result: a text is a new cell, an error is raised.
pub fn with_result<W: World>(
    alloc: Global,
    world: &mut W,
    names: &NameTable,
    computed: Computed,
) -> Result<Value, ActionEnd>
    ensures { Yields (with_result computed) (W.world names.now world.old) result (W.world names.now world.new) }
{
    match computed {
        Computed::Value(value) => Ok(value),
        Computed::Text(units) => make_text(world, names, units),
        Computed::Error(class, message) => Err(fail(alloc, world, names, class, message)),
    }
}

/// The error of a key that is neither a string nor a number.
pub fn bad_key<W: World>(alloc: Global, world: &mut W, names: &NameTable) -> ActionEnd
    ensures { Ends (with_result bad_key give) (W.world names.now world.old) result (W.world names.now world.new) }
{
    fail_with(
        alloc,
        world,
        names,
        ErrorClass::TypeError,
        b"Property key must be a string or a number",
    )
}

/// Goes on after the change of a property, or raises the error.
pub fn with_written<W: World>(
    alloc: Global,
    world: &mut W,
    names: &NameTable,
    written: Written,
) -> Result<(), ActionEnd>
    requires { IsOfProperty written }
    ensures { Passes (with_written written) (W.world names.now world.old) result (W.world names.now world.new) }
{
    match written {
        Written::Change(a, Change::Put { key, value }) => {
            put(world, names, a, key.as_slice(), value)
        }
        Written::Change(a, Change::Remove { key }) => remove(world, names, a, key.as_slice()),
        Written::Change(a, Change::Element { index, value }) => {
            put_element(world, names, a, index, value)
        }
        Written::Change(a, Change::Length(length)) => cut(world, names, a, length),
        Written::Change(_, Change::Declare { .. } | Change::Bind { .. }) => unreachable!(),
        Written::Refused(class, message) => Err(fail(alloc, world, names, class, message)),
    }
}
