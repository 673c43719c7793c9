//! Methods of arrays.

ghost use Rattle.std.specs.Prelude.{◌≡◌, ◌+◌, IfOk, length};
ghost use Rattle.js_semantics.specs.BuiltIns.{push_all, pop_last, joined_or_fail, join, slice_places, array_or_wrong, array_call, on_array};
ghost use Rattle.js_machine_actions.specs.Texts.{elements_at};
ghost use Rattle.js_machine_actions.specs.Flow.{Gives};

use crate::action_end::ActionEnd;
use crate::built_ins::{new_array, wrong_type};
use crate::cells::{cut, make_text, put_element};
use crate::errors::with_result;
use crate::lists::{
    Texts, elements_at, first_same, is_array, items_between, joined_parts, last_of, slice_places,
};
use crate::seen::{NamedWorld, units_at};
use crate::shown::between;
use cdp_text::units::{Units, ascii};
use js_heap::built_in::BuiltIn;
use js_heap::cell::Values;
use js_heap::value::{Addr, Value};
use js_heap_memory::names::NameTable;
use js_heap_memory::slots::argument;
use js_heap_memory::world::World;
use js_heap_operators::results::not_a_text;
use std::alloc::{AllocError, Global};

/// The length of the array at an address; of another cell 0. No memory holds an array whose length 32 bits don't count.
fn array_len<W: World>(world: &W, names: &NameTable, a: Addr) -> Result<u32, AllocError>
    ensures { IfOk result (λ len. len ≡ length (elements_at (W.world names.now world.now) a)) }
{
    match u32::try_from(elements_at(world, names, a).len()) {
        Ok(len) => Ok(len),
        Err(_) => Err(AllocError),
    }
}

/// The index behind another. No memory holds an array with none behind.
fn next_index(index: u32) -> Result<u32, AllocError>
    ensures { IfOk result (λ next. next ≡ index + 1) }
{
    match index.checked_add(1) {
        Some(next) => Ok(next),
        None => Err(AllocError),
    }
}

/// Puts values behind the elements of an array with this length (ECMA-262, 23.1.3.23).
fn push_all<W: World>(
    world: &mut W,
    names: &NameTable,
    a: Addr,
    len: u32,
    values: &[Value],
) -> Result<Value, ActionEnd>
    ensures { Gives (push_all a len values.now) (W.world names.now world.old) result (W.world names.now world.new) }
{
    let mut index = len;
    for value in values {
        put_element(world, names, a, index, *value)?;
        index = next_index(index)?;
    }
    Ok(Value::Number(i64::from(index)))
}

/// `push` (23.1.3.23)
fn push<W: World>(
    world: &mut W,
    names: &NameTable,
    a: Addr,
    values: &[Value],
) -> Result<Value, ActionEnd>
    ensures { Gives (push_all a (length (elements_at (W.world names.now world.old) a)) values.now) (W.world names.now world.old) result (W.world names.now world.new) }
{
    let len = array_len(world, names, a)?;
    push_all(world, names, a, len, values)
}

/// `pop` (23.1.3.22)
#[tactic(auto, using(crate::proofs::CallLemmas::pop_rules))]
fn pop<W: World>(world: &mut W, names: &NameTable, a: Addr) -> Result<Value, ActionEnd>
    ensures { Gives (pop_last a (elements_at (W.world names.now world.old) a)) (W.world names.now world.old) result (W.world names.now world.new) }
{
    let len = array_len(world, names, a)?;
    if len == 0 {
        return Ok(Value::Undefined);
    }
    let last = last_of(elements_at(world, names, a));
    cut(world, names, a, len - 1)?;
    Ok(last)
}

/// A new string of texts with a separator between each two; where one is an object, its TypeError.
fn joined_or_fail<W: World>(
    alloc: Global,
    world: &mut W,
    names: &NameTable,
    separator: &[u16],
    parts: Option<Texts>,
) -> Result<Value, ActionEnd>
    ensures { Gives (joined_or_fail separator.now parts) (W.world names.now world.old) result (W.world names.now world.new) }
{
    match parts {
        None => {
            let error = not_a_text(alloc)?;
            with_result(alloc, world, names, error)
        }
        Some(texts) => {
            let text = between(alloc, separator, texts.slice())?;
            make_text(world, names, text)
        }
    }
}

/// `join` (23.1.3.18)
fn join<W: World>(
    alloc: Global,
    world: &mut W,
    names: &NameTable,
    a: Addr,
    separator: Value,
) -> Result<Value, ActionEnd>
    ensures { Gives (join (W.world names.now world.old) (elements_at (W.world names.now world.old) a) separator) (W.world names.now world.old) result (W.world names.now world.new) }
{
    let separator = match separator {
        Value::Undefined => ascii(alloc, b",")?,
        Value::Text(b) => Units::from_slice(alloc, units_at(world, names, b))?,
        _ => return Err(wrong_type(alloc, world, names)),
    };
    let seen = NamedWorld {
        names,
        world: &*world,
    };
    let parts = joined_parts(alloc, &seen, elements_at(world, names, a))?;
    joined_or_fail(alloc, world, names, separator.as_slice(), parts)
}

/// `slice` (23.1.3.28)
#[tactic(auto, using(crate::proofs::CallLemmas::slice_rules))]
fn array_slice<W: World>(
    alloc: Global,
    world: &mut W,
    names: &NameTable,
    a: Addr,
    arguments: &[Value],
) -> Result<Value, ActionEnd>
    ensures { Gives (array_or_wrong (slice_places (elements_at (W.world names.now world.old) a) arguments.now)) (W.world names.now world.old) result (W.world names.now world.new) }
{
    let elements = elements_at(world, names, a);
    let Some((from, to)) = slice_places(elements.len(), arguments) else {
        return Err(wrong_type(alloc, world, names));
    };
    let part = Vec::from_slice(alloc, items_between(elements, from, to))?;
    new_array(world, names, Values::from_vec(part))
}

/// A method of an array: `this` of another kind is a wrong argument.
#[tactic(auto, using(crate::proofs::CallLemmas::array_rules))]
pub fn on_array<W: World>(
    alloc: Global,
    world: &mut W,
    names: &NameTable,
    f: BuiltIn,
    receiver: Value,
    arguments: &[Value],
) -> Result<Value, ActionEnd>
    ensures { Gives (on_array (W.world names.now world.old) f receiver arguments.now) (W.world names.now world.old) result (W.world names.now world.new) }
{
    let Value::Object(a) = receiver else {
        return Err(wrong_type(alloc, world, names));
    };
    if !is_array(world, names, receiver) {
        return Err(wrong_type(alloc, world, names));
    }
    array_call(alloc, world, names, f, a, arguments)
}

/// A method of the array at an address.
fn array_call<W: World>(
    alloc: Global,
    world: &mut W,
    names: &NameTable,
    f: BuiltIn,
    a: Addr,
    arguments: &[Value],
) -> Result<Value, ActionEnd>
    ensures { Gives (array_call (W.world names.now world.old) f a (elements_at (W.world names.now world.old) a) arguments.now) (W.world names.now world.old) result (W.world names.now world.new) }
{
    match f {
        BuiltIn::ArrayPush => push(world, names, a, arguments),
        BuiltIn::ArrayPop => pop(world, names, a),
        BuiltIn::ArrayIndexOf => {
            let seen = NamedWorld {
                names,
                world: &*world,
            };
            let elements = elements_at(world, names, a);
            let index = first_same(&seen, elements, argument(arguments, 0));
            Ok(Value::Number(index))
        }
        BuiltIn::ArrayJoin => join(alloc, world, names, a, argument(arguments, 0)),
        BuiltIn::ArraySlice => array_slice(alloc, world, names, a, arguments),
        _ => Err(wrong_type(alloc, world, names)),
    }
}
