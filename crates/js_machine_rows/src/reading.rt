//! Reading names and properties, with what is found most often first. What a row reads is given, called or operated on.

ghost use Rattle.std.specs.Prelude.{◌≡◌, ◌<◌, pos, IfSome, List, ℕ, option_copied, slice_get};
ghost use Rattle.std.specs.Fmt.{decimal};
ghost use Rattle.js_heap.specs.declared.computed.Computed.TheVariants.{Value as a_value};
ghost use Rattle.js_heap.specs.declared.value.Value.TheVariants as values;
ghost use Rattle.js_heap.specs.Keys.{index_of_key};
ghost use Rattle.js_heap.specs.Values.{key_of};
ghost use Rattle.js_heap.specs.Properties.{property_of, cell_property, element_or_method};
ghost use Rattle.js_semantics.specs.References.{with_result, keyed_result};
ghost use Rattle.js_heap_memory.specs.Cells.{cell_at};
ghost use Rattle.js_heap_memory.specs.Names.{name_of};
ghost use Rattle.js_machine_actions.specs.Flow.{Yields};
ghost use Rattle.js_machine_actions.specs.References.{indexed};
ghost use Rattle.js_machine_rows.specs.References.{name_result, member_result, index_result};

use crate::names::value_of_name;
use js_heap::value::{Addr, Value};
use js_heap_memory::names::{NameId, NameTable};
use js_heap_memory::stored::Stored;
use js_heap_memory::world::World;
use js_machine_actions::action_end::ActionEnd;
use js_machine_actions::names::get_name;
use js_machine_actions::properties::{get_index, get_property};
use std::alloc::Global;

// ---- names

/// The value of a name by the general call, which makes the error of a name without one.
#[cold]
#[inline(never)]
fn name_slowly<W: World>(
    alloc: Global,
    world: &mut W,
    names: &NameTable,
    scope: Addr,
    name: NameId,
) -> Result<Value, ActionEnd>
    ensures { Yields (with_result (name_result (W.world names.now world.old) scope (name_of names.now name.number))) (W.world names.now world.old) result (W.world names.now world.new) }
{
    get_name(alloc, world, names, scope, name)
}

/// The value of a name (ECMA-262, 9.1.1.1.6).
#[inline(always)]
#[tactic(auto, using(crate::proofs::ReadingLemmas::value_rules))]
pub fn name_value<W: World>(
    alloc: Global,
    world: &mut W,
    names: &NameTable,
    scope: Addr,
    name: NameId,
) -> Result<Value, ActionEnd>
    ensures { Yields (with_result (name_result (W.world names.now world.old) scope (name_of names.now name.number))) (W.world names.now world.old) result (W.world names.now world.new) }
{
    match value_of_name(world, names, scope, name) {
        Some(value) => Ok(value),
        None => name_slowly(alloc, world, names, scope, name),
    }
}

// ---- properties with a fixed key

/// The value of a property of an object with this cell; none of another cell.
#[inline(always)]
#[tactic(auto, using(crate::proofs::ReadingLemmas::own_rules))]
fn own_value(cell: Option<&Stored>, key: &[u16]) -> Option<Value>
    ensures { (names : List (List ℕ)) → IfSome result (λ v. cell_property (cell_at names (option_copied cell.entry)) key.now ≡ a_value v) }
{
    match cell {
        Some(Stored::Object { properties }) => match properties.find(key) {
            Some(property) => Some(property.value),
            None => Some(Value::Undefined),
        },
        _ => None,
    }
}

/// The value of a property of an object; none of another value.
#[inline(always)]
pub fn value_of_member<W: World>(
    world: &W,
    names: &NameTable,
    object: Value,
    key: NameId,
) -> Option<Value>
    ensures { IfSome result (λ v. property_of (W.world names.now world.now) object (name_of names.now key.number) ≡ a_value v) }
{
    let Value::Object(a) = object else {
        return None;
    };
    let Ok(text) = names.text(key) else {
        return None;
    };
    own_value(world.find(a), text)
}

/// The value of a property with a fixed key of any value, looked up by the key's text.
#[cold]
#[inline(never)]
fn member_slowly<W: World>(
    alloc: Global,
    world: &mut W,
    names: &NameTable,
    object: Value,
    key: NameId,
) -> Result<Value, ActionEnd>
    ensures { Yields (with_result (property_of (W.world names.now world.old) object (name_of names.now key.number))) (W.world names.now world.old) result (W.world names.now world.new) }
{
    let text = names.text(key)?;
    get_property(alloc, world, names, object, text)
}

/// The value of a property with a fixed key (13.3.2).
#[inline(always)]
#[tactic(auto, using(crate::proofs::ReadingLemmas::value_rules))]
pub fn member_value<W: World>(
    alloc: Global,
    world: &mut W,
    names: &NameTable,
    object: Value,
    key: NameId,
) -> Result<Value, ActionEnd>
    ensures { Yields (with_result (property_of (W.world names.now world.old) object (name_of names.now key.number))) (W.world names.now world.old) result (W.world names.now world.new) }
{
    match value_of_member(world, names, object, key) {
        Some(value) => Ok(value),
        None => member_slowly(alloc, world, names, object, key),
    }
}

// ---- properties with a computed key

/// The array index that a number is; none of another value.
#[inline(always)]
pub fn index_of(value: Value) -> Option<u32>
    ensures number { IfSome result (λ n. value ≡ values.Number (pos n)) }
    ensures small { IfSome result (λ n. n < 4294967295) }
{
    match value {
        Value::Number(number) => {
            if 0 <= number && number < 4_294_967_295 {
                Some(number as u32)
            } else {
                None
            }
        }
        _ => None,
    }
}

/// The element at a place, if there is one.
#[inline(always)]
fn element(elements: &[Value], at: u32) -> Option<Value>
    ensures { slice_get elements.now at ≡ result }
{
    elements.get(at as usize).copied()
}

/// The element at an index, where there is one.
#[inline(always)]
fn element_at(elements: &[Value], at: u32) -> Option<Value>
    requires { at < 4294967295 }
    ensures { IfSome result (λ v. element_or_method elements.now (decimal at) (index_of_key (decimal at)) ≡ a_value v) }
{
    element(elements, at)
}

/// The element at an index of an array with this cell, where there is one.
#[inline(always)]
fn indexed_value(cell: Option<&Stored>, at: u32) -> Option<Value>
    requires { at < 4294967295 }
    ensures { (names : List (List ℕ)) → IfSome result (λ v. cell_property (cell_at names (option_copied cell.entry)) (decimal at) ≡ a_value v) }
{
    match cell {
        Some(Stored::Array { elements }) => element_at(elements.slice(), at),
        _ => None,
    }
}

/// The element of an array at an index that is a number, where there is one.
#[inline(always)]
pub fn value_of_index<W: World>(
    world: &W,
    names: &NameTable,
    object: Value,
    index: Value,
) -> Option<Value>
    ensures { IfSome result (λ v. keyed_result (key_of (W.world names.now world.now) index) (property_of (W.world names.now world.now) object) ≡ a_value v) }
{
    let _ = names.len();
    let Value::Object(a) = object else {
        return None;
    };
    let Some(at) = index_of(index) else {
        return None;
    };
    indexed_value(world.find(a), at)
}

/// The value of a property with a computed key of any value.
#[cold]
#[inline(never)]
fn index_slowly<W: World>(
    alloc: Global,
    world: &mut W,
    names: &NameTable,
    object: Value,
    index: Value,
) -> Result<Value, ActionEnd>
    ensures { Yields (indexed (W.world names.now world.old) object index) (W.world names.now world.old) result (W.world names.now world.new) }
{
    get_index(alloc, world, names, object, index)
}

/// The value of a property with a computed key (13.3.2).
#[inline(always)]
#[tactic(auto, using(crate::proofs::ReadingLemmas::value_rules))]
pub fn index_value<W: World>(
    alloc: Global,
    world: &mut W,
    names: &NameTable,
    object: Value,
    index: Value,
) -> Result<Value, ActionEnd>
    ensures { Yields (indexed (W.world names.now world.old) object index) (W.world names.now world.old) result (W.world names.now world.new) }
{
    match value_of_index(world, names, object, index) {
        Some(value) => Ok(value),
        None => index_slowly(alloc, world, names, object, index),
    }
}

// ---- properties that the values of a row name

/// The value of a property with a fixed key of a row's first value; undefined of a row without values.
#[inline(always)]
#[tactic(auto, using(crate::proofs::PropertyLemmas::reads_rules))]
pub fn read_member<W: World>(
    alloc: Global,
    world: &mut W,
    names: &NameTable,
    values: &[Value],
    key: NameId,
) -> Result<Value, ActionEnd>
    ensures { Yields (with_result (member_result (W.world names.now world.old) values.now (name_of names.now key.number))) (W.world names.now world.old) result (W.world names.now world.new) }
{
    match values {
        [object, ..] => member_value(alloc, world, names, *object, key),
        [] => Ok(Value::Undefined),
    }
}

/// The value of a property of a row's first value whose key is the second one; undefined of a row with fewer values.
#[inline(always)]
#[tactic(auto, using(crate::proofs::PropertyLemmas::reads_rules))]
pub fn read_index<W: World>(
    alloc: Global,
    world: &mut W,
    names: &NameTable,
    values: &[Value],
) -> Result<Value, ActionEnd>
    ensures { Yields (with_result (index_result (W.world names.now world.old) values.now)) (W.world names.now world.old) result (W.world names.now world.new) }
{
    match values {
        [object, index, ..] => index_value(alloc, world, names, *object, *index),
        _ => Ok(Value::Undefined),
    }
}
