//! Rows of array and object literals and of functions.

ghost use Rattle.std.specs.Prelude.{◌≡◌, [], IfOk, List, ℕ, option_copied, slice_get};
ghost use Rattle.js_heap.specs.declared.cell.Cell.TheVariants as cells;
ghost use Rattle.js_heap.specs.declared.value.Value.TheVariants as value;
ghost use Rattle.js_heap.specs.Values.{key_of};
ghost use Rattle.js_semantics.specs.declared.form.Member.{Member as AnyMember};
ghost use Rattle.js_semantics.specs.declared.form.Form.TheVariants as forms;
ghost use Rattle.js_semantics.specs.Terms.{Terms as AnyTerms, part, more};
ghost use Rattle.js_semantics.specs.State.{make, give};
ghost use Rattle.js_semantics.specs.Functions.{function_row, function_cell, named_function, receiver_of};
ghost use Rattle.js_semantics.specs.Rows.{properties_from, object_or_fail, object_row};
ghost use Rattle.js_machine_nodes.specs.declared.table.NodeTable.{NodeTable as AnyTable};
ghost use Rattle.js_machine_nodes.specs.Forms.{form_of, function_of, members_of, members_at};
ghost use Rattle.js_machine_nodes.specs.Trees.{tree, trees};
ghost use Rattle.js_heap_memory.specs.Names.{name_of};
ghost use Rattle.js_machine_actions.specs.Contexts.{state_of};
ghost use Rattle.js_machine_actions.specs.Flow.{Yields, Gives};
ghost use Rattle.js_machine_engine.specs.declared.reduced.Reduced.TheVariants as reduced;
ghost use Rattle.js_machine_engine.specs.Tasks.{Wide as AnyWide};
ghost use Rattle.js_machine_engine.specs.Answers.{now_of};
ghost use Rattle.js_machine_rows.specs.Does.{Replies, RepliesWith, DoesIn};
ghost use Rattle.js_machine_rows.specs.Over.{OfEntry, AddsTo, IsLiteralOf, answered_by, function_made, method_made};

use crate::answers::{replied, stopped};
use crate::entries::{function_entry, parameter_count};
use crate::parts::part_at;
use cdp_text::units::Units;
use js_heap::cell::Values;
use js_heap::value::{Addr, Value};
use js_heap_memory::names::NameTable;
use js_heap_memory::properties::PropertyMap;
use js_heap_memory::stored::FunctionName;
use js_heap_memory::world::World;
use js_heap_operators::operators::key_of;
use js_machine_actions::action_end::ActionEnd;
use js_machine_actions::built_ins::new_array;
use js_machine_actions::context::Context;
use js_machine_actions::errors::bad_key;
use js_machine_actions::functions::{make_function, named_function};
use js_machine_actions::lists::last_of;
use js_machine_actions::objects::object_or_fail;
use js_machine_actions::seen::NamedWorld;
use js_machine_engine::code::RunningCode;
use js_machine_engine::reduced::Reduced;
use js_machine_engine::task::Redex;
use js_machine_nodes::node::{FunctionEntry, MemberEntry};
use js_machine_nodes::op::Op;
use js_machine_nodes::table::NodeTable;
use std::alloc::{AllocError, Global};

// ---- arrays

/// A new array with these elements.
fn array_of<W: World>(
    alloc: Global,
    names: &NameTable,
    world: &mut W,
    values: &[Value],
) -> Result<Value, ActionEnd>
    ensures { Gives (make (cells.Array values.now) (λ a. give (value.Object a))) (W.world names.now world.old) result (W.world names.now world.new) }
{
    let elements = Values::from_vec(Vec::from_slice(alloc, values)?);
    new_array(world, names, elements)
}

/// An array literal (ECMA-262, 13.2.4).
pub fn array<W: World>(alloc: Global, names: &NameTable, world: &mut W, values: &[Value]) -> Reduced
    ensures { Replies names.now (make (cells.Array values.now) (λ a. give (value.Object a))) (W.world names.now world.old) result (W.world names.now world.new) }
{
    replied(array_of(alloc, names, world, values))
}

// ---- functions

/// An arrow has the enclosing `this` (15.3.4).
fn receiver_of(entry: &FunctionEntry, this: Value) -> Value
    ensures { (names : List (List ℕ)) → result ≡ receiver_of (function_of names entry.now) this }
{
    if entry.is_arrow {
        this
    } else {
        Value::Undefined
    }
}

/// Makes a function without a name of its own.
fn nameless_function<W: World>(
    alloc: Global,
    names: &NameTable,
    world: &mut W,
    scope: Addr,
    entry: &FunctionEntry,
    receiver: Value,
) -> Result<Addr, ActionEnd>
    ensures { Yields (make (function_cell (function_of names.now entry.now) (name_of names.now entry.now.name.number) scope receiver)) (W.world names.now world.old) result (W.world names.now world.new) }
{
    let count = parameter_count(entry)?;
    let name = FunctionName::Known(entry.name);
    make_function(
        alloc, world, names, entry.code, count, name, scope, receiver,
    )
}

/// Makes a function with a scope that has its own name.
fn own_function<W: World>(
    alloc: Global,
    names: &NameTable,
    world: &mut W,
    scope: Addr,
    entry: &FunctionEntry,
) -> Result<Value, ActionEnd>
    ensures { Gives (named_function (function_of names.now entry.now) scope) (W.world names.now world.old) result (W.world names.now world.new) }
{
    let count = parameter_count(entry)?;
    named_function(alloc, world, names, entry.code, count, entry.name, scope)
}

/// Makes a function without a name of its own, with this `this`.
fn plain_function<W: World>(
    alloc: Global,
    names: &NameTable,
    world: &mut W,
    scope: Addr,
    entry: &FunctionEntry,
    receiver: Value,
) -> Result<Value, ActionEnd>
    ensures { Gives (make (function_cell (function_of names.now entry.now) (name_of names.now entry.now.name.number) scope receiver) (λ a. give (value.Object a))) (W.world names.now world.old) result (W.world names.now world.new) }
{
    let a = nameless_function(alloc, names, world, scope, entry, receiver)?;
    Ok(Value::Object(a))
}

/// Makes the function of an entry, in a frame with this `this`.
fn made_function<W: World>(
    alloc: Global,
    names: &NameTable,
    world: &mut W,
    scope: Addr,
    entry: &FunctionEntry,
    this: Value,
) -> Result<Value, ActionEnd>
    ensures { Gives (function_made (function_of names.now entry.now) scope this) (W.world names.now world.old) result (W.world names.now world.new) }
{
    if entry.is_named {
        own_function(alloc, names, world, scope, entry)
    } else {
        let receiver = receiver_of(entry, this);
        plain_function(alloc, names, world, scope, entry, receiver)
    }
}

/// The function of an entry, made in the active frame.
fn function_with<W: World>(
    alloc: Global,
    names: &NameTable,
    context: &Context,
    world: &mut W,
    scope: Addr,
    entry: &FunctionEntry,
) -> Reduced
    ensures { RepliesWith names.now (function_row (state_of (W.world names.now world.old) context.now []) scope (function_of names.now entry.now)) (W.world names.now world.old) context.now result (W.world names.now world.new) context.now }
{
    let this = context.this_of();
    replied(made_function(alloc, names, world, scope, entry, this))
}

/// A function expression or an arrow (15.2.5, 15.3.4).
pub fn function<W: World>(
    code: &RunningCode<'_, '_>,
    context: &Context,
    world: &mut W,
    form: Redex,
) -> Reduced
    ensures { OfEntry (slice_get code.now.table.now.functions.items form.info) result (λ entry. RepliesWith code.now.names.now (function_row (state_of (W.world code.now.names.now world.old) context.now []) form.inner (function_of code.now.names.now entry)) (W.world code.now.names.now world.old) context.now result (W.world code.now.names.now world.new) context.now) }
{
    match function_entry(code.table, form.info) {
        Some(entry) => function_with(code.alloc, code.names, context, world, form.inner, entry),
        None => Reduced::Memory,
    }
}

// ---- object literals

/// The properties of an object literal in order; none where a computed key is no key (13.2.5).
fn properties_from<W: World>(
    alloc: Global,
    names: &NameTable,
    world: &W,
    members: &[MemberEntry],
    values: &[Value],
) -> Result<Option<PropertyMap>, AllocError>
    ensures { IfOk result (λ properties. properties ≡ properties_from (W.world names.now world.now) [] (members_of names.now members.now) values.now) }
{
    let mut properties = PropertyMap::new(alloc);
    let mut rest = values;
    for member in members {
        match (member, rest) {
            (MemberEntry::Keyed(name), [value, others @ ..]) => {
                properties.put(names.text(*name)?, *value)?;
                rest = others;
            }
            (MemberEntry::Computed, [key, value, others @ ..]) => {
                let Some(key) = key_of(alloc, &NamedWorld { names, world }, *key)? else {
                    return Ok(None);
                };
                properties.put(key.as_slice(), *value)?;
                rest = others;
            }
            _ => return Ok(Some(properties)),
        }
    }
    Ok(Some(properties))
}

/// Makes the object of an object literal of values.
fn object_of<W: World>(
    alloc: Global,
    names: &NameTable,
    world: &mut W,
    members: &[MemberEntry],
    values: &[Value],
) -> Result<Value, ActionEnd>
    ensures { Gives (object_or_fail (properties_from (W.world names.now world.old) [] (members_of names.now members.now) values.now)) (W.world names.now world.old) result (W.world names.now world.new) }
{
    let properties = properties_from(alloc, names, &*world, members, values)?;
    object_or_fail(alloc, world, names, properties)
}

// ---- methods with computed keys

/// Makes a method with this key.
fn keyed_method<W: World>(
    alloc: Global,
    names: &NameTable,
    world: &mut W,
    scope: Addr,
    entry: &FunctionEntry,
    key: Units,
) -> Result<Addr, ActionEnd>
    ensures { Yields (make (function_cell (function_of names.now entry.now) key scope value.Undefined)) (W.world names.now world.old) result (W.world names.now world.new) }
{
    let count = parameter_count(entry)?;
    let name = FunctionName::Made(Box::new(alloc, key)?);
    let receiver = Value::Undefined;
    make_function(
        alloc, world, names, entry.code, count, name, scope, receiver,
    )
}

/// Makes a method with the key that a value is (15.4.4).
fn made_method<W: World>(
    alloc: Global,
    names: &NameTable,
    world: &mut W,
    scope: Addr,
    entry: &FunctionEntry,
    key: Value,
) -> Result<Addr, ActionEnd>
    ensures { Yields (method_made (key_of (W.world names.now world.old) key) (function_of names.now entry.now) scope) (W.world names.now world.old) result (W.world names.now world.new) }
{
    let seen = NamedWorld {
        names,
        world: &*world,
    };
    match key_of(alloc, &seen, key)? {
        Some(key) => keyed_method(alloc, names, world, scope, entry, key),
        None => Err(bad_key(alloc, world, names)),
    }
}

/// An object literal behind a method that is made.
fn adds_in(outcome: Result<Addr, ActionEnd>) -> Reduced
    ensures { result ≡ answered_by (λ a. reduced.Adds (value.Object a)) outcome }
{
    match outcome {
        Ok(a) => Reduced::Adds(Value::Object(a)),
        Err(stop) => stopped(stop),
    }
}

/// An object literal before a method with a computed key: the last value is the key.
fn before_method<W: World>(
    alloc: Global,
    names: &NameTable,
    world: &mut W,
    scope: Addr,
    entry: &FunctionEntry,
    values: &[Value],
) -> Reduced
    ensures { (t : AnyTable) (e : AnyWide) (ms : List AnyMember) (now later rest : AnyTerms) → AddsTo names.now t e ms values.now now rest → DoesIn names.now t e (object_row (W.world names.now world.old) scope ms values.now (more (part (forms.Method (function_of names.now entry.now)) now later) rest)) (W.world names.now world.old) result (W.world names.now world.new) }
{
    adds_in(made_method(alloc, names, world, scope, entry, last_of(values)))
}

/// An object literal before a part of this kind.
fn before_form<W: World>(
    code: &RunningCode<'_, '_>,
    world: &mut W,
    scope: Addr,
    op: Op,
    info: u32,
    values: &[Value],
) -> Reduced
    ensures { (e : AnyWide) (ms : List AnyMember) (now later rest : AnyTerms) → AddsTo code.now.names.now code.now.table.now e ms values.now now rest → DoesIn code.now.names.now code.now.table.now e (object_row (W.world code.now.names.now world.old) scope ms values.now (more (part (form_of code.now.names.now code.now.table.now op info) now later) rest)) (W.world code.now.names.now world.old) result (W.world code.now.names.now world.new) }
{
    match op {
        Op::Method => match function_entry(code.table, info) {
            Some(entry) => before_method(code.alloc, code.names, world, scope, entry, values),
            None => Reduced::Gives(Value::Undefined),
        },
        _ => Reduced::Gives(Value::Undefined),
    }
}

/// An object literal before a part.
fn before_part<W: World>(
    code: &RunningCode<'_, '_>,
    world: &mut W,
    scope: Addr,
    part: u32,
    values: &[Value],
) -> Reduced
    ensures { (e : AnyWide) (ms : List AnyMember) (rest : AnyTerms) → AddsTo code.now.names.now code.now.table.now e ms values.now (now_of (tree code.now.names.now code.now.table.now part)) rest → DoesIn code.now.names.now code.now.table.now e (object_row (W.world code.now.names.now world.old) scope ms values.now (more (tree code.now.names.now code.now.table.now part) rest)) (W.world code.now.names.now world.old) result (W.world code.now.names.now world.new) }
{
    match code.table.node(part) {
        Some(node) => before_form(code, world, scope, node.op, node.info, values),
        None => Reduced::Gives(Value::Undefined),
    }
}

/// An object literal before its next part; where none is left, the object with these values.
fn object_with<W: World>(
    code: &RunningCode<'_, '_>,
    world: &mut W,
    form: Redex,
    from: u32,
    members: &[MemberEntry],
    values: &[Value],
) -> Reduced
    ensures { (e : AnyWide) → IsLiteralOf code.now.names.now code.now.table.now e (members_of code.now.names.now members.now) values.now (trees code.now.names.now code.now.table.now from form.end) → DoesIn code.now.names.now code.now.table.now e (object_row (W.world code.now.names.now world.old) form.inner (members_of code.now.names.now members.now) values.now (trees code.now.names.now code.now.table.now from form.end)) (W.world code.now.names.now world.old) result (W.world code.now.names.now world.new) }
{
    match part_at(code.table, from, form.end, 0) {
        Some(part) => before_part(code, world, form.inner, part, values),
        None => replied(object_of(code.alloc, code.names, world, members, values)),
    }
}

/// The members of an object literal.
fn members_entry(table: &NodeTable, number: u32) -> Option<&[MemberEntry]>
    ensures { option_copied result ≡ members_at table.now number }
{
    match table.objects.get(number as usize) {
        Some(members) => Some(members.as_slice()),
        None => None,
    }
}

/// An object literal of values, or before the next method with a computed key (13.2.5.4); its kept parts stand from a place
/// of the table's list on.
pub fn object<W: World>(
    code: &RunningCode<'_, '_>,
    world: &mut W,
    form: Redex,
    from: u32,
    values: &[Value],
) -> Reduced
    ensures { OfEntry (members_at code.now.table.now form.info) result (λ members. (e : AnyWide) → IsLiteralOf code.now.names.now code.now.table.now e (members_of code.now.names.now members) values.now (trees code.now.names.now code.now.table.now from form.end) → DoesIn code.now.names.now code.now.table.now e (object_row (W.world code.now.names.now world.old) form.inner (members_of code.now.names.now members) values.now (trees code.now.names.now code.now.table.now from form.end)) (W.world code.now.names.now world.old) result (W.world code.now.names.now world.new)) }
{
    match members_entry(code.table, form.info) {
        Some(members) => object_with(code, world, form, from, members, values),
        None => Reduced::Memory,
    }
}
