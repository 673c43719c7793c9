//! Rows of `++` and `--`.

ghost use Rattle.std.specs.Prelude.{◌≡◌, IfOk, IfSome};
ghost use Rattle.js_heap.specs.declared.value.Value.{Value as AnyValue};
ghost use Rattle.js_heap.specs.declared.computed.Computed.TheVariants.{Value as a_value};
ghost use Rattle.js_heap.specs.Operators.{not_numbers, update_result};
ghost use Rattle.js_heap.specs.Properties.{property_of};
ghost use Rattle.js_semantics.specs.State.{Action, give};
ghost use Rattle.js_semantics.specs.References.{found, with_result};
ghost use Rattle.js_semantics.specs.Rows.{updated_by, update_value};
ghost use Rattle.js_machine_nodes.specs.Ops.{operator_of, is_prefix};
ghost use Rattle.js_heap_memory.specs.Names.{name_of};
ghost use Rattle.js_machine_actions.specs.Flow.{Ends, Gives};
ghost use Rattle.js_machine_rows.specs.Does.{Replies};
ghost use Rattle.js_machine_rows.specs.Updates.{on_update, property_updated, index_updated, member_updated, element_updated, old_updated, name_updated};

use crate::answers::{replied, replied_with, stopped};
use crate::names::open_slot;
use crate::operators::{is_safe, quick_result};
use crate::reading::{value_of_index, value_of_member};
use crate::writing::{put_index_value, put_member_value};
use cdp_text::units::{Units, ascii};
use js_heap::built_in::ErrorClass;
use js_heap::computed::Computed;
use js_heap::value::{Addr, Value};
use js_heap_memory::lookup::lookup;
use js_heap_memory::names::{NameId, NameTable};
use js_heap_memory::world::World;
use js_heap_operators::operators::{key_of, update_result};
use js_heap_operators::properties::property_of;
use js_machine_actions::action_end::ActionEnd;
use js_machine_actions::cells::bind_at;
use js_machine_actions::errors::{bad_key, fail, fail_with};
use js_machine_actions::names::{get_name, put_name};
use js_machine_actions::properties::put_property;
use js_machine_actions::seen::NamedWorld;
use js_machine_engine::code::RunningCode;
use js_machine_engine::reduced::Reduced;
use js_machine_nodes::op::UpdateKind;
use js_tree_operators::operator::{BinaryOperator, UpdateOperator};
use std::alloc::{AllocError, Global};

/// The old value and the new one, or an error that isn't made yet.
#[derive(Drop)]
pub enum Update {
    To(Value, Value),
    Fails(ErrorClass, Units),
}

/// Whether it is `++` or `--`, and whether it stands in front.
#[derive(Clone, Copy)]
pub struct UpdateRule {
    pub operator: UpdateOperator,
    pub prefix: bool,
}

/// Which of the four updates it is.
#[inline(always)]
pub fn rule_of(kind: UpdateKind) -> UpdateRule
    ensures operator { result.operator ≡ operator_of kind }
    ensures prefix { result.prefix ≡ is_prefix kind }
{
    match kind {
        UpdateKind::PrefixIncrement => UpdateRule {
            operator: UpdateOperator::Increment,
            prefix: true,
        },
        UpdateKind::PrefixDecrement => UpdateRule {
            operator: UpdateOperator::Decrement,
            prefix: true,
        },
        UpdateKind::PostfixIncrement => UpdateRule {
            operator: UpdateOperator::Increment,
            prefix: false,
        },
        UpdateKind::PostfixDecrement => UpdateRule {
            operator: UpdateOperator::Decrement,
            prefix: false,
        },
    }
}

/// The value of an update: in front the new one, behind the old one (ECMA-262, 13.4).
#[inline(always)]
pub fn update_value(prefix: bool, old: Value, new: Value) -> Value
    ensures { result ≡ update_value prefix old new }
{
    if prefix { new } else { old }
}

/// The new value of a number, where that is a safe integer.
#[inline(always)]
pub fn stepped(operator: UpdateOperator, old: Value) -> Option<Value>
    ensures { IfSome result (λ new. update_result operator old ≡ a_value new) }
{
    match old {
        Value::Number(_) => match operator {
            UpdateOperator::Increment => {
                quick_result(BinaryOperator::Add, old, Value::Number(1))
            }
            UpdateOperator::Decrement => {
                quick_result(BinaryOperator::Subtract, old, Value::Number(1))
            }
        },
        _ => None,
    }
}

// ---- any value

/// An old value with the new one (13.4.2 to 13.4.5). No number of a run is outside the safe integers.
pub fn updated_value(
    alloc: Global,
    operator: UpdateOperator,
    old: Value,
) -> Result<Update, AllocError>
    ensures { IfOk result (λ u. (k : AnyValue → AnyValue → Action) → with_result (update_result operator old) (k old) ≡ on_update u k) }
{
    if !is_safe(old) {
        return Err(AllocError);
    }
    match update_result(alloc, operator, old)? {
        Computed::Value(new) => Ok(Update::To(old, new)),
        Computed::Text(_) => unreachable!(),
        Computed::Error(class, message) => Ok(Update::Fails(class, message)),
    }
}

/// What was read with its new value; a text without a cell is no number.
fn updated(alloc: Global, operator: UpdateOperator, read: Computed) -> Result<Update, AllocError>
    ensures { IfOk result (λ u. (k : AnyValue → AnyValue → Action) → updated_by operator read k ≡ on_update u k) }
{
    match read {
        Computed::Value(old) => updated_value(alloc, operator, old),
        Computed::Text(_) => {
            let message = ascii(alloc, b"Operands must be numbers")?;
            Ok(Update::Fails(ErrorClass::TypeError, message))
        }
        Computed::Error(class, message) => Ok(Update::Fails(class, message)),
    }
}

/// A property of an object with its new value.
fn read_updated<W: World>(
    alloc: Global,
    world: &W,
    names: &NameTable,
    operator: UpdateOperator,
    object: Value,
    key: &[u16],
) -> Result<Update, AllocError>
    ensures { IfOk result (λ u. (k : AnyValue → AnyValue → Action) → updated_by operator (property_of (W.world names.now world.now) object key.now) k ≡ on_update u k) }
{
    let read = property_of(alloc, &NamedWorld { names, world }, object, key)?;
    updated(alloc, operator, read)
}

/// `++` and `--` of a property.
fn update_property<W: World>(
    code: &RunningCode<'_, '_>,
    world: &mut W,
    how: UpdateRule,
    object: Value,
    key: &[u16],
) -> Result<Value, ActionEnd>
    ensures { Gives (property_updated (W.world code.now.names.now world.old) how.operator how.prefix object key.now) (W.world code.now.names.now world.old) result (W.world code.now.names.now world.new) }
{
    match read_updated(code.alloc, world, code.names, how.operator, object, key)? {
        Update::To(old, new) => {
            put_property(code.alloc, world, code.names, object, key, new)?;
            Ok(update_value(how.prefix, old, new))
        }
        Update::Fails(class, message) => Err(fail(code.alloc, world, code.names, class, message)),
    }
}

/// `++` and `--` of a property with a computed key.
pub fn update_index_slowly<W: World>(
    code: &RunningCode<'_, '_>,
    world: &mut W,
    how: UpdateRule,
    object: Value,
    index: Value,
) -> Result<Value, ActionEnd>
    ensures { Gives (index_updated (W.world code.now.names.now world.old) how.operator how.prefix object index) (W.world code.now.names.now world.old) result (W.world code.now.names.now world.new) }
{
    let key = key_of(
        code.alloc,
        &NamedWorld {
            names: code.names,
            world: &*world,
        },
        index,
    )?;
    match key {
        Some(key) => update_property(code, world, how, object, key.as_slice()),
        None => Err(bad_key(code.alloc, world, code.names)),
    }
}

// ---- rows of properties

/// The TypeError of a row without the values that it needs: undefined is no number.
#[cold]
#[inline(never)]
fn not_numbers<W: World>(alloc: Global, world: &mut W, names: &NameTable) -> ActionEnd
    ensures { Ends (with_result not_numbers give) (W.world names.now world.old) result (W.world names.now world.new) }
{
    fail_with(
        alloc,
        world,
        names,
        ErrorClass::TypeError,
        b"Operands must be numbers",
    )
}

/// `++` and `--` of a property with a fixed key of any value, looked up by the key's text.
#[cold]
#[inline(never)]
fn update_member_slowly<W: World>(
    code: &RunningCode<'_, '_>,
    world: &mut W,
    how: UpdateRule,
    object: Value,
    key: NameId,
) -> Result<Value, ActionEnd>
    ensures { Gives (property_updated (W.world code.now.names.now world.old) how.operator how.prefix object (name_of code.now.names.now key.number)) (W.world code.now.names.now world.old) result (W.world code.now.names.now world.new) }
{
    let text = code.names.text(key)?;
    update_property(code, world, how, object, text)
}

/// `++` and `--` of a property with a fixed key of an object.
fn update_member_of<W: World>(
    code: &RunningCode<'_, '_>,
    world: &mut W,
    how: UpdateRule,
    object: Value,
    key: NameId,
) -> Reduced
    ensures { Replies code.now.names.now (property_updated (W.world code.now.names.now world.old) how.operator how.prefix object (name_of code.now.names.now key.number)) (W.world code.now.names.now world.old) result (W.world code.now.names.now world.new) }
{
    if let Some(old) = value_of_member(world, code.names, object, key) {
        if let Some(new) = stepped(how.operator, old) {
            let given = update_value(how.prefix, old, new);
            let written = put_member_value(code.alloc, world, code.names, object, key, new);
            return replied_with(written, given);
        }
    }
    replied(update_member_slowly(code, world, how, object, key))
}

/// `++` and `--` of a property with a computed key of an object.
fn update_index_of<W: World>(
    code: &RunningCode<'_, '_>,
    world: &mut W,
    how: UpdateRule,
    object: Value,
    index: Value,
) -> Reduced
    ensures { Replies code.now.names.now (index_updated (W.world code.now.names.now world.old) how.operator how.prefix object index) (W.world code.now.names.now world.old) result (W.world code.now.names.now world.new) }
{
    if let Some(old) = value_of_index(world, code.names, object, index) {
        if let Some(new) = stepped(how.operator, old) {
            let given = update_value(how.prefix, old, new);
            let written = put_index_value(code.alloc, world, code.names, object, index, new);
            return replied_with(written, given);
        }
    }
    replied(update_index_slowly(code, world, how, object, index))
}

/// `++` and `--` of a property with a fixed key (13.4).
pub fn update_member<W: World>(
    code: &RunningCode<'_, '_>,
    world: &mut W,
    how: UpdateRule,
    values: &[Value],
    key: NameId,
) -> Reduced
    ensures { Replies code.now.names.now (member_updated (W.world code.now.names.now world.old) how.operator how.prefix values.now (name_of code.now.names.now key.number)) (W.world code.now.names.now world.old) result (W.world code.now.names.now world.new) }
{
    match values {
        [object, ..] => update_member_of(code, world, how, *object, key),
        [] => stopped(not_numbers(code.alloc, world, code.names)),
    }
}

/// `++` and `--` of a property with a computed key.
pub fn update_index<W: World>(
    code: &RunningCode<'_, '_>,
    world: &mut W,
    how: UpdateRule,
    values: &[Value],
) -> Reduced
    ensures { Replies code.now.names.now (element_updated (W.world code.now.names.now world.old) how.operator how.prefix values.now) (W.world code.now.names.now world.old) result (W.world code.now.names.now world.new) }
{
    match values {
        [object, index, ..] => update_index_of(code, world, how, *object, *index),
        _ => stopped(not_numbers(code.alloc, world, code.names)),
    }
}

// ---- rows of names

/// `++` and `--` of a name with this value.
fn update_old_name<W: World>(
    code: &RunningCode<'_, '_>,
    world: &mut W,
    how: UpdateRule,
    scope: Addr,
    name: NameId,
    old: Value,
) -> Result<Value, ActionEnd>
    ensures { Gives (old_updated how.operator how.prefix (name_of code.now.names.now name.number) (found (W.world code.now.names.now world.old) scope (name_of code.now.names.now name.number)) old) (W.world code.now.names.now world.old) result (W.world code.now.names.now world.new) }
{
    match updated_value(code.alloc, how.operator, old)? {
        Update::To(old, new) => {
            put_name(code.alloc, world, code.names, scope, name, new)?;
            Ok(update_value(how.prefix, old, new))
        }
        Update::Fails(class, message) => Err(fail(code.alloc, world, code.names, class, message)),
    }
}

/// `++` and `--` of a name by the general calls, or the error of a name without a value.
#[cold]
#[inline(never)]
fn update_name_slowly<W: World>(
    code: &RunningCode<'_, '_>,
    world: &mut W,
    how: UpdateRule,
    scope: Addr,
    name: NameId,
) -> Result<Value, ActionEnd>
    ensures { Gives (name_updated how.operator how.prefix (name_of code.now.names.now name.number) (found (W.world code.now.names.now world.old) scope (name_of code.now.names.now name.number))) (W.world code.now.names.now world.old) result (W.world code.now.names.now world.new) }
{
    match get_name(code.alloc, world, code.names, scope, name) {
        Ok(old) => update_old_name(code, world, how, scope, name, old),
        Err(stop) => Err(stop),
    }
}

/// `++` and `--` of a name (13.4).
#[inline(always)]
pub fn update_name<W: World>(
    code: &RunningCode<'_, '_>,
    world: &mut W,
    how: UpdateRule,
    scope: Addr,
    name: NameId,
) -> Reduced
    ensures { Replies code.now.names.now (name_updated how.operator how.prefix (name_of code.now.names.now name.number) (found (W.world code.now.names.now world.old) scope (name_of code.now.names.now name.number))) (W.world code.now.names.now world.old) result (W.world code.now.names.now world.new) }
{
    let found = lookup(world, code.names, scope, name);
    if let Some(slot) = open_slot(found) {
        if let Some(old) = slot.value {
            if let Some(new) = stepped(how.operator, old) {
                let given = update_value(how.prefix, old, new);
                let written = bind_at(world, code.names, slot.scope, slot.place, name, new);
                return replied_with(written, given);
            }
        }
    }
    replied(update_name_slowly(code, world, how, scope, name))
}
