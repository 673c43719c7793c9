//! Methods of strings.

ghost use Rattle.js_heap.specs.Values.{units_at};
ghost use Rattle.js_semantics.specs.BuiltIns.{slice_places, text_or_wrong, occurrence_of, unit_or_fail, unit_at, on_string};
ghost use Rattle.js_machine_actions.specs.Flow.{Gives};

use crate::action_end::ActionEnd;
use crate::built_ins::wrong_type;
use crate::cells::make_text;
use crate::errors::with_result;
use crate::lists::{first_occurrence, items_between, slice_places, unit_of};
use crate::seen::units_at;
use cdp_text::units::Units;
use js_heap::built_in::BuiltIn;
use js_heap::value::{Addr, Value};
use js_heap_memory::names::NameTable;
use js_heap_memory::slots::argument;
use js_heap_memory::world::World;
use js_heap_operators::results::not_safe;
use std::alloc::Global;

/// `indexOf` (ECMA-262, 22.1.3.9)
fn occurrence_of<W: World>(
    alloc: Global,
    world: &mut W,
    names: &NameTable,
    a: Addr,
    of: Value,
) -> Result<Value, ActionEnd>
    ensures { Gives (occurrence_of (W.world names.now world.old) (units_at (W.world names.now world.old) a) of) (W.world names.now world.old) result (W.world names.now world.new) }
{
    match of {
        Value::Text(b) => {
            let text = units_at(world, names, a);
            let index = first_occurrence(text, units_at(world, names, b));
            Ok(Value::Number(index))
        }
        _ => Err(wrong_type(alloc, world, names)),
    }
}

/// `slice` (22.1.3.21)
#[tactic(auto, using(crate::proofs::CallLemmas::slice_rules))]
fn string_slice<W: World>(
    alloc: Global,
    world: &mut W,
    names: &NameTable,
    a: Addr,
    arguments: &[Value],
) -> Result<Value, ActionEnd>
    ensures { Gives (text_or_wrong (slice_places (units_at (W.world names.now world.old) a) arguments.now)) (W.world names.now world.old) result (W.world names.now world.new) }
{
    let units = units_at(world, names, a);
    let Some((from, to)) = slice_places(units.len(), arguments) else {
        return Err(wrong_type(alloc, world, names));
    };
    let part = Units::from_slice(alloc, items_between(units, from, to))?;
    make_text(world, names, part)
}

/// A unit as a number; where there is none, the RangeError of a result that isn't a safe integer.
fn unit_or_fail<W: World>(
    alloc: Global,
    world: &mut W,
    names: &NameTable,
    unit: Option<u16>,
) -> Result<Value, ActionEnd>
    ensures { Gives (unit_or_fail unit) (W.world names.now world.old) result (W.world names.now world.new) }
{
    match unit {
        Some(unit) => Ok(Value::Number(i64::from(unit))),
        None => {
            let error = not_safe(alloc)?;
            with_result(alloc, world, names, error)
        }
    }
}

/// `charCodeAt` (22.1.3.3)
fn unit_at<W: World>(
    alloc: Global,
    world: &mut W,
    names: &NameTable,
    a: Addr,
    index: Value,
) -> Result<Value, ActionEnd>
    ensures { Gives (unit_at (units_at (W.world names.now world.old) a) index) (W.world names.now world.old) result (W.world names.now world.new) }
{
    match index {
        Value::Number(i) => {
            let unit = unit_of(units_at(world, names, a), i);
            unit_or_fail(alloc, world, names, unit)
        }
        _ => Err(wrong_type(alloc, world, names)),
    }
}

/// A method of a string: `this` of another kind is a wrong argument.
pub fn on_string<W: World>(
    alloc: Global,
    world: &mut W,
    names: &NameTable,
    f: BuiltIn,
    receiver: Value,
    arguments: &[Value],
) -> Result<Value, ActionEnd>
    ensures { Gives (on_string (W.world names.now world.old) f receiver arguments.now) (W.world names.now world.old) result (W.world names.now world.new) }
{
    let Value::Text(a) = receiver else {
        return Err(wrong_type(alloc, world, names));
    };
    match f {
        BuiltIn::StringIndexOf => { occurrence_of(alloc, world, names, a, argument(arguments, 0)) }
        BuiltIn::StringSlice => string_slice(alloc, world, names, a, arguments),
        BuiltIn::StringCharCodeAt => unit_at(alloc, world, names, a, argument(arguments, 0)),
        _ => Err(wrong_type(alloc, world, names)),
    }
}
