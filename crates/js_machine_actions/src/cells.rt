//! New cells and changes of cells.

ghost use Rattle.std.specs.Prelude.{◌≡◌, List, ℕ};
ghost use Rattle.js_heap.specs.World.{is_evaluation, read_cell};
ghost use Rattle.js_heap.specs.declared.change.Change.TheVariants as changes;
ghost use Rattle.js_semantics.specs.State.{make, write, make_text};
ghost use Rattle.js_heap_memory.specs.Calls.{HasPlace};
ghost use Rattle.js_heap_memory.specs.Cells.{cell_of};
ghost use Rattle.js_heap_memory.specs.Names.{name_of};
ghost use Rattle.js_machine_actions.specs.Flow.{Yields, Passes, answered};

use crate::action_end::ActionEnd;
use cdp_text::units::Units;
use js_heap::value::{Addr, Value};
use js_heap_memory::names::{NameId, NameTable};
use js_heap_memory::stored::Stored;
use js_heap_memory::world::{Refused, World};

/// What a refusal comes to: a full world ends an evaluation, and in a run raises the error made before the first step.
fn answered<W: World, A>(world: &W, answer: Result<A, Refused>) -> Result<A, ActionEnd>
    ensures { (names : List (List ℕ)) → result ≡ answered (is_evaluation (W.world names world.now)) answer }
{
    match answer {
        Ok(a) => Ok(a),
        Err(Refused::Effect) => Err(ActionEnd::Effect),
        Err(Refused::Full(what)) => {
            if world.is_evaluation() {
                Err(ActionEnd::Full(what))
            } else {
                Err(ActionEnd::Raised(Value::Object(Addr::Base(3))))
            }
        }
        Err(Refused::Memory) => Err(ActionEnd::Memory),
    }
}

/// Makes a cell.
pub fn make<W: World>(world: &mut W, names: &NameTable, cell: Stored) -> Result<Addr, ActionEnd>
    ensures { Yields (make (cell_of names.now cell)) (W.world names.now world.old) result (W.world names.now world.new) }
{
    let made = world.make(cell);
    answered(world, made)
}

/// Makes the cell of a text.
pub fn make_text<W: World>(
    world: &mut W,
    names: &NameTable,
    units: Units,
) -> Result<Value, ActionEnd>
    ensures { Yields (make_text units) (W.world names.now world.old) result (W.world names.now world.new) }
{
    let a = make(world, names, Stored::Text { units })?;
    Ok(Value::Text(a))
}

/// Gives the property of a key of an object a value.
pub fn put<W: World>(
    world: &mut W,
    names: &NameTable,
    a: Addr,
    key: &[u16],
    value: Value,
) -> Result<(), ActionEnd>
    ensures { Passes (write a (changes.Put key.now value)) (W.world names.now world.old) result (W.world names.now world.new) }
{
    let written = world.put(a, key, value);
    answered(world, written)
}

/// Removes the property of a key of an object.
pub fn remove<W: World>(
    world: &mut W,
    names: &NameTable,
    a: Addr,
    key: &[u16],
) -> Result<(), ActionEnd>
    ensures { Passes (write a (changes.Remove key.now)) (W.world names.now world.old) result (W.world names.now world.new) }
{
    let written = world.remove(a, key);
    answered(world, written)
}

/// Gives the element of an array at an index up to the length a value.
pub fn put_element<W: World>(
    world: &mut W,
    names: &NameTable,
    a: Addr,
    index: u32,
    value: Value,
) -> Result<(), ActionEnd>
    ensures { Passes (write a (changes.Element index value)) (W.world names.now world.old) result (W.world names.now world.new) }
{
    let written = world.put_element(a, index, value);
    answered(world, written)
}

/// Gives an array a length up to the present one.
pub fn cut<W: World>(
    world: &mut W,
    names: &NameTable,
    a: Addr,
    length: u32,
) -> Result<(), ActionEnd>
    ensures { Passes (write a (changes.Length length)) (W.world names.now world.old) result (W.world names.now world.new) }
{
    let written = world.cut(a, length);
    answered(world, written)
}

/// Adds a name without a value to a scope.
pub fn declare<W: World>(
    world: &mut W,
    names: &NameTable,
    scope: Addr,
    name: NameId,
    constant: bool,
) -> Result<(), ActionEnd>
    ensures { Passes (write scope (changes.Declare (name_of names.now name.number) constant)) (W.world names.now world.old) result (W.world names.now world.new) }
{
    let written = world.declare(scope, name, constant);
    answered(world, written)
}

/// Gives a name of a scope a value.
pub fn bind<W: World>(
    world: &mut W,
    names: &NameTable,
    scope: Addr,
    name: NameId,
    value: Value,
) -> Result<(), ActionEnd>
    ensures { Passes (write scope (changes.Bind (name_of names.now name.number) value)) (W.world names.now world.old) result (W.world names.now world.new) }
{
    let written = world.bind(names, scope, name, value);
    answered(world, written)
}

/// Gives a name that was found at its place a value.
pub fn bind_at<W: World>(
    world: &mut W,
    names: &NameTable,
    scope: Addr,
    place: usize,
    name: NameId,
    value: Value,
) -> Result<(), ActionEnd>
    requires { HasPlace (read_cell (W.world names.now world.old) scope) place (name_of names.now name.number) }
    ensures { Passes (write scope (changes.Bind (name_of names.now name.number) value)) (W.world names.now world.old) result (W.world names.now world.new) }
{
    let written = world.bind_at(names, scope, place, name, value);
    answered(world, written)
}
