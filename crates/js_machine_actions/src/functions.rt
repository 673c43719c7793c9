//! Functions and scopes.

ghost use Rattle.std.specs.Prelude.{◌≡◌, ◌∷◌, [], true, IfOk, List, ℕ, option_copied};
ghost use Rattle.js_heap.specs.Cells.{declared};
ghost use Rattle.js_semantics.specs.Functions.{new_scope, with_names};
ghost use Rattle.js_semantics.specs.Rows.{copied, copy_of};
ghost use Rattle.js_semantics.specs.State.{make};
ghost use Rattle.js_heap_memory.specs.Cells.{cell_of, cell_at, name_text, bindings};
ghost use Rattle.js_heap_memory.specs.Names.{name_of};
ghost use Rattle.js_machine_actions.specs.Functions.{function_of, named_of, declared_function};
ghost use Rattle.js_machine_actions.specs.Flow.{Yields, Passes, Gives};

use crate::action_end::ActionEnd;
use crate::cells::{bind, declare, make};
use cdp_text::units::Units;
use js_heap::built_in::Code;
use js_heap::cell::ScopeKind;
use js_heap::value::{Addr, Value};
use js_heap_memory::names::{NameId, NameTable};
use js_heap_memory::stored::{FunctionCell, FunctionName, Slot, Slots, Stored};
use js_heap_memory::world::World;
use std::alloc::{AllocError, Global};

// ---- functions

/// The cell of a function with so many parameters.
fn function_cell(
    alloc: Global,
    code: Code,
    length: u32,
    name: FunctionName,
    scope: Addr,
    this: Value,
) -> Result<Stored, AllocError>
    ensures { IfOk result (λ cell. (names : List (List ℕ)) → cell_of names cell ≡ function_of code length (name_text names name) scope this) }
{
    let function = FunctionCell {
        code,
        name,
        length,
        scope: Some(scope),
        this,
    };
    Ok(Stored::Function(Box::new(alloc, function)?))
}

/// Makes a function with so many parameters (ECMA-262, 15.2.5, 15.3.4, 15.4.4).
pub fn make_function<W: World>(
    alloc: Global,
    world: &mut W,
    names: &NameTable,
    code: Code,
    length: u32,
    name: FunctionName,
    scope: Addr,
    this: Value,
) -> Result<Addr, ActionEnd>
    ensures { Yields (make (function_of code length (name_text names.now name) scope this)) (W.world names.now world.old) result (W.world names.now world.new) }
{
    let cell = function_cell(alloc, code, length, name, scope, this)?;
    make(world, names, cell)
}

/// The constant name of a function expression, without a value.
fn own_name(alloc: Global, name: NameId) -> Result<Slots, AllocError>
    ensures { IfOk result (λ slots. (names : List (List ℕ)) → bindings names slots ≡ declared (name_of names name.number) true ∷ []) }
{
    let mut items = Vec::new(alloc);
    items.push(Slot {
        name,
        constant: true,
        value: None,
    })?;
    Ok(Slots::from_vec(items))
}

/// A named function expression has a scope with its own name, which is constant (15.2.5).
pub fn named_function<W: World>(
    alloc: Global,
    world: &mut W,
    names: &NameTable,
    code: Code,
    length: u32,
    name: NameId,
    scope: Addr,
) -> Result<Value, ActionEnd>
    ensures { Gives (named_of code length (name_of names.now name.number) scope) (W.world names.now world.old) result (W.world names.now world.new) }
{
    let slots = own_name(alloc, name)?;
    let s = new_scope(
        world,
        names,
        ScopeKind::Named,
        FunctionName::Known(name),
        scope,
        slots,
    )?;
    let a = make_function(
        alloc,
        world,
        names,
        code,
        length,
        FunctionName::Known(name),
        s,
        Value::Undefined,
    )?;
    bind(world, names, s, name, Value::Object(a))?;
    Ok(Value::Object(a))
}

/// A declared function is made, the value of its name (14.2.3, 10.2.11).
pub fn declared_function<W: World>(
    alloc: Global,
    world: &mut W,
    names: &NameTable,
    scope: Addr,
    code: Code,
    length: u32,
    name: NameId,
) -> Result<(), ActionEnd>
    ensures { Passes (declared_function scope code length (name_of names.now name.number)) (W.world names.now world.old) result (W.world names.now world.new) }
{
    let a = make_function(
        alloc,
        world,
        names,
        code,
        length,
        FunctionName::Known(name),
        scope,
        Value::Undefined,
    )?;
    bind(world, names, scope, name, Value::Object(a))
}

// ---- scopes

/// Makes a scope.
pub fn new_scope<W: World>(
    world: &mut W,
    names: &NameTable,
    kind: ScopeKind,
    name: FunctionName,
    outer: Addr,
    slots: Slots,
) -> Result<Addr, ActionEnd>
    ensures { Yields (new_scope kind (name_text names.now name) outer (bindings names.now slots)) (W.world names.now world.old) result (W.world names.now world.new) }
{
    make(
        world,
        names,
        Stored::Scope {
            kind,
            name,
            outer: Some(outer),
            slots,
        },
    )
}

/// A copy of a function's name.
pub fn copy_of_name(alloc: Global, name: &FunctionName) -> Result<FunctionName, AllocError>
    ensures { IfOk result (λ copy. (names : List (List ℕ)) → name_text names copy ≡ name_text names name.now) }
{
    match name {
        FunctionName::Empty => Ok(FunctionName::Empty),
        FunctionName::Known(name) => Ok(FunctionName::Known(*name)),
        FunctionName::Made(text) => {
            let units = Units::from_slice(alloc, text.as_slice())?;
            Ok(FunctionName::Made(Box::new(alloc, units)?))
        }
    }
}

/// A copy of a scope's cell; of another cell an empty scope.
fn copy_of(alloc: Global, cell: Option<&Stored>) -> Result<Stored, AllocError>
    ensures { IfOk result (λ copy. (names : List (List ℕ)) → cell_of names copy ≡ copy_of (cell_at names (option_copied cell.entry))) }
{
    match cell {
        Some(
            Stored::Scope {
                kind,
                name,
                outer,
                slots,
            },
        ) => Ok(Stored::Scope {
            kind: *kind,
            name: copy_of_name(alloc, name)?,
            outer: *outer,
            slots: Slots::from_vec(Vec::from_slice(alloc, slots.slice())?),
        }),
        _ => Ok(Stored::Scope {
            kind: ScopeKind::Block,
            name: FunctionName::Empty,
            outer: None,
            slots: Slots::from_vec(Vec::new(alloc)),
        }),
    }
}

/// Makes a scope with the present values of another (14.7.4.4).
pub fn copied<W: World>(
    alloc: Global,
    world: &mut W,
    names: &NameTable,
    a: Addr,
) -> Result<Addr, ActionEnd>
    ensures { Yields (copied (W.world names.now world.old) a) (W.world names.now world.old) result (W.world names.now world.new) }
{
    let copy = copy_of(alloc, world.find(a))?;
    make(world, names, copy)
}

/// Adds names to a scope.
pub fn with_names<W: World>(
    world: &mut W,
    names: &NameTable,
    scope: Addr,
    slots: &[Slot],
) -> Result<(), ActionEnd>
    ensures { Passes (with_names scope (bindings names.now slots.now)) (W.world names.now world.old) result (W.world names.now world.new) }
{
    for slot in slots {
        declare(world, names, scope, slot.name, slot.constant)?;
    }
    Ok(())
}
