//! The cells that each program begins with.

ghost use Rattle.std.specs.Prelude.{◌≡◌, ◌<◌, ◌∷◌, [], List, ℕ, Some, IfOk, OnOk, take, drop, length, slice_get};
ghost use Rattle.js_heap.specs.declared.value.Addr.TheVariants.{Base as base};
ghost use Rattle.js_heap.specs.declared.value.Value.TheVariants.{Object as object};
ghost use Rattle.js_heap.specs.declared.built_in.BuiltIn.TheVariants.{MakeError as make_error};
ghost use Rattle.js_heap.specs.BuiltIns.{global_of, built_in_function, built_in_cells, literal_cells};
ghost use Rattle.js_heap_memory.specs.Names.{name_of, GoesOn};
ghost use Rattle.js_heap_memory.specs.Start.{holder, IsCell, IsCellOf, GainsNames, GainsCells};

use crate::heap::push_cell;
use crate::names::{NameId, NameTable};
use crate::properties::PropertyMap;
use crate::stored::{FunctionCell, FunctionName, Slot, Slots, Stored};
use cdp_text::units::{Units, ascii};
use js_heap::built_in::{BuiltIn, Code, ErrorClass};
use js_heap::cell::{Property, ScopeKind};
use js_heap::value::{Addr, Value};
use std::alloc::{AllocError, Global};

// The names of the global scope, and those of the built-in functions that aren't among them.
const BUILT_IN_NAMES: [&[u8]; 18] = [
    b"undefined",
    b"console",
    b"readline",
    b"Error",
    b"TypeError",
    b"RangeError",
    b"ReferenceError",
    b"Object",
    b"Array",
    b"String",
    b"log",
    b"keys",
    b"isArray",
    b"push",
    b"pop",
    b"indexOf",
    b"join",
    b"slice",
];

/// Adds a name in ASCII to a table.
fn add_name(alloc: Global, names: &mut NameTable, text: &[u8]) -> Result<(), AllocError>
    ensures { GoesOn names.old names.new }
{
    let units = ascii(alloc, text)?;
    names.add(units.as_slice())?;
    Ok(())
}

/// Adds names in ASCII to a table, in order.
fn add_names(alloc: Global, names: &mut NameTable, texts: &[&[u8]]) -> Result<(), AllocError>
    ensures { GoesOn names.old names.new }
{
    for i in 0..texts.len() {
        add_name(alloc, names, texts[i])?;
    }
    Ok(())
}

/// Adds the names of the built-in cells to a table.
pub fn add_built_in_names(alloc: Global, names: &mut NameTable) -> Result<(), AllocError>
    ensures { GoesOn names.old names.new }
{
    add_names(alloc, names, &BUILT_IN_NAMES)?;
    add_name(alloc, names, b"charCodeAt")
}

/// The number of a name in ASCII. No memory holds the number of a name that the table hasn't.
fn known(alloc: Global, names: &NameTable, text: &[u8]) -> Result<NameId, AllocError>
    ensures text { IfOk result (λ name. name_of names.now name.number ≡ text.now) }
    ensures known { IfOk result (λ name. name.number < length names.now) }
{
    let units = ascii(alloc, text)?;
    match names.find(units.as_slice()) {
        Some(name) => Ok(name),
        None => Err(AllocError),
    }
}

/// Adds a name of the global scope, which is constant.
fn add_global(
    alloc: Global,
    names: &NameTable,
    slots: &mut Slots,
    name: &[u8],
    value: Value,
) -> Result<(), AllocError>
    ensures { OnOk result (GainsNames names.now slots.old slots.new (global_of name.now value ∷ [])) }
{
    let name = known(alloc, names, name)?;
    slots.push(Slot {
        name,
        constant: true,
        value: Some(value),
    })?;
    Ok(())
}

/// The object at a place.
fn object(place: u32) -> Value
    ensures { result ≡ object (base place) }
{
    Value::Object(Addr::Base(place))
}

/// The global scope.
fn global_scope(alloc: Global, names: &NameTable) -> Result<Stored, AllocError>
    ensures { IfOk result (λ cell. (d : _) → slice_get built_in_cells 0 ≡ Some d → IsCellOf names.now cell d) }
{
    let mut slots = Slots::from_vec(Vec::new(alloc));
    add_global(alloc, names, &mut slots, b"undefined", Value::Undefined)?;
    add_global(alloc, names, &mut slots, b"console", object(4))?;
    add_global(alloc, names, &mut slots, b"readline", object(8))?;
    add_global(alloc, names, &mut slots, b"Error", object(9))?;
    add_global(alloc, names, &mut slots, b"TypeError", object(10))?;
    add_global(alloc, names, &mut slots, b"RangeError", object(11))?;
    add_global(alloc, names, &mut slots, b"ReferenceError", object(12))?;
    add_global(alloc, names, &mut slots, b"Object", object(5))?;
    add_global(alloc, names, &mut slots, b"Array", object(6))?;
    add_global(alloc, names, &mut slots, b"String", object(15))?;
    Ok(Stored::Scope {
        kind: ScopeKind::Global,
        name: FunctionName::Empty,
        outer: None,
        slots,
    })
}

/// The scope of the scripts, before their names are added.
fn script_scope(alloc: Global) -> Stored
    ensures { (d : _) → slice_get built_in_cells 1 ≡ Some d → IsCell result d }
{
    Stored::Scope {
        kind: ScopeKind::Script,
        name: FunctionName::Empty,
        outer: Some(Addr::Base(0)),
        slots: Slots::from_vec(Vec::new(alloc)),
    }
}

/// The message of the error of a heap that is full.
fn full_message(alloc: Global) -> Result<Stored, AllocError>
    ensures { IfOk result (λ cell. (d : _) → slice_get built_in_cells 2 ≡ Some d → IsCell cell d) }
{
    let units = ascii(alloc, b"Program heap is full")?;
    Ok(Stored::Text { units })
}

/// One property alone.
fn one_property(alloc: Global, property: Property) -> Result<PropertyMap, AllocError>
    ensures { IfOk result (λ map. map ≡ property ∷ []) }
{
    let mut properties = PropertyMap::new(alloc);
    properties.add(property)?;
    Ok(properties)
}

/// The error of a heap that is full.
fn full_error(alloc: Global) -> Result<Stored, AllocError>
    ensures { IfOk result (λ cell. (d : _) → slice_get built_in_cells 3 ≡ Some d → IsCell cell d) }
{
    let message = Property {
        key: ascii(alloc, b"message")?,
        value: Value::Text(Addr::Base(2)),
        writable: true,
        enumerable: false,
        configurable: true,
    };
    Ok(Stored::Error {
        class: ErrorClass::RangeError,
        properties: one_property(alloc, message)?,
    })
}

/// An object with a function as its only property.
fn holder(alloc: Global, enumerable: bool, key: &[u8], a: Addr) -> Result<Stored, AllocError>
    ensures { IfOk result (λ cell. IsCell cell (holder enumerable key.now a)) }
{
    let property = Property {
        key: ascii(alloc, key)?,
        value: Value::Object(a),
        writable: true,
        enumerable,
        configurable: true,
    };
    Ok(Stored::Object {
        properties: one_property(alloc, property)?,
    })
}

/// The cell of a built-in function.
fn built_in(
    alloc: Global,
    names: &NameTable,
    f: BuiltIn,
    name: &[u8],
    length: u32,
) -> Result<Stored, AllocError>
    ensures { IfOk result (λ cell. IsCellOf names.now cell (built_in_function f name.now length)) }
{
    let function = FunctionCell {
        code: Code::BuiltIn(f),
        name: FunctionName::Known(known(alloc, names, name)?),
        length,
        scope: None,
        this: Value::Undefined,
    };
    Ok(Stored::Function(Box::new(alloc, function)?))
}

/// Adds the cell of a built-in function.
fn add(
    alloc: Global,
    names: &NameTable,
    cells: &mut Vec<Stored>,
    f: BuiltIn,
    name: &[u8],
    length: u32,
) -> Result<(), AllocError>
    ensures { OnOk result (GainsCells names.now cells.old.items cells.new.items (built_in_function f name.now length ∷ [])) }
{
    let cell = built_in(alloc, names, f, name, length)?;
    push_cell(cells, cell)?;
    Ok(())
}

/// `console.log` and `readline`.
fn add_console(alloc: Global, names: &NameTable, cells: &mut Vec<Stored>) -> Result<(), AllocError>
    ensures { OnOk result (GainsCells names.now cells.old.items cells.new.items (take 2 (drop 7 built_in_cells))) }
{
    add(alloc, names, cells, BuiltIn::ConsoleLog, b"log", 0)?;
    add(alloc, names, cells, BuiltIn::ReadLine, b"readline", 0)?;
    Ok(())
}

/// Adds the cell of a constructor of errors.
fn add_class(
    alloc: Global,
    names: &NameTable,
    cells: &mut Vec<Stored>,
    class: ErrorClass,
    name: &[u8],
) -> Result<(), AllocError>
    ensures { OnOk result (GainsCells names.now cells.old.items cells.new.items (built_in_function (make_error class) name.now 1 ∷ [])) }
{
    add(alloc, names, cells, BuiltIn::MakeError(class), name, 1)
}

/// The constructors of errors.
fn add_errors(alloc: Global, names: &NameTable, cells: &mut Vec<Stored>) -> Result<(), AllocError>
    ensures { OnOk result (GainsCells names.now cells.old.items cells.new.items (take 4 (drop 9 built_in_cells))) }
{
    add_class(alloc, names, cells, ErrorClass::Error, b"Error")?;
    add_class(alloc, names, cells, ErrorClass::TypeError, b"TypeError")?;
    add_class(alloc, names, cells, ErrorClass::RangeError, b"RangeError")?;
    let class = ErrorClass::ReferenceError;
    add_class(alloc, names, cells, class, b"ReferenceError")?;
    Ok(())
}

/// The functions on objects and arrays.
fn add_methods(alloc: Global, names: &NameTable, cells: &mut Vec<Stored>) -> Result<(), AllocError>
    ensures { OnOk result (GainsCells names.now cells.old.items cells.new.items (take 6 (drop 13 built_in_cells))) }
{
    add(alloc, names, cells, BuiltIn::ObjectKeys, b"keys", 1)?;
    add(alloc, names, cells, BuiltIn::ArrayIsArray, b"isArray", 1)?;
    add(alloc, names, cells, BuiltIn::MakeString, b"String", 1)?;
    add(alloc, names, cells, BuiltIn::ArrayPush, b"push", 1)?;
    add(alloc, names, cells, BuiltIn::ArrayPop, b"pop", 0)?;
    add(alloc, names, cells, BuiltIn::ArrayIndexOf, b"indexOf", 1)?;
    Ok(())
}

/// The other functions, on arrays and strings.
fn add_others(alloc: Global, names: &NameTable, cells: &mut Vec<Stored>) -> Result<(), AllocError>
    ensures { OnOk result (GainsCells names.now cells.old.items cells.new.items (drop 19 built_in_cells)) }
{
    add(alloc, names, cells, BuiltIn::ArrayJoin, b"join", 1)?;
    add(alloc, names, cells, BuiltIn::ArraySlice, b"slice", 2)?;
    add(alloc, names, cells, BuiltIn::StringIndexOf, b"indexOf", 1)?;
    add(alloc, names, cells, BuiltIn::StringSlice, b"slice", 2)?;
    add(
        alloc,
        names,
        cells,
        BuiltIn::StringCharCodeAt,
        b"charCodeAt",
        1,
    )?;
    Ok(())
}

/// Adds the scopes, and the error of a heap that is full.
fn add_scopes(alloc: Global, names: &NameTable, cells: &mut Vec<Stored>) -> Result<(), AllocError>
    ensures { OnOk result (GainsCells names.now cells.old.items cells.new.items (take 4 built_in_cells)) }
{
    let global = global_scope(alloc, names)?;
    push_cell(cells, global)?;
    push_cell(cells, script_scope(alloc))?;
    let message = full_message(alloc)?;
    push_cell(cells, message)?;
    let error = full_error(alloc)?;
    push_cell(cells, error)?;
    Ok(())
}

/// Adds an object with a function as its only property.
fn add_holder(
    alloc: Global,
    cells: &mut Vec<Stored>,
    enumerable: bool,
    key: &[u8],
    a: Addr,
) -> Result<(), AllocError>
    ensures { OnOk result ((names : List (List ℕ)) → GainsCells names cells.old.items cells.new.items (holder enumerable key.now a ∷ [])) }
{
    let cell = holder(alloc, enumerable, key, a)?;
    push_cell(cells, cell)?;
    Ok(())
}

/// Adds the objects that hold functions.
fn add_holders(alloc: Global, cells: &mut Vec<Stored>) -> Result<(), AllocError>
    ensures { OnOk result ((names : List (List ℕ)) → GainsCells names cells.old.items cells.new.items (take 3 (drop 4 built_in_cells))) }
{
    add_holder(alloc, cells, true, b"log", Addr::Base(7))?;
    add_holder(alloc, cells, false, b"keys", Addr::Base(13))?;
    add_holder(alloc, cells, false, b"isArray", Addr::Base(14))?;
    Ok(())
}

/// Adds the built-in cells.
pub(crate) fn add_built_ins(
    alloc: Global,
    names: &NameTable,
    cells: &mut Vec<Stored>,
) -> Result<(), AllocError>
    ensures { OnOk result (GainsCells names.now cells.old.items cells.new.items built_in_cells) }
{
    add_scopes(alloc, names, cells)?;
    add_holders(alloc, cells)?;
    add_console(alloc, names, cells)?;
    add_errors(alloc, names, cells)?;
    add_methods(alloc, names, cells)?;
    add_others(alloc, names, cells)?;
    Ok(())
}

/// Adds the cell of a string literal.
fn add_literal(alloc: Global, cells: &mut Vec<Stored>, units: &[u16]) -> Result<(), AllocError>
    ensures { OnOk result ((names : List (List ℕ)) → GainsCells names cells.old.items cells.new.items (literal_cells (units.now ∷ []))) }
{
    let units = Units::from_slice(alloc, units)?;
    push_cell(cells, Stored::Text { units })?;
    Ok(())
}

/// Adds the cells of string literals.
pub fn add_literals(
    alloc: Global,
    cells: &mut Vec<Stored>,
    literals: &[Units],
) -> Result<(), AllocError>
    ensures { OnOk result ((names : List (List ℕ)) → GainsCells names cells.old.items cells.new.items (literal_cells literals.now)) }
{
    for i in 0..literals.len() {
        add_literal(alloc, cells, literals[i].as_slice())?;
    }
    Ok(())
}
