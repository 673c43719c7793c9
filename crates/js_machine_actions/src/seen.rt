//! A world with its table of names, for operations that only read.

ghost use Rattle.std.specs.Prelude.{◌≡◌, IfOk, List, ℕ, option_copied};
ghost use Rattle.js_heap.specs.Values.{units_at, units_of_cell, object_type};
ghost use Rattle.js_heap.specs.Properties.{cell_property, cell_change, cell_removal, function_property};
ghost use Rattle.js_heap_memory.specs.Cells.{cell_at, name_text};

use cdp_text::units::Units;
use js_heap::change::Change;
use js_heap::computed::{Computed, Written};
use js_heap::reading::Cells;
use js_heap::value::{Addr, Value};
use js_heap_memory::names::NameTable;
use js_heap_memory::stored::{FunctionCell, FunctionName, Stored};
use js_heap_memory::world::World;
use js_heap_operators::properties::{
    array_change, element_or_method, error_property, function_property, not_changeable,
};
use std::alloc::{AllocError, Global};

/// A world with its table. Contracts see the world that they are.
#[derive(Clone, Copy)]
pub struct NamedWorld<'a, W: World> {
    pub names: &'a NameTable,
    pub world: &'a W,
}

impl<'a, W: World> Cells for NamedWorld<'a, W> {
    ghost world = { λ s. W.world s.names.now s.world.now };

    fn units_at(&self, a: Addr) -> &[u16] {
        units_of(self.world.find(a))
    }

    fn object_type(&self, a: Addr) -> &'static [u8] {
        object_type(self.world.find(a))
    }

    fn property(&self, alloc: Global, a: Addr, key: &[u16]) -> Result<Computed, AllocError> {
        stored_property(alloc, self.names, self.world.find(a), key)
    }

    fn change(
        &self,
        alloc: Global,
        a: Addr,
        key: &[u16],
        value: Value,
    ) -> Result<Written, AllocError> {
        stored_change(alloc, a, self.world.find(a), key, value)
    }

    fn removal(&self, alloc: Global, a: Addr, key: &[u16]) -> Result<Written, AllocError> {
        stored_removal(alloc, a, self.world.find(a), key)
    }
}

/// The units of a text; of another cell none.
fn units_of(cell: Option<&Stored>) -> &[u16]
    ensures { (names : List (List ℕ)) → result.now ≡ units_of_cell (cell_at names (option_copied cell.entry)) }
{
    match cell {
        Some(Stored::Text { units }) => units.as_slice(),
        _ => &[],
    }
}

/// The units of the text at an address; of another cell none.
pub fn units_at<'a, W: World>(world: &'a W, names: &NameTable, a: Addr) -> &'a [u16]
    ensures { result.now ≡ units_at (W.world names.now world.now) a }
{
    units_of(world.find(a))
}

/// What `typeof` says of an object with this cell (ECMA-262, 13.5.3).
fn object_type(cell: Option<&Stored>) -> &'static [u8]
    ensures { (names : List (List ℕ)) → result.now ≡ object_type (cell_at names (option_copied cell.entry)) }
{
    match cell {
        Some(Stored::Function(_)) => b"function",
        _ => b"object",
    }
}

/// The text of a function's name.
pub fn name_text<'a>(names: &'a NameTable, name: &'a FunctionName) -> Result<&'a [u16], AllocError>
    ensures { IfOk result (λ text. text.now ≡ name_text names.now name.now) }
{
    match name {
        FunctionName::Empty => Ok(&[]),
        FunctionName::Known(name) => names.text(*name),
        FunctionName::Made(text) => Ok(text.as_slice()),
    }
}

/// A property of a function (20.2.4).
fn property_of_function(
    alloc: Global,
    names: &NameTable,
    function: &FunctionCell,
    key: &[u16],
) -> Result<Computed, AllocError>
    ensures { IfOk result (λ r. r ≡ function_property (name_text names.now function.now.name) function.now.length key.now) }
{
    let name = name_text(names, &function.name)?;
    function_property(alloc, name, function.length, key)
}

/// What reading a property of an object with this cell gives (10.1.8).
fn stored_property(
    alloc: Global,
    names: &NameTable,
    cell: Option<&Stored>,
    key: &[u16],
) -> Result<Computed, AllocError>
    ensures { IfOk result (λ r. r ≡ cell_property (cell_at names.now (option_copied cell.entry)) key.now) }
{
    match cell {
        Some(Stored::Object { properties }) => match properties.find(key) {
            Some(property) => Ok(Computed::Value(property.value)),
            None => Ok(Computed::Value(Value::Undefined)),
        },
        Some(Stored::Error { class, properties }) => match properties.find(key) {
            Some(property) => Ok(Computed::Value(property.value)),
            None => error_property(alloc, *class, key),
        },
        Some(Stored::Array { elements }) => element_or_method(elements.slice(), key),
        Some(Stored::Function(function)) => property_of_function(alloc, names, function, key),
        _ => Ok(Computed::Value(Value::Undefined)),
    }
}

/// What writing a property of an object with this cell changes (10.1.9).
fn stored_change(
    alloc: Global,
    a: Addr,
    cell: Option<&Stored>,
    key: &[u16],
    value: Value,
) -> Result<Written, AllocError>
    ensures { IfOk result (λ r. (names : List (List ℕ)) → r ≡ cell_change a (cell_at names (option_copied cell.entry)) key.now value) }
{
    match cell {
        Some(Stored::Object { .. } | Stored::Error { .. }) => {
            let key = Units::from_slice(alloc, key)?;
            Ok(Written::Change(a, Change::Put { key, value }))
        }
        Some(Stored::Array { elements }) => array_change(alloc, a, elements.slice(), key, value),
        _ => not_changeable(alloc, key),
    }
}

/// What deleting a property of an object with this cell changes (10.1.10).
fn stored_removal(
    alloc: Global,
    a: Addr,
    cell: Option<&Stored>,
    key: &[u16],
) -> Result<Written, AllocError>
    ensures { IfOk result (λ r. (names : List (List ℕ)) → r ≡ cell_removal a (cell_at names (option_copied cell.entry)) key.now) }
{
    match cell {
        Some(Stored::Object { .. } | Stored::Error { .. }) => {
            let key = Units::from_slice(alloc, key)?;
            Ok(Written::Change(a, Change::Remove { key }))
        }
        _ => not_changeable(alloc, key),
    }
}
