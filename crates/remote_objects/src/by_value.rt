//! Values by value (Chrome DevTools Protocol 1.3, `returnByValue`): as JSON in place of a handle.

ghost use Rattle.std.specs.Prelude.{◌≡◌, ◌∷◌, [], List, ℕ, map, option_copied, IfOk};
ghost use Rattle.js_heap_memory.specs.Cells.{cell_at};
ghost use Rattle.cdp_json.specs.Parts.{list_of, object_of};
ghost use Rattle.cdp_json.specs.Views.{json_view, member_view};
ghost use Rattle.remote_objects.specs.ByValue as given;
ghost use Rattle.remote_objects.specs.Views.{sight_of};
ghost use Rattle.remote_objects.specs.declared.by_value.ByValueFault.TheVariants.{Memory};

use crate::describer::Describer;
use crate::function_sources::FunctionSources;
use cdp_json::parts::{copied_text, nothing, put_value};
use cdp_json::value::{Json, Member, boolean, list, null, number, object};
use cdp_text::units::Units;
use js_heap::cell::Property;
use js_heap::value::{Addr, Value};
use js_heap_memory::properties::PropertyMap;
use js_heap_memory::stored::Stored;
use js_heap_memory::world::World;
use js_machine_actions::seen::units_at;
use std::alloc::{AllocError, AllocFailed};

/// How deep a value may be: a primitive value has the depth 0, an object is one deeper than its deepest part, and has the
/// depth 1 where it has no part.
pub const MOST_DEEP: u32 = 100;

/// How many values may be met, the value itself among them. One that is met again counts again.
pub const MOST_MET: u32 = 100_000;

/// Why a value isn't given by value.
#[derive(Clone, Copy)]
pub enum ByValueFault {
    /// It is too deep, or too many values are met.
    TooLong,
    /// There is no memory for it.
    Memory,
}

impl From<AllocError> for ByValueFault {
    ghost from_gives = { λ _ e. e ≡ Memory };

    fn from(_error: AllocError) -> ByValueFault {
        ByValueFault::Memory
    }
}

impl<T: Drop> From<AllocFailed<T>> for ByValueFault {
    ghost from_gives = { λ _ e. e ≡ Memory };

    fn from(_error: AllocFailed<T>) -> ByValueFault {
        ByValueFault::Memory
    }
}

/// One value is met, if one more may be.
fn meet(left: &mut u32) -> Result<(), ByValueFault>
    ensures { given.Meets result left.old left.new }
{
    if *left == 0 {
        return Err(ByValueFault::TooLong);
    }
    *left -= 1;
    Ok(())
}

/// Whether a cell is a function.
fn is_function_cell(cell: Option<&Stored>) -> bool
    ensures { (names : List (List ℕ)) → result ≡ given.is_function_cell (cell_at names (option_copied cell.entry)) }
{
    match cell {
        Some(Stored::Function(_)) => true,
        _ => false,
    }
}

impl<'w, W: World, S: FunctionSources> Describer<'w, W, S> {
    // ---- parts

    /// Whether a value can be called, which functions can.
    fn is_callable(&self, value: Value) -> bool
        ensures { result ≡ given.is_callable (W.world self.now.names.now self.now.world.now) value }
    {
        match value {
            Value::Object(a) => is_function_cell(self.world.find(a)),
            _ => false,
        }
    }

    /// Whether a value is left out of an object: undefined and functions are.
    fn is_left_out(&self, value: Value) -> bool
        ensures { result ≡ given.is_left_out (W.world self.now.names.now self.now.world.now) value }
    {
        match value {
            Value::Undefined => true,
            _ => self.is_callable(value),
        }
    }

    /// What stands in a list for a value that is given so: null for a function.
    fn element_of(&self, value: Value, json: Json) -> Json
        ensures { json_view result ∷ [] ≡ given.element_of (W.world self.now.names.now self.now.world.now) value (json_view json) }
    {
        if self.is_callable(value) {
            null()
        } else {
            json
        }
    }

    /// A primitive value; undefined is null.
    fn plain_json(&self, value: Value) -> Result<Json, AllocError>
        ensures { IfOk result (λ j. json_view j ≡ given.plain_json (W.world self.now.names.now self.now.world.now) value) }
    {
        match value {
            Value::Bool(truth) => Ok(boolean(truth)),
            Value::Number(z) => Ok(number(z)),
            Value::Text(a) => copied_text(self.alloc, units_at(self.world, self.names, a)),
            _ => Ok(null()),
        }
    }

    /// Puts an element of a list behind others.
    #[cycle(given)]
    fn put_element(
        &self,
        value: Value,
        listed: &mut Vec<Json>,
        deep: u32,
        left: &mut u32,
    ) -> Result<(), ByValueFault>
        ensures { given.Puts (map json_view listed.old.items) (map json_view listed.new.items) result deep left.old left.new (given.element_given (W.world self.now.names.now self.now.world.now) (given.value_given (W.world self.now.names.now self.now.world.now) deep) value) }
    {
        let json = self.value_given(value, deep, left)?;
        listed.push(self.element_of(value, json))?;
        Ok(())
    }

    /// The elements of a list.
    #[cycle(given)]
    fn elements_given(
        &self,
        values: &[Value],
        deep: u32,
        left: &mut u32,
    ) -> Result<Json, ByValueFault>
        ensures { given.Answers json_view result deep left.old left.new (given.mapped list_of (given.all_given (given.element_given (W.world self.now.names.now self.now.world.now) (given.value_given (W.world self.now.names.now self.now.world.now) deep)) values.now)) }
    {
        let mut listed = Vec::new(self.alloc);
        for value in values {
            self.put_element(*value, &mut listed, deep, left)?;
        }
        Ok(list(listed))
    }

    /// Puts a property as a member behind others, where it is enumerable and its value isn't left out.
    #[cycle(given)]
    fn put_member(
        &self,
        property: &Property,
        listed: &mut Vec<Member>,
        deep: u32,
        left: &mut u32,
    ) -> Result<(), ByValueFault>
        ensures { given.Puts (map member_view listed.old.items) (map member_view listed.new.items) result deep left.old left.new (given.member_given (W.world self.now.names.now self.now.world.now) (given.value_given (W.world self.now.names.now self.now.world.now) deep) property.now) }
    {
        if !property.enumerable {
            return Ok(());
        }
        if self.is_left_out(property.value) {
            return meet(left);
        }
        let json = self.value_given(property.value, deep, left)?;
        let key = Units::from_slice(self.alloc, property.key.as_slice())?;
        listed.push(Member::new(key, json))?;
        Ok(())
    }

    /// The members of an object.
    #[cycle(given)]
    fn members_given(
        &self,
        properties: &PropertyMap,
        deep: u32,
        left: &mut u32,
    ) -> Result<Json, ByValueFault>
        ensures { given.Answers json_view result deep left.old left.new (given.mapped object_of (given.all_given (given.member_given (W.world self.now.names.now self.now.world.now) (given.value_given (W.world self.now.names.now self.now.world.now) deep)) properties.now)) }
    {
        let mut listed = Vec::new(self.alloc);
        for place in 0..properties.len() {
            let Some(property) = properties.get(place) else {
                return Err(ByValueFault::Memory);
            };
            self.put_member(property, &mut listed, deep, left)?;
        }
        Ok(object(listed))
    }

    /// The parts of an object with this cell; a function has none.
    #[cycle(given)]
    fn parts_given(
        &self,
        cell: Option<&Stored>,
        deep: u32,
        left: &mut u32,
    ) -> Result<Json, ByValueFault>
        ensures { given.Answers json_view result deep left.old left.new (given.parts_given (W.world self.now.names.now self.now.world.now) (given.value_given (W.world self.now.names.now self.now.world.now) deep) (cell_at self.now.names.now (option_copied cell.entry))) }
    {
        match cell {
            Some(Stored::Object { properties }) => self.members_given(properties, deep, left),
            Some(Stored::Error { properties, .. }) => self.members_given(properties, deep, left),
            Some(Stored::Array { elements }) => self.elements_given(elements.slice(), deep, left),
            _ => Ok(nothing(self.alloc)),
        }
    }

    // ---- values

    /// An object that may be so deep.
    #[cycle(given)]
    fn object_given(&self, a: Addr, deep: u32, left: &mut u32) -> Result<Json, ByValueFault>
        ensures { given.Answers json_view result deep left.old left.new (given.object_given (W.world self.now.names.now self.now.world.now) deep a) }
    {
        if deep == 0 {
            return Err(ByValueFault::TooLong);
        }
        meet(left)?;
        self.parts_given(self.world.find(a), deep - 1, left)
    }

    /// A primitive value.
    fn plain_given(&self, value: Value, deep: u32, left: &mut u32) -> Result<Json, ByValueFault>
        ensures { given.Answers json_view result deep left.old left.new (given.plain_given (W.world self.now.names.now self.now.world.now) value) }
    {
        meet(left)?;
        let json = self.plain_json(value)?;
        Ok(json)
    }

    /// A value that may be so deep, where so many values may be met. It ends as soon as it passes one of the two.
    #[cycle(given)]
    fn value_given(&self, value: Value, deep: u32, left: &mut u32) -> Result<Json, ByValueFault>
        ensures { given.Answers json_view result deep left.old left.new (given.value_given (W.world self.now.names.now self.now.world.now) deep value) }
    {
        match value {
            Value::Object(a) => self.object_given(a, deep, left),
            _ => self.plain_given(value, deep, left),
        }
    }

    /// A value as JSON. Undefined and functions are left out of objects and are null in lists; as the value itself undefined
    /// is null, and a function an object without members.
    pub fn by_value(&self, value: Value) -> Result<Json, ByValueFault>
        ensures { given.Gives json_view result (given.by_value (W.world self.now.names.now self.now.world.now) value) }
    {
        let mut left = MOST_MET;
        self.value_given(value, MOST_DEEP, &mut left)
    }

    /// An object, by value.
    fn remote_object_by_value(&self, a: Addr) -> Result<Json, ByValueFault>
        ensures { given.Gives json_view result (given.remote_object_by_value (sight_of S.node_text (W.world self.now.names.now self.now.world.now) self.now.scripts.now self.now.session) a) }
    {
        let json = self.by_value(Value::Object(a))?;
        let mut members = self.cell_members(a)?;
        put_value(self.alloc, &mut members, b"value", json)?;
        Ok(object(members))
    }

    /// A value as a remote object by value, so without a handle.
    pub fn remote_by_value(&self, value: Value) -> Result<Json, ByValueFault>
        ensures { given.Gives json_view result (given.remote_by_value (sight_of S.node_text (W.world self.now.names.now self.now.world.now) self.now.scripts.now self.now.session) value) }
    {
        match value {
            Value::Object(a) => self.remote_object_by_value(a),
            _ => Ok(object(self.value_members(value)?)),
        }
    }
}
