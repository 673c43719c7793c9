//! What a value is described as, but for the id of its handle.

ghost use Rattle.std.specs.Prelude.{◌≡◌, [], map, codes, IfOk};
ghost use Rattle.js_heap.specs.Values.{class_text, shown};
ghost use Rattle.js_heap.specs.World.{read_cell};
ghost use Rattle.js_heap_memory.specs.Cells.{name_text};
ghost use Rattle.cdp_json.specs.Views.{member_view};
ghost use Rattle.remote_objects.specs.Values as values;
ghost use Rattle.remote_objects.specs.Views.{sight_of};

use crate::describer::Describer;
use crate::function_sources::FunctionSources;
use crate::members::{
    array_members, null_members, number_members, plain_members, subtyped_members, text_members,
    truth_members, undefined_members, untyped_members,
};
use cdp_json::value::Member;
use js_heap::built_in::ErrorClass;
use js_heap::value::{Addr, Value};
use js_heap_memory::stored::{FunctionCell, Stored};
use js_heap_memory::world::World;
use js_heap_operators::values::class_text;
use js_machine_actions::seen::{name_text, units_at};
use js_machine_actions::shown::shown;
use std::alloc::AllocError;

impl<'w, W: World, S: FunctionSources> Describer<'w, W, S> {
    /// The members of an error at an address.
    fn error_members(&self, class: ErrorClass, a: Addr) -> Result<Vec<Member>, AllocError>
        ensures { IfOk result (λ ms. map member_view ms.items ≡ values.object_pairs (class_text class) (shown (W.world self.now.names.now self.now.world.now) (Value.Object a)) (values.subtyped (codes "error")) (codes "object")) }
    {
        let text = shown(self.alloc, self.world, self.names, Value::Object(a))?;
        subtyped_members(self.alloc, class_text(class), text, b"error")
    }

    /// The members of a function.
    fn function_members(&self, function: &FunctionCell) -> Result<Vec<Member>, AllocError>
        ensures { IfOk result (λ ms. map member_view ms.items ≡ values.object_pairs (codes "Function") (values.function_text (sight_of S.node_text (W.world self.now.names.now self.now.world.now) self.now.scripts.now self.now.session) function.now.code (name_text self.now.names.now function.now.name)) [] (codes "function")) }
    {
        let name = name_text(self.names, &function.name)?;
        let source = self.function_text(function.code, name)?;
        untyped_members(self.alloc, b"Function", source, b"function")
    }

    /// The members of the cell at an address as an object.
    pub(crate) fn cell_members(&self, a: Addr) -> Result<Vec<Member>, AllocError>
        ensures { IfOk result (λ ms. map member_view ms.items ≡ values.cell_pairs (sight_of S.node_text (W.world self.now.names.now self.now.world.now) self.now.scripts.now self.now.session) (read_cell (W.world self.now.names.now self.now.world.now) a)) }
    {
        match self.world.find(a) {
            Some(Stored::Error { class, .. }) => self.error_members(*class, a),
            Some(Stored::Array { elements }) => array_members(self.alloc, elements.slice().len()),
            Some(Stored::Function(function)) => self.function_members(function),
            _ => plain_members(self.alloc),
        }
    }

    /// The members of a value, but for the id of an object's handle.
    pub(crate) fn value_members(&self, value: Value) -> Result<Vec<Member>, AllocError>
        ensures { IfOk result (λ ms. map member_view ms.items ≡ values.value_pairs (sight_of S.node_text (W.world self.now.names.now self.now.world.now) self.now.scripts.now self.now.session) value) }
    {
        match value {
            Value::Undefined => undefined_members(self.alloc),
            Value::Null => null_members(self.alloc),
            Value::Bool(truth) => truth_members(self.alloc, truth),
            Value::Number(z) => number_members(self.alloc, z),
            Value::Text(a) => text_members(self.alloc, units_at(self.world, self.names, a)),
            Value::Object(a) => self.cell_members(a),
        }
    }
}
