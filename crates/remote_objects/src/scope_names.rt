//! The names of scopes, as texts.

ghost use Rattle.std.specs.Prelude.{◌≡◌, map, option_copied, IfOk};
ghost use Rattle.cdp_json.specs.Json as json;
ghost use Rattle.cdp_json.specs.Views.{json_view};
ghost use Rattle.js_heap_memory.specs.Cells.{binding_at, bindings, cell_at};
ghost use Rattle.remote_objects.specs.ScopeNames as scopes;

use crate::describer::Describer;
use crate::function_sources::FunctionSources;
use cdp_json::parts::copied_text;
use cdp_json::value::Json;
use js_heap::value::Addr;
use js_heap_memory::stored::{Slot, Stored};
use js_heap_memory::world::World;
use std::alloc::AllocError;

impl<'w, W: World, S: FunctionSources> Describer<'w, W, S> {
    /// A name of a scope.
    fn slot_name(&self, slot: Slot) -> Result<Json, AllocError>
        ensures { IfOk result (λ j. json_view j ≡ json.text (scopes.binding_name (binding_at self.now.names.now slot))) }
    {
        copied_text(self.alloc, self.names.text(slot.name)?)
    }

    /// The names of a scope, in order.
    fn slot_names(&self, slots: &[Slot]) -> Result<Vec<Json>, AllocError>
        ensures { IfOk result (λ js. map json_view js.items ≡ map json.text (map scopes.binding_name (bindings self.now.names.now slots.now))) }
    {
        let mut listed = Vec::with_capacity(self.alloc, slots.len())?;
        for i in 0..slots.len() {
            listed.push(self.slot_name(slots[i])?)?;
        }
        Ok(listed)
    }

    /// The names of a scope with this cell; another cell has none.
    fn names_of_cell(&self, cell: Option<&Stored>) -> Result<Vec<Json>, AllocError>
        ensures { IfOk result (λ js. map json_view js.items ≡ map json.text (scopes.names_of_cell (cell_at self.now.names.now (option_copied cell.entry)))) }
    {
        match cell {
            Some(Stored::Scope { slots, .. }) => self.slot_names(slots.slice()),
            _ => Ok(Vec::new(self.alloc)),
        }
    }

    /// The names of the scope at an address in the order in which they were declared, also those without a value yet; of
    /// another cell none.
    pub fn declared_names(&self, scope: Addr) -> Result<Vec<Json>, AllocError>
        ensures { IfOk result (λ names. map json_view names.items ≡ map json.text (scopes.declared_names (W.world self.now.names.now self.now.world.now) scope)) }
    {
        self.names_of_cell(self.world.find(scope))
    }
}
