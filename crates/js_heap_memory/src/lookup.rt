//! Names in their scopes.

ghost use Rattle.std.specs.Prelude.{◌≡◌, IfSome};
ghost use Rattle.js_heap.specs.World.{read_cell};
ghost use Rattle.js_heap.specs.Scopes.{found};
ghost use Rattle.js_heap_memory.specs.Names.{name_of};
ghost use Rattle.js_heap_memory.specs.Calls.{kept_slot, kept_found, HasPlace};

use crate::names::{NameId, NameTable};
use crate::slots::{SlotLookup, look};
use crate::stored::FoundSlot;
use crate::world::World;
use js_heap::value::Addr;

/// The scope that has a name, from one outward (ECMA-262, 9.1.2.1).
#[tactic(auto, using(crate::proofs::FoundLemmas::found_rules))]
pub fn lookup<W: World>(
    world: &W,
    names: &NameTable,
    scope: Addr,
    name: NameId,
) -> Option<FoundSlot>
    ensures value { kept_slot result ≡ kept_found (found (W.world names.now world.now) scope (name_of names.now name.number)) }
    ensures place { IfSome result (λ f. HasPlace (read_cell (W.world names.now world.now) f.scope) f.place (name_of names.now name.number)) }
{
    let _ = names.len();
    let mut at = scope;
    let count = world.count();
    for _i in 0..count {
        match look(world.find(at), at, name) {
            SlotLookup::Here(found) => return Some(found),
            SlotLookup::Outward(a) => at = a,
            SlotLookup::Nowhere => return None,
        }
    }
    None
}
