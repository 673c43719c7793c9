//! The cells of string literals.

ghost use Rattle.std.specs.Prelude.{◌≡◌, List, ℕ, OnErr};
ghost use Rattle.js_heap.specs.declared.cell.Cell.TheVariants as cells;
ghost use Rattle.js_heap.specs.World.{make_cell};
ghost use Rattle.js_heap.specs.Worlds.{Keeps};
ghost use Rattle.js_semantics.specs.Evaluation.{make_literals};
ghost use Rattle.js_heap_memory.specs.Calls.{Tries};

use cdp_text::units::Units;
use js_heap::value::Addr;
use js_heap_memory::stored::Stored;
use js_heap_memory::world::{Refused, World};
use std::alloc::Global;

/// The cell of a text.
pub fn make_text<W: World>(alloc: Global, world: &mut W, units: &Units) -> Result<Addr, Refused>
    ensures made { (names : List (List ℕ)) → Tries (make_cell (W.world names world.old) (cells.Text units.now)) result (W.world names world.new) }
    ensures kept { OnErr result (world.new ≡ world.old) }
{
    let units = Units::from_slice(alloc, units.as_slice())?;
    world.make(Stored::Text { units })
}

/// The cells of string literals, in order.
pub fn make_literals<W: World>(
    alloc: Global,
    world: &mut W,
    literals: &[Units],
) -> Result<(), Refused>
    ensures made { (names : List (List ℕ)) → Tries (make_literals (W.world names world.old) literals.now) result (W.world names world.new) }
    // Also where one is refused, the cells before them stay.
    ensures keeps { (names : List (List ℕ)) → Keeps (W.world names world.old) (W.world names world.new) }
{
    for i in 0..literals.len() {
        make_text(alloc, world, &literals[i])?;
    }
    Ok(())
}
