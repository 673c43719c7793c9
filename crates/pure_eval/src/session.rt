//! Evaluations over a program's cells, behind those of a session.

ghost use Rattle.std.specs.Prelude.{◌≡◌, ℕ, List};
ghost use Rattle.js_heap.specs.ScratchSpaces.{ScratchSpace};
ghost use Rattle.js_heap.specs.Worlds.{Keeps};
ghost use Rattle.js_semantics.specs.Evaluation.{answered};
ghost use Rattle.js_semantics.specs.Terms.{settle};
ghost use Rattle.js_heap_memory.specs.Calls.{Tries};
ghost use Rattle.js_heap_memory.specs.Heaps.{heap_world};
ghost use Rattle.js_heap_memory.specs.Overlays.{over_world, space_of};
ghost use Rattle.js_machine_nodes.specs.Codes.{HasFunctions};
ghost use Rattle.js_machine_nodes.specs.Trees.{tree, program_of, IsTable};
ghost use Rattle.pure_eval.specs.Answering.{Answers};
ghost use Rattle.pure_eval.specs.Calling.{worked, KeepsTo, HasCall};
ghost use Rattle.pure_eval.specs.Leaving.{space_behind, GoesOnFrom, Leaves, placed, made_ready, refused_end};

use crate::calling::call_with;
use crate::evaluated::Evaluated;
use crate::literals::make_literals;
use crate::reducing::evaluate_node;
use crate::work::Work;
use cdp_text::units::Units;
use js_heap_memory::heap::BaseHeap;
use js_heap_memory::names::NameTable;
use js_heap_memory::overlay::{Overlay, OverlayMark, Scratch};
use js_heap_memory::world::{Refused, World};
use js_machine_engine::rows::Rows;
use js_machine_nodes::table::NodeTable;
use std::alloc::Global;

/// How an evaluation ended, and the session's cells after it.
#[derive(Drop)]
pub struct Outcome {
    /// How it ended.
    pub end: Evaluated,
    /// The session's cells after it.
    pub scratch: Scratch,
}

/// The session's cells after an evaluation: with those that it made where it came to a value or a throw, else as marked.
pub fn scratch_after(overlay: Overlay<'_>, mark: OverlayMark, end: Evaluated) -> Scratch
    ensures { (names : List (List ℕ)) → space_of names result ≡ space_behind end (over_world names overlay.entry) mark }
{
    let mut scratch = overlay.into_scratch();
    match end {
        Evaluated::Value(_) => {}
        Evaluated::Thrown(_) => {}
        _ => scratch.cut(mark),
    }
    scratch
}

/// What becomes of a node in a world that is prepared for it.
fn end_of_work<T: Rows, W: World>(
    alloc: Global,
    table: &NodeTable,
    names: &NameTable,
    world: &mut W,
    call: u32,
    work: Work<'_>,
    node: u32,
) -> Evaluated
    requires table { IsTable table.now }
    requires functions { HasFunctions table.now }
    requires call { HasCall table.now call }
    ensures answer { Answers (worked (program_of names.now table.now) work.entry (W.world names.now world.old) (settle (tree names.now table.now node))) result (W.world names.now world.new) }
    ensures keeps { KeepsTo result (W.world names.now world.old) (W.world names.now world.new) }
{
    match work {
        Work::Expression { scope, receiver } => {
            evaluate_node::<T, W>(alloc, table, names, scope, receiver, world, node)
        }
        Work::Call {
            receiver,
            arguments,
        } => call_with::<T, W>(alloc, table, names, world, call, receiver, arguments, node),
    }
}

/// What becomes of a node in a world that is prepared for it; the entry of this number is that of the call, where it is
/// called. After want of memory the session is given up.
pub fn evaluate_prepared<T: Rows>(
    alloc: Global,
    table: &NodeTable,
    names: &NameTable,
    overlay: Overlay<'_>,
    mark: OverlayMark,
    call: u32,
    work: Work<'_>,
    node: u32,
) -> Outcome
    requires table { IsTable table.now }
    requires functions { HasFunctions table.now }
    requires call { HasCall table.now call }
    ensures { (x : ScratchSpace) → GoesOnFrom (over_world names.now overlay.entry) x mark → Leaves (worked (program_of names.now table.now) work.entry (over_world names.now overlay.entry) (settle (tree names.now table.now node))) result.end x (space_of names.now result.scratch) }
{
    let mut overlay = overlay;
    let end = end_of_work::<T, Overlay<'_>>(alloc, table, names, &mut overlay, call, work, node);
    let scratch = scratch_after(overlay, mark, end);
    Outcome { end, scratch }
}

/// How an evaluation ends that is refused before its first step.
pub fn refused_end(refused: Refused) -> Evaluated
    ensures { result ≡ refused_end refused }
{
    match refused {
        Refused::Effect => Evaluated::Effect,
        Refused::Full(what) => Evaluated::Full(what),
        Refused::Memory => Evaluated::Memory,
    }
}

/// Keeps the source of an evaluation, and makes the cells of its string literals.
pub fn prepare(
    alloc: Global,
    overlay: &mut Overlay<'_>,
    source: Units,
    literals: &[Units],
) -> Result<(), Refused>
    ensures placed { (names : List (List ℕ)) → Tries (placed (over_world names overlay.old) source literals.now) result (over_world names overlay.new) }
    ensures keeps { (names : List (List ℕ)) → Keeps (over_world names overlay.old) (over_world names overlay.new) }
{
    overlay.keep(source)?;
    make_literals(alloc, overlay, literals)
}

/// What becomes of a source, whose code a table has with the entry of a call. After want of memory the session is given up.
pub fn evaluate_source<T: Rows>(
    alloc: Global,
    table: &NodeTable,
    names: &NameTable,
    base: &BaseHeap,
    scratch: Scratch,
    call: u32,
    work: Work<'_>,
    source: Units,
    literals: &[Units],
    node: u32,
) -> Outcome
    requires table { IsTable table.now }
    requires functions { HasFunctions table.now }
    requires call { HasCall table.now call }
    ensures { Leaves (answered (made_ready (heap_world names.now base.now) (space_of names.now scratch) source literals.now (settle (tree names.now table.now node))) (worked (program_of names.now table.now) work.entry)) result.end (space_of names.now scratch) (space_of names.now result.scratch) }
{
    let mark = scratch.mark();
    let mut overlay = Overlay::over(base, scratch);
    match prepare(alloc, &mut overlay, source, literals) {
        Ok(()) => evaluate_prepared::<T>(alloc, table, names, overlay, mark, call, work, node),
        Err(refused) => {
            let end = refused_end(refused);
            let scratch = scratch_after(overlay, mark, end);
            Outcome { end, scratch }
        }
    }
}
