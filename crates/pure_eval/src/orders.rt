//! Evaluations of sources whose string literals stand in another order in their terms.

ghost use Rattle.std.specs.Prelude.{◌≡◌, ℕ, List};
ghost use Rattle.js_heap.specs.ScratchSpaces.{copied_world};
ghost use Rattle.js_semantics.specs.Evaluation.{answered};
ghost use Rattle.js_semantics.specs.Terms.{settle};
ghost use Rattle.js_heap_memory.specs.Heaps.{heap_world};
ghost use Rattle.js_heap_memory.specs.Overlays.{space_of};
ghost use Rattle.js_machine_nodes.specs.Codes.{HasFunctions};
ghost use Rattle.js_machine_nodes.specs.Trees.{tree, program_of, IsTable};
ghost use Rattle.pure_eval.specs.Calling.{worked, HasCall};
ghost use Rattle.pure_eval.specs.Leaving.{Leaves, placed};
ghost use Rattle.pure_eval.specs.Orders.{AreSameLiterals, ready_in_order, is_full_end, end_behind, EndsAs};

use crate::evaluated::Evaluated;
use crate::session::{Outcome, evaluate_source, prepare, refused_end, scratch_after};
use crate::work::Work;
use cdp_text::units::Units;
use js_heap_memory::heap::BaseHeap;
use js_heap_memory::names::NameTable;
use js_heap_memory::overlay::{Overlay, Scratch};
use js_heap_memory::world::Refused;
use js_machine_engine::rows::Rows;
use js_machine_nodes::table::NodeTable;
use std::alloc::Global;

/// Whether a count would have been passed.
fn is_full(end: Evaluated) -> bool
    ensures { result ≡ is_full_end end }
{
    match end {
        Evaluated::Full(_) => true,
        _ => false,
    }
}

/// How an evaluation ends behind what was tried.
fn end_behind(tried: Result<(), Refused>, end: Evaluated) -> Evaluated
    ensures { result ≡ end_behind tried end }
{
    match tried {
        Ok(()) => end,
        Err(refused) => refused_end(refused),
    }
}

/// How an evaluation ends where its literals are made in the order of its source. The session's cells stay as they are.
fn end_in_order(
    alloc: Global,
    base: &BaseHeap,
    scratch: Scratch,
    source: &Units,
    order: &[Units],
    end: Evaluated,
) -> Outcome
    ensures end { (names : List (List ℕ)) → EndsAs (placed (copied_world (heap_world names base.now) (space_of names scratch)) source.now order.now) end result.end }
    ensures space { (names : List (List ℕ)) → space_of names result.scratch ≡ space_of names scratch }
{
    let Ok(kept) = Units::from_slice(alloc, source.as_slice()) else {
        return Outcome {
            end: Evaluated::Memory,
            scratch,
        };
    };
    let mark = scratch.mark();
    let mut overlay = Overlay::over(base, scratch);
    let tried = prepare(alloc, &mut overlay, kept, order);
    let end = end_behind(tried, end);
    let scratch = scratch_after(overlay, mark, Evaluated::Spent);
    Outcome { end, scratch }
}

/// What becomes of a source with its literals in its own order and in that of its term, whose code a table has with the
/// entry of a call. After want of memory the session is given up.
///
/// Literals are made in the order of the source to name the count that a full scratch passes first, and in the order of
/// the term to place them. They are made once, and the other order is looked at only where a count was passed.
pub fn evaluate_in_order<T: Rows>(
    alloc: Global,
    table: &NodeTable,
    names: &NameTable,
    base: &BaseHeap,
    scratch: Scratch,
    call: u32,
    work: Work<'_>,
    source: &Units,
    order: &[Units],
    literals: &[Units],
    node: u32,
) -> Outcome
    requires table { IsTable table.now }
    requires functions { HasFunctions table.now }
    requires call { HasCall table.now call }
    ensures { AreSameLiterals order.now literals.now → Leaves (answered (ready_in_order (heap_world names.now base.now) (space_of names.now scratch) source.now order.now literals.now (settle (tree names.now table.now node))) (worked (program_of names.now table.now) work.entry)) result.end (space_of names.now scratch) (space_of names.now result.scratch) }
{
    let Ok(kept) = Units::from_slice(alloc, source.as_slice()) else {
        return Outcome {
            end: Evaluated::Memory,
            scratch,
        };
    };
    let outcome = evaluate_source::<T>(
        alloc, table, names, base, scratch, call, work, kept, literals, node,
    );
    if is_full(outcome.end) {
        end_in_order(alloc, base, outcome.scratch, source, order, outcome.end)
    } else {
        outcome
    }
}
