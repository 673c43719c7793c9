//! What becomes of a node without parts after its row.

ghost use Rattle.std.specs.Prelude.{◌≡◌, false, List, ℕ, [], None, OnOk};
ghost use Rattle.js_semantics.specs.Next.{scope_in};
ghost use Rattle.js_machine_nodes.specs.Trees.{IsTable};
ghost use Rattle.js_machine_engine.specs.Gaps.{resettled};
ghost use Rattle.js_machine_engine.specs.Tasks.{gaps_of, task_form, scope_of, InScopes};
ghost use Rattle.js_machine_engine.specs.Points.{term_at, IsAt};
ghost use Rattle.js_machine_engine.specs.Stacks.{has_extra};
ghost use Rattle.js_machine_engine.specs.Answers.{reduced_term};
ghost use Rattle.js_machine_engine.specs.Rows.{redex};

use crate::following::follow;
use crate::position::Position;
use crate::reduced::Reduced;
use crate::settling::{give, go, uncover_part};
use crate::stack::Stack;
use crate::task::{NewTask, Redex};
use js_heap::value::Addr;
use js_machine_nodes::table::NodeTable;
use std::alloc::AllocError;

/// What becomes of a node without parts, which is no task yet, after its row's answer, and what is reduced next; around all
/// tasks is the scope `root`.
///
/// # Errors
///
/// There is no memory for it.
#[tactic(auto, unfolding(crate::specs::Answers::reduced_term))]
#[inline(always)]
pub fn follow_leaf(
    table: &NodeTable,
    root: Addr,
    stack: &mut Stack,
    point: &mut Position,
    form: Redex,
    reduced: Reduced,
) -> Result<(), AllocError>
    requires table { IsTable table.now }
    requires owns { has_extra form.op form.info ≡ false }
    ensures term { OnOk result ((ts : List (List ℕ)) → resettled (gaps_of ts table.now stack.old) (reduced_term ts table.now (redex form [] None) reduced) ≡ term_at ts table.now stack.new point.new) }
    ensures at { OnOk result (IsAt table.now stack.new point.new) }
    ensures scoped { OnOk result (((ts : List (List ℕ)) → scope_in (task_form ts table.now (redex form [] None)) (scope_of root stack.old) ≡ form.inner) → InScopes table.now root stack.old → InScopes table.now root stack.new) }
{
    match reduced {
        Reduced::Gives(value) => give(table, stack, point, value),
        Reduced::Goes(node) => go(table, root, stack, point, node),
        Reduced::Uncovers(node) => uncover_part(table, root, stack, point, node),
        _ => {
            stack.push(NewTask {
                op: form.op,
                info: form.info,
                at: form.mid,
                mid: form.mid,
                end: form.end,
                inner: form.inner,
            })?;
            follow(table, root, stack, point, reduced)
        }
    }
}
