//! Walks over the active frames, from the top one outward. A walk keeps the task at which it stands, so that one over
//! all frames goes over the tasks once.

ghost use Rattle.std.specs.Prelude.{◌≡◌, ◌+◌, ◌<◌, ◌^◌, ℕ, List, drop, slice_get};
ghost use Rattle.js_heap.specs.World.{World};
ghost use Rattle.js_semantics.specs.Frames.{frame_at};
ghost use Rattle.js_heap.specs.declared.value.Addr.{Addr as AnyAddr};
ghost use Rattle.js_machine_actions.specs.Contexts.{state_of};
ghost use Rattle.js_machine_nodes.specs.Trees.{IsTable};
ghost use Rattle.js_machine_engine.specs.Tasks.{InScopes, Wide};
ghost use Rattle.js_machine_engine.specs.Points.{term_at, IsAt};
ghost use Rattle.js_machine_inspection.specs.Scopes.{call_scopes, frame_scopes};
ghost use Rattle.js_machine_inspection.specs.Walks.{scopes_behind, IsWalked};

use crate::frames::{script_shown, shown};
use crate::scopes::{is_frame_at, scope_at};
use js_heap::value::Addr;
use js_machine_actions::context::Context;
use js_machine_actions::frame::Frame;
use js_machine_engine::stack::Stack;
use js_machine_engine::task::Point;
use js_machine_nodes::table::NodeTable;

/// How far a walk over the active frames has come, from the top one outward.
#[derive(Clone, Copy)]
pub struct Walked {
    /// How many frames it has passed.
    pub frames: usize,
    /// How many tasks, from the innermost one, hold those frames; none where no task is left for another frame.
    pub tasks: Option<usize>,
}

/// How many tasks, from the innermost one, there are up to the next body of a call behind so many, if there is one.
fn tasks_to_call(stack: &Stack, tasks: usize) -> Option<usize>
    ensures { (root : AnyAddr) → call_scopes root (drop tasks stack.now) ≡ scopes_behind root stack.now result }
{
    for i in tasks..stack.len() {
        if is_frame_at(stack, i) {
            return Some(i + 1);
        }
    }
    None
}

/// How many tasks hold one frame more.
fn tasks_outward(stack: &Stack, tasks: Option<usize>) -> Option<usize>
    ensures { (root : AnyAddr) → drop 1 (scopes_behind root stack.now tasks) ≡ scopes_behind root stack.now result }
{
    tasks_to_call(stack, tasks?)
}

/// The innermost scope of the active part of the next frame of a walk, if a task is left for it.
fn next_scope(stack: &Stack, root: Addr, walked: Walked) -> Option<Addr>
    requires { IsWalked root stack.now walked }
    ensures { result ≡ slice_get (frame_scopes root stack.now) walked.frames }
{
    Some(scope_at(stack, root, walked.tasks?))
}

impl Walked {
    /// Before the top frame.
    pub fn start() -> Walked
        ensures walked { (root : AnyAddr) (ws : List Wide) → IsWalked root ws result }
        ensures frames { result.frames ≡ 0 }
    {
        Walked {
            frames: 0,
            tasks: Some(0),
        }
    }

    /// One frame further out.
    pub fn outward(self, stack: &Stack) -> Walked
        requires { self.frames + 1 < 2 ^ 64 }
        ensures walked { (root : AnyAddr) → IsWalked root stack.now self → IsWalked root stack.now result }
        ensures frames { result.frames ≡ self.frames + 1 }
    {
        Walked {
            frames: self.frames + 1,
            tasks: tasks_outward(stack, self.tasks),
        }
    }
}

/// The next active frame of a walk, if there is one, with the innermost scope of its active part; around all tasks is
/// the scope `root`.
pub fn next_frame(
    table: &NodeTable,
    root: Addr,
    context: &Context,
    stack: &Stack,
    point: Point,
    walked: Walked,
) -> Option<Frame>
    requires table { IsTable table.now }
    requires at { IsAt table.now stack.now point }
    requires scoped { InScopes table.now root stack.now }
    requires walked { IsWalked root stack.now walked }
    ensures { (ts : List (List ℕ)) (w : World) (taken : List (List ℕ)) → result ≡ frame_at walked.frames root
        (term_at ts table.now stack.now point) (state_of w context.now taken) }
{
    let frame = context.frame_at(walked.frames)?;
    let script = script_shown(table, context, stack, point, walked.frames);
    Some(shown(frame, script, next_scope(stack, root, walked)))
}
