//! The innermost scopes of active frames.

ghost use Rattle.std.specs.Prelude.{◌≡◌, ◌+◌, drop, slice_get};
ghost use Rattle.js_machine_engine.specs.Tasks.{scope_of};
ghost use Rattle.js_machine_inspection.specs.Scopes.{is_frame, is_frame_at, frame_scopes};

use js_heap::value::Addr;
use js_machine_engine::stack::Stack;
use js_machine_nodes::op::Op;

/// Whether it is the body of an active call.
fn is_frame(op: Op) -> bool
    ensures { result ≡ is_frame op }
{
    match op {
        Op::Frame => true,
        _ => false,
    }
}

/// Whether the task of this number is one.
pub(crate) fn is_frame_at(stack: &Stack, i: usize) -> bool
    ensures { result ≡ is_frame_at (slice_get stack.now i) }
{
    stack.task_at(i).is_some_and(|task| is_frame(task.op))
}

/// The scope in which the parts of the task of this number are; around all tasks is `root`.
pub(crate) fn scope_at(stack: &Stack, root: Addr, i: usize) -> Addr
    ensures { result ≡ scope_of root (drop i stack.now) }
{
    match stack.task_at(i) {
        Some(task) => task.inner,
        None => root,
    }
}

/// The innermost scope of the active part of a frame, counted from 0 for the top one, if so many calls have their bodies among
/// the tasks: for the top frame where the machine stands, for another one around the body of the call above it.
pub fn frame_scope(stack: &Stack, root: Addr, d: usize) -> Option<Addr>
    ensures { result ≡ slice_get (frame_scopes root stack.now) d }
{
    if d == 0 {
        return Some(stack.scope(root));
    }
    let mut left = d - 1;
    for i in 0..stack.len() {
        if is_frame_at(stack, i) {
            if left == 0 {
                return Some(scope_at(stack, root, i + 1));
            }
            left -= 1;
        }
    }
    None
}
