//! Active frames.

ghost use Rattle.std.specs.Prelude.{◌≡◌, ℕ, List, Some, slice_get};
ghost use Rattle.js_heap.specs.World.{World};
ghost use Rattle.js_semantics.specs.State.{Frame as AnyFrame};
ghost use Rattle.js_semantics.specs.Frames.{active, depth, frame_at, shown_frames};
ghost use Rattle.js_machine_actions.specs.Contexts.{state_of};
ghost use Rattle.js_machine_nodes.specs.Trees.{IsTable};
ghost use Rattle.js_machine_engine.specs.Tasks.{InScopes};
ghost use Rattle.js_machine_engine.specs.Points.{term_at, IsAt};
ghost use Rattle.js_machine_inspection.specs.Kinds.{opened_by, reducing_kind, script_kind};
ghost use Rattle.js_machine_inspection.specs.Shown.{in_scope, at_script};

use crate::reducing::{Reducing, next_reduced};
use crate::scopes::frame_scope;
use js_heap::value::Addr;
use js_machine_actions::context::Context;
use js_machine_actions::frame::Frame;
use js_machine_engine::stack::Stack;
use js_machine_engine::task::Point;
use js_machine_nodes::op::Op;
use js_machine_nodes::table::NodeTable;
use js_semantics::form::{Mark, Source};

/// How many calls are active.
pub fn depth(context: &Context) -> usize
    ensures { (w : World) (taken : List (List ℕ)) → result ≡ depth (state_of w context.now taken) }
{
    context.frame_count().saturating_sub(1)
}

/// The number of the script of this entry.
fn script_number(table: &NodeTable, entry: u32) -> Option<u32>
    ensures { result ≡ opened_by (script_kind (slice_get table.now.scripts.items entry)) }
{
    let script = table.scripts.get(entry as usize)?;
    Some(script.number)
}

/// The number of the script that is about to be reduced, if it is one.
fn script_of(table: &NodeTable, next: Option<Reducing>) -> Option<u32>
    ensures { result ≡ opened_by (reducing_kind table.now next) }
{
    let next = next?;
    match next.op {
        Op::Script => script_number(table, next.info),
        _ => None,
    }
}

/// A frame, where it is the bottom one at the script that is about to be reduced, with an innermost scope.
pub(crate) fn shown(frame: &Frame, script: Option<u32>, scope: Option<Addr>) -> Frame
    ensures { result ≡ in_scope scope (at_script script frame.now) }
{
    let (source, here) = match script {
        Some(number) => (Source::Script(number), Mark::Beginning),
        None => (frame.source(), frame.here()),
    };
    let scope = match scope {
        Some(scope) => scope,
        None => frame.scope(),
    };
    Frame::new(frame.function(), source, frame.receiver(), scope, here)
}

/// The number of the script that a frame shows in place of its own source, if it is the bottom one where that script is about to
/// be reduced.
pub(crate) fn script_shown(
    table: &NodeTable,
    context: &Context,
    stack: &Stack,
    point: Point,
    d: usize,
) -> Option<u32>
    requires table { IsTable table.now }
    requires at { IsAt table.now stack.now point }
    ensures { (ts : List (List ℕ)) (f : AnyFrame) → slice_get context.now.frames d ≡ Some f → slice_get (shown_frames (active (term_at ts table.now stack.now point)) context.now.frames) d ≡ Some (at_script result f) }
{
    if d == depth(context) {
        return script_of(table, next_reduced(table, stack, point));
    }
    None
}

/// The active frame so many calls out from the top one, if there are as many, with the innermost scope of its active part;
/// around all tasks is the scope `root`.
pub fn active_frame(
    table: &NodeTable,
    root: Addr,
    context: &Context,
    stack: &Stack,
    point: Point,
    d: usize,
) -> Option<Frame>
    requires table { IsTable table.now }
    requires at { IsAt table.now stack.now point }
    requires scoped { InScopes table.now root stack.now }
    ensures { (ts : List (List ℕ)) (w : World) (taken : List (List ℕ)) → result ≡ frame_at d root (term_at ts table.now stack.now point) (state_of w context.now taken) }
{
    let frame = context.frame_at(d)?;
    let script = script_shown(table, context, stack, point, d);
    Some(shown(frame, script, frame_scope(stack, root, d)))
}
