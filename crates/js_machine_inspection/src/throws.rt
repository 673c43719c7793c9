//! Throws that stand.

ghost use Rattle.std.specs.Prelude.{◌≡◌, ℕ, List, slice_get};
ghost use Rattle.js_semantics.specs.Frames.{thrown};
ghost use Rattle.js_machine_nodes.specs.declared.table.NodeTable.{NodeTable};
ghost use Rattle.js_machine_engine.specs.Points.{term_at, IsAt};
ghost use Rattle.js_machine_inspection.specs.Catchers.{is_catcher, catches_at, catches, standing_throw};

use crate::standing::Thrown;
use js_machine_engine::stack::Stack;
use js_machine_engine::task::Point;
use js_machine_nodes::op::Op;

/// Whether it is a `try` with a `catch`, which is in its block.
fn is_catcher(op: Op) -> bool
    ensures { result ≡ is_catcher op }
{
    match op {
        Op::Catching => true,
        Op::CatchingName => true,
        _ => false,
    }
}

/// Whether the task of this number is one.
fn catches_at(stack: &Stack, i: usize) -> bool
    ensures { result ≡ catches_at (slice_get stack.now i) }
{
    stack.task_at(i).is_some_and(|task| is_catcher(task.op))
}

/// Whether any task is one.
fn catches(stack: &Stack) -> bool
    ensures { result ≡ catches stack.now }
{
    for i in 0..stack.len() {
        if catches_at(stack, i) {
            return true;
        }
    }
    false
}

/// The throw that stands where the machine stands, if one does. A `finally` is no catch.
pub fn thrown(stack: &Stack, point: Point) -> Option<Thrown>
    ensures { (ts : List (List ℕ)) (t : NodeTable) → IsAt t stack.now point → standing_throw result ≡ thrown (term_at ts t stack.now point) }
{
    match point {
        Point::Stands(value, _) => Some(Thrown {
            value,
            uncaught: !catches(stack),
        }),
        _ => None,
    }
}
