//! What is about to be reduced.

ghost use Rattle.std.specs.Prelude.{◌≡◌, ℕ, List};
ghost use Rattle.js_semantics.specs.Frames.{active};
ghost use Rattle.js_machine_nodes.specs.Trees.{IsTable};
ghost use Rattle.js_machine_engine.specs.Points.{term_at, IsAt};
ghost use Rattle.js_machine_inspection.specs.Kinds.{active_kind, reducing_kind};

use js_machine_engine::stack::Stack;
use js_machine_engine::task::Point;
use js_machine_nodes::op::Op;
use js_machine_nodes::table::NodeTable;

/// What a node or a task does that is about to be reduced, with its number.
#[derive(Clone, Copy)]
pub struct Reducing {
    pub op: Op,
    pub info: u32,
}

/// What is about to be reduced; None where a throw stands or nothing is left.
#[inline]
pub fn next_reduced(table: &NodeTable, stack: &Stack, point: Point) -> Option<Reducing>
    requires table { IsTable table.now }
    requires at { IsAt table.now stack.now point }
    ensures { (ts : List (List ℕ)) → active_kind (active (term_at ts table.now stack.now point)) ≡ reducing_kind table.now result }
{
    match point {
        Point::Row => {
            let task = stack.last()?;
            Some(Reducing {
                op: task.op,
                info: task.info,
            })
        }
        Point::Leaf(n) => {
            let node = table.node(n)?;
            Some(Reducing {
                op: node.op,
                info: node.info,
            })
        }
        Point::Stands(_, _) => None,
        Point::Done(_) => None,
    }
}
