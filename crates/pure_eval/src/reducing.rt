//! The steps of an evaluation, in any world.

ghost use Rattle.std.specs.Prelude.{ℕ, List};
ghost use Rattle.js_semantics.specs.Evaluation.{answer_of, budget, evaluated, evaluation_state};
ghost use Rattle.js_semantics.specs.Run.{steps_in, run_of};
ghost use Rattle.js_semantics.specs.Terms.{settle};
ghost use Rattle.js_machine_actions.specs.Contexts.{state_of};
ghost use Rattle.js_machine_nodes.specs.Codes.{HasFunctions};
ghost use Rattle.js_machine_nodes.specs.Trees.{tree, program_of, IsTable};
ghost use Rattle.js_machine_engine.specs.Points.{term_at};
ghost use Rattle.js_machine_engine.specs.Stepping.{StandsIn};
ghost use Rattle.pure_eval.specs.Answering.{Answers, EndsIn};

use crate::evaluated::{Evaluated, end_at, end_of};
use js_heap::value::{Addr, Value};
use js_heap_memory::names::NameTable;
use js_heap_memory::world::World;
use js_machine_actions::context::Context;
use js_machine_engine::code::RunningCode;
use js_machine_engine::rows::Rows;
use js_machine_engine::run::{StopTest, step_until};
use js_machine_engine::settling::uncover;
use js_machine_engine::stack::Stack;
use js_machine_engine::task::Point;
use js_machine_nodes::table::NodeTable;
use js_semantics::bounds::MOST_STEPS;
use std::alloc::Global;

/// Nobody asks an evaluation to stop.
#[derive(Clone, Copy)]
struct Nobody;

impl StopTest for Nobody {
    ghost use Rattle.std.specs.Prelude.{false};

    ghost stops = { λ nobody term frames. false };

    fn asks(&self, table: &NodeTable, context: &Context, stack: &Stack, point: Point) -> bool {
        let _ = table;
        let _ = context;
        let _ = stack;
        let _ = point;
        false
    }
}

/// An evaluation goes on to its end, or until so many steps are made.
pub fn run_on<T: Rows, W: World>(
    code: &RunningCode<'_, '_>,
    context: &mut Context,
    world: &mut W,
    stack: &mut Stack,
    point: &mut Point,
    most: u64,
) -> Evaluated
    requires table { IsTable code.now.table.now }
    requires functions { HasFunctions code.now.table.now }
    requires stands { StandsIn code.now.table.now code.now.root stack.old point.old }
    ensures answer { (taken : List (List ℕ)) → Answers (answer_of (steps_in most (program_of code.now.names.now code.now.table.now) code.now.root (run_of (term_at code.now.names.now code.now.table.now stack.old point.old) (state_of (W.world code.now.names.now world.old) context.old taken)))) result (W.world code.now.names.now world.new) }
    ensures world { (taken : List (List ℕ)) → EndsIn (steps_in most (program_of code.now.names.now code.now.table.now) code.now.root (run_of (term_at code.now.names.now code.now.table.now stack.old point.old) (state_of (W.world code.now.names.now world.old) context.old taken))) result (W.world code.now.names.now world.new) }
{
    let mut left = most;
    while left > 0 {
        let ran = step_until::<T, W, Nobody>(code, context, world, stack, point, left, &Nobody);
        if let Some(end) = end_of(&ran.why) {
            return end;
        }
        left -= ran.steps;
    }
    end_at(*point)
}

/// The evaluation of a node in a scope with a `this`: at most [`MOST_STEPS`] steps.
pub fn evaluate_node<T: Rows, W: World>(
    alloc: Global,
    table: &NodeTable,
    names: &NameTable,
    scope: Addr,
    receiver: Value,
    world: &mut W,
    node: u32,
) -> Evaluated
    requires table { IsTable table.now }
    requires functions { HasFunctions table.now }
    ensures answer { Answers (evaluated (program_of names.now table.now) scope receiver (W.world names.now world.old) (settle (tree names.now table.now node))) result (W.world names.now world.new) }
    // The world is that behind the definition's steps.
    ensures world { EndsIn (steps_in budget (program_of names.now table.now) scope (run_of (settle (tree names.now table.now node)) (evaluation_state (W.world names.now world.old) receiver))) result (W.world names.now world.new) }
{
    let mut context = Context::bare(alloc, receiver);
    let mut stack = Stack::new(alloc);
    let mut point = Point::Row;
    let code = RunningCode {
        alloc,
        table,
        names,
        root: scope,
    };
    match uncover(table, scope, &mut stack, &mut point, node) {
        Ok(()) => run_on::<T, W>(
            &code,
            &mut context,
            world,
            &mut stack,
            &mut point,
            MOST_STEPS,
        ),
        Err(_) => Evaluated::Memory,
    }
}
