//! The steps of a call, in any world.
//!
//! A step of a callee is one of the call around it, so the step that makes the function counts.

ghost use Rattle.std.specs.Prelude.{◌≡◌, ℕ, List, true, Some, IfOk, OnOk};
ghost use Rattle.js_heap.specs.BuiltIns.{script_scope};
ghost use Rattle.js_heap.specs.declared.value.Value.TheVariants as values;
ghost use Rattle.js_semantics.specs.Evaluation.{answer_of, budget, call_with_values, evaluated, evaluation_state};
ghost use Rattle.js_semantics.specs.Run.{steps_in, run_of};
ghost use Rattle.js_semantics.specs.Terms.{done, settle};
ghost use Rattle.js_semantics.specs.declared.form.Form.TheVariants.{Call as call_at};
ghost use Rattle.js_semantics.specs.declared.form.Mark.TheVariants.{Beginning as beginning};
ghost use Rattle.js_machine_actions.specs.Contexts.{state_of};
ghost use Rattle.js_machine_nodes.specs.Codes.{HasFunctions};
ghost use Rattle.js_machine_nodes.specs.Forms.{call_form};
ghost use Rattle.js_machine_nodes.specs.Trees.{tree, program_of, IsTable};
ghost use Rattle.js_machine_engine.specs.Points.{term_at};
ghost use Rattle.js_machine_engine.specs.Stepping.{StandsIn};
ghost use Rattle.js_machine_engine.specs.declared.task.Point.TheVariants as points;
ghost use Rattle.pure_eval.specs.Answering.{Answers, EndsIn};
ghost use Rattle.pure_eval.specs.Arguments.{arguments_of};
ghost use Rattle.pure_eval.specs.Calling.{called, KeepsTo, HasCall, IsCallAdded, end_with, ComesTo, with_values};

use crate::arguments::{Argument, make_arguments};
use crate::evaluated::{Evaluated, finish_of};
use crate::reducing::run_on;
use crate::session::refused_end;
use js_heap::built_in::script_scope;
use js_heap::value::Value;
use js_heap_memory::names::{NameId, NameTable};
use js_heap_memory::world::World;
use js_machine_actions::context::Context;
use js_machine_engine::code::RunningCode;
use js_machine_engine::rows::Rows;
use js_machine_engine::settling::uncover;
use js_machine_engine::stack::Stack;
use js_machine_engine::step::step;
use js_machine_engine::stepped::Stepped;
use js_machine_engine::task::{NewTask, Point};
use js_machine_nodes::node::CallEntry;
use js_machine_nodes::op::Op;
use js_machine_nodes::table::NodeTable;
use js_semantics::bounds::MOST_STEPS;
use js_semantics::form::Mark;
use std::alloc::{AllocError, Global};

/// What the steps of a callee come to: its value with the steps that are left, or the end of the evaluation.
#[derive(Clone, Copy)]
enum Callee {
    Reduced { value: Value, left: u64 },
    Ended(Evaluated),
}

/// The entry of a call that stands in no statement, behind a table's other calls; the answer is its number.
///
/// # Errors
///
/// There is no memory for it, or no number.
pub fn add_call(table: &mut NodeTable) -> Result<u32, AllocError>
    ensures { IfOk result (λ n. IsCallAdded table.old table.new n) }
{
    let Ok(number) = u32::try_from(table.calls.len()) else {
        return Err(AllocError);
    };
    table.calls.push(CallEntry {
        place: Mark::Beginning,
        statement: 0,
        name: NameId { number: 0 },
    })?;
    Ok(number)
}

/// Whether an entry is that of a call that stands in no statement.
pub fn is_call(table: &NodeTable, number: u32) -> bool
    ensures { result ≡ true → HasCall table.now number }
{
    match table.calls.get(number as usize) {
        Some(entry) => is_outside(*entry),
        None => false,
    }
}

/// Whether a call stands in no statement.
fn is_outside(entry: CallEntry) -> bool
    ensures { result ≡ true → call_form (Some entry) ≡ call_at beginning 0 }
{
    match entry.place {
        Mark::Beginning => entry.statement == 0,
        _ => false,
    }
}

/// How an evaluation ends with a step, if it ends there.
fn end_with(stepped: &Stepped) -> Option<Evaluated>
    ensures { result ≡ end_with stepped.now }
{
    match stepped {
        Stepped::Over(finish) => Some(finish_of(*finish)),
        Stepped::Effect => Some(Evaluated::Effect),
        Stepped::Full(what) => Some(Evaluated::Full(*what)),
        Stepped::Memory => Some(Evaluated::Memory),
        Stepped::Went => None,
        Stepped::Raised => None,
        Stepped::Printed(_) => None,
    }
}

/// The steps of a call's callee, of so many that the call may make.
fn reduce_callee<T: Rows, W: World>(
    code: &RunningCode<'_, '_>,
    context: &mut Context,
    world: &mut W,
    stack: &mut Stack,
    point: &mut Point,
    most: u64,
) -> Callee
    requires table { IsTable code.now.table.now }
    requires functions { HasFunctions code.now.table.now }
    requires stands { StandsIn code.now.table.now code.now.root stack.old point.old }
    ensures { (taken : List (List ℕ)) (receiver : _) (arguments : _) → ComesTo (program_of code.now.names.now code.now.table.now) code.now.root most (run_of (call_with_values receiver (term_at code.now.names.now code.now.table.now stack.old point.old) arguments) (state_of (W.world code.now.names.now world.old) context.old taken)) receiver arguments result (state_of (W.world code.now.names.now world.new) context.new taken) }
{
    let mut left = most;
    while left > 0 {
        if let Point::Done(value) = *point {
            return Callee::Reduced { value, left };
        }
        let stepped = step::<T, W>(code, context, world, stack, point);
        if let Some(end) = end_with(&stepped) {
            return Callee::Ended(end);
        }
        left -= 1;
    }
    Callee::Ended(Evaluated::Spent)
}

/// The innermost task has more values.
fn push_values(stack: &mut Stack, more: &[Value]) -> Result<(), AllocError>
    ensures { OnOk result (stack.new ≡ with_values more.now stack.old) }
{
    for value in more {
        stack.push_value(*value)?;
    }
    Ok(())
}

/// A call whose parts have their values, before its own step.
fn begin_call(
    code: &RunningCode<'_, '_>,
    call: u32,
    receiver: Value,
    callee: Value,
    arguments: &[Value],
) -> Result<Stack, AllocError>
    requires { HasCall code.now.table.now call }
    ensures term { IfOk result (λ stack. (ts : List (List ℕ)) → term_at ts code.now.table.now stack points.Row ≡ call_with_values receiver (done callee) arguments.now) }
    ensures stands { IfOk result (λ stack. StandsIn code.now.table.now code.now.root stack points.Row) }
{
    let mut stack = Stack::new(code.alloc);
    stack.push(NewTask {
        op: Op::Call,
        info: call,
        at: 0,
        mid: 0,
        end: 0,
        inner: code.root,
    })?;
    stack.push_value(receiver)?;
    stack.push_value(callee)?;
    push_values(&mut stack, arguments)?;
    Ok(stack)
}

/// The steps of a call whose callee has its value, of so many that are left.
fn run_call<T: Rows, W: World>(
    code: &RunningCode<'_, '_>,
    context: &mut Context,
    world: &mut W,
    call: u32,
    receiver: Value,
    callee: Value,
    arguments: &[Value],
    left: u64,
) -> Evaluated
    requires table { IsTable code.now.table.now }
    requires functions { HasFunctions code.now.table.now }
    requires call { HasCall code.now.table.now call }
    ensures answer { (taken : List (List ℕ)) → Answers (answer_of (steps_in left (program_of code.now.names.now code.now.table.now) code.now.root (run_of (call_with_values receiver (done callee) arguments.now) (state_of (W.world code.now.names.now world.old) context.old taken)))) result (W.world code.now.names.now world.new) }
    ensures world { (taken : List (List ℕ)) → EndsIn (steps_in left (program_of code.now.names.now code.now.table.now) code.now.root (run_of (call_with_values receiver (done callee) arguments.now) (state_of (W.world code.now.names.now world.old) context.old taken))) result (W.world code.now.names.now world.new) }
{
    let Ok(begun) = begin_call(code, call, receiver, callee, arguments) else {
        return Evaluated::Memory;
    };
    let mut stack = begun;
    let mut point = Point::Row;
    run_on::<T, W>(code, context, world, &mut stack, &mut point, left)
}

/// The call of a node's function in the script scope with a `this` and arguments: at most [`MOST_STEPS`] steps, those that
/// make the function among them.
fn call_node<T: Rows, W: World>(
    alloc: Global,
    table: &NodeTable,
    names: &NameTable,
    world: &mut W,
    call: u32,
    receiver: Value,
    arguments: &[Value],
    node: u32,
) -> Evaluated
    requires table { IsTable table.now }
    requires functions { HasFunctions table.now }
    requires call { HasCall table.now call }
    ensures answer { Answers (evaluated (program_of names.now table.now) script_scope values.Undefined (W.world names.now world.old) (call_with_values receiver (settle (tree names.now table.now node)) arguments.now)) result (W.world names.now world.new) }
    // The world is that behind the definition's steps.
    ensures world { EndsIn (steps_in budget (program_of names.now table.now) script_scope (run_of (call_with_values receiver (settle (tree names.now table.now node)) arguments.now) (evaluation_state (W.world names.now world.old) values.Undefined))) result (W.world names.now world.new) }
{
    let root = script_scope();
    let mut context = Context::bare(alloc, Value::Undefined);
    let mut stack = Stack::new(alloc);
    let mut point = Point::Row;
    let Ok(()) = uncover(table, root, &mut stack, &mut point, node) else {
        return Evaluated::Memory;
    };
    let code = RunningCode {
        alloc,
        table,
        names,
        root,
    };
    let callee = reduce_callee::<T, W>(
        &code,
        &mut context,
        world,
        &mut stack,
        &mut point,
        MOST_STEPS,
    );
    match callee {
        Callee::Reduced { value, left } => run_call::<T, W>(
            &code,
            &mut context,
            world,
            call,
            receiver,
            value,
            arguments,
            left,
        ),
        Callee::Ended(end) => end,
    }
}

/// The call of a node's function in the script scope with a `this` and arguments, which are made first.
pub fn call_with<T: Rows, W: World>(
    alloc: Global,
    table: &NodeTable,
    names: &NameTable,
    world: &mut W,
    call: u32,
    receiver: Value,
    arguments: &[Argument],
    node: u32,
) -> Evaluated
    requires table { IsTable table.now }
    requires functions { HasFunctions table.now }
    requires call { HasCall table.now call }
    ensures answer { Answers (called (program_of names.now table.now) receiver (arguments_of arguments.now) (W.world names.now world.old) (settle (tree names.now table.now node))) result (W.world names.now world.new) }
    ensures keeps { KeepsTo result (W.world names.now world.old) (W.world names.now world.new) }
{
    match make_arguments(alloc, world, arguments) {
        Ok(values) => call_node::<T, W>(
            alloc,
            table,
            names,
            world,
            call,
            receiver,
            values.slice(),
            node,
        ),
        Err(refused) => refused_end(refused),
    }
}
