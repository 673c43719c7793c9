//! A completion on its way outward, up to the task that takes it.

ghost use Rattle.std.specs.Prelude.{◌≡◌};
ghost use Rattle.js_machine_engine.specs.Passing.{passing_try, passing_call, passing_turn, passing_of, TakesSo, HasPassedTasks};

use crate::stack::Stack;
use js_heap::value::Value;
use js_machine_actions::context::Context;
use js_machine_nodes::op::Op;
use js_machine_nodes::table::NodeTable;
use js_semantics::form::Completion;

/// What a task makes of a completion that it takes.
#[derive(Clone, Copy)]
pub enum Taking {
    /// A `catch` takes the value that was thrown.
    Catches(Value),
    /// A `finally` keeps it while it runs.
    Keeps,
    /// A call returns a value.
    Returns(Value),
    /// A loop ends.
    Breaks,
    /// A loop goes on with its next turn.
    Turns,
}

/// What a task makes of a completion that reaches it.
#[derive(Clone, Copy)]
pub enum Passing {
    /// It lets it pass.
    Lets,
    /// It lets it pass, and an active call ends with it.
    Unframes,
    /// It takes it.
    Takes(Taking),
}

/// What a `try` with a `catch` makes of a completion (ECMA-262, 14.15.3).
fn passing_try(completion: Completion) -> Passing
    ensures { result ≡ passing_try completion }
{
    match completion {
        Completion::Throws(value, _) => Passing::Takes(Taking::Catches(value)),
        _ => Passing::Lets,
    }
}

/// What an active call makes of it (10.2.1).
fn passing_call(completion: Completion) -> Passing
    ensures { result ≡ passing_call completion }
{
    match completion {
        Completion::Returns(value) => Passing::Takes(Taking::Returns(value)),
        _ => Passing::Unframes,
    }
}

/// What a loop in its body makes of it (14.7.1.1).
fn passing_turn(completion: Completion) -> Passing
    ensures { result ≡ passing_turn completion }
{
    match completion {
        Completion::Breaks => Passing::Takes(Taking::Breaks),
        Completion::Continues => Passing::Takes(Taking::Turns),
        _ => Passing::Lets,
    }
}

/// What a task makes of a completion that reaches it.
fn passing_of(table: &NodeTable, op: Op, info: u32, completion: Completion) -> Passing
    ensures { result ≡ passing_of table.now op info completion }
{
    match op {
        Op::Catching => passing_try(completion),
        Op::CatchingName => passing_try(completion),
        Op::Finishing => Passing::Takes(Taking::Keeps),
        Op::Frame => passing_call(completion),
        Op::LoopBody => passing_turn(completion),
        Op::BodyOf => match table.for_of(info) {
            None => Passing::Lets,
            Some(_) => passing_turn(completion),
        },
        _ => Passing::Lets,
    }
}

/// Outward to the task that takes a completion: those that let it pass are left, and their frames. Answers what that task,
/// which is the innermost one then, makes of it; None where no task takes it.
pub fn pass_outward(
    table: &NodeTable,
    context: &mut Context,
    stack: &mut Stack,
    completion: Completion,
) -> Option<Taking>
    ensures takes { TakesSo table.now stack.new completion result }
    ensures passed { HasPassedTasks table.now completion stack.old context.old stack.new context.new }
{
    while let Some(task) = stack.last() {
        match passing_of(table, task.op, task.info, completion) {
            Passing::Takes(taking) => return Some(taking),
            Passing::Lets => {
                stack.pop();
            }
            Passing::Unframes => {
                context.pop_frame();
                stack.pop();
            }
        }
    }
    None
}
