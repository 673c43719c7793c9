//! What a form does when all its parts have their values, and what comes next.

ghost use Rattle.std.specs.Prelude.{◌≡◌};
ghost use Rattle.js_machine_engine.specs.Settling.{closing_of};

use js_heap::value::Value;
use js_machine_nodes::op::Op;

/// What a form does when all its parts have their values.
#[derive(Clone, Copy)]
pub enum Closing {
    /// It waits for its row.
    Waits,
    /// It is undefined.
    Undefined,
    /// It is its last value.
    Last,
    /// A loop is behind its initialiser.
    First,
    /// A loop is before the body of a `do`.
    Doing,
    /// A loop is behind its body.
    Body,
    /// A loop is behind its update.
    Updating,
    /// A `for .. of` is behind a turn.
    Turn,
    /// A `try` is before its `finally`.
    Finally,
    /// A `finally` ends.
    Ending,
}

/// A kept part.
#[derive(Clone, Copy)]
pub enum KeptPart {
    Value(Value),
    /// A node that is no value.
    Open(u32),
}

/// What comes next.
#[derive(Clone, Copy)]
pub enum Next {
    /// The row of the innermost task.
    Row,
    /// A value, for the innermost gap.
    Value(Value),
    /// A part of the innermost task: a node that is no value.
    Part(u32),
}

/// What a task does when all its parts have their values.
#[inline(always)]
pub fn closing_of(op: Op) -> Closing
    ensures { result ≡ closing_of op }
{
    match op {
        Op::Scripts => Closing::Undefined,
        Op::Sequence => Closing::Undefined,
        Op::Catching => Closing::Undefined,
        Op::CatchingName => Closing::Undefined,
        Op::Scoped => Closing::Last,
        Op::LoopFirst => Closing::First,
        Op::LoopDoing => Closing::Doing,
        Op::LoopBody => Closing::Body,
        Op::LoopUpdating => Closing::Updating,
        Op::BodyOf => Closing::Turn,
        Op::Finishing => Closing::Finally,
        Op::Ending => Closing::Ending,
        _ => Closing::Waits,
    }
}
