//! What a step tells.

use js_heap::change::Counted;
use js_heap::value::Value;
use js_semantics::form::SourceMark;

/// How a run ended: with a value, or by a throw that no `catch` took.
#[derive(Clone, Copy)]
pub enum Finish {
    Ended(Value),
    Threw(Value, SourceMark),
}

/// What a step tells.
#[derive(Drop)]
pub enum Stepped {
    Went,
    /// A throw was raised, and stands.
    Raised,
    /// Values were printed.
    Printed(Vec<Value>),
    /// The run has ended.
    Over(Finish),
    /// An evaluation ended: it would have reached what isn't its own.
    Effect,
    /// An evaluation ended: it would have passed a limit.
    Full(Counted),
    /// There was no memory for the step.
    Memory,
}
