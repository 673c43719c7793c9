//! How evaluations end.

ghost use Rattle.std.specs.Prelude.{◌≡◌};
ghost use Rattle.pure_eval.specs.Answering.{finished, end_of, end_at, is_memory};

use js_heap::change::Counted;
use js_heap::value::Value;
use js_machine_engine::run::Why;
use js_machine_engine::stepped::Finish;
use js_machine_engine::task::Point;

/// How an evaluation ends.
#[derive(Clone, Copy)]
pub enum Evaluated {
    /// It came to this value.
    Value(Value),
    /// It threw this value.
    Thrown(Value),
    /// It would have reached what isn't its own.
    Effect,
    /// It would have passed a limit.
    Full(Counted),
    /// All its steps are made.
    Spent,
    /// There was no memory for it.
    Memory,
}

/// How an evaluation ends whose run does.
pub fn finish_of(finish: Finish) -> Evaluated
    ensures { result ≡ finished finish }
{
    match finish {
        Finish::Ended(value) => Evaluated::Value(value),
        Finish::Threw(value, _) => Evaluated::Thrown(value),
    }
}

/// How an evaluation ends whose run stops, if it ends there.
pub fn end_of(why: &Why) -> Option<Evaluated>
    ensures { result ≡ end_of why.now }
{
    match why {
        Why::Over(finish) => Some(finish_of(*finish)),
        Why::Effect => Some(Evaluated::Effect),
        Why::Full(what) => Some(Evaluated::Full(*what)),
        Why::Memory => Some(Evaluated::Memory),
        Why::Asked => None,
        Why::Spent => None,
        Why::Raised => None,
        Why::Printed(_) => None,
    }
}

/// How an evaluation ends that has made all its steps.
pub fn end_at(point: Point) -> Evaluated
    ensures { result ≡ end_at point }
{
    match point {
        Point::Done(value) => Evaluated::Value(value),
        _ => Evaluated::Spent,
    }
}

/// Whether there was no memory for an evaluation.
pub fn is_memory(end: Evaluated) -> bool
    ensures { result ≡ is_memory end }
{
    match end {
        Evaluated::Memory => true,
        _ => false,
    }
}
