//! What a row's answer asks for.

ghost use Rattle.std.specs.Prelude.{◌≡◌};
ghost use Rattle.js_machine_engine.specs.Stepping.{demand_of, finished_by, told_by, went_of};

use crate::reduced::Reduced;
use crate::stepped::{Finish, Stepped};
use js_heap::change::Counted;
use js_heap::value::Value;
use js_semantics::form::Completion;
use std::alloc::AllocError;

/// What a row's answer asks for.
#[derive(Clone, Copy)]
pub enum Demand {
    /// What it names stands in place of what was reduced.
    Follows,
    /// A throw stands in its place.
    Raises(Value),
    /// A completion travels outward.
    Travels(Completion),
    /// The completion travels that the `finally` kept.
    Resumes,
    /// Values are printed.
    Prints,
    /// An evaluation ends, by an effect or by a limit.
    Effect,
    Full(Counted),
    /// There is no memory.
    Memory,
}

/// What a row's answer asks for.
#[inline(always)]
pub fn demand_of(reduced: Reduced) -> Demand
    ensures { result ≡ demand_of reduced }
{
    match reduced {
        Reduced::Raises(value) => Demand::Raises(value),
        Reduced::Returns(value) => Demand::Travels(Completion::Returns(value)),
        Reduced::Breaks => Demand::Travels(Completion::Breaks),
        Reduced::Continues => Demand::Travels(Completion::Continues),
        Reduced::Resumes => Demand::Resumes,
        Reduced::Prints => Demand::Prints,
        Reduced::Effect => Demand::Effect,
        Reduced::Full(what) => Demand::Full(what),
        Reduced::Memory => Demand::Memory,
        _ => Demand::Follows,
    }
}

/// How a completion ends the run that nothing takes.
pub fn finished_by(completion: Completion) -> Finish
    ensures { result ≡ finished_by completion }
{
    match completion {
        Completion::Throws(value, place) => Finish::Threw(value, place),
        Completion::Returns(value) => Finish::Ended(value),
        Completion::Breaks => Finish::Ended(Value::Undefined),
        Completion::Continues => Finish::Ended(Value::Undefined),
    }
}

/// What a step tells that goes on if there is memory.
#[inline(always)]
pub fn went_of(outcome: Result<(), AllocError>) -> Stepped
    ensures { result ≡ went_of outcome }
{
    match outcome {
        Ok(()) => Stepped::Went,
        Err(_) => Stepped::Memory,
    }
}

/// Whether a step went that goes on if there is memory; otherwise `told` says that there is none.
#[inline(always)]
pub fn has_gone(outcome: Result<(), AllocError>, told: &mut Stepped) -> bool
    ensures { told_by result told.new ≡ went_of outcome }
{
    match outcome {
        Ok(()) => true,
        Err(_) => {
            *told = Stepped::Memory;
            false
        }
    }
}
