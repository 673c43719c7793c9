//! What operations on a world come to, as answers of rows.

ghost use Rattle.std.specs.Prelude.{◌≡◌};
ghost use Rattle.js_machine_rows.specs.Does.{stopped, replied, replied_with, calling, assigning};

use js_heap::value::Value;
use js_machine_actions::action_end::ActionEnd;
use js_machine_engine::reduced::Reduced;

/// The end of an action.
pub fn stopped(stop: ActionEnd) -> Reduced
    ensures { result ≡ stopped stop }
{
    match stop {
        ActionEnd::Raised(value) => Reduced::Raises(value),
        ActionEnd::Given(value) => Reduced::Gives(value),
        ActionEnd::Effect => Reduced::Effect,
        ActionEnd::Full(what) => Reduced::Full(what),
        ActionEnd::Memory => Reduced::Memory,
    }
}

/// A value that is given, or the end of an action before that.
pub fn replied(outcome: Result<Value, ActionEnd>) -> Reduced
    ensures { result ≡ replied outcome }
{
    match outcome {
        Ok(value) => Reduced::Gives(value),
        Err(stop) => stopped(stop),
    }
}

/// A value that is given once something is done, or the end of an action before that.
#[inline(always)]
pub fn replied_with(outcome: Result<(), ActionEnd>, value: Value) -> Reduced
    ensures { result ≡ replied_with outcome value }
{
    match outcome {
        Ok(()) => Reduced::Gives(value),
        Err(stop) => stopped(stop),
    }
}

/// A value that is called, or the end of an action before that.
#[inline(always)]
pub fn calling(outcome: Result<Value, ActionEnd>) -> Reduced
    ensures { result ≡ calling outcome }
{
    match outcome {
        Ok(value) => Reduced::Calls(value),
        Err(stop) => stopped(stop),
    }
}

/// An old value on which an operator is taken, or the end of an action before that.
#[inline(always)]
pub fn assigning(outcome: Result<Value, ActionEnd>) -> Reduced
    ensures { result ≡ assigning outcome }
{
    match outcome {
        Ok(value) => Reduced::Assigns(value),
        Err(stop) => stopped(stop),
    }
}
