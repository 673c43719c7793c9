//! Which rule stops the program.

ghost use Rattle.std.specs.Prelude.{◌≡◌, ◌↔◌, false, is_some, IsTrue, IfNone, IfSome};
ghost use Rattle.stepping.specs.Beside.{IsNamedBeside};
ghost use Rattle.stepping.specs.Causes.{EndsAt, IsFirst, NoneHolds, StopsAtRaise, ends_at, first_cause, stops_at_raise};

use crate::arrival::Arrival;
use crate::cause::Cause;
use crate::rules::{Exceptions, Rules, StepKind, StepRequest};

/// Whether a step that raised a throw, or none, stops the program for it.
fn stops_at_raise(exceptions: Exceptions, raised: Option<bool>) -> bool
    ensures value { result ≡ stops_at_raise exceptions raised }
    ensures holds { IsTrue result ↔ StopsAtRaise exceptions raised }
{
    match exceptions {
        Exceptions::Never => false,
        Exceptions::Uncaught => raised == Some(true),
        Exceptions::All => raised.is_some(),
    }
}

/// Whether the step that was asked for ends at an arrival at a depth.
fn ends_at(step: StepRequest, depth: usize) -> bool
    ensures value { result ≡ ends_at step.kind step.depth depth }
    ensures holds { IsTrue result ↔ EndsAt step.kind step.depth depth }
{
    match step.kind {
        StepKind::Into => true,
        StepKind::Over => depth <= step.depth,
        StepKind::Out => depth < step.depth,
    }
}

/// The first rule of a session by which a step stops the program, if there is one: none where the session isn't enabled or
/// skips. `hit` says whether an active breakpoint of the session is at the place of the arrival, and its condition holds
/// there; without an arrival it counts for nothing.
///
/// A session that doesn't name a step may be stopped by it all the same, where another one does.
pub fn first_cause(rules: &Rules, arrival: &Arrival, hit: bool) -> Option<Cause>
    ensures cause { result ≡ first_cause rules.now arrival.now hit }
    ensures first { IfSome result (IsFirst rules.now arrival.now hit) }
    ensures none { IfNone result (NoneHolds rules.now arrival.now hit) }
{
    if !rules.enabled || rules.skip {
        return None;
    }
    if stops_at_raise(rules.exceptions, arrival.raised) {
        return Some(Cause::Exception);
    }
    let place = arrival.place?;
    if hit {
        Some(Cause::Breakpoint)
    } else if arrival.debugger {
        Some(Cause::DebuggerStatement)
    } else if rules.pause {
        Some(Cause::Pause)
    } else if rules.step.is_some_and(|step| ends_at(step, arrival.depth)) {
        Some(Cause::Step)
    } else if rules.to == Some(place) {
        Some(Cause::ContinueTo)
    } else {
        None
    }
}

/// Whether a rule other than that of breakpoints names a step.
pub fn wants(rules: &Rules, arrival: &Arrival) -> bool
    ensures value { result ≡ is_some (first_cause rules.now arrival.now false) }
    ensures named { IsTrue result ↔ IsNamedBeside rules.now arrival.now }
{
    first_cause(rules, arrival, false).is_some()
}
