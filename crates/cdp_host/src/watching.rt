//! How sessions watch the steps of a program.
//!
//! The first pass over the seats tells each session of the print and the end and asks it for a stop; the second tells all
//! others of the stop. A session whose texts don't fit is lost where that shows, and names nothing there.

ghost use Rattle.std.specs.Prelude.{◌≡◌, ◌<◌, ◌^◌, length, true, false, IfOk, OnOk, IsErrOf, None};
ghost use Rattle.cdp_host_isolation.specs.Passes.{Behind, HearsOf, Over, Watches, any_set};
ghost use Rattle.cdp_host_isolation.specs.Runs.{AllFit};
ghost use Rattle.cdp_host_isolation.specs.Texts.{Fits};
ghost use Rattle.cdp_session_messages.specs.Outboxes.{fits};
ghost use Rattle.cdp_session.specs.Situations.{seen};
ghost use Rattle.cdp_session.specs.Stops.{cause_of};
ghost use Rattle.cdp_host.specs.Protocols.{protocol};
ghost use Rattle.cdp_host.specs.Steps.{end_told, is_started, names_stop, print_told, session_behind, told};
ghost use Rattle.cdp_host.specs.Watching.{step_seen, AreFlagged, IsFlagged};

use crate::seats::lost_by;
use cdp_host_isolation::Seat;
use cdp_session::{Ending, Named, Program, Session, Situation};
use cdp_session_messages::SessionEnd;
use js_heap::value::Value;
use stepping::{Arrival, Cause};

/// What a step tells of its program.
#[derive(Drop)]
pub(crate) struct Step {
    /// Where the program arrived.
    pub(crate) arrival: Arrival,
    /// The values that were printed, if any were; `console.log()` prints none.
    pub(crate) values: Option<Vec<Value>>,
    /// How the run ended, if it did.
    pub(crate) ending: Option<Ending>,
    /// Whether it was the first step of a program that a client let begin.
    pub(crate) first: bool,
}

/// Tells a session of values that were printed, if any were.
///
/// # Errors
///
/// The text doesn't fit, or there is no memory for it. The session is to be dropped.
fn tell_print<P: Program>(
    session: &mut Session,
    situation: &Situation<'_, P>,
    step: &Step,
    moment: u64,
) -> Result<(), SessionEnd>
    requires { moment < 2 ^ 53 }
    ensures session { OnOk result (session.new ≡ print_told (seen P.standing situation.now) (step_seen P.standing situation.now step.now).values moment session.old) }
    ensures fits { fits session.old.outbox ≡ true → OnOk result (fits (print_told (seen P.standing situation.now) (step_seen P.standing situation.now step.now).values moment session.old).outbox ≡ true) }
    ensures over { IsErrOf result SessionEnd.Overrun → fits (print_told (seen P.standing situation.now) (step_seen P.standing situation.now step.now).values moment session.old).outbox ≡ false }
{
    match &step.values {
        Some(values) => session.printed(situation, values.as_slice(), moment),
        None => Ok(()),
    }
}

/// Tells a session of the end of the run, if it ended.
///
/// # Errors
///
/// The texts don't fit, or there is no memory for them. The session is to be dropped.
fn tell_end<P: Program>(
    session: &mut Session,
    situation: &Situation<'_, P>,
    step: &Step,
    moment: u64,
) -> Result<(), SessionEnd>
    requires { moment < 2 ^ 53 }
    ensures session { OnOk result (session.new ≡ end_told (seen P.standing situation.now) step.now.ending moment session.old) }
    ensures fits { fits session.old.outbox ≡ true → OnOk result (fits (end_told (seen P.standing situation.now) step.now.ending moment session.old).outbox ≡ true) }
    ensures over { IsErrOf result SessionEnd.Overrun → fits (end_told (seen P.standing situation.now) step.now.ending moment session.old).outbox ≡ false }
{
    match step.ending {
        Some(ending) => session.ended(situation, ending, moment),
        None => Ok(()),
    }
}

/// Tells a session of what a step printed, and then of the end.
///
/// # Errors
///
/// The texts don't fit, or there is no memory for them. The session is to be dropped.
fn tell_step<P: Program>(
    session: &mut Session,
    situation: &Situation<'_, P>,
    step: &Step,
    moment: u64,
) -> Result<(), SessionEnd>
    requires { moment < 2 ^ 53 }
    ensures session { OnOk result (session.new ≡ told (seen P.standing situation.now) moment (step_seen P.standing situation.now step.now) session.old) }
    ensures fits { fits session.old.outbox ≡ true → OnOk result (fits (told (seen P.standing situation.now) moment (step_seen P.standing situation.now step.now) session.old).outbox ≡ true) }
    ensures over { IsErrOf result SessionEnd.Overrun → fits (told (seen P.standing situation.now) moment (step_seen P.standing situation.now step.now) session.old).outbox ≡ false }
{
    tell_print(session, situation, step, moment)?;
    tell_end(session, situation, step, moment)
}

/// Whether the start rule names the step, for this session.
fn is_started<P: Program>(session: &Session, situation: &Situation<'_, P>, step: &Step) -> bool
    ensures { result ≡ is_started (step_seen P.standing situation.now step.now) session.now }
{
    step.first && session.enabled() && !situation.program.is_over()
}

/// Whether a rule of the session, which is this cause, or the start rule names a stop after the step.
fn names_stop<P: Program>(
    cause: Option<Cause>,
    session: &Session,
    situation: &Situation<'_, P>,
    step: &Step,
) -> bool
    requires { cause ≡ cause_of (seen P.standing situation.now).standing step.now.arrival session.now }
    ensures { result ≡ names_stop (step_seen P.standing situation.now step.now) session.now }
{
    cause.is_some() || is_started(session, situation, step)
}

/// Tells a session of a step, and of the stop of this number where it names one; answers whether it names one.
///
/// # Errors
///
/// The texts don't fit, or there is no memory for them or for the evaluation of a condition. The session is to be dropped.
fn watch<P: Program>(
    session: &mut Session,
    situation: &Situation<'_, P>,
    number: u64,
    step: &Step,
    moment: u64,
) -> Result<bool, SessionEnd>
    requires { moment < 2 ^ 53 }
    ensures named { IfOk result (λ named. named ≡ names_stop (step_seen P.standing situation.now step.now) session.old) }
    ensures session { OnOk result (session.new ≡ session_behind (seen P.standing situation.now) number moment (step_seen P.standing situation.now step.now) session.old) }
    ensures fits { fits session.old.outbox ≡ true → OnOk result (fits (session_behind (seen P.standing situation.now) number moment (step_seen P.standing situation.now step.now) session.old).outbox ≡ true) }
    ensures over { IsErrOf result SessionEnd.Overrun → fits (session_behind (seen P.standing situation.now) number moment (step_seen P.standing situation.now step.now) session.old).outbox ≡ false }
{
    tell_step(session, situation, step, moment)?;
    let Named { cause, hits } = session.names(situation, &step.arrival)?;
    let named = names_stop(cause, session, situation, step);
    if !named {
        return Ok(false);
    }
    session.stopped(situation, number, &step.arrival, hits)?;
    Ok(true)
}

// ---- seats

/// Lets the session of a seat, if one is attached there, watch a step: it is told of the step, and of the stop of this number
/// where it names one. Answers whether it does. It is lost where its texts don't fit, or where there is no memory for them.
fn watch_seat<P: Program>(
    seat: &mut Seat<Session>,
    situation: &Situation<'_, P>,
    number: u64,
    step: &Step,
    moment: u64,
) -> bool
    requires moment { moment < 2 ^ 53 }
    requires going { situation.now.paused ≡ None }
    requires fit { Fits (protocol situation.now.scripts.now) seat.old }
    ensures { Watches (protocol situation.now.scripts.now) number moment (step_seen P.standing situation.now step.now) seat.old seat.new result }
{
    let Seat::Attached(session) = seat else {
        return false;
    };
    match watch(session, situation, number, step, moment) {
        Ok(named) => named,
        Err(end) => {
            *seat = lost_by(end);
            false
        }
    }
}

/// Lets all attached sessions watch a step, and notes for each whether it names a stop. Answers whether one does.
fn watch_all<P: Program>(
    seats: &mut [Seat<Session>],
    named: &mut [bool],
    situation: &Situation<'_, P>,
    number: u64,
    step: &Step,
    moment: u64,
) -> bool
    requires moment { moment < 2 ^ 53 }
    requires going { situation.now.paused ≡ None }
    requires fit { AllFit (protocol situation.now.scripts.now) seats.old }
    requires flags { length named.old ≡ length seats.old }
    ensures watched { Over (Watches (protocol situation.now.scripts.now) number moment (step_seen P.standing situation.now step.now)) seats.old seats.new named.new }
    ensures any { result ≡ any_set named.new }
{
    for index in 0..seats.len() {
        named[index] = watch_seat(&mut seats[index], situation, number, step, moment);
    }
    is_any_set(named)
}

/// Whether one of these is set.
fn is_any_set(flags: &[bool]) -> bool
    ensures { result ≡ any_set flags.now }
{
    for flag in flags {
        if *flag {
            return true;
        }
    }
    false
}

/// Tells the session of a seat, if one is attached there, of the stop of this number, unless it named it. It is lost where the
/// text doesn't fit, or where there is no memory for it.
fn stop_seat<P: Program>(
    seat: &mut Seat<Session>,
    named: bool,
    situation: &Situation<'_, P>,
    number: u64,
    step: &Step,
)
    requires going { situation.now.paused ≡ None }
    requires fit { Fits (protocol situation.now.scripts.now) seat.old }
    requires unnamed { IsFlagged (step_seen P.standing situation.now step.now) seat.old named }
    ensures { HearsOf (protocol situation.now.scripts.now) number (step_seen P.standing situation.now step.now) seat.old seat.new named }
{
    if named {
        return;
    }
    if let Seat::Attached(session) = seat {
        if let Err(end) = session.stopped_by_another(situation, number, &step.arrival) {
            *seat = lost_by(end);
        }
    }
}

/// Tells all attached sessions of the stop of this number but those that named it.
fn stop_all<P: Program>(
    seats: &mut [Seat<Session>],
    named: &[bool],
    situation: &Situation<'_, P>,
    number: u64,
    step: &Step,
)
    requires going { situation.now.paused ≡ None }
    requires fit { AllFit (protocol situation.now.scripts.now) seats.old }
    requires flags { length named.now ≡ length seats.old }
    requires unnamed { AreFlagged (step_seen P.standing situation.now step.now) seats.old named.now }
    ensures { Over (HearsOf (protocol situation.now.scripts.now) number (step_seen P.standing situation.now step.now)) seats.old seats.new named.now }
{
    for index in 0..seats.len() {
        stop_seat(&mut seats[index], named[index], situation, number, step);
    }
}

/// Lets all attached sessions watch a step: each is told of the step, and the program stops, with a stop of this number, exactly
/// where one names it that isn't lost at it; all are told of the stop then. Answers whether it stops.
pub(crate) fn let_watch<P: Program>(
    seats: &mut [Seat<Session>],
    named: &mut [bool],
    situation: &Situation<'_, P>,
    number: u64,
    step: &Step,
    moment: u64,
) -> bool
    requires moment { moment < 2 ^ 53 }
    requires going { situation.now.paused ≡ None }
    requires fit { AllFit (protocol situation.now.scripts.now) seats.old }
    requires flags { length named.old ≡ length seats.old }
    ensures behind { Over (Behind (protocol situation.now.scripts.now) result number moment (step_seen P.standing situation.now step.now)) seats.old seats.new named.new }
    ensures any { result ≡ any_set named.new }
{
    let stops = watch_all(seats, named, situation, number, step, moment);
    if stops {
        stop_all(seats, named, situation, number, step);
    }
    stops
}
