//! The seats of a host's sessions: who has the debugger enabled, and what a resume does.

ghost use Rattle.std.specs.Prelude.{◌≡◌, List};
ghost use Rattle.cdp_host_isolation.specs.Meanings.{is_enabled_seat};
ghost use Rattle.cdp_host_isolation.specs.Passes.{HearsOn, OverAll};
ghost use Rattle.cdp_host_isolation.specs.Runs.{AllFit};
ghost use Rattle.cdp_host_isolation.specs.Seats.{lost_by, some};
ghost use Rattle.cdp_host_isolation.specs.Texts.{Fits};
ghost use Rattle.js_tree.specs.declared.script.Script.{Script};
ghost use Rattle.cdp_host.specs.Protocols.{protocol};
ghost use Rattle.cdp_host.specs.Watching.{loss_of};

use cdp_host_isolation::{Loss, Seat};
use cdp_session::Session;
use cdp_session_messages::SessionEnd;

/// Why a session is lost that ended so.
fn loss_of(end: SessionEnd) -> Loss
    ensures { result ≡ loss_of end }
{
    match end {
        SessionEnd::Overrun => Loss::Overrun,
        SessionEnd::Memory => Loss::Memory,
    }
}

/// The seat of a session that ended so: no run has reported that, and its owner wasn't told.
pub(crate) fn lost_by<'p>(end: SessionEnd) -> Seat<Session<'p>>
    ensures { result ≡ lost_by (loss_of end) }
{
    Seat::Lost {
        loss: loss_of(end),
        reported: false,
        told: false,
    }
}

// ---- what keeps a program from going on

/// Whether a session is attached there that has the debugger enabled.
fn is_enabled(seat: &Seat<Session>) -> bool
    ensures { (scripts : List Script) → result ≡ is_enabled_seat (protocol scripts) seat.now }
{
    match seat {
        Seat::Attached(session) => session.enabled(),
        Seat::Lost { .. } | Seat::Left => false,
    }
}

/// Whether some attached session has the debugger enabled.
pub(crate) fn some_enabled(seats: &[Seat<Session>]) -> bool
    ensures { (scripts : List Script) → result ≡ some (is_enabled_seat (protocol scripts)) seats.now }
{
    for seat in seats {
        if is_enabled(seat) {
            return true;
        }
    }
    false
}

// ---- resumes

/// Tells the session of a seat, if one is attached there, that the program goes on. It is lost where the text doesn't fit, or
/// where there is no memory for it.
fn resume_seat(seat: &mut Seat<Session>)
    requires { (scripts : List Script) → Fits (protocol scripts) seat.old }
    ensures { (scripts : List Script) → HearsOn (protocol scripts) seat.old seat.new }
{
    if let Seat::Attached(session) = seat {
        if let Err(end) = session.resumed() {
            *seat = lost_by(end);
        }
    }
}

/// Tells all attached sessions that the program goes on.
pub(crate) fn resume_all(seats: &mut [Seat<Session>])
    requires { (scripts : List Script) → AllFit (protocol scripts) seats.old }
    ensures { (scripts : List Script) → OverAll (HearsOn (protocol scripts)) seats.old seats.new }
{
    for seat in seats.iter_mut() {
        resume_seat(seat);
    }
}
