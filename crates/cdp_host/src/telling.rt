//! What one session is told, and what it hands out.

ghost use Rattle.std.specs.Prelude.{◌≡◌, false, true, map, string_bytes, IfOk, IsErrOf, OnOk};
ghost use Rattle.breakpoints.specs.PlaceIndex.{without_session};
ghost use Rattle.cdp_host_isolation.specs.Seats.{put, seat_of};
ghost use Rattle.cdp_host_isolation.specs.declared.seat.Seat.TheVariants.{Attached};
ghost use Rattle.cdp_session_messages.specs.Outboxes.{fits};
ghost use Rattle.cdp_session.specs.Replies.{answer_of};
ghost use Rattle.cdp_session.specs.Sessions.{Session as Kept, emptied};
ghost use Rattle.cdp_session.specs.Situations.{HasSpots, seen};
ghost use Rattle.cdp_host.specs.Indexing.{IsIndexedAs};
ghost use Rattle.cdp_host.specs.Watching.{AnswersAs, AnswersIn};

use breakpoints::PlaceIndex;
use cdp_host_isolation::Seat;
use cdp_host_seats::seat_index;
use cdp_json::ReadingRoom;
use cdp_session::{Asks, Program, Session, Situation};
use cdp_session_messages::SessionEnd;
use std::alloc::Global;

/// Answers a text of a session of this number, which is read in this room, and says what it asks of the program. An
/// index that has the places of its breakpoints has them behind the text too: they are set anew where the text leaves
/// another number of breakpoints, which is the only way in which it changes them.
///
/// # Errors
///
/// The texts of the answer don't fit, or there is no memory for them or for the places. The session is to be dropped.
fn tell_indexed<P: Program>(
    index: &mut PlaceIndex,
    room: &mut ReadingRoom,
    s: u64,
    session: &mut Session,
    situation: &Situation<'_, P>,
    text: &str,
) -> Result<Asks, SessionEnd>
    requires { HasSpots situation.now }
    ensures session { OnOk result (session.new ≡ (answer_of (seen P.standing situation.now) session.old text.now).session) }
    ensures fits { OnOk result (fits (answer_of (seen P.standing situation.now) session.old text.now).session.outbox ≡ true) }
    ensures over { IsErrOf result SessionEnd.Overrun → fits (answer_of (seen P.standing situation.now) session.old text.now).session.outbox ≡ false }
    ensures asks { IfOk result (λ asks. asks ≡ (answer_of (seen P.standing situation.now) session.old text.now).asks) }
    ensures indexed { IsIndexedAs s (Attached session.old) index.old → OnOk result (IsIndexedAs s (Attached session.new) index.new) }
    ensures others { without_session s index.new ≡ without_session s index.old }
{
    let count = session.breakpoint_count();
    let asks = session.tell(situation, room, text)?;
    if session.breakpoint_count() == count {
        return Ok(asks);
    }
    index.set(s, session.places())?;
    Ok(asks)
}

/// Answers a text of the session of this number, which has this seat, and says what it asks of the program. The text is
/// read in this room. An index that has the places of the seat has them behind the text too.
///
/// # Errors
///
/// The texts of the answer don't fit, or there is no memory for them or for the places. The session is detached.
fn answer_seat<P: Program>(
    index: &mut PlaceIndex,
    room: &mut ReadingRoom,
    s: u64,
    seat: &mut Seat<Session>,
    situation: &Situation<'_, P>,
    text: &str,
) -> Result<Asks, SessionEnd>
    requires { HasSpots situation.now }
    ensures answers { (x : Kept) → seat.old ≡ Attached x → AnswersAs result (answer_of (seen P.standing situation.now) x text.now) seat.new }
    ensures indexed { IsIndexedAs s seat.old index.old → IsIndexedAs s seat.new index.new }
    ensures others { without_session s index.new ≡ without_session s index.old }
{
    let Seat::Attached(session) = seat else {
        return Err(SessionEnd::Memory);
    };
    match tell_indexed(index, room, s, session, situation, text) {
        Ok(asks) => Ok(asks),
        Err(end) => {
            *seat = Seat::Left;
            index.forget(s);
            Err(end)
        }
    }
}

/// Answers a text of the session of this number, which is read in this room, and says what it asks of the program. An
/// index that has the places of its seat has them behind the text too.
///
/// # Errors
///
/// The texts of the answer don't fit, or there is no memory for them or for the places. The session is detached.
pub(crate) fn answer<P: Program>(
    index: &mut PlaceIndex,
    room: &mut ReadingRoom,
    seats: &mut [Seat<Session>],
    s: u64,
    situation: &Situation<'_, P>,
    text: &str,
) -> Result<Asks, SessionEnd>
    requires { HasSpots situation.now }
    ensures answers { (x : Kept) → seat_of s seats.old ≡ Attached x → AnswersIn result (answer_of (seen P.standing situation.now) x text.now) s seats.old seats.new }
    ensures indexed { (x : Kept) → seat_of s seats.old ≡ Attached x → IsIndexedAs s (Attached x) index.old → IsIndexedAs s (seat_of s seats.new) index.new }
    ensures others { without_session s index.new ≡ without_session s index.old }
{
    match seat_index(seats, s) {
        Some(place) => answer_seat(index, room, s, &mut seats[place], situation, text),
        None => Err(SessionEnd::Memory),
    }
}

/// Hands out the texts that wait for the session of a seat.
fn take_seat(alloc: Global, seat: &mut Seat<Session>) -> Vec<String>
    ensures texts { (x : Kept) → seat.old ≡ Attached x → map string_bytes result.items ≡ x.outbox }
    ensures seat { (x : Kept) → seat.old ≡ Attached x → seat.new ≡ Attached (emptied x) }
{
    match seat {
        Seat::Attached(session) => session.take(),
        Seat::Lost { .. } | Seat::Left => Vec::new(alloc),
    }
}

/// Hands out the texts that wait for the session of this number.
pub(crate) fn take(alloc: Global, seats: &mut [Seat<Session>], s: u64) -> Vec<String>
    ensures texts { (x : Kept) → seat_of s seats.old ≡ Attached x → map string_bytes result.items ≡ x.outbox }
    ensures seats { (x : Kept) → seat_of s seats.old ≡ Attached x → seats.new ≡ put s (Attached (emptied x)) seats.old }
{
    match seat_index(seats, s) {
        Some(index) => take_seat(alloc, &mut seats[index]),
        None => Vec::new(alloc),
    }
}
