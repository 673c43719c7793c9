//! The laws of identity: whose number a session has, and how stops are counted. Each function does nothing: its
//! contract is the law, for every history of any scripts.

ghost use Rattle.std.specs.Prelude.{◌≡◌, ◌≤◌, ℕ, ◌^◌, List, Bool, length, map};
ghost use Rattle.cdp_host_isolation.specs.Histories.{Entry, steps_made};
ghost use Rattle.cdp_host_isolation.specs.Seats.{numbers_from, seat_of};
ghost use Rattle.cdp_host_isolation.specs.declared.seat.Seat.TheVariants.{Attached};
ghost use Rattle.js_tree.specs.declared.script.Script.{Script};
ghost use Rattle.cdp_session.specs.Sessions.{Session};
ghost use Rattle.cdp_host.specs.Histories.{IsHistory, whole};
ghost use Rattle.cdp_host_laws.specs.Lives.{HasLived};
ghost use Rattle.cdp_host_laws.specs.Identity.{number_of_stop, stops_of};
ghost use Rattle.cdp_host_laws.specs.StopsMade.{IsLast};

/// The session in the seat of a number has that number, whatever happened before.
pub fn a_session_has_the_number_of_its_seat()
    ensures { (scripts : List Script) (input : List (List ℕ)) (wait : Bool) (s : ℕ) (history : List Entry)
        (x : Session) → IsHistory scripts input wait history
        → seat_of s (whole scripts input wait history).seats ≡ Attached x → x.number ≡ s }
{}

/// An attached session became what it is by the events of one session alone, from the text that it told first to the
/// last taking of its texts: so what the laws of `cdp_session_laws` say holds of it.
pub fn a_session_of_a_history_has_lived()
    ensures { (scripts : List Script) (input : List (List ℕ)) (wait : Bool) (s : ℕ) (history : List Entry)
        (x : Session) → IsHistory scripts input wait history
        → seat_of s (whole scripts input wait history).seats ≡ Attached x → HasLived scripts s x }
{}

/// The stops of a history have the numbers 1, 2, 3 and so on, as many as there are, up to 2^62 of them: so no two have
/// the same.
pub fn stops_are_counted_from_one()
    ensures { (scripts : List Script) (input : List (List ℕ)) (wait : Bool) (history : List Entry)
        → IsHistory scripts input wait history → length (stops_of scripts input wait history) ≤ 2 ^ 62
        → map number_of_stop (stops_of scripts input wait history)
        ≡ numbers_from 1 (length (stops_of scripts input wait history)) }
{}

/// No history makes more stops than steps.
pub fn stops_are_at_most_the_steps()
    ensures { (scripts : List Script) (input : List (List ℕ)) (wait : Bool) (history : List Entry)
        → length (stops_of scripts input wait history) ≤ steps_made history }
{}

/// A program that is paused is so at the last of them.
pub fn a_pause_is_the_last_stop()
    ensures { (scripts : List Script) (input : List (List ℕ)) (wait : Bool) (history : List Entry)
        → IsLast (stops_of scripts input wait history) (whole scripts input wait history).stop }
{}
