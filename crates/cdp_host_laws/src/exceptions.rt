//! The laws of exceptions: a session is told of its own ones by their numbers, 1, 2, 3 and so on, each once. Each function
//! does nothing: its contract is the law, for every history of any scripts.

ghost use Rattle.std.specs.Prelude.{◌≡◌, ℕ, suc, ◌+◌, List, [], ◌∷◌, ◌++◌, length, codes, Bool, filter};
ghost use Rattle.cdp_host_isolation.specs.Histories.{Attach, Entry, Ran, Tell};
ghost use Rattle.cdp_host_isolation.specs.Seats.{seat_of};
ghost use Rattle.cdp_host_isolation.specs.declared.seat.Seat.TheVariants.{Attached};
ghost use Rattle.js_tree.specs.declared.script.Script.{Script};
ghost use Rattle.js_semantics.specs.Run.{Run};
ghost use Rattle.cdp_session.specs.Sessions.{Session};
ghost use Rattle.cdp_host.specs.Histories.{Meaning, whole};
ghost use Rattle.cdp_host_laws.specs.Entries.{IsOfOther};
ghost use Rattle.cdp_host_laws.specs.Events.{StaysOver, events_of};
ghost use Rattle.cdp_host_laws.specs.Exceptions.{Counts, IsEventOf, IsReplyOf, tells_exception};

/// A text that a session tells is answered by the number of its next exception, once, or it tells of none.
pub fn a_reply_tells_of_the_next_exception()
    ensures { (scripts : List Script) (input : List (List ℕ)) (wait : Bool) (s : ℕ) (history : List Entry)
        (text : List ℕ) (m k : Meaning Run) (x y : Session) (new : List (List ℕ))
        → StaysOver scripts input wait s history (Tell s text) m k x y → y.outbox ≡ x.outbox ++ new
        → Counts IsReplyOf x.exceptions y.exceptions (filter tells_exception new) }
{}

/// An entry that makes no steps and isn't the session's own counts no exception of it.
pub fn others_count_no_exception()
    ensures { (scripts : List Script) (input : List (List ℕ)) (wait : Bool) (s : ℕ) (history : List Entry)
        (entry : Entry) (m k : Meaning Run) (x y : Session)
        → StaysOver scripts input wait s history entry m k x y → IsOfOther s entry → y.exceptions ≡ x.exceptions }
{}

/// A run tells a session by `Runtime.exceptionThrown` of its next exception, once, or of none.
pub fn a_run_tells_of_the_next_exception()
    ensures { (scripts : List Script) (input : List (List ℕ)) (wait : Bool) (s n moment : ℕ) (gone : List ℕ)
        (history : List Entry) (m k : Meaning Run) (x y : Session) (new : List (List ℕ))
        → StaysOver scripts input wait s history (Ran (suc n) moment gone) m k x y → y.outbox ≡ x.outbox ++ new
        → Counts (IsEventOf moment) x.exceptions y.exceptions (events_of (codes "Runtime.exceptionThrown") new) }
{}

/// A session that was attached just now was told of none, and no text waits for it.
pub fn a_new_session_was_told_of_no_exception()
    ensures { (scripts : List Script) (input : List (List ℕ)) (wait : Bool) (history : List Entry) (x : Session)
        → seat_of (length (whole scripts input wait history).seats + 1)
        (whole scripts input wait (history ++ Attach ∷ [])).seats ≡ Attached x
        → (x.exceptions ≡ 0) × (x.outbox ≡ []) }
{}
