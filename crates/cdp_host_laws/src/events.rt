//! The laws of events: each is sent once, to those that have its domain enabled. They are told by the texts that wait
//! for a session before an entry of a history and after it. Each function does nothing: its contract is the law, for
//! every history of any scripts.

ghost use Rattle.std.specs.Prelude.{◌≡◌, ℕ, suc, List, ◌++◌, Bool, ◌&&◌};
ghost use Rattle.cdp_host_isolation.specs.Alone.{has_resumed};
ghost use Rattle.cdp_host_isolation.specs.Histories.{Entry, Ran, Tell};
ghost use Rattle.cdp_host_isolation.specs.Meanings.{is_paused};
ghost use Rattle.js_tree.specs.declared.script.Script.{Script};
ghost use Rattle.js_semantics.specs.Run.{Run};
ghost use Rattle.cdp_session.specs.Sessions.{Session};
ghost use Rattle.cdp_host.specs.Histories.{Meaning};
ghost use Rattle.cdp_host_laws.specs.Entries.{IsOfOther};
ghost use Rattle.cdp_host_laws.specs.Events.{ReplySends, RunSends, StaysOver, goes_on_if};

/// A run sends each session that stays attached over it: one `Debugger.paused`, with the number of the stop, where the
/// program is paused then and the session has the debugger enabled, and none else; one `Runtime.consoleAPICalled` for
/// each text that the program printed, with the moment of the run, where the session has the domain Runtime enabled,
/// and none else; to the same one event of a throw that ended the program, and one of the end; and no reply.
pub fn a_run_sends_each_event_once()
    ensures { (scripts : List Script) (input : List (List ℕ)) (wait : Bool) (s n moment : ℕ) (gone : List ℕ)
        (history : List Entry) (m k : Meaning Run) (x y : Session)
        → StaysOver scripts input wait s history (Ran (suc n) moment gone) m k x y → RunSends s moment m k x y }
{}

/// An entry that makes no steps and isn't the session's own sends it one `Debugger.resumed` where the program goes on
/// by it and the session has the debugger enabled, and nothing else.
pub fn others_send_a_resume_once()
    ensures { (scripts : List Script) (input : List (List ℕ)) (wait : Bool) (s : ℕ) (history : List Entry)
        (entry : Entry) (m k : Meaning Run) (x y : Session)
        → StaysOver scripts input wait s history entry m k x y → IsOfOther s entry
        → y.outbox ≡ x.outbox ++ goes_on_if (has_resumed m k && x.rules.enabled) }
{}

/// A text that a session tells sends it one reply, and beside it: `Debugger.scriptParsed` for each script, in order, and
/// one `Debugger.paused` if the program is paused, where the session enabled the debugger by it, and none else; and one
/// `Debugger.resumed`, where the program goes on by it and the session has the debugger enabled.
pub fn a_reply_sends_each_event_once()
    ensures { (scripts : List Script) (input : List (List ℕ)) (wait : Bool) (s : ℕ) (history : List Entry)
        (text : List ℕ) (m k : Meaning Run) (x y : Session)
        → StaysOver scripts input wait s history (Tell s text) m k x y
        → ReplySends scripts (is_paused m) (has_resumed m k) x y }
{}
