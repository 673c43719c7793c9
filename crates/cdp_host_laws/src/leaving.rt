//! What becomes of a paused program and of the other sessions where one session lets it go on, leaves, skips pauses, or
//! is refused.

ghost use Rattle.std.specs.Prelude.{◌≡◌, ℕ, List, [], ◌∷◌, Bool, true, false, Option, None};
ghost use Rattle.cdp_json.specs.Messages.{refusal_text};
ghost use Rattle.cdp_json.specs.declared.params.Params.TheVariants as params;
ghost use Rattle.cdp_json.specs.declared.refusal.Refusal.{Refusal};
ghost use Rattle.cdp_host_isolation.specs.Histories.{Entry};
ghost use Rattle.cdp_host_isolation.specs.Meanings.{is_first, is_paused};
ghost use Rattle.cdp_host_isolation.specs.Seats.{is_attached, seat_of};
ghost use Rattle.cdp_host_isolation.specs.declared.seat.Seat.TheVariants.{Attached};
ghost use Rattle.js_tree.specs.declared.script.Script.{Script};
ghost use Rattle.stepping.specs.declared.arrival.Arrival.{Arrival};
ghost use Rattle.cdp_session.specs.Replies.{IsRefused, outcome_of};
ghost use Rattle.cdp_session.specs.Sessions.{Session, sent};
ghost use Rattle.cdp_session.specs.Situations.{Standing};
ghost use Rattle.cdp_session.specs.Stops.{cause_of};
ghost use Rattle.cdp_host.specs.Histories.{whole};
ghost use Rattle.cdp_host.specs.Protocols.{situation};
ghost use Rattle.cdp_host.specs.Rules.{NoOtherEnabled};
ghost use Rattle.cdp_host.specs.Standings.{standing_of};
ghost use Rattle.cdp_host_laws.specs.Commands.{HasNoBreakpoint, HasNoRequest, IsTold, WantsNoThrows, then_told};
ghost use Rattle.cdp_host_laws.specs.Leaving.{ChangesOnly, IsLeftToOthers, IsRead, then_left};
ghost use Rattle.cdp_host_laws.specs.Stopping.{GoesOnUntil, arrived};
ghost use Rattle.cdp_host_laws.specs.Words.{at_debugger};

/// A paused program isn't paused after a client let it go on, whatever other sessions there are.
pub fn a_resume_leaves_no_pause()
    ensures { (scripts : List Script) (input : List (List ℕ)) (wait : Bool) (history : List Entry) (s : ℕ)
        (text : List ℕ) (x : Session)
        → seat_of s (whole scripts input wait history).seats ≡ Attached x → x.rules.enabled ≡ true
        → is_paused (whole scripts input wait history) ≡ true
        → IsTold scripts input wait history s text params.Resume
        → is_paused (whole scripts input wait (then_told history s text)) ≡ false }
{}

/// A session that disables its debugger leaves a paused program to the others: it stays paused at the same stop where
/// one of them has the debugger enabled, and goes on where none has.
pub fn disabling_leaves_the_pause_to_others()
    ensures { (scripts : List Script) (input : List (List ℕ)) (wait : Bool) (history : List Entry) (s : ℕ)
        (text : List ℕ) (x : Session)
        → seat_of s (whole scripts input wait history).seats ≡ Attached x → IsRead text params.DebuggerDisable
        → IsLeftToOthers s (whole scripts input wait history) (whole scripts input wait (then_told history s text)) }
{}

/// So does a session that is detached.
pub fn a_detach_leaves_the_pause_to_others()
    ensures { (scripts : List Script) (input : List (List ℕ)) (wait : Bool) (history : List Entry) (s : ℕ) (x : Session)
        → seat_of s (whole scripts input wait history).seats ≡ Attached x
        → IsLeftToOthers s (whole scripts input wait history) (whole scripts input wait (then_left history s)) }
{}

/// A text that is refused adds its refusal to the texts that wait for its session, and changes nothing else: neither
/// the program, nor its pause, nor another session.
pub fn a_refusal_changes_only_what_waits()
    ensures { (scripts : List Script) (input : List (List ℕ)) (wait : Bool) (history : List Entry) (s : ℕ)
        (text : List ℕ) (x : Session) (id : Option ℕ) (refusal : Refusal)
        → seat_of s (whole scripts input wait history).seats ≡ Attached x
        → outcome_of (situation scripts (whole scripts input wait history).stop
        (standing_of scripts (whole scripts input wait history).program)) x text ≡ IsRefused id refusal
        → is_attached (seat_of s (whole scripts input wait (then_told history s text)).seats) ≡ true
        → ChangesOnly s (sent (refusal_text id refusal ∷ []) x) (whole scripts input wait history)
        (whole scripts input wait (then_told history s text)) }
{}

/// A program that runs is stopped by nothing once the only session that has the debugger enabled skips all pauses,
/// whatever else it asks for.
pub fn skipping_all_pauses_stops_nowhere()
    ensures { (scripts : List Script) (input : List (List ℕ)) (wait : Bool) (history : List Entry) (s : ℕ)
        (text : List ℕ) (x : Session)
        → seat_of s (whole scripts input wait history).seats ≡ Attached x → x.rules.enabled ≡ true
        → NoOtherEnabled s (whole scripts input wait history)
        → is_paused (whole scripts input wait history) ≡ false
        → is_first (whole scripts input wait history).phase ≡ false
        → IsTold scripts input wait history s text (params.SetSkipAllPauses true)
        → GoesOnUntil (λ r. false) scripts input wait (then_told history s text) s }
{}

/// Breakpoints that were set inactive stop a program nowhere, whichever they are: where its session asks for nothing
/// else, it goes on until a `debugger` statement.
pub fn inactive_breakpoints_stop_nowhere()
    ensures { (scripts : List Script) (input : List (List ℕ)) (wait : Bool) (history : List Entry) (s : ℕ)
        (text : List ℕ) (x : Session)
        → seat_of s (whole scripts input wait history).seats ≡ Attached x → x.rules.enabled ≡ true
        → x.rules.skip ≡ false → NoOtherEnabled s (whole scripts input wait history)
        → HasNoRequest x → WantsNoThrows x
        → is_paused (whole scripts input wait history) ≡ false
        → is_first (whole scripts input wait history).phase ≡ false
        → IsTold scripts input wait history s text (params.SetBreakpointsActive false)
        → GoesOnUntil (arrived scripts at_debugger) scripts input wait (then_told history s text) s }
{}

/// A session that skips all pauses names no stop by any rule, whatever else it asks for and wherever the program
/// arrives.
pub fn a_session_that_skips_names_nothing()
    ensures { (scripts : List Script) (input : List (List ℕ)) (wait : Bool) (history : List Entry) (s : ℕ)
        (text : List ℕ) (x y : Session)
        → seat_of s (whole scripts input wait history).seats ≡ Attached x → x.rules.enabled ≡ true
        → IsTold scripts input wait history s text (params.SetSkipAllPauses true)
        → seat_of s (whole scripts input wait (then_told history s text)).seats ≡ Attached y
        → (st : Standing) (a : Arrival) → cause_of st a y ≡ None }
{}

/// No breakpoint of a session that set its breakpoints inactive is hit anywhere.
pub fn inactive_breakpoints_are_hit_nowhere()
    ensures { (scripts : List Script) (input : List (List ℕ)) (wait : Bool) (history : List Entry) (s : ℕ)
        (text : List ℕ) (x y : Session)
        → seat_of s (whole scripts input wait history).seats ≡ Attached x → x.rules.enabled ≡ true
        → IsTold scripts input wait history s text (params.SetBreakpointsActive false)
        → seat_of s (whole scripts input wait (then_told history s text)).seats ≡ Attached y
        → HasNoBreakpoint y }
{}
