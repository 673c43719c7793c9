//! Where a command lets the program stop, for a session that debugs it alone and asks for nothing else. The words for
//! where that is, as `steps_over`, are those of the protocol's documentation, and cite no rule by which a session stops
//! a program.

ghost use Rattle.std.specs.Prelude.{◌≡◌, ℕ, List, [], ◌∷◌, Bool, true, false, Option, Some, None};
ghost use Rattle.cdp_text.specs.declared.position.Place.{Place};
ghost use Rattle.cdp_text.specs.declared.position.Pos.{Pos};
ghost use Rattle.breakpoints.specs.Ids.{place_id, url_id};
ghost use Rattle.cdp_json.specs.Messages.{result_text};
ghost use Rattle.cdp_json.specs.declared.params.ExceptionPauses.TheVariants as pauses;
ghost use Rattle.cdp_json.specs.declared.params.Location.{Location};
ghost use Rattle.cdp_json.specs.declared.params.Params.TheVariants as params;
ghost use Rattle.cdp_host_isolation.specs.Histories.{Entry};
ghost use Rattle.cdp_host_isolation.specs.Meanings.{is_first, is_paused, waits};
ghost use Rattle.cdp_host_isolation.specs.Seats.{seat_of};
ghost use Rattle.cdp_host_isolation.specs.declared.seat.Seat.TheVariants.{Attached};
ghost use Rattle.js_tree.specs.declared.script.Script.{Script};
ghost use Rattle.js_semantics.specs.Run.{Run};
ghost use Rattle.cdp_session.specs.Rows.{placed_in};
ghost use Rattle.cdp_session.specs.Sessions.{Session};
ghost use Rattle.cdp_session.specs.Situations.{script_of};
ghost use Rattle.cdp_session.specs.declared.situation.Pause.{Pause};
ghost use Rattle.cdp_session_messages.specs.Results.{set_at};
ghost use Rattle.cdp_host.specs.Histories.{whole};
ghost use Rattle.cdp_host.specs.Protocols.{reply_texts};
ghost use Rattle.cdp_host_laws.specs.Commands.{DebugsAlone, HasNoBreakpoint, HasNoRequest, IsTold, MaySet, WantsNoThrows, then_told};
ghost use Rattle.cdp_host_laws.specs.Leaving.{IsRead};
ghost use Rattle.cdp_host_laws.specs.Naming.{CommandsAreNamed, LocationsAreGiven, StatesAreNamed};
ghost use Rattle.cdp_host_laws.specs.Starting.{StopsAtFirstStep};
ghost use Rattle.cdp_host_laws.specs.Stopping.{GoesOnUntil, arrived, depth_after};
ghost use Rattle.cdp_host_laws.specs.Words.{AreFirstsOf, IsFirstFrom, at_any_throw, at_debugger, at_uncaught_throw, breaks_where, pauses_at, reaches, reaches_any, steps_into, steps_out, steps_over};

/// A paused program that a client lets step into goes on until the next break location, in whatever call.
pub fn step_into_stops_at_the_next_break_location()
    ensures { (scripts : List Script) (input : List (List ℕ)) (wait : Bool) (history : List Entry) (s : ℕ)
        (text : List ℕ) (x : Session)
        → DebugsAlone s x (whole scripts input wait history)
        → WantsNoThrows x → HasNoBreakpoint x
        → is_paused (whole scripts input wait history) ≡ true
        → IsTold scripts input wait history s text params.StepInto
        → GoesOnUntil (arrived scripts steps_into) scripts input wait (then_told history s text) s }
{}

/// A paused program that a client lets step over goes on until a break location that is no deeper than the pause, or a
/// `debugger` statement.
pub fn step_over_stops_no_deeper()
    ensures { (scripts : List Script) (input : List (List ℕ)) (wait : Bool) (history : List Entry) (s : ℕ)
        (text : List ℕ) (x : Session)
        → DebugsAlone s x (whole scripts input wait history)
        → WantsNoThrows x → HasNoBreakpoint x
        → is_paused (whole scripts input wait history) ≡ true
        → IsTold scripts input wait history s text params.StepOver
        → GoesOnUntil (arrived scripts (steps_over (depth_after scripts input wait history))) scripts input wait
        (then_told history s text) s }
{}

/// A paused program that a client lets step out goes on until a break location that is less deep than the pause, or a
/// `debugger` statement.
pub fn step_out_stops_less_deep()
    ensures { (scripts : List Script) (input : List (List ℕ)) (wait : Bool) (history : List Entry) (s : ℕ)
        (text : List ℕ) (x : Session)
        → DebugsAlone s x (whole scripts input wait history)
        → WantsNoThrows x → HasNoBreakpoint x
        → is_paused (whole scripts input wait history) ≡ true
        → IsTold scripts input wait history s text params.StepOut
        → GoesOnUntil (arrived scripts (steps_out (depth_after scripts input wait history))) scripts input wait
        (then_told history s text) s }
{}

/// A paused program that a client lets go on, which asks for nothing else, goes on until a `debugger` statement.
pub fn a_resume_stops_at_debugger_statements()
    ensures { (scripts : List Script) (input : List (List ℕ)) (wait : Bool) (history : List Entry) (s : ℕ)
        (text : List ℕ) (x : Session)
        → DebugsAlone s x (whole scripts input wait history)
        → WantsNoThrows x → HasNoBreakpoint x
        → is_paused (whole scripts input wait history) ≡ true
        → IsTold scripts input wait history s text params.Resume
        → GoesOnUntil (arrived scripts at_debugger) scripts input wait (then_told history s text) s }
{}

/// A paused program that a client lets continue to a location goes on until the first break location of that script
/// that isn't before the position, or a `debugger` statement.
pub fn continue_to_location_stops_there()
    ensures { (scripts : List Script) (input : List (List ℕ)) (wait : Bool) (history : List Entry) (s : ℕ)
        (text : List ℕ) (x : Session) (at : Location) (script : Script) (place : Place)
        → DebugsAlone s x (whole scripts input wait history)
        → WantsNoThrows x → HasNoBreakpoint x
        → is_paused (whole scripts input wait history) ≡ true
        → script_of at.script_id scripts ≡ Some script → IsFirstFrom script at.position place
        → IsTold scripts input wait history s text (params.ContinueToLocation at)
        → GoesOnUntil (arrived scripts (reaches place)) scripts input wait (then_told history s text) s }
{}

/// A program that runs and that a client asks to pause goes on until the next break location.
pub fn a_pause_stops_at_the_next_break_location()
    ensures { (scripts : List Script) (input : List (List ℕ)) (wait : Bool) (history : List Entry) (s : ℕ)
        (text : List ℕ) (x : Session)
        → DebugsAlone s x (whole scripts input wait history)
        → HasNoRequest x → WantsNoThrows x → HasNoBreakpoint x
        → is_paused (whole scripts input wait history) ≡ false
        → is_first (whole scripts input wait history).phase ≡ false
        → IsTold scripts input wait history s text params.Pause
        → GoesOnUntil (arrived scripts pauses_at) scripts input wait (then_told history s text) s }
{}

/// With `all`, a program goes on until a step raises a throw, or until a `debugger` statement.
pub fn all_throws_stop_the_program()
    ensures { (scripts : List Script) (input : List (List ℕ)) (wait : Bool) (history : List Entry) (s : ℕ)
        (text : List ℕ) (x : Session)
        → DebugsAlone s x (whole scripts input wait history)
        → HasNoRequest x → HasNoBreakpoint x
        → is_paused (whole scripts input wait history) ≡ false
        → is_first (whole scripts input wait history).phase ≡ false
        → IsTold scripts input wait history s text (params.SetPauseOnExceptions pauses.All)
        → GoesOnUntil (arrived scripts at_any_throw) scripts input wait (then_told history s text) s }
{}

/// With `uncaught`, it goes on until a step raises a throw that no `catch` takes, or until a `debugger` statement.
pub fn uncaught_throws_stop_the_program()
    ensures { (scripts : List Script) (input : List (List ℕ)) (wait : Bool) (history : List Entry) (s : ℕ)
        (text : List ℕ) (x : Session)
        → DebugsAlone s x (whole scripts input wait history)
        → HasNoRequest x → HasNoBreakpoint x
        → is_paused (whole scripts input wait history) ≡ false
        → is_first (whole scripts input wait history).phase ≡ false
        → IsTold scripts input wait history s text (params.SetPauseOnExceptions pauses.Uncaught)
        → GoesOnUntil (arrived scripts at_uncaught_throw) scripts input wait (then_told history s text) s }
{}

/// With `none`, no throw stops it: it goes on until a `debugger` statement.
pub fn no_throws_stop_the_program()
    ensures { (scripts : List Script) (input : List (List ℕ)) (wait : Bool) (history : List Entry) (s : ℕ)
        (text : List ℕ) (x : Session)
        → DebugsAlone s x (whole scripts input wait history)
        → HasNoRequest x → HasNoBreakpoint x
        → is_paused (whole scripts input wait history) ≡ false
        → is_first (whole scripts input wait history).phase ≡ false
        → IsTold scripts input wait history s text (params.SetPauseOnExceptions pauses.Never)
        → GoesOnUntil (arrived scripts at_debugger) scripts input wait (then_told history s text) s }
{}

/// A program in which a client sets a breakpoint goes on until the first break location of that script that isn't
/// before the position, or a `debugger` statement.
pub fn a_breakpoint_stops_there()
    ensures { (scripts : List Script) (input : List (List ℕ)) (wait : Bool) (history : List Entry) (s : ℕ)
        (text : List ℕ) (x : Session) (at : Location) (script : Script) (place : Place)
        → DebugsAlone s x (whole scripts input wait history)
        → HasNoRequest x → WantsNoThrows x → HasNoBreakpoint x
        → MaySet (place_id (placed_in at.position script)) x
        → is_paused (whole scripts input wait history) ≡ false
        → is_first (whole scripts input wait history).phase ≡ false
        → script_of at.script_id scripts ≡ Some script → IsFirstFrom script at.position place
        → IsTold scripts input wait history s text (params.SetBreakpoint at None)
        → GoesOnUntil (arrived scripts (reaches place)) scripts input wait (then_told history s text) s }
{}

/// With a condition, it goes on until it is there and the condition holds, or until a `debugger` statement.
pub fn a_condition_stops_where_it_holds()
    ensures { (scripts : List Script) (input : List (List ℕ)) (wait : Bool) (history : List Entry) (s : ℕ)
        (text : List ℕ) (x : Session) (at : Location) (condition : List ℕ) (script : Script) (place : Place)
        → DebugsAlone s x (whole scripts input wait history)
        → HasNoRequest x → WantsNoThrows x → HasNoBreakpoint x
        → MaySet (place_id (placed_in at.position script)) x
        → is_paused (whole scripts input wait history) ≡ false
        → is_first (whole scripts input wait history).phase ≡ false
        → script_of at.script_id scripts ≡ Some script → IsFirstFrom script at.position place
        → IsTold scripts input wait history s text (params.SetBreakpoint at (Some condition))
        → GoesOnUntil (breaks_where scripts x.workspace place condition) scripts input wait
        (then_told history s text) s }
{}

/// The answer to a command that sets a breakpoint names the place at which it stands: the first break location of that
/// script that isn't before the position.
pub fn a_breakpoint_is_answered_with_its_place()
    ensures { (scripts : List Script) (q : Option Pause) (r : Run) (text : List ℕ) (x : Session) (at : Location)
        (condition : Option (List ℕ)) (script : Script) (place : Place)
        → x.rules.enabled ≡ true → MaySet (place_id (placed_in at.position script)) x
        → script_of at.script_id scripts ≡ Some script → IsFirstFrom script at.position place
        → (told : IsRead text (params.SetBreakpoint at condition))
        → reply_texts scripts q r text x
        ≡ result_text told.id (set_at (place_id (placed_in at.position script)) place) ∷ [] }
{}

/// All throws that a client asks for while the program is paused stop it once it goes on.
pub fn all_throws_stop_it_once_it_goes_on()
    ensures { (scripts : List Script) (input : List (List ℕ)) (wait : Bool) (history : List Entry) (s : ℕ)
        (text go : List ℕ) (x : Session)
        → DebugsAlone s x (whole scripts input wait history)
        → HasNoBreakpoint x
        → is_paused (whole scripts input wait history) ≡ true
        → IsTold scripts input wait history s text (params.SetPauseOnExceptions pauses.All)
        → IsTold scripts input wait (then_told history s text) s go params.Resume
        → GoesOnUntil (arrived scripts at_any_throw) scripts input wait
        (then_told (then_told history s text) s go) s }
{}

/// So do those that no `catch` takes, where the client asks for these.
pub fn uncaught_throws_stop_it_once_it_goes_on()
    ensures { (scripts : List Script) (input : List (List ℕ)) (wait : Bool) (history : List Entry) (s : ℕ)
        (text go : List ℕ) (x : Session)
        → DebugsAlone s x (whole scripts input wait history)
        → HasNoBreakpoint x
        → is_paused (whole scripts input wait history) ≡ true
        → IsTold scripts input wait history s text (params.SetPauseOnExceptions pauses.Uncaught)
        → IsTold scripts input wait (then_told history s text) s go params.Resume
        → GoesOnUntil (arrived scripts at_uncaught_throw) scripts input wait
        (then_told (then_told history s text) s go) s }
{}

/// A breakpoint that a client sets while the program is paused stops it once it goes on.
pub fn a_breakpoint_stops_it_once_it_goes_on()
    ensures { (scripts : List Script) (input : List (List ℕ)) (wait : Bool) (history : List Entry) (s : ℕ)
        (text go : List ℕ) (x : Session) (at : Location) (script : Script) (place : Place)
        → DebugsAlone s x (whole scripts input wait history)
        → WantsNoThrows x → HasNoBreakpoint x
        → MaySet (place_id (placed_in at.position script)) x
        → is_paused (whole scripts input wait history) ≡ true
        → script_of at.script_id scripts ≡ Some script → IsFirstFrom script at.position place
        → IsTold scripts input wait history s text (params.SetBreakpoint at None)
        → IsTold scripts input wait (then_told history s text) s go params.Resume
        → GoesOnUntil (arrived scripts (reaches place)) scripts input wait
        (then_told (then_told history s text) s go) s }
{}

/// A breakpoint that a client sets by the URL of scripts stops the program at the first break location that isn't
/// before the position, in each script of that URL, or at a `debugger` statement.
pub fn a_breakpoint_by_url_stops_in_each_script()
    ensures { (scripts : List Script) (input : List (List ℕ)) (wait : Bool) (history : List Entry) (s : ℕ)
        (text : List ℕ) (x : Session) (url : List ℕ) (from : Pos) (places : List Place)
        → DebugsAlone s x (whole scripts input wait history)
        → HasNoRequest x → WantsNoThrows x → HasNoBreakpoint x → MaySet (url_id from url) x
        → is_paused (whole scripts input wait history) ≡ false
        → is_first (whole scripts input wait history).phase ≡ false
        → AreFirstsOf scripts url from places
        → IsTold scripts input wait history s text (params.SetBreakpointByUrl url from None)
        → GoesOnUntil (arrived scripts (reaches_any places)) scripts input wait (then_told history s text) s }
{}

/// So does one that a client sets while the program is paused, once it goes on.
pub fn a_breakpoint_by_url_stops_it_once_it_goes_on()
    ensures { (scripts : List Script) (input : List (List ℕ)) (wait : Bool) (history : List Entry) (s : ℕ)
        (text go : List ℕ) (x : Session) (url : List ℕ) (from : Pos) (places : List Place)
        → DebugsAlone s x (whole scripts input wait history)
        → WantsNoThrows x → HasNoBreakpoint x → MaySet (url_id from url) x
        → is_paused (whole scripts input wait history) ≡ true
        → AreFirstsOf scripts url from places
        → IsTold scripts input wait history s text (params.SetBreakpointByUrl url from None)
        → IsTold scripts input wait (then_told history s text) s go params.Resume
        → GoesOnUntil (arrived scripts (reaches_any places)) scripts input wait
        (then_told (then_told history s text) s go) s }
{}

/// A program that waited, and that a client lets begin, stops after its first step where a session that has the
/// debugger enabled survives it, unless that step ended the run.
pub fn a_started_program_stops_after_its_first_step()
    ensures { (scripts : List Script) (input : List (List ℕ)) (wait : Bool) (history : List Entry) (s : ℕ)
        (text : List ℕ) (x : Session)
        → seat_of s (whole scripts input wait history).seats ≡ Attached x
        → waits (whole scripts input wait history).phase ≡ true
        → IsTold scripts input wait history s text params.RunIfWaitingForDebugger
        → StopsAtFirstStep scripts input wait (then_told history s text) }
{}

/// While a program is paused no session has a request: each stop ended all of them, and a command that asks for one
/// lets the program go on.
pub fn a_paused_program_has_no_requests()
    ensures { (scripts : List Script) (input : List (List ℕ)) (wait : Bool) (history : List Entry) (s : ℕ) (x : Session)
        → is_paused (whole scripts input wait history) ≡ true
        → seat_of s (whole scripts input wait history).seats ≡ Attached x
        → HasNoRequest x }
{}

/// Each of these names in a command's text asks for the command that the protocol names so.
pub fn commands_have_their_names()
    ensures { CommandsAreNamed }
{}

/// `none`, `uncaught` and `all` are the throws that a client asks for by these names.
pub fn throws_have_their_names()
    ensures { StatesAreNamed }
{}

/// A client continues to the line and the column that it writes.
pub fn a_location_is_the_one_that_is_written()
    ensures { LocationsAreGiven }
{}
