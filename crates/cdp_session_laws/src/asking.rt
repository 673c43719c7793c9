//! The laws of what a session asks for: what is set stays until it is taken back, and nothing after that.

ghost use Rattle.std.specs.Prelude.{◌≡◌, ℕ, List, Bool, true, false};
ghost use Rattle.cdp_json.specs.declared.params.Params.TheVariants.{DebuggerDisable, RemoveBreakpoint, RuntimeDisable, RuntimeEnable, SetBreakpointsActive, SetSkipAllPauses};
ghost use Rattle.cdp_session.specs.Sessions.{Session};
ghost use Rattle.cdp_session.specs.Situations.{Situation};
ghost use Rattle.cdp_session_laws.specs.Asking.{AsksNothing, HasOthersThan, IsRead};
ghost use Rattle.cdp_session_laws.specs.Events.{Texted, after_event};

/// A breakpoint that a client removes is hit nowhere any more, and each other one is hit where it was.
pub fn a_removed_breakpoint_is_hit_nowhere()
    ensures { (s : Situation) (x : Session) (text id : List ℕ) → x.rules.enabled ≡ true
        → IsRead text (RemoveBreakpoint id) → HasOthersThan id x (after_event (Texted s text) x) }
{}

/// A session that disables the debugger forgets what it asked for: once it enables it again, it stops a program for
/// nothing but `debugger` statements.
pub fn disabling_forgets_what_was_asked_for()
    ensures { (s : Situation) (x : Session) (text : List ℕ) → IsRead text DebuggerDisable
        → AsksNothing (after_event (Texted s text) x) }
{}

/// Skipped pauses, active breakpoints and the domain Runtime are as the client set them last.
pub fn flags_are_as_they_were_set_last()
    ensures skips { (s : Situation) (x : Session) (text : List ℕ) (b : Bool) → x.rules.enabled ≡ true
        → IsRead text (SetSkipAllPauses b) → (after_event (Texted s text) x).rules.skip ≡ b }
    ensures active { (s : Situation) (x : Session) (text : List ℕ) (b : Bool) → x.rules.enabled ≡ true
        → IsRead text (SetBreakpointsActive b) → (after_event (Texted s text) x).breakpoints.active ≡ b }
    ensures told { (s : Situation) (x : Session) (text : List ℕ) → IsRead text RuntimeEnable
        → (after_event (Texted s text) x).runtime ≡ true }
    ensures untold { (s : Situation) (x : Session) (text : List ℕ) → IsRead text RuntimeDisable
        → (after_event (Texted s text) x).runtime ≡ false }
{}
