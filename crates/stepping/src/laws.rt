//! The laws of the rules. Each function does nothing: its contract is the law, for all rules and arrivals.

ghost use Rattle.std.specs.Prelude.{◌≡◌, ℕ, ◌≤◌, ◌<◌, ◌↔◌, ◌⊎◌, Bool, true, false};
ghost use Rattle.stepping.specs.declared.rules.Rules.{Rules};
ghost use Rattle.stepping.specs.declared.rules.StepKind.{StepKind};
ghost use Rattle.stepping.specs.declared.rules.StepKind.TheVariants as kinds;
ghost use Rattle.stepping.specs.declared.arrival.Arrival.{Arrival};
ghost use Rattle.stepping.specs.declared.cause.Cause.{Cause};
ghost use Rattle.stepping.specs.declared.cause.Cause.TheVariants as causes;
ghost use Rattle.stepping.specs.Rules.{without_requests};
ghost use Rattle.stepping.specs.Causes.{Holds, IsFirst, NoneHolds, HasArrived, rank};
ghost use Rattle.stepping.specs.Alone.{AsksForStep};

/// Rules and an arrival have one first cause at most.
pub fn the_first_is_one()
    ensures { (r : Rules) (a : Arrival) (hit : Bool) (c d : Cause) → IsFirst r a hit c → IsFirst r a hit d → c ≡ d }
{}

/// A session that isn't enabled, or skips, names nothing.
pub fn a_silent_session_names_nothing()
    ensures { (r : Rules) (a : Arrival) (hit : Bool) → (r.enabled ≡ false) ⊎ (r.skip ≡ true) → NoneHolds r a hit }
{}

/// Where a session asks for a step alone, an arrival that isn't at a `debugger` statement is named by no other rule.
pub fn a_step_alone_is_the_only_rule()
    ensures { (r : Rules) (a : Arrival) (kind : StepKind) (depth : ℕ) (c : Cause) → AsksForStep r kind depth → a.debugger ≡ false → Holds r a false c → c ≡ causes.Step }
{}

/// A step into names exactly the arrivals.
pub fn stepping_into_names_arrivals()
    ensures { (r : Rules) (a : Arrival) (depth : ℕ) → AsksForStep r kinds.Into depth → Holds r a false causes.Step ↔ HasArrived a }
{}

/// A step over names exactly the arrivals that are no deeper than the stop at which it was asked for.
pub fn stepping_over_names_arrivals_no_deeper()
    ensures { (r : Rules) (a : Arrival) (depth : ℕ) → AsksForStep r kinds.Over depth → Holds r a false causes.Step ↔ (HasArrived a × (a.depth ≤ depth)) }
{}

/// A step out names exactly the arrivals that are less deep.
pub fn stepping_out_names_arrivals_less_deep()
    ensures { (r : Rules) (a : Arrival) (depth : ℕ) → AsksForStep r kinds.Out depth → Holds r a false causes.Step ↔ (HasArrived a × (a.depth < depth)) }
{}

/// Without its requests a session has the rules of exceptions, breakpoints and `debugger` statements as before.
pub fn other_rules_stay_without_requests()
    ensures { (r : Rules) (a : Arrival) (hit : Bool) (c : Cause) → rank c ≤ rank causes.DebuggerStatement → Holds (without_requests r) a hit c ↔ Holds r a hit c }
{}

/// Without its requests a session names nothing by one.
pub fn no_request_holds_without_requests()
    ensures { (r : Rules) (a : Arrival) (hit : Bool) (c : Cause) → rank causes.DebuggerStatement < rank c → Holds (without_requests r) a hit c → ⊥ }
{}
