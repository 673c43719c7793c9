//! The law of hits. The function does nothing: its contract is the law, for every place and all breakpoints.

ghost use Rattle.std.specs.Prelude.{◌≢◌, ◌↔◌, [], IsTrue};
ghost use Rattle.cdp_text.specs.declared.position.Place.{Place};
ghost use Rattle.breakpoints.specs.Breakpoints.{HeldBreakpoints, hits_at, is_hit};

/// A place is hit exactly where there is a breakpoint at it to be hit.
pub fn a_place_is_hit_by_breakpoints()
    ensures { (place : Place) (s : HeldBreakpoints) → IsTrue (is_hit place s) ↔ (hits_at place s ≢ []) }
{}
