//! The laws of limits: a session never holds more than it may, and its evaluations keep no more than they may.

ghost use Rattle.std.specs.Prelude.{ℕ, List};
ghost use Rattle.js_semantics.specs.Functions.{Program};
ghost use Rattle.pure_eval.specs.Workspaces.{Workspace, begun};
ghost use Rattle.cdp_session_laws.specs.Events.{Event, lived};
ghost use Rattle.cdp_session_laws.specs.Limits.{IsWithinLimits, IsWithinScratch};

/// Whatever happens to a session, it holds at most 100,000 objects at a time and 2^62 in all, has at most 1,000
/// breakpoints, and counts at most 2^62 exceptions.
pub fn a_session_stays_within_its_limits()
    ensures { (number : ℕ) (workspace : Workspace) (events : List Event)
        → IsWithinLimits (lived number workspace events) }
{}

/// Whatever happens to a session, its evaluations keep at most 65,536 cells, beside one for each source that they keep,
/// and 1,048,576 units of text.
pub fn evaluations_keep_within_their_scratch()
    ensures { (number : ℕ) (scripts : Program) (events : List Event)
        → IsWithinScratch (lived number (begun scripts) events).workspace }
{}
