//! Why commands are refused before they act.

ghost use Rattle.std.specs.Prelude.{◌≡◌};
ghost use Rattle.cdp_session.specs.Replies.{wants_enabled, wants_pause};

use cdp_json::params::Params;

/// Whether a command wants the debugger enabled.
pub(crate) fn wants_enabled(params: &Params) -> bool
    ensures { result ≡ wants_enabled params.now }
{
    match params {
        Params::DebuggerEnable => false,
        Params::DebuggerDisable => false,
        Params::GetProperties { .. } => false,
        Params::ReleaseObject { .. } => false,
        Params::ReleaseObjectGroup { .. } => false,
        Params::Evaluate { .. } => false,
        Params::CallFunctionOn { .. } => false,
        Params::RuntimeEnable => false,
        Params::RuntimeDisable => false,
        Params::GlobalLexicalScopeNames => false,
        Params::RunIfWaitingForDebugger => false,
        _ => true,
    }
}

/// Whether a command wants the program paused.
pub(crate) fn wants_pause(params: &Params) -> bool
    ensures { result ≡ wants_pause params.now }
{
    match params {
        Params::Resume => true,
        Params::StepInto => true,
        Params::StepOver => true,
        Params::StepOut => true,
        Params::ContinueToLocation { .. } => true,
        Params::EvaluateOnCallFrame { .. } => true,
        _ => false,
    }
}
