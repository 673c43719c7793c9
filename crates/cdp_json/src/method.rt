//! The methods of the protocol (Chrome DevTools Protocol 1.3, domains Debugger and Runtime).

ghost use Rattle.std.specs.Prelude.{◌≡◌};
ghost use Rattle.cdp_json.specs.Methods.{method_of};

/// A method of the domains Debugger and Runtime.
#[derive(Clone, Copy)]
pub enum Method {
    DebuggerEnable,
    DebuggerDisable,
    Pause,
    Resume,
    StepInto,
    StepOver,
    StepOut,
    ContinueToLocation,
    SetBreakpointByUrl,
    SetBreakpoint,
    RemoveBreakpoint,
    SetBreakpointsActive,
    SetSkipAllPauses,
    SetPauseOnExceptions,
    SetAsyncCallStackDepth,
    GetPossibleBreakpoints,
    GetScriptSource,
    EvaluateOnCallFrame,
    RuntimeEnable,
    RuntimeDisable,
    Evaluate,
    CallFunctionOn,
    GetProperties,
    ReleaseObject,
    ReleaseObjectGroup,
    GlobalLexicalScopeNames,
    RunIfWaitingForDebugger,
}

/// The method of this name, as `Debugger.enable`.
pub(crate) fn method_named(name: &str) -> Option<Method>
    ensures { result ≡ method_of name.now }
{
    match name {
        "Debugger.enable" => Some(Method::DebuggerEnable),
        "Debugger.disable" => Some(Method::DebuggerDisable),
        "Debugger.pause" => Some(Method::Pause),
        "Debugger.resume" => Some(Method::Resume),
        "Debugger.stepInto" => Some(Method::StepInto),
        "Debugger.stepOver" => Some(Method::StepOver),
        "Debugger.stepOut" => Some(Method::StepOut),
        "Debugger.continueToLocation" => Some(Method::ContinueToLocation),
        "Debugger.setBreakpointByUrl" => Some(Method::SetBreakpointByUrl),
        "Debugger.setBreakpoint" => Some(Method::SetBreakpoint),
        "Debugger.removeBreakpoint" => Some(Method::RemoveBreakpoint),
        "Debugger.setBreakpointsActive" => Some(Method::SetBreakpointsActive),
        "Debugger.setSkipAllPauses" => Some(Method::SetSkipAllPauses),
        "Debugger.setPauseOnExceptions" => Some(Method::SetPauseOnExceptions),
        "Debugger.setAsyncCallStackDepth" => Some(Method::SetAsyncCallStackDepth),
        "Debugger.getPossibleBreakpoints" => Some(Method::GetPossibleBreakpoints),
        "Debugger.getScriptSource" => Some(Method::GetScriptSource),
        "Debugger.evaluateOnCallFrame" => Some(Method::EvaluateOnCallFrame),
        "Runtime.enable" => Some(Method::RuntimeEnable),
        "Runtime.disable" => Some(Method::RuntimeDisable),
        "Runtime.evaluate" => Some(Method::Evaluate),
        "Runtime.callFunctionOn" => Some(Method::CallFunctionOn),
        "Runtime.getProperties" => Some(Method::GetProperties),
        "Runtime.releaseObject" => Some(Method::ReleaseObject),
        "Runtime.releaseObjectGroup" => Some(Method::ReleaseObjectGroup),
        "Runtime.globalLexicalScopeNames" => Some(Method::GlobalLexicalScopeNames),
        "Runtime.runIfWaitingForDebugger" => Some(Method::RunIfWaitingForDebugger),
        _ => None,
    }
}
