//! The parameters of commands.

use crate::arguments::Arguments;
use cdp_text::position::Pos;
use cdp_text::units::Units;

/// A position of a script, as a command names it.
#[derive(Drop)]
pub struct Location {
    /// The id of the script.
    pub script_id: Units,
    /// The line and the column, counted from 0.
    pub position: Pos,
}

/// At which throws a session wants the program to stop.
#[derive(Clone, Copy)]
pub enum ExceptionPauses {
    /// At none.
    Never,
    /// At those that no `catch` takes.
    Uncaught,
    /// At all.
    All,
}

/// A text that is to be evaluated, the group of the objects that it comes to, and how its result is described. An absent
/// `throwOnSideEffect` is true, the other flags are false where they are absent. `silent` must be a truth value where it
/// is given, but has no effect, so it isn't kept.
#[derive(Drop)]
pub struct Evaluation {
    pub expression: Units,
    pub object_group: Option<Units>,
    pub return_by_value: bool,
    pub generate_preview: bool,
    pub throw_on_side_effect: bool,
}

/// A function that is to be called with these arguments, the object that is its `this`, the group of the objects that the
/// call comes to, and how its result is described. Absent arguments are none, and flags are read as an evaluation's.
#[derive(Drop)]
pub struct FunctionCall {
    pub function_declaration: Units,
    pub object_id: Option<Units>,
    pub arguments: Arguments,
    pub object_group: Option<Units>,
    pub return_by_value: bool,
    pub generate_preview: bool,
    pub throw_on_side_effect: bool,
}

/// The parameters of a command, one variant for each method. An absent column is 0, and an empty condition is none.
#[derive(Drop)]
pub enum Params {
    DebuggerEnable,
    DebuggerDisable,
    Pause,
    Resume,
    StepInto,
    StepOver,
    StepOut,
    ContinueToLocation {
        location: Location,
    },
    SetBreakpointByUrl {
        url: Units,
        position: Pos,
        condition: Option<Units>,
    },
    SetBreakpoint {
        location: Location,
        condition: Option<Units>,
    },
    RemoveBreakpoint {
        breakpoint_id: Units,
    },
    SetBreakpointsActive {
        active: bool,
    },
    SetSkipAllPauses {
        skip: bool,
    },
    SetPauseOnExceptions {
        state: ExceptionPauses,
    },
    /// The depth has no effect, so it isn't kept.
    SetAsyncCallStackDepth,
    /// Both positions are of one script; without an end the whole rest of the script is meant.
    GetPossibleBreakpoints {
        start: Location,
        end: Option<Location>,
    },
    GetScriptSource {
        script_id: Units,
    },
    EvaluateOnCallFrame {
        call_frame_id: Units,
        evaluation: Evaluation,
    },
    RuntimeEnable,
    RuntimeDisable,
    Evaluate {
        evaluation: Evaluation,
    },
    CallFunctionOn {
        call: FunctionCall,
    },
    /// The flags are false where they are absent.
    GetProperties {
        object_id: Units,
        own_properties: bool,
        generate_preview: bool,
    },
    ReleaseObject {
        object_id: Units,
    },
    ReleaseObjectGroup {
        object_group: Units,
    },
    GlobalLexicalScopeNames,
    RunIfWaitingForDebugger,
}
