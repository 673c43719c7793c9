//! The program of a host, lent to its session where it stands still.

ghost use Rattle.std.specs.Prelude.{◌≡◌, ◌∷◌, ℕ, List, [], map, IfOk, None, option_map, option_to_list, slice_get};
ghost use Rattle.js_heap.specs.BuiltIns.{script_scope};
ghost use Rattle.js_machine_inspection.specs.Catchers.{standing_throw};
ghost use Rattle.js_machine.specs.Machines.{IsKept, state_of, term_of};
ghost use Rattle.js_heap_memory.specs.Heaps.{Heap, heap_world};
ghost use Rattle.js_machine_actions.specs.Contexts as contexts;
ghost use Rattle.js_machine_engine.specs.Points.{term_at};
ghost use Rattle.frames_scopes_types.specs.Views.{frame_of};
ghost use Rattle.frames_scopes.specs.Frames.{walk};
ghost use Rattle.frames_scopes.specs.FrameViews.{frame_shown};
ghost use Rattle.frames_scopes.specs.Standings.{CanWalk};
ghost use Rattle.cdp_session.specs.Conditions.{top_of};
ghost use Rattle.cdp_session.specs.Evaluations.{innermost};
ghost use Rattle.cdp_host.specs.Hosts.{AreLines, machine_run};
ghost use Rattle.cdp_host.specs.Programs.{is_over};
ghost use Rattle.cdp_host.specs.Standings.{value_of, IsKept-prop};

use cdp_session::{Program, ProgramCells, Top};
use cdp_text::line_table::LineTable;
use frames_scopes::{FrameView, Scopes, StandingMachine};
use frames_scopes_types::CallFrame;
use js_heap::built_in::script_scope;
use js_heap::value::{Addr, Value};
use js_heap_memory::heap::BaseHeap;
use js_machine::machine::Machine;
use js_machine_inspection::standing::Thrown;
use js_tree::script::{Expression, FunctionCode, Script};
use pure_eval::PreparedSource;
use pure_eval_preparation::{prepare, prepare_function};
use std::alloc::{AllocError, Global};

/// A machine that wasn't given up, with its heap, the scripts that it runs, and where the lines of each of them begin.
#[derive(Clone, Copy)]
pub(crate) struct Debuggee<'m> {
    pub machine: &'m Machine,
    pub heap: &'m BaseHeap,
    pub scripts: &'m [Script],
    pub lines: &'m [LineTable],
    ghost located: { AreLines scripts.now lines.now },
    ghost kept: { IsKept machine.now.ended } by { IsKept-prop machine.now.ended },
}

/// The value of a throw that stands, if one does.
fn value_of(thrown: Option<Thrown>) -> Option<Value>
    ensures { result ≡ option_map value_of (standing_throw thrown) }
{
    match thrown {
        Some(thrown) => Some(thrown.value),
        None => None,
    }
}

/// Whether the run of a machine that wasn't given up is over, by itself or for want of memory.
pub(crate) fn is_over(machine: &Machine) -> bool
    ensures { IsKept machine.now.ended → (heap : Heap) (taken : List (List ℕ)) → result ≡ is_over (machine_run machine.now heap taken) }
{
    match machine.finished() {
        Some(_) => true,
        None => machine.end().is_some(),
    }
}

// ---- the top frame

/// The innermost of the scopes of a frame.
fn innermost(scopes: Scopes<'_>) -> Addr
    ensures { result ≡ innermost scopes.entry }
{
    let mut scopes = scopes;
    match scopes.next() {
        Some(scope) => scope.bindings,
        None => script_scope(),
    }
}

/// In what is evaluated in a frame.
fn top_at(frame: FrameView<'_>) -> Top
    ensures { result ≡ top_of (frame_shown frame.entry ∷ []) }
{
    let FrameView { this, scopes, .. } = frame;
    Top {
        scope: innermost(scopes),
        this,
    }
}

/// In what is evaluated in the top frame, if there is one.
fn top_of(frame: Option<FrameView<'_>>) -> Top
    ensures { result ≡ top_of (option_to_list (option_map frame_shown frame.entry)) }
{
    match frame {
        Some(frame) => top_at(frame),
        None => Top {
            scope: script_scope(),
            this: Value::Undefined,
        },
    }
}

// ---- frames

impl<'m> Debuggee<'m> {
    /// What the frames are walked over of a machine whose run hasn't ended.
    fn walker(&self) -> StandingMachine<'m>
        requires { self.now.machine.now.ended ≡ None }
        ensures whole { CanWalk result.table.now result.root result.stack.now result.point result.scripts.now result.lines.now }
        ensures walk { walk result.scripts.now result.root (term_at result.names.now result.table.now result.stack.now result.point) (contexts.state_of (heap_world result.names.now result.heap.now) result.context.now []) ≡ walk self.now.scripts.now script_scope (term_of self.now.machine.now) (state_of self.now.machine.now (heap_world self.now.machine.now.names self.now.heap.now) []) }
    {
        StandingMachine {
            table: self.machine.table(),
            names: self.machine.names(),
            scripts: self.scripts,
            lines: self.lines,
            heap: self.heap,
            root: script_scope(),
            context: self.machine.context(),
            stack: self.machine.stack(),
            point: self.machine.point(),
        }
    }

    /// The active frames of a machine whose run hasn't ended.
    fn walked(&self, alloc: Global) -> Result<Vec<CallFrame<'m>>, AllocError>
        requires { self.now.machine.now.ended ≡ None }
        ensures { IfOk result (λ frames. map frame_of frames.items ≡ walk self.now.scripts.now script_scope (term_of self.now.machine.now) (state_of self.now.machine.now (heap_world self.now.machine.now.names self.now.heap.now) [])) }
    {
        self.walker().call_frames(alloc)
    }

    /// The active frame that is so far from the top one, if there is one, of a machine whose run hasn't ended.
    fn walked_at(&self, alloc: Global, depth: usize) -> Result<Option<CallFrame<'m>>, AllocError>
        requires { self.now.machine.now.ended ≡ None }
        ensures { IfOk result (λ frame. option_map frame_of frame ≡ slice_get (walk self.now.scripts.now
            script_scope (term_of self.now.machine.now) (state_of self.now.machine.now
            (heap_world self.now.machine.now.names self.now.heap.now) [])) depth) }
    {
        self.walker().call_frame(alloc, depth)
    }

    /// In what is evaluated in the top frame of a machine whose run hasn't ended: no other frame is walked over.
    fn walked_top(&self) -> Top
        requires { self.now.machine.now.ended ≡ None }
        ensures { result ≡ top_of (walk self.now.scripts.now script_scope (term_of self.now.machine.now) (state_of self.now.machine.now (heap_world self.now.machine.now.names self.now.heap.now) [])) }
    {
        top_of(self.walker().frame(0))
    }
}

impl Program for Debuggee<'_> {
    ghost use Rattle.cdp_host.specs.Hosts.{machine_standing};

    ghost standing = { λ d. machine_standing d.scripts.now d.machine.now d.heap.now };

    fn cells(&self) -> ProgramCells<'_> {
        ProgramCells {
            heap: self.heap,
            names: self.machine.names(),
        }
    }

    fn call_frames(&self, alloc: Global) -> Result<Vec<CallFrame<'_>>, AllocError> {
        match self.machine.finished() {
            Some(_) => Ok(Vec::new(alloc)),
            None => match self.machine.end() {
                Some(_) => Ok(Vec::new(alloc)),
                None => self.walked(alloc),
            },
        }
    }

    fn frame_count(&self) -> usize {
        match self.machine.finished() {
            Some(_) => 0,
            None => match self.machine.end() {
                Some(_) => 0,
                None => self.machine.context().frame_count(),
            },
        }
    }

    fn call_frame(&self, alloc: Global, depth: usize) -> Result<Option<CallFrame<'_>>, AllocError> {
        match self.machine.finished() {
            Some(_) => Ok(None),
            None => match self.machine.end() {
                Some(_) => Ok(None),
                None => self.walked_at(alloc, depth),
            },
        }
    }

    fn top(&self) -> Top {
        match self.machine.finished() {
            Some(_) => top_of(None),
            None => match self.machine.end() {
                Some(_) => top_of(None),
                None => self.walked_top(),
            },
        }
    }

    fn thrown(&self) -> Option<Value> {
        value_of(self.machine.thrown())
    }

    fn is_over(&self) -> bool {
        is_over(self.machine)
    }

    fn prepared(
        &self,
        alloc: Global,
        at: Addr,
        expression: &Expression,
    ) -> Result<PreparedSource, AllocError> {
        prepare(alloc, at, expression)
    }

    fn prepared_function(
        &self,
        alloc: Global,
        at: Addr,
        function: &FunctionCode,
    ) -> Result<PreparedSource, AllocError> {
        prepare_function(alloc, at, function)
    }
}
