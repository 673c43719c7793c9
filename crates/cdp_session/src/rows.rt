//! What each method does (Chrome DevTools Protocol 1.3, domain Debugger).

ghost use Rattle.std.specs.Prelude.{◌≡◌, [], map, string_bytes, IfOk};
ghost use Rattle.cdp_session.specs.Situations.{HasSpots, seen};
ghost use Rattle.breakpoints.specs.Resolving.{resolved_at};
ghost use Rattle.cdp_json.specs.Views.{json_view};
ghost use Rattle.cdp_json.specs.Parts as parts;
ghost use Rattle.remote_objects.specs.Descriptors.{descriptors_with};
ghost use Rattle.cdp_session.specs.Evaluations.{sight_with};
ghost use Rattle.cdp_session.specs.Made.{answer_text, made_fault, spelt, KeepsIfRefused, Makes};
ghost use Rattle.cdp_session.specs.Rows as rows;
ghost use Rattle.cdp_session.specs.Rows.{end_of, throws_of};

use crate::asks::Asks;
use crate::describing::properties_text;
use crate::done::{Answer, Done, Fault};
use crate::finding::find_script;
use crate::pausing::describer;
use crate::program::Program;
use crate::session::Session;
use crate::showing::detail_of;
use crate::situation::{Pause, Situation};
use crate::sources::EvaluatedTexts;
use breakpoints::{AddFault, AddedAt, AddedByUrl, Breakpoints};
use cdp_json::params::{ExceptionPauses, Location, Params};
use cdp_json::parts::nothing;
use cdp_json::refusal::Refusal;
use cdp_json::value::Json;
use cdp_session_messages::{
    context_created_text, debugger_id, declared_names, script_source, scripts_told, set_at,
    set_by_url, spot_locations,
};
use cdp_text::position::{Place, Pos};
use cdp_text::units::Units;
use js_heap::built_in::script_scope;
use locations::spot::{first_at_or_after, spots_between};
use object_groups::Handle;
use remote_objects::{Detail, backtrace};
use std::alloc::{AllocError, Global};
use stepping::{Exceptions, Rules, StepKind, StepRequest};

/// The throws at which a session wants the program to stop.
fn throws_of(state: ExceptionPauses) -> Exceptions
    ensures { result ≡ throws_of state }
{
    match state {
        ExceptionPauses::Never => Exceptions::Never,
        ExceptionPauses::Uncaught => Exceptions::Uncaught,
        ExceptionPauses::All => Exceptions::All,
    }
}

/// The position at which a range ends, if it has an end.
fn end_of(end: Option<Location>) -> Option<Pos>
    ensures { result ≡ end_of end }
{
    match end {
        Some(end) => Some(end.position),
        None => None,
    }
}

/// A fault of setting a breakpoint, as one of its command.
fn fault_of(fault: AddFault) -> Fault
    ensures { result ≡ made_fault fault }
{
    match fault {
        AddFault::Unresolved => Fault::Refused(Refusal::Unresolved),
        AddFault::Exists { .. } => Fault::Refused(Refusal::BreakpointExists),
        AddFault::Full { count } => Fault::Refused(Refusal::BreakpointsFull { count }),
        AddFault::Memory => Fault::Memory,
    }
}

/// Done, with this to answer.
pub(crate) fn answering(alloc: Global, answer: Json) -> Done
    ensures before { result.before.items ≡ [] }
    ensures answer { answer_text result.answer ≡ spelt (json_view answer) }
    ensures event { result.event ≡ None }
    ensures asks { result.asks ≡ Asks.Nothing }
{
    Done {
        before: Vec::new(alloc),
        answer: Answer::Tree(answer),
        event: None,
        asks: Asks::Nothing,
    }
}

/// Done, with a result of this text.
pub(crate) fn answering_text(alloc: Global, text: String) -> Done
    ensures before { result.before.items ≡ [] }
    ensures answer { answer_text result.answer ≡ string_bytes text }
    ensures event { result.event ≡ None }
    ensures asks { result.asks ≡ Asks.Nothing }
{
    Done {
        before: Vec::new(alloc),
        answer: Answer::Text(text),
        event: None,
        asks: Asks::Nothing,
    }
}

/// Done, with nothing to answer.
fn done(alloc: Global) -> Done
    ensures before { result.before.items ≡ [] }
    ensures answer { answer_text result.answer ≡ spelt parts.nothing }
    ensures event { result.event ≡ None }
    ensures asks { result.asks ≡ Asks.Nothing }
{
    answering(alloc, nothing(alloc))
}

/// Done, with nothing to answer, and this is asked of the program.
fn asking(alloc: Global, asks: Asks) -> Done
    ensures before { result.before.items ≡ [] }
    ensures answer { answer_text result.answer ≡ spelt parts.nothing }
    ensures event { result.event ≡ None }
    ensures asks { result.asks ≡ asks }
{
    Done {
        before: Vec::new(alloc),
        answer: Answer::Tree(nothing(alloc)),
        event: None,
        asks,
    }
}

impl Session<'_> {
    /// Does what a command asks for that isn't refused for the state of its session or of the program.
    pub(crate) fn act<P: Program>(
        &mut self,
        situation: &Situation<'_, P>,
        params: Params,
    ) -> Result<Done, Fault>
        requires { HasSpots situation.now }
        ensures made { Makes result self.new (rows.row (seen P.standing situation.now) self.old params) }
        ensures kept { KeepsIfRefused result self.old self.new }
    {
        match params {
            Params::DebuggerEnable => self.enable(situation),
            Params::DebuggerDisable => self.disable(),
            Params::Pause => self.pause(situation),
            Params::Resume => Ok(asking(self.alloc, Asks::Resume)),
            Params::StepInto => self.step_from(StepKind::Into, situation.paused),
            Params::StepOver => self.step_from(StepKind::Over, situation.paused),
            Params::StepOut => self.step_from(StepKind::Out, situation.paused),
            Params::ContinueToLocation { location } => self.continue_to(situation, location),
            Params::SetBreakpointByUrl {
                url,
                position,
                condition,
            } => self.add_by_url(situation, url, position, condition),
            Params::SetBreakpoint {
                location,
                condition,
            } => self.add_at(situation, location, condition),
            Params::RemoveBreakpoint { breakpoint_id } => self.remove(breakpoint_id),
            Params::SetBreakpointsActive { active } => self.set_active(active),
            Params::SetSkipAllPauses { skip } => self.set_skip(skip),
            Params::SetPauseOnExceptions { state } => self.set_throws(state),
            Params::SetAsyncCallStackDepth => Ok(done(self.alloc)),
            Params::GetPossibleBreakpoints { start, end } => self.possible(situation, start, end),
            Params::GetScriptSource { script_id } => self.source(situation, script_id),
            Params::GetProperties {
                object_id,
                generate_preview,
                ..
            } => self.get_properties(situation, &object_id, generate_preview),
            Params::ReleaseObject { object_id } => self.release(&object_id),
            Params::ReleaseObjectGroup { object_group } => self.release_group(&object_group),
            Params::Evaluate { evaluation } => self.evaluate(situation, evaluation),
            Params::EvaluateOnCallFrame {
                call_frame_id,
                evaluation,
            } => self.evaluate_on_call_frame(situation, &call_frame_id, evaluation),
            Params::CallFunctionOn { call } => self.call_function(situation, call),
            Params::RuntimeEnable => self.enable_runtime(situation),
            Params::RuntimeDisable => self.disable_runtime(),
            Params::GlobalLexicalScopeNames => self.lexical_names(situation),
            Params::RunIfWaitingForDebugger => Ok(asking(self.alloc, Asks::Wake)),
        }
    }

    /// `Debugger.enable`
    fn enable<P: Program>(&mut self, situation: &Situation<'_, P>) -> Result<Done, Fault>
        ensures made { Makes result self.new (rows.enable (seen P.standing situation.now) self.old) }
        ensures kept { KeepsIfRefused result self.old self.new }
    {
        let before = scripts_told(self.alloc, situation.scripts, self.rules.enabled)?;
        let event = self.enabling_told(situation, situation.paused, self.rules.enabled)?;
        let answer = Answer::Tree(debugger_id(self.alloc)?);
        self.rules.enabled = true;
        Ok(Done {
            before,
            answer,
            event,
            asks: Asks::Nothing,
        })
    }

    /// `Debugger.disable`
    fn disable(&mut self) -> Result<Done, Fault>
        ensures made { Makes result self.new (rows.disable self.old) }
        ensures kept { KeepsIfRefused result self.old self.new }
    {
        self.handles.release_group(backtrace());
        self.give_up_unheld();
        self.rules = Rules::new();
        self.breakpoints = Breakpoints::new(self.alloc);
        self.conditions.clear();
        Ok(asking(self.alloc, Asks::Leave))
    }

    /// `Debugger.pause`
    fn pause<P: Program>(&mut self, situation: &Situation<'_, P>) -> Result<Done, Fault>
        ensures made { Makes result self.new (rows.pause (seen P.standing situation.now) self.old) }
        ensures kept { KeepsIfRefused result self.old self.new }
    {
        if situation.paused.is_none() {
            self.rules.pause = true;
        }
        Ok(done(self.alloc))
    }

    /// `Debugger.stepInto`, `stepOver` and `stepOut`: a step from where the program is paused.
    fn step_from(&mut self, kind: StepKind, paused: Option<Pause>) -> Result<Done, Fault>
        ensures made { Makes result self.new (rows.step_from kind paused self.old) }
        ensures kept { KeepsIfRefused result self.old self.new }
    {
        match paused {
            Some(at) => {
                self.rules.step = Some(StepRequest {
                    kind,
                    depth: at.depth,
                });
                Ok(asking(self.alloc, Asks::Resume))
            }
            None => Err(Fault::Refused(Refusal::NotPaused)),
        }
    }

    /// `Debugger.continueToLocation`
    fn continue_to<P: Program>(
        &mut self,
        situation: &Situation<'_, P>,
        location: Location,
    ) -> Result<Done, Fault>
        requires { HasSpots situation.now }
        ensures made { Makes result self.new (rows.continue_to (seen P.standing situation.now) self.old location) }
        ensures kept { KeepsIfRefused result self.old self.new }
    {
        let Location {
            script_id,
            position,
        } = location;
        let found = find_script(self.alloc, situation, script_id)?;
        match first_at_or_after(found.spots, position) {
            Some(spot) => {
                self.rules.to = Some(Place {
                    script: found.script.number,
                    pos: spot.pos,
                });
                Ok(asking(self.alloc, Asks::Resume))
            }
            None => Err(Fault::Refused(Refusal::Unresolved)),
        }
    }

    /// `Debugger.setBreakpointByUrl`
    fn add_by_url<P: Program>(
        &mut self,
        situation: &Situation<'_, P>,
        url: Units,
        position: Pos,
        condition: Option<Units>,
    ) -> Result<Done, Fault>
        requires { HasSpots situation.now }
        ensures made { Makes result self.new (rows.add_by_url (seen P.standing situation.now) self.old url position condition) }
        ensures kept { KeepsIfRefused result self.old self.new }
    {
        match self.breakpoints.add_by_url(
            situation.scripts,
            situation.spots,
            url.as_slice(),
            position,
            condition,
        ) {
            Ok(AddedByUrl { id, places }) => {
                let answer = set_by_url(self.alloc, id, &places)?;
                Ok(answering(self.alloc, answer))
            }
            Err(fault) => Err(fault_of(fault)),
        }
    }

    /// `Debugger.setBreakpoint`
    fn add_at<P: Program>(
        &mut self,
        situation: &Situation<'_, P>,
        location: Location,
        condition: Option<Units>,
    ) -> Result<Done, Fault>
        requires { HasSpots situation.now }
        ensures made { Makes result self.new (rows.add_at (seen P.standing situation.now) self.old location condition) }
        ensures kept { KeepsIfRefused result self.old self.new }
    {
        let Location {
            script_id,
            position,
        } = location;
        let found = find_script(self.alloc, situation, script_id)?;
        let place = Place {
            script: found.script.number,
            pos: position,
        };
        self.add_in(situation, place, condition)
    }

    /// `Debugger.setBreakpoint` at a place of one of the scripts.
    fn add_in<P: Program>(
        &mut self,
        situation: &Situation<'_, P>,
        place: Place,
        condition: Option<Units>,
    ) -> Result<Done, Fault>
        requires { HasSpots situation.now }
        ensures made { Makes result self.new (rows.adds_at self.old place condition (resolved_at place situation.now.scripts.now)) }
        ensures kept { KeepsIfRefused result self.old self.new }
    {
        match self
            .breakpoints
            .add_at(situation.scripts, situation.spots, place, condition)
        {
            Ok(
                AddedAt {
                    id,
                    place: resolved,
                },
            ) => {
                let answer = set_at(self.alloc, id, resolved)?;
                Ok(answering(self.alloc, answer))
            }
            Err(fault) => Err(fault_of(fault)),
        }
    }

    /// `Debugger.removeBreakpoint`
    fn remove(&mut self, id: Units) -> Result<Done, Fault>
        ensures made { Makes result self.new (rows.remove self.old id) }
        ensures kept { KeepsIfRefused result self.old self.new }
    {
        self.breakpoints.remove(id.as_slice());
        // the others are parsed again where they are used
        self.conditions.clear();
        Ok(done(self.alloc))
    }

    /// `Debugger.setBreakpointsActive`
    fn set_active(&mut self, active: bool) -> Result<Done, Fault>
        ensures made { Makes result self.new (rows.set_active self.old active) }
        ensures kept { KeepsIfRefused result self.old self.new }
    {
        self.breakpoints.set_active(active);
        Ok(done(self.alloc))
    }

    /// `Debugger.setSkipAllPauses`
    fn set_skip(&mut self, skip: bool) -> Result<Done, Fault>
        ensures made { Makes result self.new (rows.set_skip self.old skip) }
        ensures kept { KeepsIfRefused result self.old self.new }
    {
        self.rules.skip = skip;
        Ok(done(self.alloc))
    }

    /// `Debugger.setPauseOnExceptions`
    fn set_throws(&mut self, state: ExceptionPauses) -> Result<Done, Fault>
        ensures made { Makes result self.new (rows.set_throws self.old state) }
        ensures kept { KeepsIfRefused result self.old self.new }
    {
        self.rules.exceptions = throws_of(state);
        Ok(done(self.alloc))
    }

    /// `Debugger.getPossibleBreakpoints`
    fn possible<P: Program>(
        &mut self,
        situation: &Situation<'_, P>,
        start: Location,
        end: Option<Location>,
    ) -> Result<Done, Fault>
        requires { HasSpots situation.now }
        ensures made { Makes result self.new (rows.possible (seen P.standing situation.now) self.old start end) }
        ensures kept { KeepsIfRefused result self.old self.new }
    {
        let Location {
            script_id,
            position,
        } = start;
        let found = find_script(self.alloc, situation, script_id)?;
        let spots = spots_between(found.spots, position, end_of(end));
        let answer = spot_locations(self.alloc, found.script.number, spots)?;
        Ok(answering(self.alloc, answer))
    }

    /// `Debugger.getScriptSource`
    fn source<P: Program>(
        &mut self,
        situation: &Situation<'_, P>,
        script_id: Units,
    ) -> Result<Done, Fault>
        requires { HasSpots situation.now }
        ensures made { Makes result self.new (rows.source (seen P.standing situation.now) self.old script_id) }
        ensures kept { KeepsIfRefused result self.old self.new }
    {
        let found = find_script(self.alloc, situation, script_id)?;
        let answer = script_source(self.alloc, found.script.source.as_slice())?;
        Ok(answering(self.alloc, answer))
    }

    /// `Runtime.getProperties`
    fn get_properties<P: Program>(
        &mut self,
        situation: &Situation<'_, P>,
        object_id: &Units,
        preview: bool,
    ) -> Result<Done, Fault>
        ensures made { Makes result self.new (rows.get_properties (seen P.standing situation.now) self.old object_id.now preview) }
        ensures kept { KeepsIfRefused result self.old self.new }
    {
        match self.handle_of(object_id)? {
            Some(object) => self.list(situation, &object, detail_of(preview)),
            None => Err(Fault::Refused(Refusal::UnknownObject)),
        }
    }

    /// The properties of an object that the session holds.
    fn list<P: Program>(
        &mut self,
        situation: &Situation<'_, P>,
        object: &Handle,
        detail: Detail,
    ) -> Result<Done, Fault>
        ensures made { Makes result self.new (rows.lists self.old (descriptors_with (sight_with (seen P.standing situation.now) self.old self.old.workspace.scratch) detail object.now.group object.now.target self.old.handles)) }
        ensures kept { KeepsIfRefused result self.old self.new }
    {
        let opened = self.opened(situation)?;
        let text = properties_text(
            self.alloc,
            &opened,
            situation.scripts,
            self.number,
            object,
            detail,
            &mut self.handles,
        )?;
        self.evaluations.put(opened.keep());
        Ok(answering_text(self.alloc, text))
    }

    /// `Runtime.releaseObject`
    fn release(&mut self, object_id: &Units) -> Result<Done, Fault>
        ensures made { Makes result self.new (rows.release self.old object_id.now) }
        ensures kept { KeepsIfRefused result self.old self.new }
    {
        match self.handle_of(object_id)? {
            Some(object) => {
                self.handles.release(object.number);
                self.give_up_unheld();
                Ok(done(self.alloc))
            }
            None => Err(Fault::Refused(Refusal::UnknownObject)),
        }
    }

    /// `Runtime.releaseObjectGroup`
    fn release_group(&mut self, group: &Units) -> Result<Done, Fault>
        ensures made { Makes result self.new (rows.release_group self.old group.now) }
        ensures kept { KeepsIfRefused result self.old self.new }
    {
        self.handles.release_group(group.as_slice());
        self.give_up_unheld();
        Ok(done(self.alloc))
    }

    // ---- the domain Runtime

    /// The events of enabling the domain Runtime: the only context, where it wasn't enabled, unless the run has ended.
    fn contexts_told<P: Program>(
        &self,
        situation: &Situation<'_, P>,
    ) -> Result<Vec<String>, AllocError>
        ensures { IfOk result (λ texts. map string_bytes texts.items ≡ rows.contexts_told (seen P.standing situation.now) self.now) }
    {
        if situation.program.is_over() || self.runtime {
            return Ok(Vec::new(self.alloc));
        }
        let text = context_created_text(self.alloc)?;
        Ok(vec![in self.alloc; text]?)
    }

    /// `Runtime.enable`
    fn enable_runtime<P: Program>(&mut self, situation: &Situation<'_, P>) -> Result<Done, Fault>
        ensures made { Makes result self.new (rows.enable_runtime (seen P.standing situation.now) self.old) }
        ensures kept { KeepsIfRefused result self.old self.new }
    {
        let before = self.contexts_told(situation)?;
        self.runtime = true;
        Ok(Done {
            before,
            answer: Answer::Tree(nothing(self.alloc)),
            event: None,
            asks: Asks::Nothing,
        })
    }

    /// `Runtime.disable`
    fn disable_runtime(&mut self) -> Result<Done, Fault>
        ensures made { Makes result self.new (rows.disable_runtime self.old) }
        ensures kept { KeepsIfRefused result self.old self.new }
    {
        self.runtime = false;
        Ok(done(self.alloc))
    }

    /// `Runtime.globalLexicalScopeNames`
    fn lexical_names<P: Program>(&mut self, situation: &Situation<'_, P>) -> Result<Done, Fault>
        ensures made { Makes result self.new (rows.lexical_names (seen P.standing situation.now) self.old) }
        ensures kept { KeepsIfRefused result self.old self.new }
    {
        let sources = EvaluatedTexts;
        let describer = describer(self.alloc, situation, self.number, &sources);
        let names = describer.declared_names(script_scope())?;
        let answer = declared_names(self.alloc, names)?;
        Ok(answering(self.alloc, answer))
    }
}
