//! Evaluations without effects (Chrome DevTools Protocol 1.3, `Runtime.evaluate` and `Debugger.evaluateOnCallFrame`).

ghost use Rattle.std.specs.Prelude.{◌≡◌, Err, IfOk, List, None, OnOk, length, map, option_and_then, option_copied, option_map, slice_get, if◌then◌else◌};
ghost use Rattle.frames_scopes_types.specs.Frames.{ShownFrame};
ghost use Rattle.js_heap.specs.BuiltIns.{script_scope};
ghost use Rattle.js_parser_readers.specs.declared.fault.ParseFault.TheVariants as parse_faults;
ghost use Rattle.cdp_session.specs.declared.done.Fault.TheVariants as faults;
ghost use Rattle.js_semantics.specs.Evaluation.{Answer, evaluate_expression as definition};
ghost use Rattle.js_semantics.specs.Makers.{MadeExpression as Source};
ghost use Rattle.js_semantics.specs.Sources.{expression_source};
ghost use Rattle.frames_scopes_types.specs.Views.{frame_of, scope_of};
ghost use Rattle.js_heap.specs.ScratchSpaces.{copied_world};
ghost use Rattle.pure_eval.specs.Workspaces.{opened as just_opened, EvaluatesTo};
ghost use Rattle.remote_objects.specs.Views.{sight_of};
ghost use Rattle.js_parser.specs.Expressions.{expression_of};
ghost use Rattle.js_parser.specs.NodeTexts.{node_text};
ghost use Rattle.remote_objects.specs.ByValue.{remote_by_value};
ghost use Rattle.cdp_session_messages.specs.Exceptions as exceptions;
ghost use Rattle.cdp_session.specs.Sessions.{no_workspace, with_exception, with_workspace};
ghost use Rattle.cdp_session.specs.Evaluations as evaluations;
ghost use Rattle.cdp_session.specs.Made.{Describes, GivesValue, KeepsIfRefused, Makes};
ghost use Rattle.cdp_session.specs.Rows.{row_of};
ghost use Rattle.cdp_session.specs.Situations.{seen, Situation as Seen};

use crate::describing::{described_text, given_of, given_text};
use crate::done::{Done, Fault};
use crate::program::Program;
use crate::result_texts::{thrown_text, value_text};
use crate::rows::{answering, answering_text};
use crate::session::Session;
use crate::showing::{Showing, detail_of};
use crate::situation::Situation;
use cdp_json::params::Evaluation as Asked;
use cdp_json::refusal::{Refusal, ScratchLimit};
use cdp_session_messages::{effect_object, syntax_result, thrown_result};
use cdp_text::units::Units;
use frames_scopes_types::{CallFrame, Scope};
use js_heap::built_in::script_scope;
use js_heap::change::Counted;
use js_heap::limits::{MOST_SCRATCH_CELLS, MOST_SCRATCH_UNITS};
use js_heap::value::{Addr, Value};
use js_machine_rows::table::StepTable;
use js_parser::parse::parse_expression;
use js_parser_readers::fault::ParseFault;
use js_tree::script::{Expression, Script};
use object_groups::Handles;
use pure_eval::{Evaluated, OpenWorkspace, Workspace, is_memory};
use remote_objects::read_frame_id;
use std::alloc::{AllocError, Global};

/// The refusal for a limit of a session's cells that an evaluation would pass.
fn limit_of(what: Counted) -> Refusal
    ensures { result ≡ evaluations.limit_of what }
{
    match what {
        Counted::Cells => Refusal::ScratchFull {
            count: u64::from(MOST_SCRATCH_CELLS),
            what: ScratchLimit::Cells,
        },
        Counted::Units => Refusal::ScratchFull {
            count: u64::from(MOST_SCRATCH_UNITS),
            what: ScratchLimit::Units,
        },
    }
}

/// Whether a reply that describes a value makes a handle on a cell of the session's evaluations.
fn holds_on(value: Value, handles: &Handles) -> bool
    ensures { result ≡ evaluations.holds_on value handles.now }
{
    match value {
        Value::Object(Addr::Scratch(_)) => !handles.is_full(),
        _ => false,
    }
}

/// What evaluations go on from behind one that is kept, or forgotten.
fn kept_or_forgotten(keeps: bool, opened: OpenWorkspace<'_>) -> Workspace
    ensures workspace { result.workspace
        ≡ (if keeps then opened.entry.workspace.behind else opened.entry.workspace.before) }
    ensures names { result.names ≡ opened.entry.names }
{
    if keeps {
        opened.keep()
    } else {
        opened.forget()
    }
}

/// The name of a group, if there is one.
fn name_of(group: &Option<Units>) -> Option<&[u16]>
    ensures { option_copied result ≡ group.now }
{
    match group {
        Some(name) => Some(name.as_slice()),
        None => None,
    }
}

// ---- frames

/// The innermost of the scopes of a frame.
fn innermost(scopes: &[Scope<'_>]) -> Addr
    ensures { result ≡ evaluations.innermost (map scope_of scopes.now) }
{
    match scopes.first() {
        Some(scope) => scope.bindings,
        None => script_scope(),
    }
}

/// How far from the top one the frame is whose id this is, of so many frames of the stop of this number; none where
/// none of them has it.
fn depth_of(session: u64, stop: u64, id: &Units, count: usize) -> Option<usize>
    ensures { (frames : List ShownFrame) → length frames ≡ count
        → option_and_then (slice_get frames) result ≡ evaluations.frame_from session stop id.now 0 frames }
{
    let depth = read_frame_id(session, stop, id.as_slice())? as usize;
    if depth >= count {
        return None;
    }
    Some(depth)
}

/// The frame of a program whose id this is, at the stop of this number, if there is one. No other frame is made.
fn find_frame<'p, P: Program>(
    alloc: Global,
    session: u64,
    stop: u64,
    id: &Units,
    program: &'p P,
) -> Result<Option<CallFrame<'p>>, AllocError>
    ensures { IfOk result (λ found. option_map frame_of found
        ≡ evaluations.frame_from session stop id.now 0 (P.standing program.now).frames) }
{
    match depth_of(session, stop, id, program.frame_count()) {
        Some(depth) => program.call_frame(alloc, depth),
        None => Ok(None),
    }
}

impl Session<'_> {
    /// `Runtime.evaluate`: in the scope of the scripts.
    pub(crate) fn evaluate<P: Program>(
        &mut self,
        situation: &Situation<'_, P>,
        asked: Asked,
    ) -> Result<Done, Fault>
        ensures made { Makes result self.new (row_of (evaluations.evaluates (seen P.standing situation.now) self.old asked)) }
        ensures kept { KeepsIfRefused result self.old self.new }
    {
        self.evaluate_in(situation, script_scope(), Value::Undefined, asked)
    }

    /// `Debugger.evaluateOnCallFrame`: in the innermost scope of a frame of the present stop, with its `this`.
    pub(crate) fn evaluate_on_call_frame<P: Program>(
        &mut self,
        situation: &Situation<'_, P>,
        id: &Units,
        asked: Asked,
    ) -> Result<Done, Fault>
        ensures made { Makes result self.new (row_of (evaluations.evaluates_at (seen P.standing situation.now) self.old (evaluations.frame_of (seen P.standing situation.now) self.old situation.now.paused id.now) asked)) }
        ensures kept { KeepsIfRefused result self.old self.new }
    {
        let Some(pause) = situation.paused else {
            return Err(Fault::Refused(Refusal::UnknownFrame));
        };
        match find_frame(self.alloc, self.number, pause.number, id, situation.program)? {
            Some(frame) => {
                let scope = innermost(frame.scopes.as_slice());
                self.evaluate_in(situation, scope, frame.this, asked)
            }
            None => Err(Fault::Refused(Refusal::UnknownFrame)),
        }
    }

    /// The evaluation of a text in a scope with a `this`.
    fn evaluate_in<P: Program>(
        &mut self,
        situation: &Situation<'_, P>,
        scope: Addr,
        receiver: Value,
        asked: Asked,
    ) -> Result<Done, Fault>
        ensures made { Makes result self.new (row_of (evaluations.evaluates_in (seen P.standing situation.now) self.old scope receiver asked)) }
        ensures kept { KeepsIfRefused result self.old self.new }
    {
        if !asked.throw_on_side_effect {
            return Err(Fault::Refused(Refusal::NeedsNoSideEffect));
        }
        let Asked {
            expression,
            object_group,
            return_by_value,
            generate_preview,
            ..
        } = asked;
        let showing = Showing {
            group: object_group,
            by_value: return_by_value,
            detail: detail_of(generate_preview),
        };
        self.evaluate_text(situation, scope, receiver, &showing, &expression)
    }

    /// The evaluation of a text without effects.
    fn evaluate_text<P: Program>(
        &mut self,
        situation: &Situation<'_, P>,
        scope: Addr,
        receiver: Value,
        showing: &Showing,
        source: &Units,
    ) -> Result<Done, Fault>
        ensures made { Makes result self.new (row_of (evaluations.outcome_of_tree (seen P.standing situation.now) self.old scope receiver showing.now source.now (expression_of source.now))) }
        ensures kept { KeepsIfRefused result self.old self.new }
    {
        match parse_expression(self.alloc, source.as_slice()) {
            Ok(expression) => {
                self.evaluate_expression(situation, scope, receiver, showing, &expression)
            }
            Err(fault) => self.refuse_text(fault),
        }
    }

    /// The answer to a text that the parser refuses.
    pub(crate) fn refuse_text(&mut self, fault: ParseFault) -> Result<Done, Fault>
        ensures made { Makes result self.new (row_of (evaluations.no_expression self.old)) }
        ensures memory { fault ≡ parse_faults.Memory → result ≡ Err faults.Memory }
        ensures kept { KeepsIfRefused result self.old self.new }
    {
        match fault {
            ParseFault::Memory => Err(Fault::Memory),
            _ => self.answer_no_expression(),
        }
    }

    /// The answer to a text that is no expression.
    fn answer_no_expression(&mut self) -> Result<Done, Fault>
        ensures made { Makes result self.new (row_of (evaluations.no_expression self.old)) }
        ensures kept { KeepsIfRefused result self.old self.new }
    {
        let id = self.count_exception();
        let answer = syntax_result(self.alloc, id)?;
        Ok(answering(self.alloc, answer))
    }

    /// The evaluation of an expression in a scope with a `this`.
    fn evaluate_expression<P: Program>(
        &mut self,
        situation: &Situation<'_, P>,
        scope: Addr,
        receiver: Value,
        showing: &Showing,
        expression: &Expression,
    ) -> Result<Done, Fault>
        ensures made { Makes result self.new (row_of (evaluations.outcome_of_answer (seen P.standing situation.now) self.old showing.now (expression_source expression.now.tree) (definition self.old.workspace.program (seen P.standing situation.now).standing.world self.old.workspace.scratch scope receiver expression.now))) }
        ensures kept { KeepsIfRefused result self.old self.new }
    {
        let mut opened = self.opened(situation)?;
        let at = opened.next_address();
        let prepared = situation.program.prepared(self.alloc, at, expression)?;
        let end = opened.evaluate::<StepTable>(self.alloc, scope, receiver, &prepared);
        if is_memory(end) {
            return Err(Fault::Memory);
        }
        self.answer_evaluation(situation.scripts, showing, end, opened)
    }

    /// What the session's evaluations go on from, open over the cells of the program. Until it is put back the session
    /// has none.
    pub(crate) fn opened<'p, P: Program>(
        &mut self,
        situation: &Situation<'p, P>,
    ) -> Result<OpenWorkspace<'p>, AllocError>
        ensures opened { IfOk result (λ o. o.workspace ≡ just_opened (seen P.standing situation.now).standing.world
            self.old.workspace) }
        ensures rest { OnOk result (self.new ≡ with_workspace no_workspace self.old) }
    {
        self.evaluations.open(situation)
    }

    /// The answer to an evaluation that ended so.
    pub(crate) fn answer_evaluation(
        &mut self,
        scripts: &[Script],
        showing: &Showing,
        end: Evaluated,
        opened: OpenWorkspace<'_>,
    ) -> Result<Done, Fault>
        ensures made { (s : Seen) (e : Source) (a : Answer)
            → s.scripts ≡ scripts.now → s.standing.world ≡ opened.entry.workspace.world
            → EvaluatesTo a e end (just_opened opened.entry.workspace.world opened.entry.workspace.before)
            opened.entry.workspace
            → Makes result self.new (row_of (evaluations.outcome_of_answer s
            (with_workspace opened.entry.workspace.before self.old) showing.now e a)) }
        ensures kept { KeepsIfRefused result (with_workspace opened.entry.workspace.before self.old) self.new }
    {
        match end {
            Evaluated::Value(value) => self.answer_value(scripts, showing, value, opened),
            Evaluated::Thrown(value) => self.answer_throw(scripts, showing, value, opened),
            Evaluated::Effect => {
                self.evaluations.put(opened.forget());
                let id = self.count_exception();
                let described = effect_object(self.alloc)?;
                let answer = thrown_result(self.alloc, id, described)?;
                Ok(answering(self.alloc, answer))
            }
            Evaluated::Full(what) => {
                self.evaluations.put(opened.forget());
                Err(Fault::Refused(limit_of(what)))
            }
            Evaluated::Spent => {
                self.evaluations.put(opened.forget());
                Err(Fault::Refused(Refusal::BudgetSpent))
            }
            Evaluated::Memory => Err(Fault::Memory),
        }
    }

    /// The answer to an evaluation that came to this value.
    fn answer_value(
        &mut self,
        scripts: &[Script],
        showing: &Showing,
        value: Value,
        opened: OpenWorkspace<'_>,
    ) -> Result<Done, Fault>
        ensures made { Makes result self.new (row_of (evaluations.answered_by exceptions.value_result
            evaluations.as_it_is (evaluations.left_by opened.entry.workspace showing.now value self.old)
            (evaluations.described_in scripts.now opened.entry.workspace showing.now value self.old))) }
        ensures kept { KeepsIfRefused result (with_workspace opened.entry.workspace.before self.old) self.new }
    {
        let described = self.describe(scripts, value, showing, opened)?;
        let answer = value_text(self.alloc, described.as_str())?;
        Ok(answering_text(self.alloc, answer))
    }

    /// The answer to an evaluation that threw this value.
    fn answer_throw(
        &mut self,
        scripts: &[Script],
        showing: &Showing,
        value: Value,
        opened: OpenWorkspace<'_>,
    ) -> Result<Done, Fault>
        ensures made { Makes result self.new (row_of (evaluations.answered_by
            (exceptions.thrown_result (with_exception self.old).exceptions) with_exception
            (evaluations.left_by opened.entry.workspace showing.now value self.old)
            (evaluations.described_in scripts.now opened.entry.workspace showing.now value self.old))) }
        ensures kept { KeepsIfRefused result (with_workspace opened.entry.workspace.before self.old) self.new }
    {
        let described = self.describe(scripts, value, showing, opened)?;
        let id = self.count_exception();
        let answer = thrown_text(self.alloc, id, described.as_str())?;
        Ok(answering_text(self.alloc, answer))
    }

    /// The text of the value to which an evaluation came. What the evaluation made is kept where the description holds
    /// on to it.
    fn describe(
        &mut self,
        scripts: &[Script],
        value: Value,
        showing: &Showing,
        opened: OpenWorkspace<'_>,
    ) -> Result<String, Fault>
        ensures described { Describes result self.new
            (evaluations.left_by opened.entry.workspace showing.now value self.old)
            (evaluations.described_in scripts.now opened.entry.workspace showing.now value self.old) }
        ensures kept { KeepsIfRefused result (with_workspace opened.entry.workspace.before self.old) self.new }
    {
        if showing.by_value {
            return self.describe_by_value(scripts, value, opened);
        }
        let holds = holds_on(value, &self.handles);
        let described = described_text(
            self.alloc,
            &opened,
            scripts,
            self.number,
            value,
            showing.detail,
            name_of(&showing.group),
            &mut self.handles,
        )?;
        self.evaluations.put(kept_or_forgotten(holds, opened));
        Ok(described)
    }

    /// The text of the value to which an evaluation came, by value; nothing of what the evaluation made is kept.
    fn describe_by_value(
        &mut self,
        scripts: &[Script],
        value: Value,
        opened: OpenWorkspace<'_>,
    ) -> Result<String, Fault>
        ensures given { GivesValue result (remote_by_value (sight_of node_text
            (copied_world opened.entry.workspace.world opened.entry.workspace.behind.scratch) scripts.now
            self.old.number) value) }
        ensures session { self.new ≡ with_workspace opened.entry.workspace.before self.old }
    {
        let given = given_of(self.alloc, &opened, scripts, self.number, value);
        self.evaluations.put(opened.forget());
        Ok(given_text(self.alloc, &given?)?)
    }
}
