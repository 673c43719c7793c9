//! Conditions of breakpoints, evaluated where the program arrived: nothing of an evaluation is kept (Chrome DevTools
//! Protocol 1.3, `Debugger.setBreakpoint`).

ghost use Rattle.std.specs.Prelude.{◌≡◌, false, filter, map, slice_get, IfOk, IfSome, OnOk, Some};
ghost use Rattle.breakpoints.specs.Breakpoints.{hits_at, id_of};
ghost use Rattle.js_heap.specs.World.{World};
ghost use Rattle.js_semantics.specs.Evaluation.{Answer};
ghost use Rattle.js_semantics.specs.Makers.{MadeExpression as Source};
ghost use Rattle.pure_eval.specs.Workspaces.{opened as just_opened, EvaluatesTo, Workspace as Kept};
ghost use Rattle.cdp_session.specs.Conditions as conditions;
ghost use Rattle.cdp_session.specs.Conditions.{IsParsed, expression_holds, hits, parsed_holds};
ghost use Rattle.pure_eval.specs.Answering.{is_memory};
ghost use Rattle.cdp_session.specs.Situations.{seen};

use crate::evaluations::Evaluations;
use crate::program::Program;
use crate::ready::ReadyExpression;
use crate::situation::Situation;
use crate::top::Top;
use breakpoints::Breakpoints;
use cdp_text::position::Place;
use cdp_text::units::Units;
use js_heap_operators::values::is_truthy;
use js_machine_actions::seen::NamedWorld;
use js_machine_rows::table::StepTable;
use js_parser::node_text::lacks_memory;
use js_parser::parse::parse_expression;
use pure_eval::{Evaluated, OpenWorkspace};
use std::alloc::{AllocError, Global};
use std::marker::Model;

/// A condition that was parsed: its text, and the expression that it is, if it is one. Contracts see the text.
#[derive(Drop)]
pub(crate) struct Condition {
    text: Units,
    expression: Option<ReadyExpression>,
}

impl Model for Condition {
    ghost use Rattle.std.specs.Prelude.{List, ℕ};
    ghost use Rattle.cdp_session.specs.Conditions.{IsParsed};

    ghost Value = { List ℕ };

    ghost view = { λ c. c.text };

    ghost invariant = { λ c. IsParsed c.text c.expression };
}

/// The expression that a text is; none where the parser refuses it.
fn expression_of(alloc: Global, text: &Units) -> Result<Option<ReadyExpression>, AllocError>
    ensures { IfOk result (λ expression. IsParsed text.now expression) }
{
    match parse_expression(alloc, text.as_slice()) {
        Ok(expression) => Ok(Some(ReadyExpression::new(expression))),
        Err(fault) => {
            if lacks_memory(fault) {
                Err(AllocError)
            } else {
                Ok(None)
            }
        }
    }
}

impl Condition {
    /// Parses the text of a condition. A text that is no expression is kept, and never holds.
    fn parse(alloc: Global, text: &Units) -> Result<Condition, AllocError>
        ensures { IfOk result (λ c. c ≡ text.now) }
    {
        let expression = expression_of(alloc, text)?;
        let text = text.clone()?;
        Ok(Condition { text, expression })
    }
}

/// Where the condition of this text stands, if it was parsed.
fn find(parsed: &[Condition], text: &Units) -> Option<usize>
    ensures { IfSome result (λ at. slice_get parsed.now at ≡ Some text.now) }
{
    for (at, condition) in parsed.iter().enumerate() {
        if condition.text == *text {
            return Some(at);
        }
    }
    None
}

/// Where the condition of this text stands; it is parsed now where it wasn't yet.
fn find_or_parse(
    alloc: Global,
    parsed: &mut Vec<Condition>,
    text: &Units,
) -> Result<usize, AllocError>
    ensures { IfOk result (λ at. slice_get parsed.new.items at ≡ Some text.now) }
{
    if let Some(at) = find(parsed.as_slice(), text) {
        return Ok(at);
    }
    let at = parsed.len();
    parsed.push(Condition::parse(alloc, text)?)?;
    Ok(at)
}

// ---- evaluations

/// Whether an evaluation came to a value that counts as true.
fn comes_true(opened: &OpenWorkspace<'_>, end: Evaluated) -> Result<bool, AllocError>
    ensures value { IfOk result (λ is. (base : World) (w : Kept) (a : Answer) (e : Source)
        → EvaluatesTo a e end (just_opened base w) opened.now.workspace
        → is ≡ conditions.comes_true base a) }
    ensures memory { IfOk result (λ is. is_memory end ≡ false) }
{
    match end {
        Evaluated::Value(value) => {
            let seen = opened.seen();
            let cells = NamedWorld {
                names: seen.names,
                world: seen.world,
            };
            Ok(is_truthy(&cells, value))
        }
        Evaluated::Memory => Err(AllocError),
        _ => Ok(false),
    }
}

/// Whether an expression comes to a value that counts as true in the top frame of the program. Nothing of its
/// evaluation is kept but what it was made ready as, and its code is held.
fn holds_at_top<P: Program>(
    alloc: Global,
    evaluations: &mut Evaluations<'_>,
    situation: &Situation<'_, P>,
    expression: &mut ReadyExpression,
) -> Result<bool, AllocError>
    ensures holds { IfOk result (λ is. is ≡ expression_holds (seen P.standing situation.now).standing
        evaluations.old expression.old) }
    ensures kept { OnOk result (evaluations.new ≡ evaluations.old) }
    ensures same { expression.new ≡ expression.old }
{
    let Top { scope, this } = situation.program.top();
    let prepared = evaluations.hold(alloc, situation.program, expression)?;
    let mut opened = evaluations.open_holding(situation)?;
    let at = opened.next_address();
    let end = opened.evaluate_held::<StepTable>(alloc, scope, this, &prepared);
    expression.keep(at, prepared);
    let holds = comes_true(&opened, end)?;
    evaluations.put_holding(opened.forget());
    Ok(holds)
}

/// Whether the expression to which a condition was parsed, if it is one, comes to such a value.
fn parsed_holds<P: Program>(
    alloc: Global,
    evaluations: &mut Evaluations<'_>,
    situation: &Situation<'_, P>,
    expression: &mut Option<ReadyExpression>,
) -> Result<bool, AllocError>
    ensures holds { IfOk result (λ is. is ≡ parsed_holds (seen P.standing situation.now).standing
        evaluations.old expression.old) }
    ensures kept { OnOk result (evaluations.new ≡ evaluations.old) }
    ensures same { expression.new ≡ expression.old }
{
    match expression {
        Some(expression) => holds_at_top(alloc, evaluations, situation, expression),
        None => Ok(false),
    }
}

impl Condition {
    /// Whether the condition holds where the program stands.
    fn holds<P: Program>(
        &mut self,
        alloc: Global,
        evaluations: &mut Evaluations<'_>,
        situation: &Situation<'_, P>,
    ) -> Result<bool, AllocError>
        ensures holds { IfOk result (λ is. is ≡ conditions.holds (seen P.standing situation.now).standing
            evaluations.old self.old) }
        ensures kept { OnOk result (evaluations.new ≡ evaluations.old) }
        ensures same { self.new ≡ self.old }
    {
        parsed_holds(alloc, evaluations, situation, &mut self.expression)
    }
}

/// Whether a breakpoint of this condition, or of none, is met where the program stands. The condition is parsed at its
/// first use.
fn is_met<P: Program>(
    alloc: Global,
    parsed: &mut Vec<Condition>,
    evaluations: &mut Evaluations<'_>,
    situation: &Situation<'_, P>,
    condition: &Option<Units>,
) -> Result<bool, AllocError>
    ensures met { IfOk result (λ is. is ≡ conditions.condition_holds (seen P.standing situation.now).standing
        evaluations.old condition.now) }
    ensures kept { OnOk result (evaluations.new ≡ evaluations.old) }
{
    let Some(text) = condition else {
        return Ok(true);
    };
    let at = find_or_parse(alloc, parsed, text)?;
    match parsed.as_mut_slice().get_mut(at) {
        Some(condition) => condition.holds(alloc, evaluations, situation),
        None => Err(AllocError),
    }
}

/// The ids of the active breakpoints at a place that are met where the program stands, in the order in which they were
/// set.
fn ids_met<P: Program>(
    alloc: Global,
    breakpoints: &Breakpoints,
    parsed: &mut Vec<Condition>,
    evaluations: &mut Evaluations<'_>,
    situation: &Situation<'_, P>,
    place: Place,
) -> Result<Vec<Units>, AllocError>
    ensures ids { IfOk result (λ ids. ids.items ≡ map id_of (filter
        (conditions.is_met (seen P.standing situation.now).standing evaluations.old)
        (hits_at place breakpoints.now))) }
    ensures kept { OnOk result (evaluations.new ≡ evaluations.old) }
{
    let mut ids = Vec::new(alloc);
    for breakpoint in breakpoints.at(place) {
        if is_met(alloc, parsed, evaluations, situation, &breakpoint.condition)? {
            ids.push(breakpoint.id.clone()?)?;
        }
    }
    Ok(ids)
}

/// The same; at most places none stands, which shows at a look.
fn ids_there<P: Program>(
    alloc: Global,
    breakpoints: &Breakpoints,
    parsed: &mut Vec<Condition>,
    evaluations: &mut Evaluations<'_>,
    situation: &Situation<'_, P>,
    place: Place,
) -> Result<Vec<Units>, AllocError>
    ensures ids { IfOk result (λ ids. ids.items ≡ map id_of (filter
        (conditions.is_met (seen P.standing situation.now).standing evaluations.old)
        (hits_at place breakpoints.now))) }
    ensures kept { OnOk result (evaluations.new ≡ evaluations.old) }
{
    if !breakpoints.is_hit(place) {
        return Ok(Vec::new(alloc));
    }
    ids_met(alloc, breakpoints, parsed, evaluations, situation, place)
}

/// The ids of the breakpoints that are hit where the program arrived, if it did, in the order in which they were set.
///
/// # Errors
///
/// There is no memory for them, or for an evaluation. The session is to be dropped.
pub(crate) fn ids_hit<P: Program>(
    alloc: Global,
    breakpoints: &Breakpoints,
    parsed: &mut Vec<Condition>,
    evaluations: &mut Evaluations<'_>,
    situation: &Situation<'_, P>,
    place: Option<Place>,
) -> Result<Vec<Units>, AllocError>
    ensures ids { IfOk result (λ ids. ids.items ≡ map id_of (hits (seen P.standing situation.now).standing
        evaluations.old breakpoints.now place)) }
    ensures kept { OnOk result (evaluations.new ≡ evaluations.old) }
{
    match place {
        Some(place) => ids_there(alloc, breakpoints, parsed, evaluations, situation, place),
        None => Ok(Vec::new(alloc)),
    }
}
