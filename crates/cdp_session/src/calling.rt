//! Calls of functions without effects (Chrome DevTools Protocol 1.3, `Runtime.callFunctionOn`).

ghost use Rattle.std.specs.Prelude.{◌≡◌, Err, IfOk, map, option_map};
ghost use Rattle.js_semantics.specs.Evaluation as evaluation;
ghost use Rattle.js_semantics.specs.Evaluation.{evaluate_function};
ghost use Rattle.js_semantics.specs.Sources.{expression_source};
ghost use Rattle.js_parser.specs.Expressions.{function_of};
ghost use Rattle.cdp_json.specs.ArgumentViews.{argument_view};
ghost use Rattle.pure_eval.specs.Arguments as passed;
ghost use Rattle.cdp_session.specs.Calls as calls;
ghost use Rattle.cdp_session.specs.Evaluations as evaluations;
ghost use Rattle.cdp_session.specs.Made.{KeepsIfRefused, Makes};
ghost use Rattle.cdp_session.specs.Rows.{row_of};
ghost use Rattle.cdp_session.specs.Situations.{seen};

use crate::done::{Done, Fault};
use crate::program::Program;
use crate::session::Session;
use crate::showing::{Showing, detail_of};
use crate::situation::Situation;
use cdp_json::arguments::Argument as Asked;
use cdp_json::copied;
use cdp_json::params::FunctionCall;
use cdp_json::refusal::Refusal;
use cdp_text::units::Units;
use js_heap::value::Value;
use js_machine_rows::table::StepTable;
use js_parser::parse::parse_function;
use js_tree::script::FunctionCode;
use object_groups::{Handle, Target};
use pure_eval::{Argument, is_memory};
use std::alloc::AllocError;

/// The object for which a handle stands; a scope is none.
fn object_of(handle: &Handle) -> Option<Value>
    ensures { result ≡ calls.handle_object handle.now }
{
    match handle.target {
        Target::Object(at) => Some(Value::Object(at)),
        Target::Scope(_) => None,
    }
}

/// An object as an argument, if it is there.
fn given(object: Option<Value>) -> Option<Argument>
    ensures { option_map passed.argument_of result ≡ option_map evaluation.given object }
{
    match object {
        Some(object) => Some(Argument::Given(object)),
        None => None,
    }
}

/// A copy of the group that a handle is in, if it is in one.
fn copied_group(handle: &Handle) -> Result<Option<Units>, AllocError>
    ensures { IfOk result (λ group. group ≡ calls.handle_group handle.now) }
{
    match &handle.group {
        Some(group) => Ok(Some(group.clone()?)),
        None => Ok(None),
    }
}

impl Session<'_> {
    // ---- what a function is called with

    /// The object whose id this is, if the session holds it.
    fn object_of(&self, id: &Units) -> Result<Option<Value>, AllocError>
        ensures { IfOk result (λ object. object ≡ calls.object_of self.now id.now) }
    {
        match self.handle_of(id)? {
            Some(handle) => Ok(object_of(&handle)),
            None => Ok(None),
        }
    }

    /// The `this` of a call: the object of an id, or undefined.
    fn receiver_of(&self, id: &Option<Units>) -> Result<Option<Value>, AllocError>
        ensures { IfOk result (λ receiver. receiver ≡ calls.receiver_of self.now id.now) }
    {
        match id {
            None => Ok(Some(Value::Undefined)),
            Some(id) => self.object_of(id),
        }
    }

    /// An argument, where the session holds its object.
    fn argument_of(&self, argument: &Asked) -> Result<Option<Argument>, AllocError>
        ensures { IfOk result (λ given. option_map passed.argument_of given ≡ calls.argument_of self.now (argument_view argument.now)) }
    {
        match argument {
            Asked::Value(value) => Ok(Some(Argument::Json(copied(self.alloc, value)?))),
            Asked::Object { object_id } => Ok(given(self.object_of(object_id)?)),
            Asked::Undefined => Ok(Some(Argument::Given(Value::Undefined))),
        }
    }

    /// The arguments in order, where the session holds each object.
    fn arguments_of(&self, arguments: &[Asked]) -> Result<Option<Vec<Argument>>, AllocError>
        ensures { IfOk result (λ given. option_map (λ g. passed.arguments_of g.items) given ≡ calls.arguments_of self.now (map argument_view arguments.now)) }
    {
        let mut given = Vec::with_capacity(self.alloc, arguments.len())?;
        for argument in arguments {
            match self.argument_of(argument)? {
                Some(passed) => given.push(passed)?,
                None => return Ok(None),
            }
        }
        Ok(Some(given))
    }

    /// The group of the object that is the `this` of a call, if there is one and it is in one.
    fn receiver_group(&self, id: &Option<Units>) -> Result<Option<Units>, AllocError>
        ensures { IfOk result (λ group. group ≡ calls.receiver_group self.now id.now) }
    {
        let Some(id) = id else {
            return Ok(None);
        };
        match self.handle_of(id)? {
            Some(handle) => copied_group(&handle),
            None => Ok(None),
        }
    }

    /// The group of the objects to which a call comes: the one that is asked for, or else that of its `this`.
    fn group_for(
        &self,
        group: Option<Units>,
        receiver: &Option<Units>,
    ) -> Result<Option<Units>, AllocError>
        ensures { IfOk result (λ g. g ≡ calls.group_for self.now group receiver.now) }
    {
        match group {
            Some(group) => Ok(Some(group)),
            None => self.receiver_group(receiver),
        }
    }

    // ---- calls

    /// `Runtime.callFunctionOn`: in the scope of the scripts.
    pub(crate) fn call_function<P: Program>(
        &mut self,
        situation: &Situation<'_, P>,
        call: FunctionCall,
    ) -> Result<Done, Fault>
        ensures made { Makes result self.new (row_of (calls.calls (seen P.standing situation.now) self.old call)) }
        ensures kept { KeepsIfRefused result self.old self.new }
    {
        let FunctionCall {
            function_declaration,
            object_id,
            arguments,
            object_group,
            return_by_value,
            generate_preview,
            throw_on_side_effect,
        } = call;
        let Some(receiver) = self.receiver_of(&object_id)? else {
            return Err(Fault::Refused(Refusal::UnknownObject));
        };
        let Some(arguments) = self.arguments_of(arguments.as_slice())? else {
            return Err(Fault::Refused(Refusal::UnknownObject));
        };
        if !throw_on_side_effect {
            return Err(Fault::Refused(Refusal::NeedsNoSideEffect));
        }
        let showing = Showing {
            group: self.group_for(object_group, &object_id)?,
            by_value: return_by_value,
            detail: detail_of(generate_preview),
        };
        self.call_text(
            situation,
            receiver,
            arguments.as_slice(),
            &showing,
            &function_declaration,
        )
    }

    /// The call of the function that a text is.
    fn call_text<P: Program>(
        &mut self,
        situation: &Situation<'_, P>,
        receiver: Value,
        arguments: &[Argument],
        showing: &Showing,
        source: &Units,
    ) -> Result<Done, Fault>
        ensures made { Makes result self.new (row_of (calls.outcome_of_function (seen P.standing situation.now) self.old receiver (passed.arguments_of arguments.now) showing.now source.now (function_of source.now))) }
        ensures kept { KeepsIfRefused result self.old self.new }
    {
        match parse_function(self.alloc, source.as_slice()) {
            Ok(function) => self.call_code(situation, receiver, arguments, showing, &function),
            Err(fault) => self.refuse_text(fault),
        }
    }

    /// The call of a function that was parsed.
    fn call_code<P: Program>(
        &mut self,
        situation: &Situation<'_, P>,
        receiver: Value,
        arguments: &[Argument],
        showing: &Showing,
        function: &FunctionCode,
    ) -> Result<Done, Fault>
        ensures made { Makes result self.new (row_of (evaluations.outcome_of_answer (seen P.standing situation.now) self.old showing.now (expression_source function.now.tree) (evaluate_function self.old.workspace.program (seen P.standing situation.now).standing.world self.old.workspace.scratch function.now receiver (passed.arguments_of arguments.now)))) }
        ensures kept { KeepsIfRefused result self.old self.new }
    {
        let mut opened = self.opened(situation)?;
        let at = opened.next_address();
        let prepared = situation
            .program
            .prepared_function(self.alloc, at, function)?;
        let end = opened.call::<StepTable>(self.alloc, receiver, arguments, &prepared);
        if is_memory(end) {
            return Err(Fault::Memory);
        }
        self.answer_evaluation(situation.scripts, showing, end, opened)
    }
}
