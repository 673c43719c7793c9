//! The forms of functions, and statements that are made of their parts.

ghost use Rattle.std.specs.Prelude.{◌≡◌, true, false, None, IfOk};
ghost use Rattle.js_tree.specs.Views.{parameters_view};
ghost use Rattle.js_semantics.specs.Makers.{parameter_names};
ghost use Rattle.js_semantics.specs.Terms as semantics;
ghost use Rattle.js_semantics.specs.Makers as makers;
ghost use Rattle.js_semantics.specs.Sources.{statements_source};
ghost use Rattle.js_semantics.specs.declared.form.Form.TheVariants as forms;
ghost use Rattle.js_machine_terms.specs.Views.{term_view, terms_view};
ghost use Rattle.js_machine_lowering_parts.specs.Sources.{context_of, own_form};

use crate::names::{arrow_parameters, names_of};
use crate::places::LoweringContext;
use cdp_text::units::Units;
use js_heap::built_in::Code;
use js_heap::cell::ScopeNames;
use js_machine_terms::copies::names_copy;
use js_machine_terms::term::{Term, Terms, end, joined, one, part, three};
use js_semantics::form::{Form, FunctionForm, Source, Stage};
use js_tree::names::ParameterNames;
use js_tree::tree::{ArrowParameters, Stmts};
use std::alloc::{AllocError, Global};

/// Where the code of a node is.
fn code_of(source: Source, node: u32) -> Code
    ensures { result ≡ makers.code_of source node }
{
    match source {
        Source::Script(number) => Code::Script { number, node },
        Source::Kept(at) => Code::Kept { at, node },
    }
}

/// The form of a function expression with its own name, or with that of its place.
pub fn own_function<'a>(
    alloc: Global,
    node: u32,
    name: &Option<Units>,
    parameters: &ParameterNames,
    body: &Stmts,
    place: LoweringContext<'a>,
) -> Result<FunctionForm, AllocError>
    ensures { IfOk result (λ f. f ≡ own_form node name.now parameters.now (statements_source body.now).names (context_of place.entry)) }
{
    match name {
        Some(own) => Ok(FunctionForm {
            code: code_of(place.source, node),
            node,
            name: own.clone()?,
            parameters: names_copy(alloc, parameters)?,
            names: names_of(alloc, body)?,
            is_arrow: false,
            is_named: true,
        }),
        None => Ok(named_function(alloc, node, place.name, parameters, body, place.source)?),
    }
}

/// The form of a method or a declared function.
pub fn named_function(
    alloc: Global,
    node: u32,
    name: &[u16],
    parameters: &ParameterNames,
    body: &Stmts,
    source: Source,
) -> Result<FunctionForm, AllocError>
    ensures { IfOk result (λ f. f ≡ makers.form_of node source name.now parameters.now (statements_source body.now).names false false) }
{
    Ok(FunctionForm {
        code: code_of(source, node),
        node,
        name: Units::from_slice(alloc, name)?,
        parameters: names_copy(alloc, parameters)?,
        names: names_of(alloc, body)?,
        is_arrow: false,
        is_named: false,
    })
}

/// The form of an arrow whose body declares these names.
pub fn arrow_function<'a>(
    alloc: Global,
    node: u32,
    parameters: &ArrowParameters,
    names: ScopeNames,
    place: LoweringContext<'a>,
) -> Result<FunctionForm, AllocError>
    ensures { IfOk result (λ f. f ≡ makers.form_of node (context_of place.entry).source (context_of place.entry).name (parameter_names (parameters_view parameters.now)) names true false) }
{
    Ok(FunctionForm {
        code: code_of(place.source, node),
        node,
        name: Units::from_slice(alloc, place.name)?,
        parameters: arrow_parameters(alloc, parameters)?,
        names,
        is_arrow: true,
        is_named: false,
    })
}

/// A part before others.
pub fn with_front(alloc: Global, first: Term, others: Terms) -> Result<Terms, AllocError>
    ensures { IfOk result (λ ts. terms_view ts ≡ semantics.more (term_view first) (terms_view others)) }
{
    joined(one(alloc, first)?, others)
}

/// An untouched statement that becomes this once it is entered.
pub fn entered(alloc: Global, node: u32, term: Term) -> Result<Term, AllocError>
    ensures { IfOk result (λ t. term_view t ≡ semantics.part (forms.Enter node) semantics.end (semantics.one (term_view term))) }
{
    let later = one(alloc, term)?;
    part(alloc, Form::Enter(node), end(alloc), later)
}

/// A loop before its first turn.
pub fn loop_term(
    alloc: Global,
    stage: Stage,
    first: Terms,
    parts: Terms,
) -> Result<Term, AllocError>
    ensures { IfOk result (λ t. term_view t ≡ semantics.part (forms.Loop stage None) (terms_view first) (terms_view parts)) }
{
    part(alloc, Form::Loop(stage, None), first, parts)
}

/// The parts of a loop.
pub fn loop_parts(alloc: Global, test: Term, update: Term, body: Term) -> Result<Terms, AllocError>
    ensures { IfOk result (λ ts. terms_view ts ≡ makers.loop_parts (term_view test) (term_view update) (term_view body)) }
{
    three(alloc, test, update, body)
}
