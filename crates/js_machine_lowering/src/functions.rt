//! The terms of functions and their bodies.

ghost use Rattle.std.specs.Prelude.{◌≡◌, true, false, IfOk};
ghost use Rattle.js_tree.specs.Views.{parameters_view};
ghost use Rattle.js_semantics.specs.Terms as semantics;
ghost use Rattle.js_semantics.specs.Makers as makers;
ghost use Rattle.js_semantics.specs.Makers.{parameter_names};
ghost use Rattle.js_semantics.specs.Sources.{expression_source, statements_source};
ghost use Rattle.js_semantics.specs.declared.form.Form.TheVariants as forms;
ghost use Rattle.js_machine_terms.specs.Views.{term_view, terms_view};
ghost use Rattle.js_machine_lowering_parts.specs.Sources.{context_of, own_form};

use crate::expressions::expression_term;
use crate::statements::{functions_terms, statements_terms};
use cdp_text::units::Units;
use js_heap::cell::ScopeNames;
use js_machine_lowering_parts::functions::{
    arrow_function, entered, named_function, own_function, with_front,
};
use js_machine_lowering_parts::names::names_of;
use js_machine_lowering_parts::places::{LoweringContext, within};
use js_machine_terms::term::{Term, Terms, end, one, part};
use js_semantics::form::{Form, Source};
use js_semantics::words::node_of;
use js_tree::names::ParameterNames;
use js_tree::tree::{ArrowParameters, Expr, Stmts};
use std::alloc::{AllocError, Global};

/// A function expression with what its body is.
pub fn function_term<'a>(
    alloc: Global,
    node: u32,
    name: &Option<Units>,
    parameters: &ParameterNames,
    body: &Stmts,
    place: LoweringContext<'a>,
    later: Terms,
) -> Result<Term, AllocError>
    ensures { IfOk result (λ t. term_view t ≡ semantics.part (forms.Function (own_form node name.now parameters.now (statements_source body.now).names (context_of place.entry))) semantics.end (terms_view later)) }
{
    let form = own_function(alloc, node, name, parameters, body, place)?;
    part(alloc, Form::Function(form), end(alloc), later)
}

/// An arrow whose body declares these names.
pub fn arrow_term<'a>(
    alloc: Global,
    node: u32,
    parameters: &ArrowParameters,
    names: ScopeNames,
    place: LoweringContext<'a>,
    later: Terms,
) -> Result<Term, AllocError>
    ensures { IfOk result (λ t. term_view t ≡ semantics.part (forms.Function (makers.form_of node (context_of place.entry).source (context_of place.entry).name (parameter_names (parameters_view parameters.now)) names true false)) semantics.end (terms_view later)) }
{
    let form = arrow_function(alloc, node, parameters, names, place)?;
    part(alloc, Form::Function(form), end(alloc), later)
}

/// An arrow with a block as its body.
pub fn block_arrow_term<'a>(
    alloc: Global,
    node: u32,
    parameters: &ArrowParameters,
    body: &Stmts,
    place: LoweringContext<'a>,
    later: Terms,
) -> Result<Term, AllocError>
    ensures { IfOk result (λ t. term_view t ≡ semantics.part (forms.Function (makers.form_of node (context_of place.entry).source (context_of place.entry).name (parameter_names (parameters_view parameters.now)) (statements_source body.now).names true false)) semantics.end (terms_view later)) }
{
    let names = names_of(alloc, body)?;
    arrow_term(alloc, node, parameters, names, place, later)
}

/// A method with a key that is known, or a declared function, with what its body is.
fn named_term(
    alloc: Global,
    node: u32,
    name: &[u16],
    parameters: &ParameterNames,
    body: &Stmts,
    source: Source,
    later: Terms,
) -> Result<Term, AllocError>
    ensures { IfOk result (λ t. term_view t ≡ semantics.part (forms.Function (makers.form_of node source name.now parameters.now (statements_source body.now).names false false)) semantics.end (terms_view later)) }
{
    let form = named_function(alloc, node, name, parameters, body, source)?;
    part(alloc, Form::Function(form), end(alloc), later)
}

/// A body before the functions that it declares.
pub fn body_parts(alloc: Global, statements: Terms, functions: Terms) -> Result<Terms, AllocError>
    ensures { IfOk result (λ ts. terms_view ts ≡ semantics.more (semantics.part forms.Sequence (terms_view statements) semantics.end) (terms_view functions)) }
{
    with_front(
        alloc,
        part(alloc, Form::Sequence, statements, end(alloc))?,
        functions,
    )
}

/// An arrow's expression, which is entered as a `return`.
fn returned(alloc: Global, node: u32, value: Term) -> Result<Terms, AllocError>
    ensures { IfOk result (λ ts. terms_view ts ≡ semantics.one (semantics.part forms.Sequence (semantics.one (semantics.part (forms.Enter node) semantics.end (semantics.one (semantics.part forms.Return (semantics.one (term_view value)) semantics.end)))) semantics.end)) }
{
    let returned = part(alloc, Form::Return, one(alloc, value)?, end(alloc))?;
    let statement = entered(alloc, node, returned)?;
    let body = part(alloc, Form::Sequence, one(alloc, statement)?, end(alloc))?;
    one(alloc, body)
}

/// The body of a function and the functions that it declares.
#[cycle(source)]
pub fn body_terms<'a>(
    alloc: Global,
    body: &Stmts,
    place: LoweringContext<'a>,
) -> Result<Terms, AllocError>
    ensures { IfOk result (λ ts. terms_view ts ≡ makers.body_terms (statements_source body.now) (context_of place.entry)) }
{
    let inner = within(0, place);
    let statements = statements_terms(alloc, body, inner)?;
    let functions = functions_terms(alloc, body, inner)?;
    body_parts(alloc, statements, functions)
}

/// An arrow's expression as its body.
#[cycle(source)]
pub fn returned_terms<'a>(
    alloc: Global,
    e: &Expr,
    place: LoweringContext<'a>,
) -> Result<Terms, AllocError>
    ensures { IfOk result (λ ts. terms_view ts ≡ makers.body_terms (makers.returned_body (expression_source e.now)) (context_of place.entry)) }
{
    let node = node_of(e);
    let value = expression_term(alloc, e, within(node, place))?;
    returned(alloc, node, value)
}

/// A method with a key that is known, or a declared function.
#[cycle(source)]
pub fn function_part<'a>(
    alloc: Global,
    node: u32,
    name: &[u16],
    parameters: &ParameterNames,
    body: &Stmts,
    place: LoweringContext<'a>,
) -> Result<Term, AllocError>
    ensures { IfOk result (λ t. term_view t ≡ semantics.part (forms.Function (makers.method_form node name.now parameters.now (statements_source body.now) (context_of place.entry))) semantics.end (makers.body_terms (statements_source body.now) (context_of place.entry))) }
{
    let later = body_terms(alloc, body, place)?;
    named_term(alloc, node, name, parameters, body, place.source, later)
}
