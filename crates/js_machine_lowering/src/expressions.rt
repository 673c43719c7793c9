//! The terms of expressions.

ghost use Rattle.std.specs.Prelude.{◌≡◌, IfOk, map};
ghost use Rattle.js_semantics.specs.Terms as semantics;
ghost use Rattle.js_semantics.specs.Makers as makers;
ghost use Rattle.js_semantics.specs.Sources.{expression_source, expressions_source};
ghost use Rattle.js_semantics.specs.declared.form.Form.TheVariants as forms;
ghost use Rattle.js_semantics.specs.declared.form.Reference.TheVariants as references;
ghost use Rattle.js_machine_terms.specs.Views.{term_view, terms_view};
ghost use Rattle.js_machine_lowering_parts.specs.Sources.{context_of};

use crate::functions::{arrow_term, block_arrow_term, body_terms, function_term, returned_terms};
use crate::objects::object_term;
use cdp_text::units::Units;
use js_heap::cell::ScopeNames;
use js_heap::value::Value;
use js_machine_lowering_parts::objects::{name_read, number_of};
use js_machine_lowering_parts::operators::{binary_term, choice, comma_term, unary_term};
use js_machine_lowering_parts::places::{LoweringContext, unnamed};
use js_machine_lowering_parts::references::{assignment, call_term, updated};
use js_machine_terms::term::{Term, Terms, done, end, leaf, one, part, terms_of, two};
use js_semantics::form::{Form, Reference};
use js_semantics::words::call_place;
use js_tree::tree::{Expr, Exprs};
use std::alloc::{AllocError, Global};

/// An expression.
#[cycle(source)]
pub fn expression_term<'a>(
    alloc: Global,
    e: &Expr,
    place: LoweringContext<'a>,
) -> Result<Term, AllocError>
    ensures { IfOk result (λ t. term_view t ≡ (expression_source e.now).term (context_of place.entry)) }
{
    match e {
        Expr::This { .. } => leaf(alloc, Form::This),
        Expr::Name { name, .. } => name_read(alloc, name),
        Expr::Number { value, .. } => Ok(done(Value::Number(number_of(*value)))),
        Expr::String { value, .. } => leaf(alloc, Form::Literal(value.clone()?)),
        Expr::Boolean { value, .. } => Ok(done(Value::Bool(*value))),
        Expr::Null { .. } => Ok(done(Value::Null)),
        Expr::Array { elements, .. } => {
            let elements = parts_terms(alloc, elements, place)?;
            array_term(alloc, elements)
        }
        Expr::Object { properties, .. } => object_term(alloc, properties, place),
        Expr::Function {
            node,
            name,
            parameters,
            body,
        } => {
            let later = body_terms(alloc, body, place)?;
            function_term(alloc, node.0, name, parameters, body, place, later)
        }
        Expr::Arrow {
            node,
            parameters,
            body,
        } => {
            let later = returned_terms(alloc, body, place)?;
            arrow_term(
                alloc,
                node.0,
                parameters,
                ScopeNames::new(alloc),
                place,
                later,
            )
        }
        Expr::ArrowBlock {
            node,
            parameters,
            body,
        } => {
            let later = body_terms(alloc, body, place)?;
            block_arrow_term(alloc, node.0, parameters, body, place, later)
        }
        Expr::Parenthesized { inner, .. } => expression_term(alloc, inner, place),
        Expr::Member { object, name, .. } => {
            let object = part_term(alloc, object, place)?;
            member_term(alloc, object, name)
        }
        Expr::Index { object, key, .. } => {
            let object = part_term(alloc, object, place)?;
            let key = part_term(alloc, key, place)?;
            index_term(alloc, object, key)
        }
        Expr::Call {
            callee,
            parentheses,
            arguments,
            ..
        } => {
            let mark = call_place(callee, parentheses.0);
            let callee = part_term(alloc, callee, place)?;
            let arguments = parts_terms(alloc, arguments, place)?;
            call_term(alloc, mark, place.statement, callee, arguments)
        }
        Expr::Postfix {
            operator,
            operand,
            ..
        } => {
            let operand = part_term(alloc, operand, place)?;
            updated(alloc, *operator, false, operand)
        }
        Expr::Prefix {
            operator,
            operand,
            ..
        } => {
            let operand = part_term(alloc, operand, place)?;
            updated(alloc, *operator, true, operand)
        }
        Expr::Unary {
            operator,
            operand,
            ..
        } => {
            let operand = part_term(alloc, operand, place)?;
            unary_term(alloc, *operator, operand)
        }
        Expr::Binary {
            operator,
            left,
            right,
            ..
        } => {
            let left = part_term(alloc, left, place)?;
            let right = part_term(alloc, right, place)?;
            binary_term(alloc, *operator, left, right)
        }
        Expr::Conditional {
            test,
            consequent,
            alternate,
            ..
        } => {
            let test = part_term(alloc, test, place)?;
            let consequent = part_term(alloc, consequent, place)?;
            let alternate = part_term(alloc, alternate, place)?;
            choice(alloc, test, consequent, alternate)
        }
        Expr::Assign {
            operator,
            target,
            value,
            ..
        } => {
            let target = part_term(alloc, target, place)?;
            let value = part_term(alloc, value, place)?;
            assignment(alloc, *operator, target, value)
        }
        Expr::Comma { expressions, .. } => {
            let expressions = parts_terms(alloc, expressions, place)?;
            comma_term(alloc, expressions)
        }
    }
}

/// An array literal.
fn array_term(alloc: Global, elements: Terms) -> Result<Term, AllocError>
    ensures { IfOk result (λ t. term_view t ≡ semantics.part forms.Array (terms_view elements) semantics.end) }
{
    part(alloc, Form::Array, elements, end(alloc))
}

/// A property with a fixed key.
fn member_term(alloc: Global, object: Term, name: &Units) -> Result<Term, AllocError>
    ensures { IfOk result (λ t. term_view t ≡ semantics.part (forms.Read (references.Member name.now)) (semantics.one (term_view object)) semantics.end) }
{
    let reference = Reference::Member(name.clone()?);
    part(
        alloc,
        Form::Read(reference),
        one(alloc, object)?,
        end(alloc),
    )
}

/// A property with a computed key.
fn index_term(alloc: Global, object: Term, key: Term) -> Result<Term, AllocError>
    ensures { IfOk result (λ t. term_view t ≡ semantics.part (forms.Read references.Index) (semantics.more (term_view object) (semantics.one (term_view key))) semantics.end) }
{
    let parts = two(alloc, object, key)?;
    part(alloc, Form::Read(Reference::Index), parts, end(alloc))
}

/// A part of an expression or a statement, which gives no name.
#[cycle(source)]
pub fn part_term<'a>(
    alloc: Global,
    e: &Expr,
    place: LoweringContext<'a>,
) -> Result<Term, AllocError>
    ensures { IfOk result (λ t. term_view t ≡ makers.plain (expression_source e.now) (context_of place.entry)) }
{
    expression_term(alloc, e, unnamed(place))
}

/// Parts that follow one another.
#[cycle(source)]
#[tactic(auto, using(js_machine_lowering_parts::proofs::SourceLemmas::list_laws))]
pub fn parts_terms<'a>(
    alloc: Global,
    es: &Exprs,
    place: LoweringContext<'a>,
) -> Result<Terms, AllocError>
    ensures { IfOk result (λ ts. terms_view ts ≡ makers.plains (expressions_source es.now) (context_of place.entry)) }
{
    Ok(terms_of(expression_items(alloc, &es.items, place)?))
}

/// The terms of a list of expressions.
#[cycle(source)]
fn expression_items<'a>(
    alloc: Global,
    items: &Vec<Expr>,
    place: LoweringContext<'a>,
) -> Result<Vec<Term>, AllocError>
    ensures { IfOk result (λ ts. map term_view ts.items ≡ map (λ e. makers.plain (expression_source e) (context_of place.entry)) items.now.items) }
{
    let mut terms = Vec::new(alloc);
    for item in items {
        terms.push(part_term(alloc, item, place)?)?;
    }
    Ok(terms)
}
