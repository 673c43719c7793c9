//! Operators.

ghost use Rattle.std.specs.Prelude.{◌≡◌, IfOk};
ghost use Rattle.js_semantics.specs.Terms as semantics;
ghost use Rattle.js_semantics.specs.Makers as makers;
ghost use Rattle.js_semantics.specs.declared.form.Form.TheVariants as forms;
ghost use Rattle.js_machine_terms.specs.Views.{term_view, terms_view, listed_view};
ghost use Rattle.js_machine_lowering_parts.specs.Targets.{deciding_form};

use crate::references::{deleted, type_of};
use js_heap::value::Value;
use js_machine_terms::term::{Term, Terms, done, end, one, part, terms_of, two};
use js_semantics::form::Form;
use js_tree_operators::operator::{BinaryOperator, UnaryOperator};
use std::alloc::{AllocError, Global};

/// An operator on one value.
pub fn unary_term(alloc: Global, operator: UnaryOperator, operand: Term) -> Result<Term, AllocError>
    ensures { IfOk result (λ t. term_view t ≡ makers.unary_term operator (term_view operand)) }
{
    match operator {
        UnaryOperator::Typeof => Ok(type_of(alloc, operand)?),
        UnaryOperator::Delete => Ok(deleted(alloc, operand)?),
        UnaryOperator::Void => Ok(plain_unary(alloc, UnaryOperator::Void, operand)?),
        UnaryOperator::Plus => Ok(plain_unary(alloc, UnaryOperator::Plus, operand)?),
        UnaryOperator::Minus => Ok(plain_unary(alloc, UnaryOperator::Minus, operand)?),
        UnaryOperator::BitwiseNot => Ok(plain_unary(alloc, UnaryOperator::BitwiseNot, operand)?),
        UnaryOperator::LogicalNot => Ok(plain_unary(alloc, UnaryOperator::LogicalNot, operand)?),
    }
}

// an operator on the value of its operand
fn plain_unary(alloc: Global, operator: UnaryOperator, operand: Term) -> Result<Term, AllocError>
    ensures { IfOk result (λ t. term_view t ≡ semantics.part (forms.Unary operator) (semantics.one (term_view operand)) semantics.end) }
{
    let operands = one(alloc, operand)?;
    part(alloc, Form::Unary(operator), operands, end(alloc))
}

/// An operator on two values.
#[tactic(auto, using(crate::proofs::TargetLemmas::binary_laws))]
pub fn binary_term(
    alloc: Global,
    operator: BinaryOperator,
    left: Term,
    right: Term,
) -> Result<Term, AllocError>
    ensures { IfOk result (λ t. term_view t ≡ makers.binary_term operator (term_view left) (term_view right)) }
{
    match deciding_form(operator) {
        Some(form) => Ok(deciding(alloc, form, left, right)?),
        None => Ok(plain_binary(alloc, operator, left, right)?),
    }
}

// the form of an operator that decides by its left value
fn deciding_form(operator: BinaryOperator) -> Option<Form>
    ensures { result ≡ deciding_form operator }
{
    match operator {
        BinaryOperator::LogicalAnd => Some(Form::Both),
        BinaryOperator::LogicalOr => Some(Form::Either),
        _ => None,
    }
}

// `&&` or `||`, whose right operand is kept for later
fn deciding(alloc: Global, form: Form, left: Term, right: Term) -> Result<Term, AllocError>
    ensures { IfOk result (λ t. term_view t ≡ semantics.part form (semantics.one (term_view left)) (semantics.one (term_view right))) }
{
    let now = one(alloc, left)?;
    let later = one(alloc, right)?;
    part(alloc, form, now, later)
}

// an operator on the values of both operands
fn plain_binary(
    alloc: Global,
    operator: BinaryOperator,
    left: Term,
    right: Term,
) -> Result<Term, AllocError>
    ensures { IfOk result (λ t. term_view t ≡ semantics.part (forms.Binary operator) (semantics.more (term_view left) (semantics.one (term_view right))) semantics.end) }
{
    let operands = two(alloc, left, right)?;
    part(alloc, Form::Binary(operator), operands, end(alloc))
}

/// `if` and `? :`.
pub fn choice(
    alloc: Global,
    test: Term,
    consequent: Term,
    alternate: Term,
) -> Result<Term, AllocError>
    ensures { IfOk result (λ t. term_view t ≡ semantics.part forms.Choose (semantics.one (term_view test)) (semantics.more (term_view consequent) (semantics.one (term_view alternate)))) }
{
    let now = one(alloc, test)?;
    let later = two(alloc, consequent, alternate)?;
    part(alloc, Form::Choose, now, later)
}

/// `a, b`
pub fn comma_term(alloc: Global, expressions: Terms) -> Result<Term, AllocError>
    ensures { IfOk result (λ t. term_view t ≡ makers.comma_term (terms_view expressions)) }
{
    comma_of(alloc, expressions.into_vec())
}

// `a, b` of a list of terms; undefined where it is empty
fn comma_of(alloc: Global, mut expressions: Vec<Term>) -> Result<Term, AllocError>
    ensures { IfOk result (λ t. term_view t ≡ makers.comma_term (listed_view expressions.items)) }
{
    if expressions.is_empty() {
        return Ok(done(Value::Undefined));
    }
    let first = expressions.remove(0);
    part(
        alloc,
        Form::Comma,
        one(alloc, first)?,
        terms_of(expressions),
    )
}
