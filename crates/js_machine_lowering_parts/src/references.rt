//! Targets of assignments, updates and `delete`, and callees.

ghost use Rattle.std.specs.Prelude.{◌≡◌, IfOk};
ghost use Rattle.js_semantics.specs.Terms as semantics;
ghost use Rattle.js_semantics.specs.Makers as makers;
ghost use Rattle.js_heap.specs.declared.value.Value.TheVariants as values;
ghost use Rattle.js_tree_operators.specs.declared.operator.UnaryOperator.TheVariants as unaries;
ghost use Rattle.js_semantics.specs.declared.form.Form.TheVariants as forms;
ghost use Rattle.js_machine_terms.specs.Views.{term_view, terms_view};
ghost use Rattle.js_machine_lowering_parts.specs.Targets.{IsTarget};

use js_heap::value::Value;
use js_machine_terms::term::{Term, Terms, done, end, joined, leaf, one, part, standing, terms_of};
use js_semantics::form::{Form, Mark, Reference};
use js_tree_operators::operator::{
    AssignmentOperator, BinaryOperator, UnaryOperator, UpdateOperator,
};
use std::alloc::{AllocError, Global};

/// A term that is read, with its parts, or another term.
#[derive(Drop)]
pub enum AssignmentTarget {
    Reference(Reference, Terms, Terms),
    Other(Term),
}

/// A term taken apart where it is read.
#[tactic(auto, using(js_machine_terms::proofs::TermLemmas::term_laws))]
fn target_of(alloc: Global, term: Term) -> Result<AssignmentTarget, AllocError>
    ensures { IfOk result (λ target. IsTarget (term_view term) target) }
{
    match term {
        Term::Part { form, now, later } => read_target(alloc, Box::into_inner(form), now, later),
        Term::Done(value) => Ok(AssignmentTarget::Other(done(value))),
        Term::Standing(value, spot) => Ok(AssignmentTarget::Other(standing(value, spot))),
    }
}

// a form with its parts, taken apart where it is read
fn read_target(
    alloc: Global,
    form: Form,
    now: Terms,
    later: Terms,
) -> Result<AssignmentTarget, AllocError>
    ensures { IfOk result (λ target. IsTarget (semantics.part form (terms_view now) (terms_view later)) target) }
{
    match form {
        Form::Read(reference) => Ok(AssignmentTarget::Reference(reference, now, later)),
        other => Ok(AssignmentTarget::Other(part(alloc, other, now, later)?)),
    }
}

/// `target = value`; a term that isn't a target stays as it is.
#[tactic(auto, using(crate::proofs::TargetLemmas::assigned_laws))]
fn assigned_to(alloc: Global, target: Term, value: Term) -> Result<Term, AllocError>
    ensures { IfOk result (λ t. term_view t ≡ makers.assigned_to (term_view target) (term_view value)) }
{
    match target_of(alloc, target)? {
        AssignmentTarget::Reference(reference, now, _) => {
            let now = joined(now, one(alloc, value)?)?;
            part(alloc, Form::Assign(reference), now, end(alloc))
        }
        AssignmentTarget::Other(other) => Ok(other),
    }
}

/// `target op= value`.
#[tactic(auto, using(crate::proofs::TargetLemmas::compounded_laws))]
fn compounded(
    alloc: Global,
    operator: BinaryOperator,
    target: Term,
    value: Term,
) -> Result<Term, AllocError>
    ensures { IfOk result (λ t. term_view t ≡ makers.compounded operator (term_view target) (term_view value)) }
{
    match target_of(alloc, target)? {
        AssignmentTarget::Reference(reference, now, _) => {
            let later = one(alloc, value)?;
            part(alloc, Form::Compound(operator, reference), now, later)
        }
        AssignmentTarget::Other(other) => Ok(other),
    }
}

/// `++` and `--`, and whether it stands in front.
#[tactic(auto, using(crate::proofs::TargetLemmas::updated_laws))]
pub fn updated(
    alloc: Global,
    operator: UpdateOperator,
    prefix: bool,
    target: Term,
) -> Result<Term, AllocError>
    ensures { IfOk result (λ t. term_view t ≡ makers.updated operator prefix (term_view target)) }
{
    match target_of(alloc, target)? {
        AssignmentTarget::Reference(reference, now, _) => {
            part(
                alloc,
                Form::Update(operator, prefix, reference),
                now,
                end(alloc),
            )
        }
        AssignmentTarget::Other(other) => Ok(other),
    }
}

/// `delete target`.
#[tactic(auto, using(crate::proofs::TargetLemmas::deleted_laws))]
pub fn deleted(alloc: Global, target: Term) -> Result<Term, AllocError>
    ensures { IfOk result (λ t. term_view t ≡ makers.deleted (term_view target)) }
{
    match target_of(alloc, target)? {
        AssignmentTarget::Reference(reference, now, _) => {
            part(alloc, Form::Delete(reference), now, end(alloc))
        }
        AssignmentTarget::Other(other) => Ok(other),
    }
}

/// `typeof operand`.
#[tactic(auto, using(crate::proofs::TargetLemmas::type_laws))]
pub(crate) fn type_of(alloc: Global, operand: Term) -> Result<Term, AllocError>
    ensures { IfOk result (λ t. term_view t ≡ makers.type_of (term_view operand)) }
{
    match target_of(alloc, operand)? {
        AssignmentTarget::Reference(reference, now, later) => Ok(type_of_read(
            alloc, reference, now, later,
        )?),
        AssignmentTarget::Other(other) => Ok(type_of_value(alloc, other)?),
    }
}

// `typeof` of a reference; one that is a name needn't be defined
fn type_of_read(
    alloc: Global,
    reference: Reference,
    now: Terms,
    later: Terms,
) -> Result<Term, AllocError>
    ensures { IfOk result (λ t. term_view t ≡ makers.type_of (semantics.part (forms.Read reference) (terms_view now) (terms_view later))) }
{
    match reference {
        Reference::Name(name) => leaf(alloc, Form::TypeofName(name)),
        Reference::Member(key) => {
            let read = part(alloc, Form::Read(Reference::Member(key)), now, later)?;
            Ok(type_of_value(alloc, read)?)
        }
        Reference::Index => {
            let read = part(alloc, Form::Read(Reference::Index), now, later)?;
            Ok(type_of_value(alloc, read)?)
        }
    }
}

// `typeof` of the value of its operand
fn type_of_value(alloc: Global, operand: Term) -> Result<Term, AllocError>
    ensures { IfOk result (λ t. term_view t ≡ semantics.part (forms.Unary unaries.Typeof) (semantics.one (term_view operand)) semantics.end) }
{
    let operands = one(alloc, operand)?;
    part(
        alloc,
        Form::Unary(UnaryOperator::Typeof),
        operands,
        end(alloc),
    )
}

/// The operator of an assignment, where it has one.
pub fn operator_of(operator: AssignmentOperator) -> Option<BinaryOperator>
    ensures { result ≡ makers.operator_of operator }
{
    match operator {
        AssignmentOperator::Assign => None,
        AssignmentOperator::Add => Some(BinaryOperator::Add),
        AssignmentOperator::Subtract => Some(BinaryOperator::Subtract),
        AssignmentOperator::Multiply => Some(BinaryOperator::Multiply),
        AssignmentOperator::Divide => Some(BinaryOperator::Divide),
        AssignmentOperator::Remainder => Some(BinaryOperator::Remainder),
        AssignmentOperator::LeftShift => Some(BinaryOperator::LeftShift),
        AssignmentOperator::RightShift => Some(BinaryOperator::RightShift),
        AssignmentOperator::UnsignedRightShift => Some(BinaryOperator::UnsignedRightShift),
        AssignmentOperator::BitwiseAnd => Some(BinaryOperator::BitwiseAnd),
        AssignmentOperator::BitwiseOr => Some(BinaryOperator::BitwiseOr),
        AssignmentOperator::BitwiseXor => Some(BinaryOperator::BitwiseXor),
    }
}

/// `target = value` and its like.
#[tactic(auto, using(crate::proofs::TargetLemmas::assignment_laws))]
pub fn assignment(
    alloc: Global,
    operator: AssignmentOperator,
    target: Term,
    value: Term,
) -> Result<Term, AllocError>
    ensures { IfOk result (λ t. term_view t ≡ makers.assignment (makers.operator_of operator) (term_view target) (term_view value)) }
{
    match operator_of(operator) {
        None => Ok(assigned_to(alloc, target, value)?),
        Some(operator) => Ok(compounded(alloc, operator, target, value)?),
    }
}

/// A call; a callee that is a reference is read before the arguments.
#[tactic(auto, using(crate::proofs::TargetLemmas::call_laws))]
pub fn call_term(
    alloc: Global,
    place: Mark,
    node: u32,
    callee: Term,
    arguments: Terms,
) -> Result<Term, AllocError>
    ensures { IfOk result (λ t. term_view t ≡ makers.call_term place node (term_view callee) (terms_view arguments)) }
{
    match target_of(alloc, callee)? {
        AssignmentTarget::Reference(reference, now, _) => {
            part(alloc, Form::CallOf(reference, place, node), now, arguments)
        }
        AssignmentTarget::Other(other) => Ok(plain_call(alloc, place, node, other, arguments)?),
    }
}

// a call of a callee that isn't a reference: `this` is undefined
#[tactic(auto, using(js_machine_terms::proofs::TermLemmas::joined_laws))]
fn plain_call(
    alloc: Global,
    place: Mark,
    node: u32,
    callee: Term,
    arguments: Terms,
) -> Result<Term, AllocError>
    ensures { IfOk result (λ t. term_view t ≡ semantics.part (forms.Call place node) (semantics.more (semantics.done values.Undefined) (semantics.more (term_view callee) (terms_view arguments))) semantics.end) }
{
    let mut parts = Vec::new(alloc);
    parts.push(done(Value::Undefined))?;
    parts.push(callee)?;
    let now = joined(terms_of(parts), arguments)?;
    part(alloc, Form::Call(place, node), now, end(alloc))
}
