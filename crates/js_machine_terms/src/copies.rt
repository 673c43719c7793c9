//! Copies of forms.

ghost use Rattle.std.specs.Prelude.{◌≡◌, IfOk};

use js_heap::cell::{Binding, ScopeNames};
use js_semantics::form::{Form, FunctionForm, Member, Members, Reference};
use js_tree::names::ParameterNames;
use std::alloc::{AllocError, Global};

/// A copy of a binding.
fn binding_copy(binding: &Binding) -> Result<Binding, AllocError>
    ensures { IfOk result (λ b. b ≡ binding.now) }
{
    Ok(Binding {
        name: binding.name.clone()?,
        constant: binding.constant,
        value: binding.value,
    })
}

/// A copy of the names of a scope.
fn scope_names_copy(alloc: Global, names: &ScopeNames) -> Result<ScopeNames, AllocError>
    ensures { IfOk result (λ ns. ns ≡ names.now) }
{
    let mut items = Vec::new(alloc);
    for binding in names.slice() {
        items.push(binding_copy(binding)?)?;
    }
    Ok(ScopeNames::from_vec(items))
}

/// A copy of the names of parameters.
pub fn names_copy(alloc: Global, names: &ParameterNames) -> Result<ParameterNames, AllocError>
    ensures { IfOk result (λ ns. ns ≡ names.now) }
{
    let mut items = Vec::new(alloc);
    for name in names.as_slice() {
        items.push(name.clone()?)?;
    }
    Ok(ParameterNames::from_vec(items))
}

/// A copy of a reference.
fn reference_copy(reference: &Reference) -> Result<Reference, AllocError>
    ensures { IfOk result (λ r. r ≡ reference.now) }
{
    match reference {
        Reference::Name(name) => Ok(Reference::Name(name.clone()?)),
        Reference::Member(key) => Ok(Reference::Member(key.clone()?)),
        Reference::Index => Ok(Reference::Index),
    }
}

/// A copy of a function's form.
fn function_form_copy(alloc: Global, form: &FunctionForm) -> Result<FunctionForm, AllocError>
    ensures { IfOk result (λ f. f ≡ form.now) }
{
    Ok(FunctionForm {
        code: form.code,
        node: form.node,
        name: form.name.clone()?,
        parameters: names_copy(alloc, &form.parameters)?,
        names: scope_names_copy(alloc, &form.names)?,
        is_arrow: form.is_arrow,
        is_named: form.is_named,
    })
}

/// A copy of a member of an object literal.
fn member_copy(member: &Member) -> Result<Member, AllocError>
    ensures { IfOk result (λ m. m ≡ member.now) }
{
    match member {
        Member::Keyed(key) => Ok(Member::Keyed(key.clone()?)),
        Member::Computed => Ok(Member::Computed),
    }
}

/// A copy of the members of an object literal.
fn members_copy(alloc: Global, members: &Members) -> Result<Members, AllocError>
    ensures { IfOk result (λ ms. ms ≡ members.now) }
{
    let mut items = Vec::new(alloc);
    for member in members.slice() {
        items.push(member_copy(member)?)?;
    }
    Ok(Members::from_vec(items))
}

/// A copy of a form.
pub fn form_copy(alloc: Global, form: &Form) -> Result<Form, AllocError>
    ensures { IfOk result (λ f. f ≡ form.now) }
{
    match form {
        Form::Scripts => Ok(Form::Scripts),
        Form::Script(number, names) => Ok(Form::Script(*number, scope_names_copy(alloc, names)?)),
        Form::Sequence => Ok(Form::Sequence),
        Form::Enter(node) => Ok(Form::Enter(*node)),
        Form::EnterDebugger(node) => Ok(Form::EnterDebugger(*node)),
        Form::EnterFor(node, constant, names) => Ok(Form::EnterFor(
            *node,
            *constant,
            scope_names_copy(alloc, names)?,
        )),
        Form::EnterForOf(node, binding) => Ok(Form::EnterForOf(*node, binding_copy(binding)?)),
        Form::Block(names) => Ok(Form::Block(scope_names_copy(alloc, names)?)),
        Form::Scoped(scope) => Ok(Form::Scoped(*scope)),
        Form::Frame(node, scope) => Ok(Form::Frame(*node, *scope)),
        Form::Initialize(name) => Ok(Form::Initialize(name.clone()?)),
        Form::Choose => Ok(Form::Choose),
        Form::Both => Ok(Form::Both),
        Form::Either => Ok(Form::Either),
        Form::Loop(stage, scope) => Ok(Form::Loop(*stage, *scope)),
        Form::ListOf(binding) => Ok(Form::ListOf(binding_copy(binding)?)),
        Form::TurnOf(binding, index) => Ok(Form::TurnOf(binding_copy(binding)?, *index)),
        Form::BodyOf(binding, index) => Ok(Form::BodyOf(binding_copy(binding)?, *index)),
        Form::Break => Ok(Form::Break),
        Form::Continue => Ok(Form::Continue),
        Form::Return => Ok(Form::Return),
        Form::Throw(node) => Ok(Form::Throw(*node)),
        Form::Catching(None) => Ok(Form::Catching(None)),
        Form::Catching(Some(name)) => Ok(Form::Catching(Some(name.clone()?))),
        Form::Finishing => Ok(Form::Finishing),
        Form::Ending(kept) => Ok(Form::Ending(*kept)),
        Form::This => Ok(Form::This),
        Form::Read(reference) => Ok(Form::Read(reference_copy(reference)?)),
        Form::TypeofName(name) => Ok(Form::TypeofName(name.clone()?)),
        Form::Literal(units) => Ok(Form::Literal(units.clone()?)),
        Form::Unary(operator) => Ok(Form::Unary(*operator)),
        Form::Binary(operator) => Ok(Form::Binary(*operator)),
        Form::Comma => Ok(Form::Comma),
        Form::Function(function) => Ok(Form::Function(function_form_copy(alloc, function)?)),
        Form::Array => Ok(Form::Array),
        Form::Object(members) => Ok(Form::Object(members_copy(alloc, members)?)),
        Form::Method(function) => Ok(Form::Method(function_form_copy(alloc, function)?)),
        Form::Assign(reference) => Ok(Form::Assign(reference_copy(reference)?)),
        Form::Compound(operator, reference) => Ok(Form::Compound(
            *operator,
            reference_copy(reference)?,
        )),
        Form::Update(operator, prefix, reference) => Ok(Form::Update(
            *operator,
            *prefix,
            reference_copy(reference)?,
        )),
        Form::Delete(reference) => Ok(Form::Delete(reference_copy(reference)?)),
        Form::Call(place, node) => Ok(Form::Call(*place, *node)),
        Form::CallOf(reference, place, node) => Ok(Form::CallOf(
            reference_copy(reference)?,
            *place,
            *node,
        )),
    }
}
