//! The members of object literals.

ghost use Rattle.std.specs.Prelude.{◌≡◌, IfOk, map, decimal, pos};
ghost use Rattle.js_semantics.specs.Terms as semantics;
ghost use Rattle.js_semantics.specs.Makers as makers;
ghost use Rattle.js_semantics.specs.declared.form.Form.TheVariants as forms;
ghost use Rattle.js_semantics.specs.declared.form.Reference.TheVariants as references;
ghost use Rattle.js_machine_terms.specs.Views.{term_view, terms_view};
ghost use Rattle.js_machine_lowering_parts.specs.Sources.{parts_view};
ghost use Rattle.js_semantics.specs.Sources.{key_source, property_source, properties_source};

use crate::functions::with_front;
use cdp_text::units::Units;
use js_heap_operators::operators::number_text;
use js_machine_terms::term::{Term, Terms, end, leaf, one};
use js_semantics::form::{Form, Member, Members, Reference};
use js_tree::integer::SafeInteger;
use js_tree::tree::{PropertyDefinition, PropertyDefinitions, PropertyName};
use std::alloc::{AllocError, Global};

/// The parts up to the key of the next method with a computed key, and that method with what follows it.
#[derive(Drop)]
pub struct ObjectParts {
    pub now: Terms,
    pub later: Terms,
}

/// No parts.
pub fn no_parts(alloc: Global) -> ObjectParts
    ensures { parts_view result ≡ record { now = semantics.end; later = semantics.end } }
{
    ObjectParts {
        now: end(alloc),
        later: end(alloc),
    }
}

/// A part before others.
pub fn before(alloc: Global, term: Term, parts: ObjectParts) -> Result<ObjectParts, AllocError>
    ensures { IfOk result (λ p. parts_view p ≡ makers.before (term_view term) (parts_view parts)) }
{
    Ok(ObjectParts {
        now: with_front(alloc, term, parts.now)?,
        later: parts.later,
    })
}

/// The key of a method, and the method with what follows it.
pub fn after_key(
    alloc: Global,
    key: Term,
    method: Term,
    later: Terms,
) -> Result<ObjectParts, AllocError>
    ensures { IfOk result (λ p. parts_view p ≡ record { now = semantics.one (term_view key); later = semantics.more (term_view method) (terms_view later) }) }
{
    Ok(ObjectParts {
        now: one(alloc, key)?,
        later: with_front(alloc, method, later)?,
    })
}

/// A name that is read.
pub fn name_read(alloc: Global, name: &Units) -> Result<Term, AllocError>
    ensures { IfOk result (λ t. term_view t ≡ semantics.part (forms.Read (references.Name name.now)) semantics.end semantics.end) }
{
    let name = name.clone()?;
    leaf(alloc, Form::Read(Reference::Name(name)))
}

/// The number that a numeric literal stands for.
pub fn number_of(value: SafeInteger) -> i64
    ensures { result ≡ pos value.value }
{
    value.value as i64
}

/// The text of a numeric key.
pub fn number_key(alloc: Global, value: SafeInteger) -> Result<Units, AllocError>
    ensures { IfOk result (λ us. us ≡ decimal value.value) }
{
    number_text(alloc, number_of(value))
}

/// The members of an object literal.
#[tactic(auto, using(js_semantics::proofs::TreeLemmas::source_properties))]
pub fn members_of(alloc: Global, properties: &PropertyDefinitions) -> Result<Members, AllocError>
    ensures { IfOk result (λ ms. ms ≡ map makers.member_of (properties_source properties.now)) }
{
    Ok(Members::from_vec(members_in(alloc, &properties.items)?))
}

// the members of a list of properties
fn members_in(alloc: Global, items: &[PropertyDefinition]) -> Result<Vec<Member>, AllocError>
    ensures { IfOk result (λ ms. ms.items ≡ map makers.member_of (map property_source items.now)) }
{
    let mut members = Vec::new(alloc);
    for item in items {
        members.push(member_of(alloc, item)?)?;
    }
    Ok(members)
}

// the member of a property
#[tactic(auto, using(js_semantics::proofs::TreeLemmas::property_laws))]
fn member_of(alloc: Global, property: &PropertyDefinition) -> Result<Member, AllocError>
    ensures { IfOk result (λ m. m ≡ makers.member_of (property_source property.now)) }
{
    match property {
        PropertyDefinition::Shorthand { name } => Ok(Member::Keyed(name.clone()?)),
        PropertyDefinition::Value { key, .. } => Ok(member_of_key(alloc, key)?),
        PropertyDefinition::Method { key, .. } => Ok(member_of_key(alloc, key)?),
    }
}

// the member with this key, which may be computed
#[tactic(auto, using(js_semantics::proofs::TreeLemmas::key_laws))]
fn member_of_key(alloc: Global, key: &PropertyName) -> Result<Member, AllocError>
    ensures { IfOk result (λ m. m ≡ makers.member_of_key (key_source key.now)) }
{
    match key {
        PropertyName::Word(text) => Ok(Member::Keyed(text.clone()?)),
        PropertyName::StringLiteral(text) => Ok(Member::Keyed(text.clone()?)),
        PropertyName::NumericLiteral(value) => Ok(Member::Keyed(number_key(alloc, *value)?)),
        PropertyName::Computed(_) => Ok(Member::Computed),
    }
}
