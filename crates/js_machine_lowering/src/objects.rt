//! The terms of object literals.

ghost use Rattle.std.specs.Prelude.{◌≡◌, [], false, IfOk, map};
ghost use Rattle.js_semantics.specs.Terms as semantics;
ghost use Rattle.js_semantics.specs.Makers as makers;
ghost use Rattle.js_semantics.specs.Sources.{expression_source, statements_source, property_source, properties_source};
ghost use Rattle.js_semantics.specs.declared.form.Form.TheVariants as forms;
ghost use Rattle.js_machine_terms.specs.Views.{term_view, terms_view};
ghost use Rattle.js_machine_lowering_parts.specs.Sources.{context_of, parts_view};

use crate::expressions::{expression_term, part_term};
use crate::functions::{body_terms, function_part};
use js_machine_lowering_parts::functions::named_function;
use js_machine_lowering_parts::objects::{
    ObjectParts, after_key, before, members_of, name_read, no_parts, number_key,
};
use js_machine_lowering_parts::places::{LoweringContext, naming};
use js_machine_terms::term::{Term, Terms, part};
use js_semantics::form::{Form, Source};
use js_tree::names::ParameterNames;
use js_tree::tree::{Expr, PropertyDefinition, PropertyDefinitions, PropertyName, Stmts};
use std::alloc::{AllocError, Global};

/// An object literal.
#[cycle(source)]
pub fn object_term<'a>(
    alloc: Global,
    properties: &PropertyDefinitions,
    place: LoweringContext<'a>,
) -> Result<Term, AllocError>
    ensures { IfOk result (λ t. term_view t ≡ makers.object_term (properties_source properties.now) (makers.properties_parts (properties_source properties.now) (context_of place.entry))) }
{
    let parts = properties_parts(alloc, properties, place)?;
    object_of(alloc, properties, parts)
}

/// An object literal of the parts of its members.
fn object_of(
    alloc: Global,
    properties: &PropertyDefinitions,
    parts: ObjectParts,
) -> Result<Term, AllocError>
    ensures { IfOk result (λ t. term_view t ≡ makers.object_term (properties_source properties.now) (parts_view parts)) }
{
    let members = members_of(alloc, properties)?;
    part(alloc, Form::Object(members), parts.now, parts.later)
}

/// The parts of the members.
#[cycle(source)]
#[tactic(auto, using(js_semantics::proofs::TreeLemmas::source_properties))]
fn properties_parts<'a>(
    alloc: Global,
    properties: &PropertyDefinitions,
    place: LoweringContext<'a>,
) -> Result<ObjectParts, AllocError>
    ensures { IfOk result (λ p. parts_view p ≡ makers.properties_parts (properties_source properties.now) (context_of place.entry)) }
{
    property_items(alloc, &properties.items, place)
}

/// The parts of members, made from the last one on.
#[cycle(source)]
fn property_items<'a>(
    alloc: Global,
    items: &Vec<PropertyDefinition>,
    place: LoweringContext<'a>,
) -> Result<ObjectParts, AllocError>
    ensures { IfOk result (λ p. parts_view p ≡ makers.properties_parts (map property_source items.now.items) (context_of place.entry)) }
{
    let mut parts = no_parts(alloc);
    for i in 0..items.len() {
        parts = property_parts(alloc, &items[items.len() - 1 - i], place, parts)?;
    }
    Ok(parts)
}

/// The parts of a property, before those of the properties after it.
#[cycle(source)]
#[tactic(auto, using(js_semantics::proofs::TreeLemmas::property_laws, js_semantics::proofs::TreeLemmas::key_laws))]
fn property_parts<'a>(
    alloc: Global,
    property: &PropertyDefinition,
    place: LoweringContext<'a>,
    parts: ObjectParts,
) -> Result<ObjectParts, AllocError>
    ensures { IfOk result (λ p. parts_view p ≡ makers.property_parts (property_source property.now) (context_of place.entry) (parts_view parts)) }
{
    match property {
        PropertyDefinition::Shorthand { name } => {
            let read = name_read(alloc, name)?;
            before(alloc, read, parts)
        }
        PropertyDefinition::Value { key, value } => match key {
            PropertyName::Word(text) => keyed_value(alloc, text.as_slice(), value, place, parts),
            PropertyName::StringLiteral(text) => keyed_value(
                alloc,
                text.as_slice(),
                value,
                place,
                parts,
            ),
            PropertyName::NumericLiteral(number) => {
                let text = number_key(alloc, *number)?;
                keyed_value(alloc, text.as_slice(), value, place, parts)
            }
            PropertyName::Computed(key) => {
                let value = part_term(alloc, value, place)?;
                let parts = before(alloc, value, parts)?;
                let key = part_term(alloc, key, place)?;
                before(alloc, key, parts)
            }
        },
        PropertyDefinition::Method {
            node,
            key,
            parameters,
            body,
        } => match key {
            PropertyName::Word(text) => {
                let method = function_part(
                    alloc,
                    node.0,
                    text.as_slice(),
                    parameters,
                    body,
                    place,
                )?;
                before(alloc, method, parts)
            }
            PropertyName::StringLiteral(text) => {
                let method = function_part(
                    alloc,
                    node.0,
                    text.as_slice(),
                    parameters,
                    body,
                    place,
                )?;
                before(alloc, method, parts)
            }
            PropertyName::NumericLiteral(number) => {
                let text = number_key(alloc, *number)?;
                let method = function_part(
                    alloc,
                    node.0,
                    text.as_slice(),
                    parameters,
                    body,
                    place,
                )?;
                before(alloc, method, parts)
            }
            PropertyName::Computed(key) => {
                let later = body_terms(alloc, body, place)?;
                let key = part_term(alloc, key, place)?;
                computed_method(
                    alloc,
                    node.0,
                    parameters,
                    body,
                    place.source,
                    key,
                    later,
                    parts,
                )
            }
        },
    }
}

/// A value that has its key as its name.
#[cycle(source)]
fn keyed_value<'a>(
    alloc: Global,
    text: &[u16],
    value: &Expr,
    place: LoweringContext<'a>,
    parts: ObjectParts,
) -> Result<ObjectParts, AllocError>
    ensures { IfOk result (λ p. parts_view p ≡ makers.before ((expression_source value.now).term (makers.naming text.now (context_of place.entry))) (parts_view parts)) }
{
    let value = expression_term(alloc, value, naming(text, place))?;
    before(alloc, value, parts)
}

/// A method with a computed key, and the parts behind it.
fn computed_method(
    alloc: Global,
    node: u32,
    parameters: &ParameterNames,
    body: &Stmts,
    source: Source,
    key: Term,
    later: Terms,
    parts: ObjectParts,
) -> Result<ObjectParts, AllocError>
    ensures { IfOk result (λ p. parts_view p ≡ record { now = semantics.one (term_view key); later = semantics.more (semantics.part (forms.Method (makers.form_of node source [] parameters.now (statements_source body.now).names false false)) (terms_view parts.now) (terms_view later)) (terms_view parts.later) }) }
{
    let form = named_function(alloc, node, &[], parameters, body, source)?;
    let method = part(alloc, Form::Method(form), parts.now, later)?;
    after_key(alloc, key, method, parts.later)
}
