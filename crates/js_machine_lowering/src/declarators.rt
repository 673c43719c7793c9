//! The terms of declarators.

ghost use Rattle.std.specs.Prelude.{◌≡◌, IfOk, map};
ghost use Rattle.std.specs.Option.{option_map};
ghost use Rattle.js_semantics.specs.Terms as semantics;
ghost use Rattle.js_semantics.specs.Makers as makers;
ghost use Rattle.js_semantics.specs.Sources.{expression_source, declarator_source, declarators_source};
ghost use Rattle.js_semantics.specs.declared.form.Form.TheVariants as forms;
ghost use Rattle.js_machine_terms.specs.Views.{term_view, terms_view};
ghost use Rattle.js_machine_lowering_parts.specs.Sources.{context_of, declarator_term, initialized};

use crate::expressions::expression_term;
use cdp_text::units::Units;
use js_machine_lowering_parts::places::{LoweringContext, naming};
use js_machine_terms::term::{Term, Terms, end, one, part, terms_of};
use js_semantics::form::Form;
use js_tree::tree::{Declarator, Declarators, Expr};
use std::alloc::{AllocError, Global};

/// The declarators of a `let` or `const`.
#[cycle(source)]
#[tactic(auto, using(js_machine_lowering_parts::proofs::SourceLemmas::declarator_laws))]
pub fn declarators_term<'a>(
    alloc: Global,
    ds: &Declarators,
    place: LoweringContext<'a>,
) -> Result<Term, AllocError>
    ensures { IfOk result (λ t. term_view t ≡ makers.declarators_term (declarators_source ds.now) (context_of place.entry)) }
{
    let terms = terms_of(declarator_items(alloc, &ds.items, place)?);
    part(alloc, Form::Sequence, terms, end(alloc))
}

/// The terms of a list of declarators.
#[cycle(source)]
fn declarator_items<'a>(
    alloc: Global,
    items: &Vec<Declarator>,
    place: LoweringContext<'a>,
) -> Result<Vec<Term>, AllocError>
    ensures { IfOk result (λ ts. map term_view ts.items ≡ map (λ d. declarator_term (declarator_source d) (context_of place.entry)) items.now.items) }
{
    let mut terms = Vec::new(alloc);
    for item in items {
        terms.push(declarator(alloc, item, place)?)?;
    }
    Ok(terms)
}

/// The term of a declarator, by which its name gets its value.
#[cycle(source)]
#[tactic(auto, using(js_semantics::proofs::TreeLemmas::source_declarator, js_machine_lowering_parts::proofs::SourceLemmas::initializer_named))]
fn declarator<'a>(
    alloc: Global,
    d: &Declarator,
    place: LoweringContext<'a>,
) -> Result<Term, AllocError>
    ensures { IfOk result (λ t. term_view t ≡ declarator_term (declarator_source d.now) (context_of place.entry)) }
{
    let value = named_terms(alloc, &d.initializer, naming(d.name.as_slice(), place))?;
    initialize(alloc, &d.name, value)
}

/// A name that is given its value.
fn initialize(alloc: Global, name: &Units, value: Terms) -> Result<Term, AllocError>
    ensures { IfOk result (λ t. term_view t ≡ semantics.part (forms.Initialize name.now) (terms_view value) semantics.end) }
{
    part(alloc, Form::Initialize(name.clone()?), value, end(alloc))
}

/// A value that may be absent, where a part gives a name.
#[cycle(source)]
fn named_terms<'a>(
    alloc: Global,
    e: &Option<Expr>,
    place: LoweringContext<'a>,
) -> Result<Terms, AllocError>
    ensures { IfOk result (λ ts. terms_view ts ≡ initialized (option_map expression_source e.now) (context_of place.entry)) }
{
    match e {
        None => Ok(end(alloc)),
        Some(e) => {
            let term = expression_term(alloc, e, place)?;
            one(alloc, term)
        }
    }
}
