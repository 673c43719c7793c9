//! Residual terms: trees in which the parts that were reduced are replaced by their values.
//!
//! A term's view is the term of the definitions.

ghost use Rattle.std.specs.Prelude.{◌≡◌, IfOk};
ghost use Rattle.js_semantics.specs.Terms as semantics;
ghost use Rattle.js_machine_terms.specs.Views.{term_view, terms_view, listed_view};

use js_heap::value::Value;
use js_semantics::form::{Form, SourceMark};
use std::alloc::{AllocError, Global};

/// A part of a residual term.
#[derive(Drop)]
#[cycle(term)]
pub enum Term {
    /// A value.
    Done(Value),
    /// A throw that stands, with the place of its fresh raise.
    Standing(Value, SourceMark),
    /// A form with the parts that are reduced from left to right and those that are kept for later.
    Part {
        form: Box<Form>,
        now: Terms,
        later: Terms,
    },
}

/// Parts in order.
#[derive(Drop)]
#[cycle(term)]
pub struct Terms {
    pub items: Vec<Term>,
}

/// A value.
#[tactic(auto, using(crate::proofs::TermLemmas::term_laws))]
pub fn done(value: Value) -> Term
    ensures { term_view result ≡ semantics.done value }
{
    Term::Done(value)
}

/// A throw that stands.
#[tactic(auto, using(crate::proofs::TermLemmas::term_laws))]
pub fn standing(value: Value, spot: SourceMark) -> Term
    ensures { term_view result ≡ semantics.standing value spot }
{
    Term::Standing(value, spot)
}

/// A form with its parts.
#[tactic(auto, using(crate::proofs::TermLemmas::term_laws))]
pub fn part(alloc: Global, form: Form, now: Terms, later: Terms) -> Result<Term, AllocError>
    ensures { IfOk result (λ t. term_view t ≡ semantics.part form (terms_view now) (terms_view later)) }
{
    let form = Box::new(alloc, form)?;
    Ok(Term::Part { form, now, later })
}

/// A form without parts.
pub fn leaf(alloc: Global, form: Form) -> Result<Term, AllocError>
    ensures { IfOk result (λ t. term_view t ≡ semantics.part form semantics.end semantics.end) }
{
    part(alloc, form, end(alloc), end(alloc))
}

/// No parts.
#[tactic(auto, using(crate::proofs::TermLemmas::view_terms))]
pub fn end(alloc: Global) -> Terms
    ensures { terms_view result ≡ semantics.end }
{
    Terms {
        items: Vec::new(alloc),
    }
}

/// The parts in the memory of the vector.
#[tactic(auto, using(crate::proofs::TermLemmas::view_terms))]
pub fn terms_of(items: Vec<Term>) -> Terms
    ensures { terms_view result ≡ listed_view items.items }
{
    Terms { items }
}

/// One part.
pub fn one(alloc: Global, term: Term) -> Result<Terms, AllocError>
    ensures { IfOk result (λ ts. terms_view ts ≡ semantics.one (term_view term)) }
{
    let mut items = Vec::new(alloc);
    items.push(term)?;
    Ok(terms_of(items))
}

/// Two parts.
pub fn two(alloc: Global, first: Term, second: Term) -> Result<Terms, AllocError>
    ensures { IfOk result (λ ts. terms_view ts ≡ semantics.more (term_view first) (semantics.one (term_view second))) }
{
    let mut items = Vec::new(alloc);
    items.push(first)?;
    items.push(second)?;
    Ok(terms_of(items))
}

/// Three parts.
pub fn three(alloc: Global, first: Term, second: Term, third: Term) -> Result<Terms, AllocError>
    ensures { IfOk result (λ ts. terms_view ts ≡ semantics.more (term_view first) (semantics.more (term_view second) (semantics.one (term_view third)))) }
{
    let mut items = Vec::new(alloc);
    items.push(first)?;
    items.push(second)?;
    items.push(third)?;
    Ok(terms_of(items))
}

impl Terms {
    /// The parts.
    #[tactic(auto, using(crate::proofs::TermLemmas::terms_listed))]
    pub fn slice(&self) -> &[Term]
        ensures { listed_view result.now ≡ terms_view self.now }
    {
        self.items.as_slice()
    }

    /// The parts, in the memory of the list.
    #[tactic(auto, using(crate::proofs::TermLemmas::terms_listed))]
    pub fn into_vec(self) -> Vec<Term>
        ensures { listed_view result.items ≡ terms_view self }
    {
        self.items
    }
}

/// These parts and then those.
#[tactic(auto, using(crate::proofs::TermLemmas::joined_laws))]
pub fn joined(first: Terms, second: Terms) -> Result<Terms, AllocError>
    ensures { IfOk result (λ ts. terms_view ts ≡ semantics.joined (terms_view first) (terms_view second)) }
{
    let mut items = first.into_vec();
    items.append(&mut second.into_vec())?;
    Ok(terms_of(items))
}
