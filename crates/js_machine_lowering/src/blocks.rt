//! The terms of blocks, and of what catches errors and finishes after them.

ghost use Rattle.std.specs.Prelude.{◌≡◌, IfOk};
ghost use Rattle.std.specs.Option.{option_map};
ghost use Rattle.js_semantics.specs.Terms as semantics;
ghost use Rattle.js_semantics.specs.Makers as makers;
ghost use Rattle.js_semantics.specs.Sources.{statements_source, block_source, catch_source};
ghost use Rattle.js_semantics.specs.declared.form.Form.TheVariants as forms;
ghost use Rattle.js_machine_terms.specs.Views.{term_view, terms_view};
ghost use Rattle.js_machine_lowering_parts.specs.Sources.{context_of};

use crate::functions::body_parts;
use crate::statements::{functions_terms, statements_terms};
use cdp_text::units::Units;
use js_machine_lowering_parts::names::names_of;
use js_machine_lowering_parts::places::LoweringContext;
use js_machine_terms::term::{Term, Terms, end, one, part};
use js_semantics::form::Form;
use js_tree::tree::{Block, Catch, Stmts};
use std::alloc::{AllocError, Global};

/// A block.
#[cycle(source)]
#[tactic(auto, using(js_semantics::proofs::TreeLemmas::source_block_body))]
pub fn block_term<'a>(
    alloc: Global,
    block: &Block,
    place: LoweringContext<'a>,
) -> Result<Term, AllocError>
    ensures { IfOk result (λ t. term_view t ≡ makers.block_term (block_source block.now) (context_of place.entry)) }
{
    let statements = statements_terms(alloc, &block.body, place)?;
    let functions = functions_terms(alloc, &block.body, place)?;
    block_of(alloc, &block.body, statements, functions)
}

/// A block of what its statements and functions are.
fn block_of(
    alloc: Global,
    body: &Stmts,
    statements: Terms,
    functions: Terms,
) -> Result<Term, AllocError>
    ensures { IfOk result (λ t. term_view t ≡ semantics.part (forms.Block (statements_source body.now).names) semantics.end (semantics.more (semantics.part forms.Sequence (terms_view statements) semantics.end) (terms_view functions))) }
{
    let names = names_of(alloc, body)?;
    let later = body_parts(alloc, statements, functions)?;
    part(alloc, Form::Block(names), end(alloc), later)
}

/// A block with what catches its errors.
#[cycle(source)]
#[tactic(auto, using(js_semantics::proofs::TreeLemmas::source_catch))]
pub fn caught_term<'a>(
    alloc: Global,
    handler: &Option<Catch>,
    place: LoweringContext<'a>,
    term: Term,
) -> Result<Term, AllocError>
    ensures { IfOk result (λ t. term_view t ≡ makers.caught (option_map catch_source handler.now) (term_view term) (context_of place.entry)) }
{
    match handler {
        None => Ok(term),
        Some(handler) => {
            let block = block_term(alloc, &handler.block, place)?;
            catching(alloc, &handler.parameter, term, block)
        }
    }
}

/// A block that catches the errors of a term.
fn catching(
    alloc: Global,
    name: &Option<Units>,
    term: Term,
    block: Term,
) -> Result<Term, AllocError>
    ensures { IfOk result (λ t. term_view t ≡ semantics.part (forms.Catching name.now) (semantics.one (term_view term)) (semantics.one (term_view block))) }
{
    let name = optional_name(name)?;
    let later = one(alloc, block)?;
    part(alloc, Form::Catching(name), one(alloc, term)?, later)
}

/// A copy of a name that may be absent.
fn optional_name(name: &Option<Units>) -> Result<Option<Units>, AllocError>
    ensures { IfOk result (λ n. n ≡ name.now) }
{
    match name {
        None => Ok(None),
        Some(name) => Ok(Some(name.clone()?)),
    }
}

/// A term with the block that finishes after it.
#[cycle(source)]
pub fn finally_term<'a>(
    alloc: Global,
    finalizer: &Option<Block>,
    place: LoweringContext<'a>,
    term: Term,
) -> Result<Term, AllocError>
    ensures { IfOk result (λ t. term_view t ≡ makers.finally_term (option_map block_source finalizer.now) (term_view term) (context_of place.entry)) }
{
    match finalizer {
        None => Ok(term),
        Some(block) => {
            let block = block_term(alloc, block, place)?;
            finishing(alloc, term, block)
        }
    }
}

/// A block that is run after a term.
fn finishing(alloc: Global, term: Term, block: Term) -> Result<Term, AllocError>
    ensures { IfOk result (λ t. term_view t ≡ semantics.part forms.Finishing (semantics.one (term_view term)) (semantics.one (term_view block))) }
{
    let later = one(alloc, block)?;
    part(alloc, Form::Finishing, one(alloc, term)?, later)
}
