//! The terms of loops.

ghost use Rattle.std.specs.Prelude.{◌≡◌, None, IfOk};
ghost use Rattle.js_heap.specs.Cells as cells;
ghost use Rattle.js_semantics.specs.Terms as semantics;
ghost use Rattle.js_semantics.specs.Makers as makers;
ghost use Rattle.js_semantics.specs.declared.form.Form.TheVariants as forms;
ghost use Rattle.js_semantics.specs.declared.form.Stage.TheVariants as stages;
ghost use Rattle.js_machine_terms.specs.Views.{term_view, terms_view};
ghost use Rattle.js_semantics.specs.Sources.{declarators_source};

use cdp_text::units::Units;
use js_heap::value::Value;
use js_machine_lowering_parts::functions::{entered, loop_parts, loop_term, with_front};
use js_machine_lowering_parts::names::{declarators_names, declared};
use js_machine_terms::term::{Term, Terms, done, end, part, two};
use js_semantics::form::{Form, Stage};
use js_tree::tree::Declarators;
use std::alloc::{AllocError, Global};

/// A `while` or a `do`.
pub fn simple_loop(
    alloc: Global,
    node: u32,
    stage: Stage,
    test: Term,
    body: Term,
) -> Result<Term, AllocError>
    ensures { IfOk result (λ t. term_view t ≡ semantics.part (forms.Enter node) semantics.end (semantics.one (semantics.part (forms.Loop stage None) semantics.end (makers.loop_parts (term_view test) makers.nothing (term_view body))))) }
{
    let parts = loop_parts(alloc, test, done(Value::Undefined), body)?;
    entered(alloc, node, loop_term(alloc, stage, end(alloc), parts)?)
}

/// A `for` without names.
pub fn for_term(
    alloc: Global,
    node: u32,
    first: Terms,
    test: Term,
    update: Term,
    body: Term,
) -> Result<Term, AllocError>
    ensures { IfOk result (λ t. term_view t ≡ semantics.part (forms.Enter node) semantics.end (semantics.one (semantics.part (forms.Loop stages.First None) (terms_view first) (makers.loop_parts (term_view test) (term_view update) (term_view body))))) }
{
    let parts = loop_parts(alloc, test, update, body)?;
    entered(alloc, node, loop_term(alloc, Stage::First, first, parts)?)
}

/// A `for` with names.
pub fn for_lexical_term(
    alloc: Global,
    node: u32,
    constant: bool,
    declarators: &Declarators,
    first: Term,
    parts: Terms,
) -> Result<Term, AllocError>
    ensures { IfOk result (λ t. term_view t ≡ semantics.part (forms.EnterFor node constant (makers.declarators_names constant (declarators_source declarators.now))) semantics.end (semantics.more (term_view first) (terms_view parts))) }
{
    let names = declarators_names(alloc, constant, declarators)?;
    let later = with_front(alloc, first, parts)?;
    part(
        alloc,
        Form::EnterFor(node, constant, names),
        end(alloc),
        later,
    )
}

/// A `for .. of`.
pub fn for_of_term(
    alloc: Global,
    node: u32,
    constant: bool,
    name: &Units,
    list: Term,
    body: Term,
) -> Result<Term, AllocError>
    ensures { IfOk result (λ t. term_view t ≡ semantics.part (forms.EnterForOf node (cells.declared name.now constant)) semantics.end (semantics.more (term_view list) (semantics.one (term_view body)))) }
{
    let name = declared(name, constant)?;
    let later = two(alloc, list, body)?;
    part(alloc, Form::EnterForOf(node, name), end(alloc), later)
}
