//! String literals, whose cells are made before the first step.

ghost use Rattle.std.specs.Prelude.{◌≡◌, ◌+◌, ◌++◌, length, IfOk, OnOk};
ghost use Rattle.js_heap.specs.declared.value.Addr.TheVariants.{Base};
ghost use Rattle.js_semantics.specs.Evaluation.{literals_placed};
ghost use Rattle.js_semantics.specs.Run as run;
ghost use Rattle.js_semantics.specs.Terms as semantics;
ghost use Rattle.js_heap.specs.declared.value.Value.TheVariants as values;
ghost use Rattle.js_machine_terms.specs.Views.{term_view, terms_view, listed_view};
ghost use Rattle.js_machine_lowering_parts.specs.Literals.{literal_in};
ghost use Rattle.js_machine_lowering_parts.specs.Spaces.{address};

use crate::spaces::{Space, address};
use cdp_text::units::Units;
use js_heap::value::{Addr, Value};
use js_machine_terms::copies::form_copy;
use js_machine_terms::term::{Term, Terms, done, part, standing, terms_of};
use js_semantics::form::Form;
use std::alloc::{AllocError, Global};

/// The string literals of some parts, in order.
pub fn literals_of(alloc: Global, terms: &Terms) -> Result<Vec<Units>, AllocError>
    ensures { IfOk result (λ us. us.items ≡ run.literals_of (terms_view terms.now)) }
{
    let mut found = Vec::new(alloc);
    add_all_literals(terms, &mut found)?;
    Ok(found)
}

/// The string literals of a part, in order.
pub fn literals_in(alloc: Global, term: &Term) -> Result<Vec<Units>, AllocError>
    ensures { IfOk result (λ us. us.items ≡ run.literals (term_view term.now)) }
{
    let mut found = Vec::new(alloc);
    add_literals(term, &mut found)?;
    Ok(found)
}

// adds the literals of a part at the end
#[cycle(add_literals)]
#[tactic(auto, using(js_machine_terms::proofs::TermLemmas::term_laws, crate::proofs::LiteralLemmas::found_laws))]
fn add_literals(term: &Term, found: &mut Vec<Units>) -> Result<(), AllocError>
    ensures { OnOk result (found.new.items ≡ found.old.items ++ run.literals (term_view term.now)) }
{
    match term {
        Term::Done(_) => Ok(()),
        Term::Standing(..) => Ok(()),
        Term::Part { form, now, later } => match literal_in(form)? {
            Some(units) => {
                found.push(units)?;
                Ok(())
            }
            None => {
                add_all_literals(now, found)?;
                add_all_literals(later, found)?;
                Ok(())
            }
        },
    }
}

// adds the literals of parts at the end
#[cycle(add_literals)]
#[tactic(auto, using(js_machine_terms::proofs::TermLemmas::terms_listed))]
fn add_all_literals(terms: &Terms, found: &mut Vec<Units>) -> Result<(), AllocError>
    ensures { OnOk result (found.new.items ≡ found.old.items ++ run.literals_of (terms_view terms.now)) }
{
    add_item_literals(&terms.items, found)
}

// adds the literals of a list of parts at the end
#[cycle(add_literals)]
fn add_item_literals(items: &Vec<Term>, found: &mut Vec<Units>) -> Result<(), AllocError>
    ensures { OnOk result (found.new.items ≡ found.old.items ++ run.literals_of (listed_view items.now.items)) }
{
    for item in items {
        add_literals(item, found)?;
    }
    Ok(())
}

// the literal that a form is
fn literal_in(form: &Form) -> Result<Option<Units>, AllocError>
    ensures { IfOk result (λ units. units ≡ literal_in form.now) }
{
    match form {
        Form::Literal(units) => Ok(Some(units.clone()?)),
        _ => Ok(None),
    }
}

/// The parts with the address of its cell in place of each literal, from a number on.
pub fn with_literals(alloc: Global, first: u32, terms: &Terms) -> Result<Terms, AllocError>
    ensures { IfOk result (λ ts. terms_view ts ≡ run.all_with_literals (λ n. Base n) first (terms_view terms.now)) }
{
    let mut next = first;
    terms_placed(alloc, Space::Program, terms, &mut next)
}

/// The part with the addresses of its literals' cells, which stand in a session's space behind the cell at an address.
/// AllocError also where the address is one of the program's, since no session keeps a source there, and where the
/// session's addresses end.
pub fn literals_placed(alloc: Global, at: Addr, term: &Term) -> Result<Term, AllocError>
    ensures { IfOk result (λ t. term_view t ≡ literals_placed at (term_view term.now)) }
{
    match at {
        Addr::Base(_) => Err(AllocError),
        Addr::Scratch(number) => match number.checked_add(1) {
            Some(first) => {
                let mut next = first;
                term_placed(alloc, Space::Session, term, &mut next)
            }
            None => Err(AllocError),
        },
    }
}

// the part with the addresses of its literals, and the number after them
#[cycle(placed)]
#[tactic(auto, using(js_machine_terms::proofs::TermLemmas::term_laws, crate::proofs::LiteralLemmas::literal_laws))]
fn term_placed(alloc: Global, space: Space, term: &Term, next: &mut u32) -> Result<Term, AllocError>
    ensures term { IfOk result (λ t. term_view t ≡ run.with_literals (address space) next.old (term_view term.now)) }
    ensures next { OnOk result (next.new ≡ next.old + length (run.literals (term_view term.now))) }
{
    match term {
        Term::Done(value) => Ok(done(*value)),
        Term::Standing(value, spot) => Ok(standing(*value, *spot)),
        Term::Part { form, now, later } => match literal_in(form)? {
            Some(_) => Ok(literal_placed(space, next)?),
            None => {
                let form = form_copy(alloc, form)?;
                let now = terms_placed(alloc, space, now, next)?;
                let later = terms_placed(alloc, space, later, next)?;
                part(alloc, form, now, later)
            }
        },
    }
}

// the text at the next address
fn literal_placed(space: Space, next: &mut u32) -> Result<Term, AllocError>
    ensures term { IfOk result (λ t. term_view t ≡ semantics.done (values.Text (address space next.old))) }
    ensures next { OnOk result (next.new ≡ next.old + 1) }
{
    let at = *next;
    match at.checked_add(1) {
        Some(after) => {
            *next = after;
            Ok(done(Value::Text(address(space, at))))
        }
        None => Err(AllocError),
    }
}

// parts with the addresses of their literals, and the number after them
#[cycle(placed)]
#[tactic(auto, using(js_machine_terms::proofs::TermLemmas::terms_listed))]
fn terms_placed(
    alloc: Global,
    space: Space,
    terms: &Terms,
    next: &mut u32,
) -> Result<Terms, AllocError>
    ensures term { IfOk result (λ ts. terms_view ts ≡ run.all_with_literals (address space) next.old (terms_view terms.now)) }
    ensures next { OnOk result (next.new ≡ next.old + length (run.literals_of (terms_view terms.now))) }
{
    Ok(terms_of(items_placed(alloc, space, &terms.items, next)?))
}

// a list of parts with the addresses of its literals, and the number after them
#[cycle(placed)]
fn items_placed(
    alloc: Global,
    space: Space,
    items: &Vec<Term>,
    next: &mut u32,
) -> Result<Vec<Term>, AllocError>
    ensures term { IfOk result (λ ts. listed_view ts.items ≡ run.all_with_literals (address space) next.old (listed_view items.now.items)) }
    ensures next { OnOk result (next.new ≡ next.old + length (run.literals_of (listed_view items.now.items))) }
{
    let mut placed = Vec::new(alloc);
    for item in items {
        placed.push(term_placed(alloc, space, item, next)?)?;
    }
    Ok(placed)
}

/// The scripts with the addresses of their literals.
pub fn placed_scripts(alloc: Global, scripts: &Terms) -> Result<Terms, AllocError>
    ensures { IfOk result (λ ts. terms_view ts ≡ run.placed_scripts (terms_view scripts.now)) }
{
    with_literals(alloc, FIRST_LITERAL, scripts)
}

/// The number of the first cell of a literal.
const FIRST_LITERAL: u32 = 24;
