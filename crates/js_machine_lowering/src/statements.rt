//! The terms of statements, and the functions that they declare.

ghost use Rattle.std.specs.Prelude.{◌≡◌, IfOk, map};
ghost use Rattle.std.specs.Option.{option_map};
ghost use Rattle.js_semantics.specs.Terms as semantics;
ghost use Rattle.js_semantics.specs.Makers as makers;
ghost use Rattle.js_semantics.specs.Sources.{expression_source, statements_source, statement_source};
ghost use Rattle.js_semantics.specs.declared.form.Form.TheVariants as forms;
ghost use Rattle.js_machine_terms.specs.Views.{term_view, terms_view};
ghost use Rattle.js_machine_lowering_parts.specs.Sources.{context_of};

use crate::blocks::{block_term, caught_term, finally_term};
use crate::declarators::declarators_term;
use crate::expressions::part_term;
use crate::functions::function_part;
use crate::loops::{for_lexical_term, for_of_term, for_term, simple_loop};
use js_heap::value::Value;
use js_machine_lowering_parts::functions::{entered, loop_parts};
use js_machine_lowering_parts::operators::choice;
use js_machine_lowering_parts::places::{LoweringContext, within};
use js_machine_terms::term::{Term, Terms, done, end, joined, leaf, one, part, terms_of};
use js_semantics::form::{Form, Stage};
use js_tree::tree::{Expr, Stmt, Stmts};
use std::alloc::{AllocError, Global};

/// The statements of a list.
#[cycle(source)]
#[tactic(auto, using(js_machine_lowering_parts::proofs::SourceLemmas::list_laws))]
pub fn statements_terms<'a>(
    alloc: Global,
    ss: &Stmts,
    place: LoweringContext<'a>,
) -> Result<Terms, AllocError>
    ensures { IfOk result (λ ts. terms_view ts ≡ (statements_source ss.now).terms (context_of place.entry)) }
{
    Ok(terms_of(statement_items(alloc, &ss.items, place)?))
}

/// The terms of a list of statements.
#[cycle(source)]
fn statement_items<'a>(
    alloc: Global,
    items: &Vec<Stmt>,
    place: LoweringContext<'a>,
) -> Result<Vec<Term>, AllocError>
    ensures { IfOk result (λ ts. map term_view ts.items ≡ map (λ s. (statement_source s).term (context_of place.entry)) items.now.items) }
{
    let mut terms = Vec::new(alloc);
    for item in items {
        terms.push(statement_term(alloc, item, place)?)?;
    }
    Ok(terms)
}

/// The functions that a list of statements declares.
#[cycle(source)]
#[tactic(auto, using(js_semantics::proofs::TreeLemmas::source_statements))]
pub fn functions_terms<'a>(
    alloc: Global,
    ss: &Stmts,
    place: LoweringContext<'a>,
) -> Result<Terms, AllocError>
    ensures { IfOk result (λ ts. terms_view ts ≡ (statements_source ss.now).functions (context_of place.entry)) }
{
    function_items(alloc, &ss.items, place)
}

/// The functions that each statement of a list declares, in order.
#[cycle(source)]
fn function_items<'a>(
    alloc: Global,
    items: &Vec<Stmt>,
    place: LoweringContext<'a>,
) -> Result<Terms, AllocError>
    ensures { IfOk result (λ ts. terms_view ts ≡ (makers.items_of (map statement_source items.now.items)).functions (context_of place.entry)) }
{
    let mut functions = end(alloc);
    for item in items {
        functions = joined(functions, statement_functions(alloc, item, place)?)?;
    }
    Ok(functions)
}

/// The function that a statement declares, where it is a function declaration.
#[cycle(source)]
fn statement_functions<'a>(
    alloc: Global,
    s: &Stmt,
    place: LoweringContext<'a>,
) -> Result<Terms, AllocError>
    ensures { IfOk result (λ ts. terms_view ts ≡ (statement_source s.now).functions (context_of place.entry)) }
{
    match s {
        Stmt::FunctionDeclaration {
            node,
            name,
            parameters,
            body,
        } => {
            let function = function_part(alloc, node.0, name.as_slice(), parameters, body, place)?;
            one(alloc, function)
        }
        Stmt::Block(_) => Ok(end(alloc)),
        Stmt::Lexical { .. } => Ok(end(alloc)),
        Stmt::Empty { .. } => Ok(end(alloc)),
        Stmt::Expression { .. } => Ok(end(alloc)),
        Stmt::If { .. } => Ok(end(alloc)),
        Stmt::DoWhile { .. } => Ok(end(alloc)),
        Stmt::While { .. } => Ok(end(alloc)),
        Stmt::For { .. } => Ok(end(alloc)),
        Stmt::ForLexical { .. } => Ok(end(alloc)),
        Stmt::ForOf { .. } => Ok(end(alloc)),
        Stmt::Continue { .. } => Ok(end(alloc)),
        Stmt::Break { .. } => Ok(end(alloc)),
        Stmt::Return { .. } => Ok(end(alloc)),
        Stmt::Throw { .. } => Ok(end(alloc)),
        Stmt::Try { .. } => Ok(end(alloc)),
        Stmt::Debugger { .. } => Ok(end(alloc)),
    }
}

/// The term of a statement.
#[cycle(source)]
fn statement_term<'a>(
    alloc: Global,
    s: &Stmt,
    place: LoweringContext<'a>,
) -> Result<Term, AllocError>
    ensures { IfOk result (λ t. term_view t ≡ (statement_source s.now).term (context_of place.entry)) }
{
    match s {
        Stmt::Block(block) => block_term(alloc, block, place),
        Stmt::Lexical {
            node,
            declarators,
            ..
        } => {
            let names = declarators_term(alloc, declarators, within(node.0, place))?;
            entered(alloc, node.0, names)
        }
        Stmt::Empty { .. } => Ok(done(Value::Undefined)),
        Stmt::Expression { node, expression } => {
            let term = part_term(alloc, expression, within(node.0, place))?;
            entered(alloc, node.0, term)
        }
        Stmt::If {
            node,
            test,
            consequent,
            alternate,
        } => {
            let inner = within(node.0, place);
            let test = part_term(alloc, test, inner)?;
            let consequent = statement_term(alloc, consequent, inner)?;
            let alternate = alternate_term(alloc, alternate, inner)?;
            if_term(alloc, node.0, test, consequent, alternate)
        }
        Stmt::DoWhile { node, body, test } => {
            let inner = within(node.0, place);
            let test = part_term(alloc, test, inner)?;
            let body = statement_term(alloc, body, inner)?;
            simple_loop(alloc, node.0, Stage::Doing, test, body)
        }
        Stmt::While { node, test, body } => {
            let inner = within(node.0, place);
            let test = part_term(alloc, test, inner)?;
            let body = statement_term(alloc, body, inner)?;
            simple_loop(alloc, node.0, Stage::First, test, body)
        }
        Stmt::For {
            node,
            initializer,
            test,
            update,
            body,
        } => {
            let inner = within(node.0, place);
            let first = optional_terms(alloc, initializer, inner)?;
            let test = optional_term(alloc, test, inner, Value::Bool(true))?;
            let update = optional_term(alloc, update, inner, Value::Undefined)?;
            let body = statement_term(alloc, body, inner)?;
            for_term(alloc, node.0, first, test, update, body)
        }
        Stmt::ForLexical {
            node,
            constant,
            declarators,
            test,
            update,
            body,
        } => {
            let inner = within(node.0, place);
            let first = declarators_term(alloc, declarators, inner)?;
            let test = optional_term(alloc, test, inner, Value::Bool(true))?;
            let update = optional_term(alloc, update, inner, Value::Undefined)?;
            let body = statement_term(alloc, body, inner)?;
            let parts = loop_parts(alloc, test, update, body)?;
            for_lexical_term(alloc, node.0, *constant, declarators, first, parts)
        }
        Stmt::ForOf {
            node,
            constant,
            name,
            list,
            body,
        } => {
            let inner = within(node.0, place);
            let list = part_term(alloc, list, inner)?;
            let body = statement_term(alloc, body, inner)?;
            for_of_term(alloc, node.0, *constant, name, list, body)
        }
        Stmt::Continue { node } => plain_statement(alloc, node.0, Form::Continue),
        Stmt::Break { node } => plain_statement(alloc, node.0, Form::Break),
        Stmt::Return { node, value } => {
            let value = optional_terms(alloc, value, within(node.0, place))?;
            return_term(alloc, node.0, value)
        }
        Stmt::Throw { node, value } => {
            let value = part_term(alloc, value, within(node.0, place))?;
            throw_term(alloc, node.0, value)
        }
        Stmt::Try {
            node,
            block,
            handler,
            finalizer,
        } => {
            let inner = within(node.0, place);
            let block = block_term(alloc, block, inner)?;
            let caught = caught_term(alloc, handler, inner, block)?;
            let term = finally_term(alloc, finalizer, inner, caught)?;
            entered(alloc, node.0, term)
        }
        Stmt::Debugger { node } => debugger_term(alloc, node.0),
        Stmt::FunctionDeclaration { .. } => Ok(done(Value::Undefined)),
    }
}

/// An `if`.
fn if_term(
    alloc: Global,
    node: u32,
    test: Term,
    consequent: Term,
    alternate: Term,
) -> Result<Term, AllocError>
    ensures { IfOk result (λ t. term_view t ≡ semantics.part (forms.Enter node) semantics.end (semantics.one (semantics.part forms.Choose (semantics.one (term_view test)) (semantics.more (term_view consequent) (semantics.one (term_view alternate)))))) }
{
    let term = choice(alloc, test, consequent, alternate)?;
    entered(alloc, node, term)
}

/// A statement without parts.
fn plain_statement(alloc: Global, node: u32, form: Form) -> Result<Term, AllocError>
    ensures { IfOk result (λ t. term_view t ≡ semantics.part (forms.Enter node) semantics.end (semantics.one (semantics.part form semantics.end semantics.end))) }
{
    let term = leaf(alloc, form)?;
    entered(alloc, node, term)
}

/// A `return`.
fn return_term(alloc: Global, node: u32, value: Terms) -> Result<Term, AllocError>
    ensures { IfOk result (λ t. term_view t ≡ semantics.part (forms.Enter node) semantics.end (semantics.one (semantics.part forms.Return (terms_view value) semantics.end))) }
{
    let returned = part(alloc, Form::Return, value, end(alloc))?;
    entered(alloc, node, returned)
}

/// A `throw`.
fn throw_term(alloc: Global, node: u32, value: Term) -> Result<Term, AllocError>
    ensures { IfOk result (λ t. term_view t ≡ semantics.part (forms.Enter node) semantics.end (semantics.one (semantics.part (forms.Throw node) (semantics.one (term_view value)) semantics.end))) }
{
    let thrown = part(alloc, Form::Throw(node), one(alloc, value)?, end(alloc))?;
    entered(alloc, node, thrown)
}

/// A `debugger`.
fn debugger_term(alloc: Global, node: u32) -> Result<Term, AllocError>
    ensures { IfOk result (λ t. term_view t ≡ semantics.part (forms.EnterDebugger node) semantics.end (semantics.one makers.nothing)) }
{
    let later = one(alloc, done(Value::Undefined))?;
    part(alloc, Form::EnterDebugger(node), end(alloc), later)
}

/// The second branch of an `if`, where it has one.
#[cycle(source)]
fn alternate_term<'a>(
    alloc: Global,
    s: &Option<Box<Stmt>>,
    place: LoweringContext<'a>,
) -> Result<Term, AllocError>
    ensures { IfOk result (λ t. term_view t ≡ makers.alternate_term (option_map (λ b. statement_source b.value) s.now) (context_of place.entry)) }
{
    match s {
        None => Ok(done(Value::Undefined)),
        Some(s) => statement_term(alloc, s, place),
    }
}

/// The term of an expression, or the value that stands for one that is absent.
#[cycle(source)]
fn optional_term<'a>(
    alloc: Global,
    e: &Option<Expr>,
    place: LoweringContext<'a>,
    absent: Value,
) -> Result<Term, AllocError>
    ensures { IfOk result (λ t. term_view t ≡ makers.optional_term (option_map expression_source e.now) (context_of place.entry) (semantics.done absent)) }
{
    match e {
        None => Ok(done(absent)),
        Some(e) => part_term(alloc, e, place),
    }
}

/// An expression as the only part, where there is one.
#[cycle(source)]
fn optional_terms<'a>(
    alloc: Global,
    e: &Option<Expr>,
    place: LoweringContext<'a>,
) -> Result<Terms, AllocError>
    ensures { IfOk result (λ ts. terms_view ts ≡ makers.optional_terms (option_map expression_source e.now) (context_of place.entry)) }
{
    match e {
        None => Ok(end(alloc)),
        Some(e) => {
            let term = part_term(alloc, e, place)?;
            one(alloc, term)
        }
    }
}
