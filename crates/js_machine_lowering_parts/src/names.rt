//! The names that statements and functions declare.

ghost use Rattle.std.specs.Prelude.{◌≡◌, ◌++◌, IfOk, OnOk, map};
ghost use Rattle.js_tree.specs.Views.{parameters_view};
ghost use Rattle.js_semantics.specs.Makers.{parameter_names};
ghost use Rattle.js_semantics.specs.Makers as makers;
ghost use Rattle.js_semantics.specs.Sources.{statements_source, statement_source, declarator_source, declarators_source};
ghost use Rattle.js_heap.specs.Cells as cells;

use cdp_text::units::Units;
use js_heap::cell::{Binding, ScopeNames};
use js_machine_terms::copies::names_copy;
use js_tree::names::ParameterNames;
use js_tree::tree::{ArrowParameters, Declarator, Declarators, Stmt, Stmts};
use std::alloc::{AllocError, Global};

/// The names of an arrow's parameters.
pub fn arrow_parameters(
    alloc: Global,
    parameters: &ArrowParameters,
) -> Result<ParameterNames, AllocError>
    ensures { IfOk result (λ ns. ns ≡ parameter_names (parameters_view parameters.now)) }
{
    match parameters {
        ArrowParameters::Name(name) => {
            let mut items = Vec::new(alloc);
            items.push(name.clone()?)?;
            Ok(ParameterNames::from_vec(items))
        }
        ArrowParameters::List(names) => names_copy(alloc, names),
    }
}

/// The names that a list of statements declares, without values.
#[tactic(auto, using(crate::proofs::SourceLemmas::list_laws))]
pub fn names_of(alloc: Global, statements: &Stmts) -> Result<ScopeNames, AllocError>
    ensures { IfOk result (λ ns. ns ≡ (statements_source statements.now).names) }
{
    let mut names = Vec::new(alloc);
    add_item_names(&statements.items, &mut names)?;
    Ok(ScopeNames::from_vec(names))
}

// adds the names of a list of statements at the end
fn add_item_names(items: &[Stmt], names: &mut Vec<Binding>) -> Result<(), AllocError>
    ensures { OnOk result (names.new.items ≡ names.old.items ++ (makers.items_of (map statement_source items.now)).names) }
{
    for item in items {
        add_names(item, names)?;
    }
    Ok(())
}

// adds the names of a statement at the end
#[tactic(auto, using(js_semantics::proofs::TreeLemmas::statement_laws))]
fn add_names(statement: &Stmt, names: &mut Vec<Binding>) -> Result<(), AllocError>
    ensures { OnOk result (names.new.items ≡ names.old.items ++ (statement_source statement.now).names) }
{
    match statement {
        Stmt::Lexical {
            constant,
            declarators,
            ..
        } => {
            add_declared(*constant, declarators, names)?;
            Ok(())
        }
        Stmt::FunctionDeclaration { name, .. } => {
            names.push(declared(name, false)?)?;
            Ok(())
        }
        Stmt::Block(_) => Ok(()),
        Stmt::Empty { .. } => Ok(()),
        Stmt::Expression { .. } => Ok(()),
        Stmt::If { .. } => Ok(()),
        Stmt::DoWhile { .. } => Ok(()),
        Stmt::While { .. } => Ok(()),
        Stmt::For { .. } => Ok(()),
        Stmt::ForLexical { .. } => Ok(()),
        Stmt::ForOf { .. } => Ok(()),
        Stmt::Continue { .. } => Ok(()),
        Stmt::Break { .. } => Ok(()),
        Stmt::Return { .. } => Ok(()),
        Stmt::Throw { .. } => Ok(()),
        Stmt::Try { .. } => Ok(()),
        Stmt::Debugger { .. } => Ok(()),
    }
}

/// A name without a value.
pub fn declared(name: &Units, constant: bool) -> Result<Binding, AllocError>
    ensures { IfOk result (λ b. b ≡ cells.declared name.now constant) }
{
    Ok(Binding {
        name: name.clone()?,
        constant,
        value: None,
    })
}

/// The names that a `let` or `const` declares.
pub fn declarators_names(
    alloc: Global,
    constant: bool,
    declarators: &Declarators,
) -> Result<ScopeNames, AllocError>
    ensures { IfOk result (λ ns. ns ≡ makers.declarators_names constant (declarators_source declarators.now)) }
{
    let mut names = Vec::new(alloc);
    add_declared(constant, declarators, &mut names)?;
    Ok(ScopeNames::from_vec(names))
}

// adds the names of a `let` or `const` at the end
#[tactic(auto, using(js_semantics::proofs::TreeLemmas::source_declarators))]
fn add_declared(
    constant: bool,
    declarators: &Declarators,
    names: &mut Vec<Binding>,
) -> Result<(), AllocError>
    ensures { OnOk result (names.new.items ≡ names.old.items ++ makers.declarators_names constant (declarators_source declarators.now)) }
{
    add_declared_items(constant, &declarators.items, names)
}

// adds the names of a list of declarators at the end
fn add_declared_items(
    constant: bool,
    items: &[Declarator],
    names: &mut Vec<Binding>,
) -> Result<(), AllocError>
    ensures { OnOk result (names.new.items ≡ names.old.items ++ makers.declarators_names constant (map declarator_source items.now)) }
{
    for item in items {
        names.push(declared(&item.name, constant)?)?;
    }
    Ok(())
}
