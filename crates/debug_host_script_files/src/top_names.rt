//! The names that a script declares at its top.

ghost use Rattle.std.specs.Prelude.{◌≡◌, ◌++◌, OnOk, map};
ghost use Rattle.js_parser_language.specs.Well.{declared_by, declared_names, names_of_declarators};
ghost use Rattle.js_tree.specs.Views.{declarator_view, declarators, declarators_view, statement_view, statements, statements_view};

use cdp_text::units::Units;
use js_tree::tree::{Declarator, Declarators, Stmt, Stmts};
use std::alloc::AllocError;

/// Adds the names that a script's body declares, in order.
#[tactic(auto, using(crate::proofs::TopNameLemmas::bodies))]
pub(crate) fn add_names(body: &Stmts, names: &mut Vec<Units>) -> Result<(), AllocError>
    ensures { OnOk result (names.new.items ≡ names.old.items ++ declared_names (statements_view body.now)) }
{
    add_statements(&body.items, names)
}

/// Adds the names that these statements declare, in order.
fn add_statements(items: &[Stmt], names: &mut Vec<Units>) -> Result<(), AllocError>
    ensures { OnOk result (names.new.items ≡ names.old.items ++ declared_names (statements (map statement_view items.now))) }
{
    for item in items {
        add_statement(item, names)?;
    }
    Ok(())
}

/// Adds the names that a statement declares.
#[tactic(auto, using(crate::proofs::TopNameLemmas::statement_laws))]
fn add_statement(statement: &Stmt, names: &mut Vec<Units>) -> Result<(), AllocError>
    ensures { OnOk result (names.new.items ≡ names.old.items ++ declared_by (statement_view statement.now)) }
{
    match statement {
        Stmt::Lexical { declarators, .. } => {
            add_declarators(declarators, names)?;
            Ok(())
        }
        Stmt::FunctionDeclaration { name, .. } => {
            names.push(name.clone()?)?;
            Ok(())
        }
        Stmt::Block(_) => Ok(()),
        Stmt::Empty { .. } => Ok(()),
        Stmt::Expression { .. } => Ok(()),
        Stmt::If { .. } => Ok(()),
        Stmt::DoWhile { .. } => Ok(()),
        Stmt::While { .. } => Ok(()),
        Stmt::For { .. } => Ok(()),
        Stmt::ForLexical { .. } => Ok(()),
        Stmt::ForOf { .. } => Ok(()),
        Stmt::Continue { .. } => Ok(()),
        Stmt::Break { .. } => Ok(()),
        Stmt::Return { .. } => Ok(()),
        Stmt::Throw { .. } => Ok(()),
        Stmt::Try { .. } => Ok(()),
        Stmt::Debugger { .. } => Ok(()),
    }
}

/// Adds the names of a list of declarators.
#[tactic(auto, using(crate::proofs::TopNameLemmas::lists))]
fn add_declarators(list: &Declarators, names: &mut Vec<Units>) -> Result<(), AllocError>
    ensures { OnOk result (names.new.items ≡ names.old.items ++ names_of_declarators (declarators_view list.now)) }
{
    add_each(&list.items, names)
}

/// Adds the name of each of these declarators, in order.
fn add_each(items: &[Declarator], names: &mut Vec<Units>) -> Result<(), AllocError>
    ensures { OnOk result (names.new.items ≡ names.old.items ++ names_of_declarators (declarators (map declarator_view items.now))) }
{
    for item in items {
        names.push(item.name.clone()?)?;
    }
    Ok(())
}
