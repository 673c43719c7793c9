//! The marks of statements.

ghost use Rattle.std.specs.Prelude.{◌≡◌, ◌++◌, OnOk};
ghost use Rattle.std.specs.Option.{option_map};
ghost use Rattle.locations.specs.Marks as definitions;
ghost use Rattle.locations.specs.Marks.{statement_marks, statements_marks, block_marks, catch_marks, declarators_marks};

use crate::expressions::{expression_marks, function_marks, optional_marks};
use crate::marks::{Marked, add};
use crate::spot::SpotKind;
use js_semantics::form::Mark;
use js_tree::tree::{Block, Catch, Declarators, Stmt, Stmts};
use std::alloc::AllocError;

/// The statements of a list.
#[cycle(tree_marks)]
pub fn statements_marks(marks: &mut Vec<Marked>, ss: &Stmts) -> Result<(), AllocError>
    ensures { OnOk result (marks.new.items ≡ marks.old.items ++ statements_marks ss.now) }
{
    for item in &ss.items {
        statement_marks(marks, item)?;
    }
    Ok(())
}

/// A statement.
#[cycle(tree_marks)]
fn statement_marks(marks: &mut Vec<Marked>, s: &Stmt) -> Result<(), AllocError>
    ensures { OnOk result (marks.new.items ≡ marks.old.items ++ statement_marks s.now) }
{
    match s {
        Stmt::Block(block) => block_marks(marks, block),
        Stmt::Lexical {
            node,
            declarators,
            ..
        } => {
            begin(marks, SpotKind::Plain, node.0)?;
            declarators_marks(marks, declarators)
        }
        Stmt::Empty { .. } => Ok(()),
        Stmt::Expression { node, expression } => {
            begin(marks, SpotKind::Plain, node.0)?;
            expression_marks(marks, expression)
        }
        Stmt::If {
            node,
            test,
            consequent,
            alternate,
        } => {
            begin(marks, SpotKind::Plain, node.0)?;
            expression_marks(marks, test)?;
            statement_marks(marks, consequent)?;
            alternate_marks(marks, alternate)
        }
        Stmt::DoWhile { node, body, test } => {
            begin(marks, SpotKind::Plain, node.0)?;
            statement_marks(marks, body)?;
            expression_marks(marks, test)
        }
        Stmt::While { node, test, body } => {
            begin(marks, SpotKind::Plain, node.0)?;
            expression_marks(marks, test)?;
            statement_marks(marks, body)
        }
        Stmt::For {
            node,
            initializer,
            test,
            update,
            body,
        } => {
            begin(marks, SpotKind::Plain, node.0)?;
            optional_marks(marks, initializer)?;
            optional_marks(marks, test)?;
            optional_marks(marks, update)?;
            statement_marks(marks, body)
        }
        Stmt::ForLexical {
            node,
            declarators,
            test,
            update,
            body,
            ..
        } => {
            begin(marks, SpotKind::Plain, node.0)?;
            declarators_marks(marks, declarators)?;
            optional_marks(marks, test)?;
            optional_marks(marks, update)?;
            statement_marks(marks, body)
        }
        Stmt::ForOf {
            node,
            list,
            body,
            ..
        } => {
            begin(marks, SpotKind::Plain, node.0)?;
            expression_marks(marks, list)?;
            statement_marks(marks, body)
        }
        Stmt::Continue { node } => begin(marks, SpotKind::Plain, node.0),
        Stmt::Break { node } => begin(marks, SpotKind::Plain, node.0),
        Stmt::Return { node, value } => {
            begin(marks, SpotKind::Return, node.0)?;
            optional_marks(marks, value)
        }
        Stmt::Throw { node, value } => {
            begin(marks, SpotKind::Plain, node.0)?;
            expression_marks(marks, value)
        }
        Stmt::Try {
            node,
            block,
            handler,
            finalizer,
        } => {
            begin(marks, SpotKind::Plain, node.0)?;
            block_marks(marks, block)?;
            handler_marks(marks, handler)?;
            finalizer_marks(marks, finalizer)
        }
        Stmt::Debugger { node } => begin(marks, SpotKind::Debugger, node.0),
        Stmt::FunctionDeclaration { node, body, .. } => function_marks(marks, node.0, body),
    }
}

/// The start of a statement.
fn begin(marks: &mut Vec<Marked>, kind: SpotKind, node: u32) -> Result<(), AllocError>
    ensures { OnOk result (marks.new.items ≡ marks.old.items ++ definitions.beginning kind node) }
{
    add(marks, kind, Mark::Start(node))
}

/// The second branch of an `if`, where it has one.
#[cycle(tree_marks)]
fn alternate_marks(marks: &mut Vec<Marked>, alternate: &Option<Box<Stmt>>) -> Result<(), AllocError>
    ensures { OnOk result (marks.new.items ≡ marks.old.items ++ definitions.where_present (option_map (λ b. statement_marks b.value) alternate.now)) }
{
    match alternate {
        None => Ok(()),
        Some(s) => statement_marks(marks, s),
    }
}

/// The declarators of a list.
#[cycle(tree_marks)]
fn declarators_marks(marks: &mut Vec<Marked>, ds: &Declarators) -> Result<(), AllocError>
    ensures { OnOk result (marks.new.items ≡ marks.old.items ++ declarators_marks ds.now) }
{
    for item in &ds.items {
        optional_marks(marks, &item.initializer)?;
    }
    Ok(())
}

/// A `catch`, where there is one.
#[cycle(tree_marks)]
fn handler_marks(marks: &mut Vec<Marked>, handler: &Option<Catch>) -> Result<(), AllocError>
    ensures { OnOk result (marks.new.items ≡ marks.old.items ++ definitions.where_present (option_map catch_marks handler.now)) }
{
    match handler {
        None => Ok(()),
        Some(handler) => block_marks(marks, &handler.block),
    }
}

/// A `finally`, where there is one.
#[cycle(tree_marks)]
fn finalizer_marks(marks: &mut Vec<Marked>, finalizer: &Option<Block>) -> Result<(), AllocError>
    ensures { OnOk result (marks.new.items ≡ marks.old.items ++ definitions.where_present (option_map block_marks finalizer.now)) }
{
    match finalizer {
        None => Ok(()),
        Some(block) => block_marks(marks, block),
    }
}

/// A block.
#[cycle(tree_marks)]
fn block_marks(marks: &mut Vec<Marked>, block: &Block) -> Result<(), AllocError>
    ensures { OnOk result (marks.new.items ≡ marks.old.items ++ block_marks block.now) }
{
    statements_marks(marks, &block.body)
}
