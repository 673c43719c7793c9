//! The marks of expressions and of the bodies of functions.

ghost use Rattle.std.specs.Prelude.{◌≡◌, ◌++◌, OnOk};
ghost use Rattle.std.specs.Option.{option_map};
ghost use Rattle.locations.specs.Marks as definitions;
ghost use Rattle.locations.specs.Marks.{expression_marks, expressions_marks, statements_marks};

use crate::marks::{Marked, add};
use crate::objects::properties_marks;
use crate::spot::SpotKind;
use crate::statements::statements_marks;
use js_semantics::form::Mark;
use js_semantics::words::{call_place, node_of};
use js_tree::tree::{Expr, Exprs, Stmts};
use std::alloc::AllocError;

/// An expression.
#[cycle(tree_marks)]
pub fn expression_marks(marks: &mut Vec<Marked>, e: &Expr) -> Result<(), AllocError>
    ensures { OnOk result (marks.new.items ≡ marks.old.items ++ (expression_marks e.now).marks) }
{
    match e {
        Expr::This { .. } => Ok(()),
        Expr::Name { .. } => Ok(()),
        Expr::Number { .. } => Ok(()),
        Expr::String { .. } => Ok(()),
        Expr::Boolean { .. } => Ok(()),
        Expr::Null { .. } => Ok(()),
        Expr::Array { elements, .. } => expressions_marks(marks, elements),
        Expr::Object { properties, .. } => properties_marks(marks, properties),
        Expr::Function { node, body, .. } => function_marks(marks, node.0, body),
        Expr::Arrow { body, .. } => returned_marks(marks, body),
        Expr::ArrowBlock { node, body, .. } => function_marks(marks, node.0, body),
        Expr::Parenthesized { inner, .. } => expression_marks(marks, inner),
        Expr::Member { object, .. } => expression_marks(marks, object),
        Expr::Index { object, key, .. } => {
            expression_marks(marks, object)?;
            expression_marks(marks, key)
        }
        Expr::Call {
            callee,
            parentheses,
            arguments,
            ..
        } => {
            expression_marks(marks, callee)?;
            add(marks, SpotKind::Call, call_place(callee, parentheses.0))?;
            expressions_marks(marks, arguments)
        }
        Expr::Postfix { operand, .. } => expression_marks(marks, operand),
        Expr::Prefix { operand, .. } => expression_marks(marks, operand),
        Expr::Unary { operand, .. } => expression_marks(marks, operand),
        Expr::Binary { left, right, .. } => {
            expression_marks(marks, left)?;
            expression_marks(marks, right)
        }
        Expr::Conditional {
            test,
            consequent,
            alternate,
            ..
        } => {
            expression_marks(marks, test)?;
            expression_marks(marks, consequent)?;
            expression_marks(marks, alternate)
        }
        Expr::Assign { target, value, .. } => {
            expression_marks(marks, target)?;
            expression_marks(marks, value)
        }
        Expr::Comma { expressions, .. } => expressions_marks(marks, expressions),
    }
}

/// The body of a function with its closing brace.
#[cycle(tree_marks)]
pub fn function_marks(marks: &mut Vec<Marked>, node: u32, body: &Stmts) -> Result<(), AllocError>
    ensures { OnOk result (marks.new.items ≡ marks.old.items ++ definitions.in_function node (statements_marks body.now)) }
{
    statements_marks(marks, body)?;
    add(marks, SpotKind::Return, Mark::BeforeEnd(node, 1))
}

/// An arrow's expression body.
#[cycle(tree_marks)]
fn returned_marks(marks: &mut Vec<Marked>, body: &Expr) -> Result<(), AllocError>
    ensures { OnOk result (marks.new.items ≡ marks.old.items ++ definitions.in_returned (expression_marks body.now)) }
{
    add(marks, SpotKind::Return, Mark::Start(node_of(body)))?;
    expression_marks(marks, body)
}

/// Expressions that follow one another.
#[cycle(tree_marks)]
fn expressions_marks(marks: &mut Vec<Marked>, es: &Exprs) -> Result<(), AllocError>
    ensures { OnOk result (marks.new.items ≡ marks.old.items ++ expressions_marks es.now) }
{
    for item in &es.items {
        expression_marks(marks, item)?;
    }
    Ok(())
}

/// An expression that may be left out.
#[cycle(tree_marks)]
pub fn optional_marks(marks: &mut Vec<Marked>, e: &Option<Expr>) -> Result<(), AllocError>
    ensures { OnOk result (marks.new.items ≡ marks.old.items ++ definitions.in_present (option_map expression_marks e.now)) }
{
    match e {
        None => Ok(()),
        Some(e) => expression_marks(marks, e),
    }
}
