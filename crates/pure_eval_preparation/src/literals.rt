//! The string literals of a tree in the order of its source.

ghost use Rattle.std.specs.Prelude.{◌≡◌, ◌++◌, ◌∷◌, [], if◌then◌else◌, map, IfOk, OnOk};
ghost use Rattle.js_tree.specs.Views as views;
ghost use Rattle.js_semantics.specs.Literals as literals;
ghost use Rattle.js_semantics.specs.Literals.{source_literals};
ghost use Rattle.pure_eval_preparation.specs.Items.{alternate_literals, item_literals};

use cdp_text::units::Units;
use js_tree::targets::is_target;
use js_tree::tree::{
    Block, Catch, Declarator, Declarators, Expr, Exprs, PropertyDefinition, PropertyDefinitions,
    PropertyName, Stmt, Stmts,
};
use std::alloc::{AllocError, Global};

/// The string literals of an expression in the order of its source.
pub fn source_literals(alloc: Global, e: &Expr) -> Result<Vec<Units>, AllocError>
    ensures { IfOk result (λ us. us.items ≡ source_literals e.now) }
{
    let mut found = Vec::new(alloc);
    add_expression(e, &mut found)?;
    Ok(found)
}

/// Adds the literals of an expression at the end.
#[cycle(added)]
fn add_expression(e: &Expr, found: &mut Vec<Units>) -> Result<(), AllocError>
    ensures { OnOk result (found.new.items ≡ found.old.items ++ literals.expression_literals (views.expression_view e.now)) }
{
    match e {
        Expr::This { .. } => Ok(()),
        Expr::Name { .. } => Ok(()),
        Expr::Number { .. } => Ok(()),
        Expr::String { value, .. } => add_literal(value, found),
        Expr::Boolean { .. } => Ok(()),
        Expr::Null { .. } => Ok(()),
        Expr::Array { elements, .. } => add_expressions(elements, found),
        Expr::Object { properties, .. } => add_properties(properties, found),
        Expr::Function { body, .. } => add_statements(body, found),
        Expr::Arrow { body, .. } => add_expression(body, found),
        Expr::ArrowBlock { body, .. } => add_statements(body, found),
        Expr::Parenthesized { inner, .. } => add_expression(inner, found),
        Expr::Member { object, .. } => add_expression(object, found),
        Expr::Index { object, key, .. } => {
            add_expression(object, found)?;
            add_expression(key, found)
        }
        Expr::Call {
            callee,
            arguments,
            ..
        } => {
            add_expression(callee, found)?;
            add_expressions(arguments, found)
        }
        Expr::Postfix { operand, .. } => add_expression(operand, found),
        Expr::Prefix { operand, .. } => add_expression(operand, found),
        Expr::Unary { operand, .. } => add_expression(operand, found),
        Expr::Binary { left, right, .. } => {
            add_expression(left, found)?;
            add_expression(right, found)
        }
        Expr::Conditional {
            test,
            consequent,
            alternate,
            ..
        } => {
            add_expression(test, found)?;
            add_expression(consequent, found)?;
            add_expression(alternate, found)
        }
        Expr::Assign { target, value, .. } => {
            add_expression(target, found)?;
            add_assigned(value, is_target(target), found)
        }
        Expr::Comma { expressions, .. } => add_expressions(expressions, found),
    }
}

/// Adds one literal.
fn add_literal(value: &Units, found: &mut Vec<Units>) -> Result<(), AllocError>
    ensures { OnOk result (found.new.items ≡ found.old.items ++ value.now ∷ []) }
{
    found.push(value.clone()?)?;
    Ok(())
}

/// Adds those of the value of an assignment, if what it is assigned to is a target.
#[cycle(added)]
fn add_assigned(value: &Expr, counts: bool, found: &mut Vec<Units>) -> Result<(), AllocError>
    ensures { OnOk result (found.new.items ≡ found.old.items ++ (if counts then literals.expression_literals (views.expression_view value.now) else [])) }
{
    if counts {
        add_expression(value, found)
    } else {
        Ok(())
    }
}

/// Adds those of a list of expressions.
#[cycle(added)]
fn add_expressions(es: &Exprs, found: &mut Vec<Units>) -> Result<(), AllocError>
    ensures { OnOk result (found.new.items ≡ found.old.items ++ literals.expressions_literals (views.expressions_view es.now)) }
{
    add_expression_items(&es.items, found)
}

/// Adds those of each of these expressions, in order.
#[cycle(added)]
fn add_expression_items(items: &Vec<Expr>, found: &mut Vec<Units>) -> Result<(), AllocError>
    ensures { OnOk result (found.new.items ≡ found.old.items ++ literals.expressions_literals (views.expressions (map views.expression_view items.now.items))) }
{
    for item in items {
        add_expression(item, found)?;
    }
    Ok(())
}

/// Adds those of an expression that may be left out.
#[cycle(added)]
fn add_optional(e: &Option<Expr>, found: &mut Vec<Units>) -> Result<(), AllocError>
    ensures { OnOk result (found.new.items ≡ found.old.items ++ literals.optional_literals (views.optional_view e.now)) }
{
    match e {
        None => Ok(()),
        Some(e) => add_expression(e, found),
    }
}

/// Adds those of the properties of an object literal.
#[cycle(added)]
fn add_properties(ps: &PropertyDefinitions, found: &mut Vec<Units>) -> Result<(), AllocError>
    ensures { OnOk result (found.new.items ≡ found.old.items ++ literals.properties_literals (views.properties_view ps.now)) }
{
    add_property_items(&ps.items, found)
}

/// Adds those of each of these properties, in order.
#[cycle(added)]
fn add_property_items(
    items: &Vec<PropertyDefinition>,
    found: &mut Vec<Units>,
) -> Result<(), AllocError>
    ensures { OnOk result (found.new.items ≡ found.old.items ++ literals.properties_literals (views.properties (map views.property_view items.now.items))) }
{
    for item in items {
        add_property(item, found)?;
    }
    Ok(())
}

/// Adds those of a property.
#[cycle(added)]
fn add_property(p: &PropertyDefinition, found: &mut Vec<Units>) -> Result<(), AllocError>
    ensures { OnOk result (found.new.items ≡ found.old.items ++ literals.property_literals (views.property_view p.now)) }
{
    match p {
        PropertyDefinition::Shorthand { .. } => Ok(()),
        PropertyDefinition::Value { key, value } => {
            add_key(key, found)?;
            add_expression(value, found)
        }
        PropertyDefinition::Method { key, body, .. } => {
            add_key(key, found)?;
            add_statements(body, found)
        }
    }
}

/// Adds those of the name of a property.
#[cycle(added)]
fn add_key(key: &PropertyName, found: &mut Vec<Units>) -> Result<(), AllocError>
    ensures { OnOk result (found.new.items ≡ found.old.items ++ literals.key_literals (views.key_view key.now)) }
{
    match key {
        PropertyName::Word(_) => Ok(()),
        PropertyName::StringLiteral(_) => Ok(()),
        PropertyName::NumericLiteral(_) => Ok(()),
        PropertyName::Computed(e) => add_expression(e, found),
    }
}

/// Adds those of a list of declarators.
#[cycle(added)]
fn add_declarators(ds: &Declarators, found: &mut Vec<Units>) -> Result<(), AllocError>
    ensures { OnOk result (found.new.items ≡ found.old.items ++ literals.declarators_literals (views.declarators_view ds.now)) }
{
    add_declarator_items(&ds.items, found)
}

/// Adds those of each of these declarators, in order.
#[cycle(added)]
fn add_declarator_items(items: &Vec<Declarator>, found: &mut Vec<Units>) -> Result<(), AllocError>
    ensures { OnOk result (found.new.items ≡ found.old.items ++ literals.declarators_literals (views.declarators (map views.declarator_view items.now.items))) }
{
    for item in items {
        add_declarator(item, found)?;
    }
    Ok(())
}

/// Adds those of a declarator.
#[cycle(added)]
fn add_declarator(d: &Declarator, found: &mut Vec<Units>) -> Result<(), AllocError>
    ensures { OnOk result (found.new.items ≡ found.old.items ++ literals.declarator_literals (views.declarator_view d.now)) }
{
    add_optional(&d.initializer, found)
}

/// Adds those of a statement.
#[cycle(added)]
fn add_statement(s: &Stmt, found: &mut Vec<Units>) -> Result<(), AllocError>
    ensures { OnOk result (found.new.items ≡ found.old.items ++ literals.statement_literals (views.statement_view s.now)) }
{
    match s {
        Stmt::Block(block) => add_block(block, found),
        Stmt::Lexical { declarators, .. } => add_declarators(declarators, found),
        Stmt::Empty { .. } => Ok(()),
        Stmt::Expression { expression, .. } => add_expression(expression, found),
        Stmt::If {
            test,
            consequent,
            alternate,
            ..
        } => {
            add_expression(test, found)?;
            add_statement(consequent, found)?;
            add_alternate(alternate, found)
        }
        Stmt::DoWhile { body, test, .. } => {
            add_statement(body, found)?;
            add_expression(test, found)
        }
        Stmt::While { test, body, .. } => {
            add_expression(test, found)?;
            add_statement(body, found)
        }
        Stmt::For {
            initializer,
            test,
            update,
            body,
            ..
        } => {
            add_optional(initializer, found)?;
            add_optional(test, found)?;
            add_optional(update, found)?;
            add_statement(body, found)
        }
        Stmt::ForLexical {
            declarators,
            test,
            update,
            body,
            ..
        } => {
            add_declarators(declarators, found)?;
            add_optional(test, found)?;
            add_optional(update, found)?;
            add_statement(body, found)
        }
        Stmt::ForOf { list, body, .. } => {
            add_expression(list, found)?;
            add_statement(body, found)
        }
        Stmt::Continue { .. } => Ok(()),
        Stmt::Break { .. } => Ok(()),
        Stmt::Return { value, .. } => add_optional(value, found),
        Stmt::Throw { value, .. } => add_expression(value, found),
        Stmt::Try {
            block,
            handler,
            finalizer,
            ..
        } => {
            add_block(block, found)?;
            add_handler(handler, found)?;
            add_finalizer(finalizer, found)
        }
        Stmt::Debugger { .. } => Ok(()),
        Stmt::FunctionDeclaration { .. } => Ok(()),
    }
}

/// Adds those of the statement behind `else`, if there is one.
#[cycle(added)]
fn add_alternate(alternate: &Option<Box<Stmt>>, found: &mut Vec<Units>) -> Result<(), AllocError>
    ensures { OnOk result (found.new.items ≡ found.old.items ++ alternate_literals alternate.now) }
{
    match alternate {
        None => Ok(()),
        Some(s) => add_statement(s, found),
    }
}

/// Adds those of a block.
#[cycle(added)]
fn add_block(block: &Block, found: &mut Vec<Units>) -> Result<(), AllocError>
    ensures { OnOk result (found.new.items ≡ found.old.items ++ literals.statements_literals (views.block_view block.now)) }
{
    add_statements(&block.body, found)
}

/// Adds those of what stands behind `catch`, if anything does.
#[cycle(added)]
fn add_handler(handler: &Option<Catch>, found: &mut Vec<Units>) -> Result<(), AllocError>
    ensures { OnOk result (found.new.items ≡ found.old.items ++ literals.handler_literals (views.handler_view handler.now)) }
{
    match handler {
        None => Ok(()),
        Some(handler) => add_block(&handler.block, found),
    }
}

/// Adds those of what stands behind `finally`, if anything does.
#[cycle(added)]
fn add_finalizer(finalizer: &Option<Block>, found: &mut Vec<Units>) -> Result<(), AllocError>
    ensures { OnOk result (found.new.items ≡ found.old.items ++ literals.finalizer_literals (views.finalizer_view finalizer.now)) }
{
    match finalizer {
        None => Ok(()),
        Some(block) => add_block(block, found),
    }
}

/// Adds those of a list of statements.
#[cycle(added)]
fn add_statements(ss: &Stmts, found: &mut Vec<Units>) -> Result<(), AllocError>
    ensures { OnOk result (found.new.items ≡ found.old.items ++ literals.statements_literals (views.statements_view ss.now)) }
{
    add_statement_items(&ss.items, found)
}

/// Adds those of each of these statements, in order.
#[cycle(added)]
fn add_statement_items(items: &Vec<Stmt>, found: &mut Vec<Units>) -> Result<(), AllocError>
    ensures { OnOk result (found.new.items ≡ found.old.items ++ literals.statements_literals (views.statements (map views.statement_view items.now.items))) }
{
    for item in items {
        add_item(item, found)?;
    }
    Ok(())
}

/// Adds those of a statement of a list, or of the function that it declares there.
#[cycle(added)]
fn add_item(s: &Stmt, found: &mut Vec<Units>) -> Result<(), AllocError>
    ensures { OnOk result (found.new.items ≡ found.old.items ++ item_literals (views.statement_view s.now)) }
{
    add_declared(s, found)?;
    add_statement(s, found)
}

/// Adds those of the function that a statement declares in a list, if it declares one.
#[cycle(added)]
fn add_declared(s: &Stmt, found: &mut Vec<Units>) -> Result<(), AllocError>
    ensures { OnOk result (found.new.items ≡ found.old.items ++ literals.declared_literals (views.statement_view s.now)) }
{
    match s {
        Stmt::FunctionDeclaration { body, .. } => add_statements(body, found),
        Stmt::Block(_) => Ok(()),
        Stmt::Lexical { .. } => Ok(()),
        Stmt::Empty { .. } => Ok(()),
        Stmt::Expression { .. } => Ok(()),
        Stmt::If { .. } => Ok(()),
        Stmt::DoWhile { .. } => Ok(()),
        Stmt::While { .. } => Ok(()),
        Stmt::For { .. } => Ok(()),
        Stmt::ForLexical { .. } => Ok(()),
        Stmt::ForOf { .. } => Ok(()),
        Stmt::Continue { .. } => Ok(()),
        Stmt::Break { .. } => Ok(()),
        Stmt::Return { .. } => Ok(()),
        Stmt::Throw { .. } => Ok(()),
        Stmt::Try { .. } => Ok(()),
        Stmt::Debugger { .. } => Ok(()),
    }
}
