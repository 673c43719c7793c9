//! Statements of each form.
//!
//! Each function makes one form from its parts: `view` says which tree it is, `places` where its nodes stand.

ghost use Rattle.std.specs.Prelude.{◌≡◌, ◌∷◌, [], suc, max, codes};
ghost use Rattle.js_lexer.specs.declared.token.TokenKind.TheVariants as kinds;
ghost use Rattle.js_tree.specs.Trees as trees;
ghost use Rattle.js_parser_language.specs.Flat.{a, an_identifier, flat_parameters, let_or_const};
ghost use Rattle.js_tree.specs.Height.{height, height_of_statements, height_of_statement, height_of_optional, height_of_declarators, height_of_handler, height_of_finalizer};
ghost use Rattle.js_tree.specs.Views.{optional_view, handler_view, finalizer_view, declarators, expression_view, statement_view, block_view, declarators_view, statements_view};
ghost use Rattle.js_parser_language.specs.Boxes.{unboxed};
ghost use Rattle.js_parser_language.specs.Places.{plain, may_stand, node_of, in_braces, in_parentheses, optional_places, handler_places, finalizer_places, expression_places, statement_places, block_places, declarators_places, statements_places};

use crate::expressions::value_of;
use cdp_text::units::Units;
use js_tree::names::ParameterNames;
use js_tree::node::NodeId;
use js_tree::tree::{Block, Catch, Declarators, Expr, Stmt, Stmts};

/// `{ body }`.
#[tactic(auto, using(js_tree::proofs::ViewLemmas::view_block_statement, crate::proofs::PlaceLemmas::places_block_statement))]
pub fn block_statement(block: Block) -> Stmt
    ensures view { statement_view result ≡ trees.block (block_view block) }
    ensures places { statement_places result ≡ block_places block }
{
    Stmt::Block(block)
}

/// `if (test) consequent`.
#[tactic(auto, using(js_tree::proofs::ViewLemmas::view_if_then, crate::proofs::PlaceLemmas::places_if_then))]
pub fn if_statement(node: NodeId, test: Box<Expr>, consequent: Box<Stmt>) -> Stmt
    ensures view { statement_view result ≡ trees.if_then (expression_view test.value) (statement_view consequent.value) }
    ensures places { statement_places result ≡ node_of node (plain (a kinds.If) ∷ in_parentheses (expression_places test.value) ∷ (statement_places consequent.value) ∷ []) }
    ensures height { height_of_statement (statement_view result) ≡ suc (max (height (expression_view test.value)) (height_of_statement (statement_view consequent.value))) }
{
    Stmt::If {
        node,
        test: Box::into_inner(test),
        consequent,
        alternate: None,
    }
}

/// `if (test) consequent else alternate`.
#[tactic(auto, using(js_tree::proofs::ViewLemmas::view_if_else, crate::proofs::PlaceLemmas::places_if_else))]
pub fn if_else_statement(
    node: NodeId,
    test: Box<Expr>,
    consequent: Box<Stmt>,
    alternate: Box<Stmt>,
) -> Stmt
    ensures view { statement_view result ≡ trees.if_else (expression_view test.value) (statement_view consequent.value) (statement_view alternate.value) }
    ensures places { statement_places result ≡ node_of node (plain (a kinds.If) ∷ in_parentheses (expression_places test.value) ∷ (statement_places consequent.value) ∷ plain (a kinds.Else) ∷ (statement_places alternate.value) ∷ []) }
    ensures height { height_of_statement (statement_view result) ≡ suc (max (height (expression_view test.value)) (max (height_of_statement (statement_view consequent.value)) (height_of_statement (statement_view alternate.value)))) }
{
    Stmt::If {
        node,
        test: Box::into_inner(test),
        consequent,
        alternate: Some(alternate),
    }
}

/// `let` or, where it is constant, `const` with its names.
#[tactic(auto, using(js_tree::proofs::ViewLemmas::view_lexical_declaration, crate::proofs::PlaceLemmas::places_lexical_declaration))]
pub fn lexical_declaration(node: NodeId, constant: bool, declarators: Declarators) -> Stmt
    ensures view { statement_view result ≡ trees.lexical constant (declarators_view declarators) }
    ensures places { statement_places result ≡ node_of node (plain (let_or_const constant) ∷ (declarators_places declarators) ∷ may_stand kinds.Semicolon ∷ []) }
{
    Stmt::Lexical {
        node,
        constant,
        declarators,
    }
}

/// `;`.
#[tactic(auto, using(js_tree::proofs::ViewLemmas::view_empty_statement, crate::proofs::PlaceLemmas::places_empty_statement))]
pub fn empty_statement(node: NodeId) -> Stmt
    ensures view { statement_view result ≡ trees.empty }
    ensures places { statement_places result ≡ node_of node (plain (a kinds.Semicolon) ∷ []) }
{
    Stmt::Empty { node }
}

/// `expression;`.
#[tactic(auto, using(js_tree::proofs::ViewLemmas::view_expression_statement, crate::proofs::PlaceLemmas::places_expression_statement))]
pub fn expression_statement(node: NodeId, expression: Box<Expr>) -> Stmt
    ensures view { statement_view result ≡ trees.expression (expression_view expression.value) }
    ensures places { statement_places result ≡ node_of node ((expression_places expression.value) ∷ may_stand kinds.Semicolon ∷ []) }
{
    Stmt::Expression {
        node,
        expression: Box::into_inner(expression),
    }
}

/// `do body while (test);`.
#[tactic(auto, using(js_tree::proofs::ViewLemmas::view_do_while_statement, crate::proofs::PlaceLemmas::places_do_while_statement))]
pub fn do_while_statement(node: NodeId, body: Box<Stmt>, test: Box<Expr>) -> Stmt
    ensures view { statement_view result ≡ trees.do_while (statement_view body.value) (expression_view test.value) }
    ensures places { statement_places result ≡ node_of node (plain (a kinds.Do) ∷ (statement_places body.value) ∷ plain (a kinds.While) ∷ in_parentheses (expression_places test.value) ∷ may_stand kinds.Semicolon ∷ []) }
    ensures height { height_of_statement (statement_view result) ≡ suc (max (height_of_statement (statement_view body.value)) (height (expression_view test.value))) }
{
    Stmt::DoWhile {
        node,
        body,
        test: Box::into_inner(test),
    }
}

/// `while (test) body`.
#[tactic(auto, using(js_tree::proofs::ViewLemmas::view_while_statement, crate::proofs::PlaceLemmas::places_while_statement))]
pub fn while_statement(node: NodeId, test: Box<Expr>, body: Box<Stmt>) -> Stmt
    ensures view { statement_view result ≡ trees.while (expression_view test.value) (statement_view body.value) }
    ensures places { statement_places result ≡ node_of node (plain (a kinds.While) ∷ in_parentheses (expression_places test.value) ∷ (statement_places body.value) ∷ []) }
    ensures height { height_of_statement (statement_view result) ≡ suc (max (height (expression_view test.value)) (height_of_statement (statement_view body.value))) }
{
    Stmt::While {
        node,
        test: Box::into_inner(test),
        body,
    }
}

/// `for (initializer; test; update) body`.
#[tactic(auto, using(js_tree::proofs::ViewLemmas::view_for_statement, crate::proofs::PlaceLemmas::places_for_statement))]
pub fn for_statement(
    node: NodeId,
    initializer: Option<Box<Expr>>,
    test: Option<Box<Expr>>,
    update: Option<Box<Expr>>,
    body: Box<Stmt>,
) -> Stmt
    ensures view { statement_view result ≡ trees.for (optional_view (unboxed initializer)) (optional_view (unboxed test)) (optional_view (unboxed update)) (statement_view body.value) }
    ensures places { statement_places result ≡ node_of node (plain (a kinds.For) ∷ plain (a kinds.LeftParenthesis) ∷ (optional_places (unboxed initializer)) ∷ plain (a kinds.Semicolon) ∷ (optional_places (unboxed test)) ∷ plain (a kinds.Semicolon) ∷ (optional_places (unboxed update)) ∷ plain (a kinds.RightParenthesis) ∷ (statement_places body.value) ∷ []) }
    ensures height { height_of_statement (statement_view result) ≡ suc (max (height_of_optional (optional_view (unboxed initializer))) (max (height_of_optional (optional_view (unboxed test))) (max (height_of_optional (optional_view (unboxed update))) (height_of_statement (statement_view body.value))))) }
{
    Stmt::For {
        node,
        initializer: value_of(initializer),
        test: value_of(test),
        update: value_of(update),
        body,
    }
}

/// `for (let declarators; test; update) body`, or with `const`.
#[tactic(auto, using(js_tree::proofs::ViewLemmas::view_for_lexical_statement, crate::proofs::PlaceLemmas::places_for_lexical_statement))]
pub fn for_lexical_statement(
    node: NodeId,
    constant: bool,
    declarators: Declarators,
    test: Option<Box<Expr>>,
    update: Option<Box<Expr>>,
    body: Box<Stmt>,
) -> Stmt
    ensures view { statement_view result ≡ trees.for_lexical constant (declarators_view declarators) (optional_view (unboxed test)) (optional_view (unboxed update)) (statement_view body.value) }
    ensures places { statement_places result ≡ node_of node (plain (a kinds.For) ∷ plain (a kinds.LeftParenthesis) ∷ plain (let_or_const constant) ∷ (declarators_places declarators) ∷ plain (a kinds.Semicolon) ∷ (optional_places (unboxed test)) ∷ plain (a kinds.Semicolon) ∷ (optional_places (unboxed update)) ∷ plain (a kinds.RightParenthesis) ∷ (statement_places body.value) ∷ []) }
    ensures height { height_of_statement (statement_view result) ≡ suc (max (height_of_declarators (declarators_view declarators)) (max (height_of_optional (optional_view (unboxed test))) (max (height_of_optional (optional_view (unboxed update))) (height_of_statement (statement_view body.value))))) }
{
    Stmt::ForLexical {
        node,
        constant,
        declarators,
        test: value_of(test),
        update: value_of(update),
        body,
    }
}

/// `for (let name of list) body`, or with `const`.
#[tactic(auto, using(js_tree::proofs::ViewLemmas::view_for_of_statement, crate::proofs::PlaceLemmas::places_for_of_statement))]
pub fn for_of_statement(
    node: NodeId,
    constant: bool,
    name: Units,
    list: Box<Expr>,
    body: Box<Stmt>,
) -> Stmt
    ensures view { statement_view result ≡ trees.for_of constant name (expression_view list.value) (statement_view body.value) }
    ensures places { statement_places result ≡ node_of node (plain (a kinds.For) ∷ plain (a kinds.LeftParenthesis) ∷ plain (let_or_const constant) ∷ plain (an_identifier name) ∷ plain (an_identifier (codes "of")) ∷ (expression_places list.value) ∷ plain (a kinds.RightParenthesis) ∷ (statement_places body.value) ∷ []) }
    ensures height { height_of_statement (statement_view result) ≡ suc (max (height (expression_view list.value)) (height_of_statement (statement_view body.value))) }
{
    Stmt::ForOf {
        node,
        constant,
        name,
        list: Box::into_inner(list),
        body,
    }
}

/// `continue;`.
#[tactic(auto, using(js_tree::proofs::ViewLemmas::view_continue_statement, crate::proofs::PlaceLemmas::places_continue_statement))]
pub fn continue_statement(node: NodeId) -> Stmt
    ensures view { statement_view result ≡ trees.continue }
    ensures places { statement_places result ≡ node_of node (plain (a kinds.Continue) ∷ may_stand kinds.Semicolon ∷ []) }
{
    Stmt::Continue { node }
}

/// `break;`.
#[tactic(auto, using(js_tree::proofs::ViewLemmas::view_break_statement, crate::proofs::PlaceLemmas::places_break_statement))]
pub fn break_statement(node: NodeId) -> Stmt
    ensures view { statement_view result ≡ trees.break }
    ensures places { statement_places result ≡ node_of node (plain (a kinds.Break) ∷ may_stand kinds.Semicolon ∷ []) }
{
    Stmt::Break { node }
}

/// `return value;`.
#[tactic(auto, using(js_tree::proofs::ViewLemmas::view_return_statement, crate::proofs::PlaceLemmas::places_return_statement))]
pub fn return_statement(node: NodeId, value: Option<Box<Expr>>) -> Stmt
    ensures view { statement_view result ≡ trees.return (optional_view (unboxed value)) }
    ensures places { statement_places result ≡ node_of node (plain (a kinds.Return) ∷ (optional_places (unboxed value)) ∷ may_stand kinds.Semicolon ∷ []) }
{
    Stmt::Return {
        node,
        value: value_of(value),
    }
}

/// `throw value;`.
#[tactic(auto, using(js_tree::proofs::ViewLemmas::view_throw_statement, crate::proofs::PlaceLemmas::places_throw_statement))]
pub fn throw_statement(node: NodeId, value: Box<Expr>) -> Stmt
    ensures view { statement_view result ≡ trees.throw (expression_view value.value) }
    ensures places { statement_places result ≡ node_of node (plain (a kinds.Throw) ∷ (expression_places value.value) ∷ may_stand kinds.Semicolon ∷ []) }
{
    Stmt::Throw {
        node,
        value: Box::into_inner(value),
    }
}

/// `try block catch (parameter) block finally block`.
#[tactic(auto, using(js_tree::proofs::ViewLemmas::view_try_statement, crate::proofs::PlaceLemmas::places_try_statement))]
pub fn try_statement(
    node: NodeId,
    block: Block,
    handler: Option<Catch>,
    finalizer: Option<Block>,
) -> Stmt
    ensures view { statement_view result ≡ trees.try (block_view block) (handler_view handler) (finalizer_view finalizer) }
    ensures places { statement_places result ≡ node_of node (plain (a kinds.Try) ∷ (block_places block) ∷ (handler_places handler) ∷ (finalizer_places finalizer) ∷ []) }
    ensures height { height_of_statement (statement_view result) ≡ suc (max (suc (height_of_statements (block_view block))) (max (height_of_handler (handler_view handler)) (height_of_finalizer (finalizer_view finalizer)))) }
{
    Stmt::Try {
        node,
        block,
        handler,
        finalizer,
    }
}

/// `debugger;`.
#[tactic(auto, using(js_tree::proofs::ViewLemmas::view_debugger_statement, crate::proofs::PlaceLemmas::places_debugger_statement))]
pub fn debugger_statement(node: NodeId) -> Stmt
    ensures view { statement_view result ≡ trees.debugger }
    ensures places { statement_places result ≡ node_of node (plain (a kinds.Debugger) ∷ may_stand kinds.Semicolon ∷ []) }
{
    Stmt::Debugger { node }
}

/// `function name(parameters) { body }`.
#[tactic(auto, using(js_tree::proofs::ViewLemmas::view_function_declaration, crate::proofs::PlaceLemmas::places_function_declaration))]
pub fn function_declaration(
    node: NodeId,
    name: Units,
    parameters: ParameterNames,
    body: Stmts,
) -> Stmt
    ensures view { statement_view result ≡ trees.declared_function name parameters (statements_view body) }
    ensures places { statement_places result ≡ node_of node (plain (a kinds.Function) ∷ plain (an_identifier name) ∷ plain (flat_parameters parameters) ∷ in_braces (statements_places body) ∷ []) }
{
    Stmt::FunctionDeclaration {
        node,
        name,
        parameters,
        body,
    }
}
