//! Expressions of each form.
//!
//! Each function makes one form from its parts: `view` says which tree it is, `places` where its nodes stand.

ghost use Rattle.std.specs.Prelude.{◌≡◌, ◌∷◌, [], IfOk, suc, max};
ghost use Rattle.js_lexer.specs.declared.token.TokenKind.TheVariants as kinds;
ghost use Rattle.js_tree.specs.Trees as trees;
ghost use Rattle.js_parser_language.specs.Tokens.{identifier_name, numeric_literal, string_literal};
ghost use Rattle.js_parser_language.specs.Flat.{a, an_identifier, unary_kind, update_kind, binary_kind, assign_kind, flat_parameters, flat_arrow_parameters, flat_optional_name, flat_boolean};
ghost use Rattle.js_tree.specs.Height.{height, height_of_expressions};
ghost use Rattle.js_tree.specs.Views.{parameters_view, expressions, properties, expression_view, expressions_view, properties_view, statements_view};
ghost use Rattle.js_parser_language.specs.Boxes.{unboxed};
ghost use Rattle.js_parser_language.specs.Places.{plain, a_symbol, may_stand, node_of, in_braces, expression_places, expressions_places, properties_places, statements_places};

use crate::boxes::boxed;
use cdp_text::units::Units;
use js_tree::integer::SafeInteger;
use js_tree::names::ParameterNames;
use js_tree::node::NodeId;
use js_tree::tree::{ArrowParameters, Expr, Exprs, PropertyDefinitions, Stmts};
use js_tree_operators::operator::{
    AssignmentOperator, BinaryOperator, UnaryOperator, UpdateOperator,
};
use std::alloc::{AllocError, Global};

/// The expression in memory of its own, if there is one.
pub(crate) fn value_of(boxed: Option<Box<Expr>>) -> Option<Expr>
    ensures { result ≡ unboxed boxed }
{
    match boxed {
        Some(boxed) => Some(Box::into_inner(boxed)),
        None => None,
    }
}

/// `this`.
#[tactic(auto, using(js_tree::proofs::ViewLemmas::view_this, crate::proofs::PlaceLemmas::places_this))]
pub fn this(node: NodeId) -> Expr
    ensures view { expression_view result ≡ trees.this }
    ensures places { expression_places result ≡ node_of node (plain (a kinds.This) ∷ []) }
{
    Expr::This { node }
}

/// A name.
#[tactic(auto, using(js_tree::proofs::ViewLemmas::view_name, crate::proofs::PlaceLemmas::places_name))]
pub fn name(node: NodeId, name: Units) -> Expr
    ensures view { expression_view result ≡ trees.name name }
    ensures places { expression_places result ≡ node_of node (plain (an_identifier name) ∷ []) }
{
    Expr::Name { node, name }
}

/// A numeric literal of this value.
#[tactic(auto, using(js_tree::proofs::ViewLemmas::view_number, crate::proofs::PlaceLemmas::places_number))]
pub fn number(node: NodeId, value: SafeInteger) -> Expr
    ensures view { expression_view result ≡ trees.number value.value }
    ensures places { expression_places result ≡ node_of node (plain (a_symbol (numeric_literal value.value)) ∷ []) }
{
    Expr::Number { node, value }
}

/// A string literal that stands for these units.
#[tactic(auto, using(js_tree::proofs::ViewLemmas::view_string, crate::proofs::PlaceLemmas::places_string))]
pub fn string(node: NodeId, value: Units) -> Expr
    ensures view { expression_view result ≡ trees.string value }
    ensures places { expression_places result ≡ node_of node (plain (a_symbol (string_literal value)) ∷ []) }
{
    Expr::String { node, value }
}

/// `true` or `false`.
#[tactic(auto, using(js_tree::proofs::ViewLemmas::view_boolean, crate::proofs::PlaceLemmas::places_boolean))]
pub fn boolean(node: NodeId, value: bool) -> Expr
    ensures view { expression_view result ≡ trees.boolean value }
    ensures places { expression_places result ≡ node_of node (plain (flat_boolean value) ∷ []) }
{
    Expr::Boolean { node, value }
}

/// `null`.
#[tactic(auto, using(js_tree::proofs::ViewLemmas::view_null, crate::proofs::PlaceLemmas::places_null))]
pub fn null(node: NodeId) -> Expr
    ensures view { expression_view result ≡ trees.null }
    ensures places { expression_places result ≡ node_of node (plain (a kinds.Null) ∷ []) }
{
    Expr::Null { node }
}

/// `[elements]`.
#[tactic(auto, using(js_tree::proofs::ViewLemmas::view_array, crate::proofs::PlaceLemmas::places_array))]
pub fn array(node: NodeId, elements: Exprs) -> Expr
    ensures view { expression_view result ≡ trees.array (expressions_view elements) }
    ensures places { expression_places result ≡ node_of node (plain (a kinds.LeftBracket) ∷ (expressions_places elements) ∷ may_stand kinds.Comma ∷ plain (a kinds.RightBracket) ∷ []) }
{
    Expr::Array { node, elements }
}

/// `{properties}`.
#[tactic(auto, using(js_tree::proofs::ViewLemmas::view_object, crate::proofs::PlaceLemmas::places_object))]
pub fn object(node: NodeId, properties: PropertyDefinitions) -> Expr
    ensures view { expression_view result ≡ trees.object (properties_view properties) }
    ensures places { expression_places result ≡ node_of node (plain (a kinds.LeftBrace) ∷ (properties_places properties) ∷ may_stand kinds.Comma ∷ plain (a kinds.RightBrace) ∷ []) }
{
    Expr::Object { node, properties }
}

/// `function name(parameters) { body }`.
#[tactic(auto, using(js_tree::proofs::ViewLemmas::view_function, crate::proofs::PlaceLemmas::places_function))]
pub fn function(node: NodeId, name: Option<Units>, parameters: ParameterNames, body: Stmts) -> Expr
    ensures view { expression_view result ≡ trees.function name parameters (statements_view body) }
    ensures places { expression_places result ≡ node_of node (plain (a kinds.Function) ∷ plain (flat_optional_name name) ∷ plain (flat_parameters parameters) ∷ in_braces (statements_places body) ∷ []) }
{
    Expr::Function {
        node,
        name,
        parameters,
        body,
    }
}

/// `parameters => body` with an expression.
#[tactic(auto, using(js_tree::proofs::ViewLemmas::view_arrow, crate::proofs::PlaceLemmas::places_arrow))]
pub fn arrow(
    alloc: Global,
    node: NodeId,
    parameters: ArrowParameters,
    body: Box<Expr>,
) -> Result<Box<Expr>, AllocError>
    ensures view { IfOk result (λ tree. expression_view tree.value ≡ trees.arrow (parameters_view parameters) (expression_view body.value)) }
    ensures places { IfOk result (λ tree. expression_places tree.value ≡ node_of node (plain (flat_arrow_parameters (parameters_view parameters)) ∷ plain (a kinds.Arrow) ∷ (expression_places body.value) ∷ [])) }
{
    boxed(
        alloc,
        Expr::Arrow {
            node,
            parameters,
            body,
        },
    )
}

/// `parameters => { body }`.
#[tactic(auto, using(js_tree::proofs::ViewLemmas::view_arrow_block, crate::proofs::PlaceLemmas::places_arrow_block))]
pub fn arrow_block(
    alloc: Global,
    node: NodeId,
    parameters: ArrowParameters,
    body: Stmts,
) -> Result<Box<Expr>, AllocError>
    ensures view { IfOk result (λ tree. expression_view tree.value ≡ trees.arrow_block (parameters_view parameters) (statements_view body)) }
    ensures places { IfOk result (λ tree. expression_places tree.value ≡ node_of node (plain (flat_arrow_parameters (parameters_view parameters)) ∷ plain (a kinds.Arrow) ∷ in_braces (statements_places body) ∷ [])) }
{
    boxed(
        alloc,
        Expr::ArrowBlock {
            node,
            parameters,
            body,
        },
    )
}

/// `(inner)`.
#[tactic(auto, using(js_tree::proofs::ViewLemmas::view_parenthesized, crate::proofs::PlaceLemmas::places_parenthesized))]
pub fn parenthesized(node: NodeId, inner: Box<Expr>) -> Expr
    ensures view { expression_view result ≡ trees.parenthesized (expression_view inner.value) }
    ensures places { expression_places result ≡ node_of node (plain (a kinds.LeftParenthesis) ∷ (expression_places inner.value) ∷ plain (a kinds.RightParenthesis) ∷ []) }
{
    Expr::Parenthesized { node, inner }
}

/// `object.name`.
#[tactic(auto, using(js_tree::proofs::ViewLemmas::view_member, crate::proofs::PlaceLemmas::places_member))]
pub fn member(
    alloc: Global,
    node: NodeId,
    object: Box<Expr>,
    name: Units,
) -> Result<Box<Expr>, AllocError>
    ensures view { IfOk result (λ tree. expression_view tree.value ≡ trees.member (expression_view object.value) name) }
    ensures places { IfOk result (λ tree. expression_places tree.value ≡ node_of node ((expression_places object.value) ∷ plain (a kinds.Dot) ∷ plain (a_symbol (identifier_name name)) ∷ [])) }
{
    boxed(alloc, Expr::Member { node, object, name })
}

/// `object[key]`.
#[tactic(auto, using(js_tree::proofs::ViewLemmas::view_index, crate::proofs::PlaceLemmas::places_index))]
pub fn index(
    alloc: Global,
    node: NodeId,
    object: Box<Expr>,
    key: Box<Expr>,
) -> Result<Box<Expr>, AllocError>
    ensures view { IfOk result (λ tree. expression_view tree.value ≡ trees.index (expression_view object.value) (expression_view key.value)) }
    ensures places { IfOk result (λ tree. expression_places tree.value ≡ node_of node ((expression_places object.value) ∷ plain (a kinds.LeftBracket) ∷ (expression_places key.value) ∷ plain (a kinds.RightBracket) ∷ [])) }
    ensures height { IfOk result (λ tree. height (expression_view tree.value) ≡ suc (max (height (expression_view object.value)) (height (expression_view key.value)))) }
{
    boxed(alloc, Expr::Index { node, object, key })
}

/// `callee(arguments)`. `parentheses` is the node of the arguments with their parentheses.
#[tactic(auto, using(js_tree::proofs::ViewLemmas::view_call, crate::proofs::PlaceLemmas::places_call))]
pub fn call(
    alloc: Global,
    node: NodeId,
    callee: Box<Expr>,
    parentheses: NodeId,
    arguments: Exprs,
) -> Result<Box<Expr>, AllocError>
    ensures view { IfOk result (λ tree. expression_view tree.value ≡ trees.call (expression_view callee.value) (expressions_view arguments)) }
    ensures places { IfOk result (λ tree. expression_places tree.value ≡ node_of node ((expression_places callee.value) ∷ node_of parentheses (plain (a kinds.LeftParenthesis) ∷ (expressions_places arguments) ∷ may_stand kinds.Comma ∷ plain (a kinds.RightParenthesis) ∷ []) ∷ [])) }
    ensures height { IfOk result (λ tree. height (expression_view tree.value) ≡ suc (max (height (expression_view callee.value)) (height_of_expressions (expressions_view arguments)))) }
{
    boxed(
        alloc,
        Expr::Call {
            node,
            callee,
            parentheses,
            arguments,
        },
    )
}

/// `operand++` or `operand--`.
#[tactic(auto, using(js_tree::proofs::ViewLemmas::view_postfix, crate::proofs::PlaceLemmas::places_postfix))]
pub fn postfix(
    alloc: Global,
    node: NodeId,
    operator: UpdateOperator,
    operand: Box<Expr>,
) -> Result<Box<Expr>, AllocError>
    ensures view { IfOk result (λ tree. expression_view tree.value ≡ trees.postfix operator (expression_view operand.value)) }
    ensures places { IfOk result (λ tree. expression_places tree.value ≡ node_of node ((expression_places operand.value) ∷ plain (a (update_kind operator)) ∷ [])) }
{
    boxed(
        alloc,
        Expr::Postfix {
            node,
            operator,
            operand,
        },
    )
}

/// `++operand` or `--operand`.
#[tactic(auto, using(js_tree::proofs::ViewLemmas::view_prefix, crate::proofs::PlaceLemmas::places_prefix))]
pub fn prefix(
    alloc: Global,
    node: NodeId,
    operator: UpdateOperator,
    operand: Box<Expr>,
) -> Result<Box<Expr>, AllocError>
    ensures view { IfOk result (λ tree. expression_view tree.value ≡ trees.prefix operator (expression_view operand.value)) }
    ensures places { IfOk result (λ tree. expression_places tree.value ≡ node_of node (plain (a (update_kind operator)) ∷ (expression_places operand.value) ∷ [])) }
{
    boxed(
        alloc,
        Expr::Prefix {
            node,
            operator,
            operand,
        },
    )
}

/// `-operand` and its like.
#[tactic(auto, using(js_tree::proofs::ViewLemmas::view_unary, crate::proofs::PlaceLemmas::places_unary))]
pub fn unary(
    alloc: Global,
    node: NodeId,
    operator: UnaryOperator,
    operand: Box<Expr>,
) -> Result<Box<Expr>, AllocError>
    ensures view { IfOk result (λ tree. expression_view tree.value ≡ trees.unary operator (expression_view operand.value)) }
    ensures places { IfOk result (λ tree. expression_places tree.value ≡ node_of node (plain (a (unary_kind operator)) ∷ (expression_places operand.value) ∷ [])) }
{
    boxed(
        alloc,
        Expr::Unary {
            node,
            operator,
            operand,
        },
    )
}

/// `left + right` and its like.
#[tactic(auto, using(js_tree::proofs::ViewLemmas::view_binary, crate::proofs::PlaceLemmas::places_binary))]
pub fn binary(
    alloc: Global,
    node: NodeId,
    operator: BinaryOperator,
    left: Box<Expr>,
    right: Box<Expr>,
) -> Result<Box<Expr>, AllocError>
    ensures view { IfOk result (λ tree. expression_view tree.value ≡ trees.binary operator (expression_view left.value) (expression_view right.value)) }
    ensures places { IfOk result (λ tree. expression_places tree.value ≡ node_of node ((expression_places left.value) ∷ plain (a (binary_kind operator)) ∷ (expression_places right.value) ∷ [])) }
    ensures height { IfOk result (λ tree. height (expression_view tree.value) ≡ suc (max (height (expression_view left.value)) (height (expression_view right.value)))) }
{
    boxed(
        alloc,
        Expr::Binary {
            node,
            operator,
            left,
            right,
        },
    )
}

/// `test ? consequent : alternate`.
#[tactic(auto, using(js_tree::proofs::ViewLemmas::view_conditional, crate::proofs::PlaceLemmas::places_conditional))]
pub fn conditional(
    alloc: Global,
    node: NodeId,
    test: Box<Expr>,
    consequent: Box<Expr>,
    alternate: Box<Expr>,
) -> Result<Box<Expr>, AllocError>
    ensures view { IfOk result (λ tree. expression_view tree.value ≡ trees.conditional (expression_view test.value) (expression_view consequent.value) (expression_view alternate.value)) }
    ensures places { IfOk result (λ tree. expression_places tree.value ≡ node_of node ((expression_places test.value) ∷ plain (a kinds.Question) ∷ (expression_places consequent.value) ∷ plain (a kinds.Colon) ∷ (expression_places alternate.value) ∷ [])) }
    ensures height { IfOk result (λ tree. height (expression_view tree.value) ≡ suc (max (height (expression_view test.value)) (max (height (expression_view consequent.value)) (height (expression_view alternate.value))))) }
{
    boxed(
        alloc,
        Expr::Conditional {
            node,
            test,
            consequent,
            alternate,
        },
    )
}

/// `target = value` and its like.
#[tactic(auto, using(js_tree::proofs::ViewLemmas::view_assign, crate::proofs::PlaceLemmas::places_assign))]
pub fn assign(
    alloc: Global,
    node: NodeId,
    operator: AssignmentOperator,
    target: Box<Expr>,
    value: Box<Expr>,
) -> Result<Box<Expr>, AllocError>
    ensures view { IfOk result (λ tree. expression_view tree.value ≡ trees.assign operator (expression_view target.value) (expression_view value.value)) }
    ensures places { IfOk result (λ tree. expression_places tree.value ≡ node_of node ((expression_places target.value) ∷ plain (a (assign_kind operator)) ∷ (expression_places value.value) ∷ [])) }
    ensures height { IfOk result (λ tree. height (expression_view tree.value) ≡ suc (max (height (expression_view target.value)) (height (expression_view value.value)))) }
{
    boxed(
        alloc,
        Expr::Assign {
            node,
            operator,
            target,
            value,
        },
    )
}

/// `a, b, c`.
#[tactic(auto, using(js_tree::proofs::ViewLemmas::view_comma, crate::proofs::PlaceLemmas::places_comma))]
pub fn comma(alloc: Global, node: NodeId, expressions: Exprs) -> Result<Box<Expr>, AllocError>
    ensures view { IfOk result (λ tree. expression_view tree.value ≡ trees.comma (expressions_view expressions)) }
    ensures places { IfOk result (λ tree. expression_places tree.value ≡ node_of node ((expressions_places expressions) ∷ [])) }
{
    boxed(alloc, Expr::Comma { node, expressions })
}
