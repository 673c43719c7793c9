//! Where an expression stands: its node, and the mark of a call of it.

ghost use Rattle.std.specs.Prelude.{◌≡◌};
ghost use Rattle.js_semantics.specs.Makers.{place_or};
ghost use Rattle.js_semantics.specs.Sources.{expression_source};

use crate::form::Mark;
use js_tree::tree::Expr;

/// The name at the end of an expression, where it is a name or a member by a name.
#[tactic(auto, using(crate::proofs::TreeLemmas::expression_laws))]
fn last_word(e: &Expr) -> Option<Mark>
    ensures { result ≡ (expression_source e.now).last_word }
{
    match e {
        Expr::Name { node, .. } => Some(Mark::Start(node.0)),
        Expr::Member { node, name, .. } => Some(Mark::BeforeEnd(node.0, name.len())),
        Expr::This { .. } => None,
        Expr::Number { .. } => None,
        Expr::String { .. } => None,
        Expr::Boolean { .. } => None,
        Expr::Null { .. } => None,
        Expr::Array { .. } => None,
        Expr::Object { .. } => None,
        Expr::Function { .. } => None,
        Expr::Arrow { .. } => None,
        Expr::ArrowBlock { .. } => None,
        Expr::Parenthesized { .. } => None,
        Expr::Index { .. } => None,
        Expr::Call { .. } => None,
        Expr::Postfix { .. } => None,
        Expr::Prefix { .. } => None,
        Expr::Unary { .. } => None,
        Expr::Binary { .. } => None,
        Expr::Conditional { .. } => None,
        Expr::Assign { .. } => None,
        Expr::Comma { .. } => None,
    }
}

/// The place of a call: the last word of its callee, else its `(`.
pub fn call_place(callee: &Expr, parentheses: u32) -> Mark
    ensures { result ≡ place_or (expression_source callee.now).last_word parentheses }
{
    match last_word(callee) {
        Some(mark) => mark,
        None => Mark::Start(parentheses),
    }
}

/// The node of an expression: its number in the tree.
#[tactic(auto, using(crate::proofs::TreeLemmas::expression_laws))]
pub fn node_of(e: &Expr) -> u32
    ensures { result ≡ (expression_source e.now).node }
{
    match e {
        Expr::Name { node, .. } => node.0,
        Expr::Member { node, .. } => node.0,
        Expr::This { node } => node.0,
        Expr::Number { node, .. } => node.0,
        Expr::String { node, .. } => node.0,
        Expr::Boolean { node, .. } => node.0,
        Expr::Null { node } => node.0,
        Expr::Array { node, .. } => node.0,
        Expr::Object { node, .. } => node.0,
        Expr::Function { node, .. } => node.0,
        Expr::Arrow { node, .. } => node.0,
        Expr::ArrowBlock { node, .. } => node.0,
        Expr::Parenthesized { node, .. } => node.0,
        Expr::Index { node, .. } => node.0,
        Expr::Call { node, .. } => node.0,
        Expr::Postfix { node, .. } => node.0,
        Expr::Prefix { node, .. } => node.0,
        Expr::Unary { node, .. } => node.0,
        Expr::Binary { node, .. } => node.0,
        Expr::Conditional { node, .. } => node.0,
        Expr::Assign { node, .. } => node.0,
        Expr::Comma { node, .. } => node.0,
    }
}
