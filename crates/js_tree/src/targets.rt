//! What may be assigned to.

ghost use Rattle.std.specs.Prelude.{◌≡◌};
ghost use Rattle.js_tree.specs.Targets.{is_target};
ghost use Rattle.js_tree.specs.Views.{expression_view};

use crate::tree::Expr;

/// Whether an expression is a name or a property, also in parentheses (ECMA-262,
/// 13.15.1, AssignmentTargetType).
#[tactic(auto, using(crate::proofs::ViewLemmas::expression_laws))]
pub fn is_target(e: &Expr) -> bool
    ensures { result ≡ is_target (expression_view e.now) }
{
    match e {
        Expr::Name { .. } | Expr::Member { .. } | Expr::Index { .. } => true,
        Expr::Parenthesized { inner, .. } => is_target(inner),
        Expr::This { .. } | Expr::Number { .. } | Expr::String { .. } => false,
        Expr::Boolean { .. } | Expr::Null { .. } | Expr::Array { .. } => false,
        Expr::Object { .. } | Expr::Function { .. } | Expr::Arrow { .. } => false,
        Expr::ArrowBlock { .. } | Expr::Call { .. } | Expr::Postfix { .. } => false,
        Expr::Prefix { .. } | Expr::Unary { .. } | Expr::Binary { .. } => false,
        Expr::Conditional { .. } | Expr::Assign { .. } | Expr::Comma { .. } => false,
    }
}
