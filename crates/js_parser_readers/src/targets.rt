//! What `delete` takes, and how tightly operators bind.

ghost use Rattle.std.specs.Prelude.{◌≡◌, suc};
ghost use Rattle.js_parser_language.specs.Flat as flat;
ghost use Rattle.js_tree.specs.Views.{expression_view};
ghost use Rattle.js_parser_language.specs.Well as well;

use js_lexer::token::TokenKind;
use js_tree::tree::Expr;
use js_tree_operators::operator::{AssignmentOperator, BinaryOperator};

/// Whether an expression is a property, also in parentheses.
#[tactic(auto, using(js_tree::proofs::ViewLemmas::expression_laws))]
pub fn is_property(tree: &Expr) -> bool
    ensures { result ≡ well.is_property (expression_view tree.now) }
{
    match tree {
        Expr::Member { .. } | Expr::Index { .. } => true,
        Expr::Parenthesized { inner, .. } => is_property(inner),
        Expr::This { .. } | Expr::Name { .. } | Expr::Number { .. } | Expr::String { .. } => false,
        Expr::Boolean { .. } | Expr::Null { .. } | Expr::Array { .. } => false,
        Expr::Object { .. } | Expr::Function { .. } | Expr::Arrow { .. } => false,
        Expr::ArrowBlock { .. } | Expr::Call { .. } | Expr::Postfix { .. } => false,
        Expr::Prefix { .. } | Expr::Unary { .. } | Expr::Binary { .. } => false,
        Expr::Conditional { .. } | Expr::Assign { .. } | Expr::Comma { .. } => false,
    }
}

/// How tightly an operator binds its operands, the weakest first (ECMA-262, 13.6 to 13.13).
pub fn strength(operator: BinaryOperator) -> u32
    ensures { result ≡ well.strength operator }
{
    match operator {
        BinaryOperator::LogicalOr => 3,
        BinaryOperator::LogicalAnd => 4,
        BinaryOperator::BitwiseOr => 5,
        BinaryOperator::BitwiseXor => 6,
        BinaryOperator::BitwiseAnd => 7,
        BinaryOperator::Equal | BinaryOperator::NotEqual => 8,
        BinaryOperator::StrictEqual | BinaryOperator::StrictNotEqual => 8,
        BinaryOperator::LessThan | BinaryOperator::GreaterThan => 9,
        BinaryOperator::LessThanOrEqual | BinaryOperator::GreaterThanOrEqual => 9,
        BinaryOperator::LeftShift | BinaryOperator::RightShift => 10,
        BinaryOperator::UnsignedRightShift => 10,
        BinaryOperator::Add | BinaryOperator::Subtract => 11,
        BinaryOperator::Multiply | BinaryOperator::Divide | BinaryOperator::Remainder => 12,
    }
}

/// The least strength of an operation in the right operand of this operator.
pub fn above(operator: BinaryOperator) -> u32
    ensures { result ≡ suc (well.strength operator) }
{
    strength(operator) + 1
}

/// The token of an assignment's operator.
pub fn assignment_kind(operator: AssignmentOperator) -> TokenKind
    ensures { result ≡ flat.assign_kind operator }
{
    match operator {
        AssignmentOperator::Assign => TokenKind::Assign,
        AssignmentOperator::Add => TokenKind::AddAssign,
        AssignmentOperator::Subtract => TokenKind::SubtractAssign,
        AssignmentOperator::Multiply => TokenKind::MultiplyAssign,
        AssignmentOperator::Divide => TokenKind::DivideAssign,
        AssignmentOperator::Remainder => TokenKind::RemainderAssign,
        AssignmentOperator::LeftShift => TokenKind::LeftShiftAssign,
        AssignmentOperator::RightShift => TokenKind::RightShiftAssign,
        AssignmentOperator::UnsignedRightShift => TokenKind::UnsignedRightShiftAssign,
        AssignmentOperator::BitwiseAnd => TokenKind::BitwiseAndAssign,
        AssignmentOperator::BitwiseOr => TokenKind::BitwiseOrAssign,
        AssignmentOperator::BitwiseXor => TokenKind::BitwiseXorAssign,
    }
}
