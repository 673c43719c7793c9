//! How statements end (ECMA-262, 12.10).

ghost use Rattle.std.specs.Prelude.{◌≡◌};
ghost use Rattle.js_parser_language.specs.Flat as flat;
ghost use Rattle.js_tree.specs.Views.{declarators_view, expression_view};
ghost use Rattle.js_parser_readers.specs.Giving.{Gives};
ghost use Rattle.js_parser_readers.specs.Heads.{edge_view, end_view};
ghost use Rattle.js_parser_readers.specs.Reading as reading;
ghost use Rattle.js_parser_readers.specs.Views.{tokens_view};

use crate::classes::statements::{ExpressionEnd, StatementEnd, is_absent};
use crate::fault::ParseError;
use crate::token::{is_next, tail};
use js_lexer::token::{Token, TokenKind};
use js_tree::tree::{Declarators, Expr};

/// The tokens after the semicolon of a statement that ends so, which may be absent.
///
/// # Errors
///
/// `Syntax` at the next token where the semicolon is absent and may not be.
#[tactic(auto, unfolding(crate::specs::Reading::semicolon_at))]
pub fn semicolon_at<'t, 's>(
    end: StatementEnd,
    tokens: &'t [Token<'s>],
) -> Result<&'t [Token<'s>], ParseError>
    ensures { Gives (λ rest. (tt, tokens_view rest.now)) result (reading.semicolon_at (end_view end) (tokens_view tokens.now)) }
{
    if is_next(TokenKind::Semicolon, tokens) {
        Ok(tail(tokens))
    } else if is_absent(end, tokens) {
        Ok(tokens)
    } else {
        Err(ParseError::Syntax { left: tokens.len() })
    }
}

/// What the last token of an expression ends.
#[tactic(auto, using(js_tree::proofs::ViewLemmas::expression_laws))]
pub fn edge_of(tree: &Expr) -> ExpressionEnd
    ensures { edge_view result ≡ flat.edge (expression_view tree.now) }
{
    match tree {
        Expr::ArrowBlock { .. } => ExpressionEnd::Braces,
        Expr::Postfix { .. } => ExpressionEnd::Update,
        Expr::Arrow { body, .. } => edge_of(body),
        Expr::Unary { operand, .. } => edge_of(operand),
        Expr::Binary { right, .. } => edge_of(right),
        Expr::Conditional { alternate, .. } => edge_of(alternate),
        Expr::Assign { value, .. } => edge_of(value),
        Expr::Comma { expressions, .. } => match expressions.items.last() {
            Some(last) => edge_of(last),
            None => ExpressionEnd::Plain,
        },
        Expr::This { .. } | Expr::Name { .. } | Expr::Number { .. } | Expr::String { .. } => {
            ExpressionEnd::Plain
        }
        Expr::Boolean { .. } | Expr::Null { .. } | Expr::Array { .. } => ExpressionEnd::Plain,
        Expr::Object { .. } | Expr::Function { .. } | Expr::Parenthesized { .. } =>
            ExpressionEnd::Plain,
        Expr::Member { .. } | Expr::Index { .. } | Expr::Call { .. } => ExpressionEnd::Plain,
        Expr::Prefix { .. } => ExpressionEnd::Plain,
    }
}

/// What a declaration of these names ends in.
pub fn end_of(declarators: &Declarators) -> StatementEnd
    ensures { end_view result ≡ flat.end_of_declarators (declarators_view declarators.now) }
{
    match declarators.items.last() {
        Some(last) => match &last.initializer {
            Some(tree) => StatementEnd::Expression(edge_of(tree)),
            None => StatementEnd::Word,
        },
        None => StatementEnd::Word,
    }
}
