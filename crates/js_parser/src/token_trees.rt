//! Trees that all tokens of a source make up.

ghost use Rattle.std.specs.Prelude.{◌≡◌, IfOk, [], length, All};
ghost use Rattle.js_tree.specs.Height.{height, height_of_statements};
ghost use Rattle.js_tree.specs.Views.{expression_view, statements_view};
ghost use Rattle.js_parser_readers.specs.Giving.{Gives};
ghost use Rattle.js_parser_readers.specs.Parsing.{parse_expression, parse_function, parse_script};
ghost use Rattle.js_parser_readers.specs.Views.{tokens_view};
ghost use Rattle.js_parser_readers.specs.Placed.{AreInOrder, AreNumbered, IsForward};
ghost use Rattle.js_parser_language.specs.Places.{AreSpans, expression_places, statements_places};

use crate::functions::function_code_at;
use js_lexer::token::Token;
use js_parser_descent::blocks::items_at;
use js_parser_descent::expressions::expression_below;
use js_parser_descent::limits::MOST_ROOM;
use js_parser_readers::context::StatementContext;
use js_parser_readers::fault::ParseError;
use js_parser_readers::name_set::NameSet;
use js_parser_readers::nodes::Nodes;
use js_tree::tree::{Expr, Stmts};

/// The expression that the tokens are, with its height.
#[tactic(auto, unfolding(js_parser_readers::specs::Parsing::parse_expression))]
pub fn expression_of(nodes: &mut Nodes, tokens: &[Token<'_>]) -> Result<(Expr, u32), ParseError>
    ensures gives { Gives (λ x. expression_view x.0) result (parse_expression MOST_ROOM (tokens_view tokens.now)) }
    ensures height { IfOk result (λ x. x.1 ≡ height (expression_view x.0)) }
    ensures placed { IfOk result (λ x. AreSpans nodes.new (expression_places x.0) 0 (tokens_view tokens.now) []) }
    ensures forward { IfOk result (λ x. AreInOrder (tokens_view tokens.now) → All IsForward nodes.old → All IsForward nodes.new) }
    ensures numbers { IfOk result (λ x. AreNumbered (length nodes.old) (expression_places x.0) (length nodes.new)) }
{
    let (tree, height, rest) = expression_below(nodes, MOST_ROOM, tokens)?;
    if !rest.is_empty() {
        return Err(ParseError::Syntax { left: rest.len() });
    }
    Ok((Box::into_inner(tree), height))
}

/// The function expression or arrow function that the tokens are, with its height.
#[tactic(auto, unfolding(js_parser_readers::specs::Parsing::parse_function))]
pub fn function_of(nodes: &mut Nodes, tokens: &[Token<'_>]) -> Result<(Expr, u32), ParseError>
    ensures gives { Gives (λ x. expression_view x.0) result (parse_function MOST_ROOM (tokens_view tokens.now)) }
    ensures height { IfOk result (λ x. x.1 ≡ height (expression_view x.0)) }
    ensures placed { IfOk result (λ x. AreSpans nodes.new (expression_places x.0) 0 (tokens_view tokens.now) []) }
    ensures forward { IfOk result (λ x. AreInOrder (tokens_view tokens.now) → All IsForward nodes.old → All IsForward nodes.new) }
    ensures numbers { IfOk result (λ x. AreNumbered (length nodes.old) (expression_places x.0) (length nodes.new)) }
{
    let (tree, height, rest) = function_code_at(nodes, MOST_ROOM - 1, tokens)?;
    if !rest.is_empty() {
        return Err(ParseError::Syntax { left: rest.len() });
    }
    Ok((Box::into_inner(tree), height))
}

/// The statements of the script that the tokens are, behind scripts that declare these names, with their height.
#[tactic(auto, unfolding(js_parser_readers::specs::Parsing::parse_script))]
pub fn script_of<'s>(
    nodes: &mut Nodes,
    names: NameSet<'s>,
    tokens: &[Token<'s>],
) -> Result<(Stmts, u32), ParseError>
    ensures gives { Gives (λ x. statements_view x.0) result (parse_script MOST_ROOM names.entry (tokens_view tokens.now)) }
    ensures height { IfOk result (λ x. x.1 ≡ height_of_statements (statements_view x.0)) }
    ensures placed { IfOk result (λ x. AreSpans nodes.new (statements_places x.0) 0 (tokens_view tokens.now) []) }
    ensures forward { IfOk result (λ x. AreInOrder (tokens_view tokens.now) → All IsForward nodes.old → All IsForward nodes.new) }
    ensures numbers { IfOk result (λ x. AreNumbered (length nodes.old) (statements_places x.0) (length nodes.new)) }
{
    let (body, height, rest) = items_at(nodes, MOST_ROOM, StatementContext::top(), names, tokens)?;
    if !rest.is_empty() {
        return Err(ParseError::Syntax { left: rest.len() });
    }
    Ok((body, height))
}
