//! Primary expressions (ECMA-262, 13.2).

ghost use Rattle.std.specs.Prelude.{◌≡◌, ◌≤◌, ◌<◌, ◌+◌, Some, IfOk, true, List};
ghost use Rattle.js_tree.specs.Height.{height};
ghost use Rattle.js_tree.specs.Views.{expression_view};
ghost use Rattle.js_parser_readers.specs.Giving.{Gives};
ghost use Rattle.js_parser_readers.specs.Parsing as reading;
ghost use Rattle.js_parser_readers.specs.Parsing.{below};
ghost use Rattle.js_parser_readers.specs.Views.{tokens_view};
ghost use Rattle.js_parser_readers.specs.Classes.{bracket, brace, parenthesis, start};
ghost use Rattle.js_parser_descent.specs.Leaves.{leaf_by};
ghost use Rattle.js_parser_language.specs.Places.{expression_places, plain};
ghost use Rattle.js_parser_readers.specs.Placed.{Placed};
ghost use Rattle.js_parser_language.specs.Tokens.{head_of, IsNext, fixed};
ghost use Rattle.js_tree.specs.declared.node.Span.{Span};
ghost use Rattle.js_parser_language.specs.Flat.{a};
ghost use Rattle.js_lexer.specs.declared.token.TokenKind.TheVariants as kinds;

use crate::blocks::code_at;
use crate::expressions::expression_below;
use crate::limits::MOST_ROOM;
use crate::lists::arguments_before;
use crate::objects::properties_at;
use crate::parsed::ParsedPrimary;
use cdp_text::units::Units;
use js_lexer::strings::string_value;
use js_lexer::token::{Token, TokenKind};
use js_parser_language::expressions::{
    array, boolean, function, name, null, number, object, parenthesized, string, this,
};
use js_parser_readers::classes::expressions::{PrimaryStart, start_of};
use js_parser_readers::classes::lists::is_name_next;
use js_parser_readers::fault::ParseError;
use js_parser_readers::nodes::Nodes;
use js_parser_readers::token::{expect, tail};
use js_parser_readers::words::{name_at, single};

/// A PrimaryExpression.
#[cycle(parser)]
#[tactic(auto, unfolding(js_parser_readers::specs::Parsing::primary))]
pub fn primary_at<'t, 's>(
    nodes: &mut Nodes,
    room: u32,
    tokens: &'t [Token<'s>],
) -> ParsedPrimary<'t, 's>
    requires { room < MOST_ROOM }
    ensures gives { Gives (λ x. (expression_view x.0, tokens_view x.2.now)) result (reading.primary (below room) room (tokens_view tokens.now)) }
    ensures height { IfOk result (λ x. (x.1 ≡ height (expression_view x.0)) × (x.1 ≤ room + 1)) }
    ensures placed { IfOk result (λ x. Placed true nodes.old nodes.new (expression_places x.0) (tokens_view tokens.now) (tokens_view x.2.now)) }
{
    match start_of(tokens) {
        PrimaryStart::Bracket => array_at(nodes, room, tokens),
        PrimaryStart::Brace => object_at(nodes, room, tokens),
        PrimaryStart::Parenthesis => parenthesized_at(nodes, room, tokens),
        PrimaryStart::Function => function_at(nodes, room, tokens, tail(tokens)),
        PrimaryStart::This
        | PrimaryStart::Name(_)
        | PrimaryStart::Number(_)
        | PrimaryStart::String(_)
        | PrimaryStart::Boolean(_) => { leaf_at(nodes, tokens) }
        PrimaryStart::Null | PrimaryStart::Other => leaf_at(nodes, tokens),
    }
}

// A PrimaryExpression of one token.
fn leaf_at<'t, 's>(nodes: &mut Nodes, tokens: &'t [Token<'s>]) -> ParsedPrimary<'t, 's>
    ensures gives { Gives (λ x. (expression_view x.0, tokens_view x.2.now)) result (leaf_by (start (head_of (tokens_view tokens.now))) (tokens_view tokens.now)) }
    ensures height { IfOk result (λ x. (x.1 ≡ height (expression_view x.0)) × (x.1 ≡ 1)) }
    ensures placed { IfOk result (λ x. Placed true nodes.old nodes.new (expression_places x.0) (tokens_view tokens.now) (tokens_view x.2.now)) }
{
    match start_of(tokens) {
        PrimaryStart::This => {
            let (node, rest) = single(nodes, tokens)?;
            Ok((this(node), 1, rest))
        }
        PrimaryStart::Name(text) => {
            let (node, rest) = single(nodes, tokens)?;
            Ok((name(node, Units::from_slice(nodes.alloc(), text)?), 1, rest))
        }
        PrimaryStart::Number(value) => {
            let (node, rest) = single(nodes, tokens)?;
            Ok((number(node, value), 1, rest))
        }
        PrimaryStart::String(text) => {
            let (node, rest) = single(nodes, tokens)?;
            Ok((string(node, string_value(nodes.alloc(), text)?), 1, rest))
        }
        PrimaryStart::Boolean(value) => {
            let (node, rest) = single(nodes, tokens)?;
            Ok((boolean(node, value), 1, rest))
        }
        PrimaryStart::Null => {
            let (node, rest) = single(nodes, tokens)?;
            Ok((null(node), 1, rest))
        }
        PrimaryStart::Bracket
        | PrimaryStart::Brace
        | PrimaryStart::Parenthesis
        | PrimaryStart::Function
        | PrimaryStart::Other => { Err(ParseError::Syntax { left: tokens.len() }) }
    }
}

// A ParenthesizedExpression (13.2.9).
#[cycle(parser)]
fn parenthesized_at<'t, 's>(
    nodes: &mut Nodes,
    room: u32,
    tokens: &'t [Token<'s>],
) -> ParsedPrimary<'t, 's>
    requires { room < MOST_ROOM }
    ensures gives { Gives (λ x. (expression_view x.0, tokens_view x.2.now)) result (reading.primary_by (below room) room parenthesis (tokens_view tokens.now)) }
    ensures height { IfOk result (λ x. (x.1 ≡ height (expression_view x.0)) × (x.1 ≤ room + 1)) }
    ensures placed { IfOk result (λ x. Placed true nodes.old nodes.new (expression_places x.0) (tokens_view tokens.now) (tokens_view x.2.now)) }
{
    let rest = expect(TokenKind::LeftParenthesis, tokens)?;
    let (inner, height, rest) = expression_below(nodes, room, rest)?;
    let rest = expect(TokenKind::RightParenthesis, rest)?;
    let node = nodes.add(tokens, rest)?;
    let tree = parenthesized(node, inner);
    Ok((tree, height + 1, rest))
}

// An ArrayLiteral (13.2.4).
#[cycle(parser)]
fn array_at<'t, 's>(nodes: &mut Nodes, room: u32, tokens: &'t [Token<'s>]) -> ParsedPrimary<'t, 's>
    requires { room < MOST_ROOM }
    ensures gives { Gives (λ x. (expression_view x.0, tokens_view x.2.now)) result (reading.primary_by (below room) room bracket (tokens_view tokens.now)) }
    ensures height { IfOk result (λ x. (x.1 ≡ height (expression_view x.0)) × (x.1 ≤ room + 1)) }
    ensures placed { IfOk result (λ x. Placed true nodes.old nodes.new (expression_places x.0) (tokens_view tokens.now) (tokens_view x.2.now)) }
{
    let rest = expect(TokenKind::LeftBracket, tokens)?;
    let (elements, height, rest) = arguments_before(nodes, room, TokenKind::RightBracket, rest)?;
    let node = nodes.add(tokens, rest)?;
    Ok((array(node, elements), height + 1, rest))
}

// An ObjectLiteral (13.2.5).
#[cycle(parser)]
fn object_at<'t, 's>(nodes: &mut Nodes, room: u32, tokens: &'t [Token<'s>]) -> ParsedPrimary<'t, 's>
    requires { room < MOST_ROOM }
    ensures gives { Gives (λ x. (expression_view x.0, tokens_view x.2.now)) result (reading.primary_by (below room) room brace (tokens_view tokens.now)) }
    ensures height { IfOk result (λ x. (x.1 ≡ height (expression_view x.0)) × (x.1 ≤ room + 1)) }
    ensures placed { IsNext (fixed kinds.LeftBrace) (head_of (tokens_view tokens.now)) → IfOk result (λ x. Placed true nodes.old nodes.new (expression_places x.0) (tokens_view tokens.now) (tokens_view x.2.now)) }
{
    let (properties, height, rest) = properties_at(nodes, room, tail(tokens))?;
    let node = nodes.add(tokens, rest)?;
    Ok((object(node, properties), height + 1, rest))
}

/// A FunctionExpression (15.2) from the start, behind its keyword.
#[cycle(parser)]
#[tactic(auto, unfolding(js_parser_readers::specs::Parsing::function_at))]
pub fn function_at<'t, 's>(
    nodes: &mut Nodes,
    room: u32,
    start: &[Token<'s>],
    tokens: &'t [Token<'s>],
) -> ParsedPrimary<'t, 's>
    requires { room < MOST_ROOM }
    ensures gives { Gives (λ x. (expression_view x.0, tokens_view x.2.now)) result (reading.function_at (below room) (tokens_view tokens.now)) }
    ensures height { IfOk result (λ x. (x.1 ≡ height (expression_view x.0)) × (x.1 ≤ room + 1)) }
    ensures placed { (old : List Span) → Placed true old nodes.old (plain (a kinds.Function)) (tokens_view start.now) (tokens_view tokens.now) → IfOk result (λ x. Placed true old nodes.new (expression_places x.0) (tokens_view start.now) (tokens_view x.2.now)) }
{
    let (text, rest) = if is_name_next(tokens) {
        let (text, rest) = name_at(tokens)?;
        (Some(Units::from_slice(nodes.alloc(), text)?), rest)
    } else {
        (None, tokens)
    };
    let (code, height, rest) = code_at(nodes, room, rest)?;
    let node = nodes.add(start, rest)?;
    let tree = function(node, text, code.parameters, code.body);
    Ok((tree, height + 1, rest))
}
