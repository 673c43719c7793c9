//! Operators, prefixes and postfixes (ECMA-262, 13.4 to 13.13).

ghost use Rattle.std.specs.Prelude.{◌≡◌, ◌≤◌, ◌<◌, ◌+◌, Some, true, List};
ghost use Rattle.js_tree.specs.Height.{height};
ghost use Rattle.js_tree.specs.Views.{expression_view};
ghost use Rattle.js_parser_readers.specs.Parsing as reading;
ghost use Rattle.js_parser_readers.specs.Parsing.{below};
ghost use Rattle.js_parser_readers.specs.Views.{tokens_view};
ghost use Rattle.js_parser_readers.specs.Classes.{operator, deletes, an_update};
ghost use Rattle.js_parser_language.specs.Tokens.{head_of, IsNext, fixed};
ghost use Rattle.js_parser_language.specs.Places.{expression_places};
ghost use Rattle.js_parser_readers.specs.Placed.{Placed};
ghost use Rattle.js_tree.specs.declared.node.Span.{Span};
ghost use Rattle.js_parser_language.specs.Flat.{update_kind};
ghost use Rattle.js_lexer.specs.declared.token.TokenKind.TheVariants as kinds;
ghost use Rattle.js_parser_descent.specs.ReadTrees.{ReadsExpression, ExpressionWithin, ExpressionPlaced};

use crate::calls::{call_at, call_below};
use crate::limits::MOST_ROOM;
use crate::parsed::{Parsed, deeper};
use js_lexer::token::Token;
use js_parser_language::expressions::{binary, postfix, prefix, unary};
use js_parser_readers::classes::expressions::{Prefix, operator_of, prefix_of, update_near};
use js_parser_readers::fault::ParseError;
use js_parser_readers::nodes::Nodes;
use js_parser_readers::targets::{above, is_property, strength};
use js_parser_readers::token::tail;
use js_tree::targets::is_target;
use js_tree::tree::Expr;
use js_tree_operators::operator::{BinaryOperator, UnaryOperator, UpdateOperator};

/// An operation of this strength at least, at most `room` high.
#[cycle(parser)]
#[tactic(auto, unfolding(js_parser_readers::specs::Parsing::below))]
pub fn operation_below<'t, 's>(
    nodes: &mut Nodes,
    room: u32,
    least: u32,
    tokens: &'t [Token<'s>],
) -> Parsed<'t, 's>
    requires { room ≤ MOST_ROOM }
    ensures gives { ReadsExpression ((below room).operation least (tokens_view tokens.now)) result }
    ensures height { ExpressionWithin room result }
    ensures placed { ExpressionPlaced nodes.old nodes.new (tokens_view tokens.now) result }
{
    if room == 0 {
        return Err(ParseError::TooDeep { left: tokens.len() });
    }
    operation_at(nodes, room - 1, least, tokens)
}

/// A UnaryExpression, at most `room` high.
#[cycle(parser)]
#[tactic(auto, unfolding(js_parser_readers::specs::Parsing::below))]
pub fn unary_below<'t, 's>(nodes: &mut Nodes, room: u32, tokens: &'t [Token<'s>]) -> Parsed<'t, 's>
    requires { room ≤ MOST_ROOM }
    ensures gives { ReadsExpression ((below room).unary (tokens_view tokens.now)) result }
    ensures height { ExpressionWithin room result }
    ensures placed { ExpressionPlaced nodes.old nodes.new (tokens_view tokens.now) result }
{
    if room == 0 {
        return Err(ParseError::TooDeep { left: tokens.len() });
    }
    unary_at(nodes, room - 1, tokens)
}

/// An operation of this strength at least.
#[cycle(parser)]
#[tactic(auto, unfolding(js_parser_readers::specs::Parsing::operation))]
pub fn operation_at<'t, 's>(
    nodes: &mut Nodes,
    room: u32,
    least: u32,
    tokens: &'t [Token<'s>],
) -> Parsed<'t, 's>
    requires { room < MOST_ROOM }
    ensures gives { ReadsExpression (reading.operation (below room) room least (tokens_view tokens.now)) result }
    ensures height { ExpressionWithin (room + 1) result }
    ensures placed { ExpressionPlaced nodes.old nodes.new (tokens_view tokens.now) result }
{
    let (left, left_height, rest) = unary_at(nodes, room, tokens)?;
    chain_at(
        nodes,
        room,
        least,
        room + 1,
        left,
        left_height,
        tokens,
        rest,
    )
}

// The next operator, if it binds at least so tightly.
fn operator_from(least: u32, tokens: &[Token<'_>]) -> Option<BinaryOperator>
    ensures { result ≡ reading.operator_from least (operator (head_of (tokens_view tokens.now))) }
{
    let operator = operator_of(tokens)?;
    if least <= strength(operator) {
        Some(operator)
    } else {
        None
    }
}

// Operators to the right of what was read from the start.
#[cycle(parser)]
#[tactic(auto, unfolding(js_parser_readers::specs::Parsing::chain))]
fn chain_at<'t, 's>(
    nodes: &mut Nodes,
    room: u32,
    least: u32,
    turns: u32,
    left: Box<Expr>,
    left_height: u32,
    start: &[Token<'s>],
    tokens: &'t [Token<'s>],
) -> Parsed<'t, 's>
    requires room { room < MOST_ROOM }
    requires few { turns ≤ room + 1 }
    requires height { left_height ≡ height (expression_view left.value) }
    requires low { left_height ≤ room + 1 }
    ensures gives { ReadsExpression (reading.chain (below room) room least turns (expression_view left.value) (tokens_view tokens.now)) result }
    ensures height { ExpressionWithin (room + 1) result }
    ensures placed { (old : List Span) → Placed true old nodes.old (expression_places left.value) (tokens_view start.now) (tokens_view tokens.now) → ExpressionPlaced old nodes.new (tokens_view start.now) result }
{
    if turns == 0 {
        return Err(ParseError::TooDeep { left: tokens.len() });
    }
    let Some(operator) = operator_from(least, tokens) else {
        return Ok((left, left_height, tokens));
    };
    if left_height > room {
        return Err(ParseError::TooDeep {
            left: tail(tokens).len(),
        });
    }
    let (right, right_height, rest) = operation_below(nodes, room, above(operator), tail(tokens))?;
    let node = nodes.add(start, rest)?;
    let joined = binary(nodes.alloc(), node, operator, left, right)?;
    let joined_height = deeper(left_height, right_height) + 1;
    chain_at(
        nodes,
        room,
        least,
        turns - 1,
        joined,
        joined_height,
        start,
        rest,
    )
}

/// A UnaryExpression (13.5).
#[cycle(parser)]
#[tactic(auto, unfolding(js_parser_readers::specs::Parsing::unary))]
pub fn unary_at<'t, 's>(nodes: &mut Nodes, room: u32, tokens: &'t [Token<'s>]) -> Parsed<'t, 's>
    requires { room < MOST_ROOM }
    ensures gives { ReadsExpression (reading.unary (below room) room (tokens_view tokens.now)) result }
    ensures height { ExpressionWithin (room + 1) result }
    ensures placed { ExpressionPlaced nodes.old nodes.new (tokens_view tokens.now) result }
{
    match prefix_of(tokens) {
        Some(Prefix::Delete) => deleted_at(nodes, room, tokens),
        Some(Prefix::Unary(operator)) => {
            let (operand, height, rest) = unary_below(nodes, room, tail(tokens))?;
            let node = nodes.add(tokens, rest)?;
            let tree = unary(nodes.alloc(), node, operator, operand)?;
            Ok((tree, height + 1, rest))
        }
        Some(Prefix::Update(operator)) => updated_at(nodes, room, operator, tokens),
        None => postfix_at(nodes, room, tokens),
    }
}

// `delete` with its property.
#[cycle(parser)]
fn deleted_at<'t, 's>(nodes: &mut Nodes, room: u32, tokens: &'t [Token<'s>]) -> Parsed<'t, 's>
    requires { room < MOST_ROOM }
    ensures gives { ReadsExpression (reading.unary_by (below room) room deletes (tokens_view tokens.now)) result }
    ensures height { ExpressionWithin (room + 1) result }
    ensures placed { IsNext (fixed kinds.Delete) (head_of (tokens_view tokens.now)) → ExpressionPlaced nodes.old nodes.new (tokens_view tokens.now) result }
{
    let (operand, height, rest) = call_below(nodes, room, tail(tokens))?;
    if !is_property(&operand) {
        return Err(ParseError::Syntax { left: rest.len() });
    }
    let node = nodes.add(tokens, rest)?;
    let tree = unary(nodes.alloc(), node, UnaryOperator::Delete, operand)?;
    Ok((tree, height + 1, rest))
}

// `++` or `--` before its target.
#[cycle(parser)]
fn updated_at<'t, 's>(
    nodes: &mut Nodes,
    room: u32,
    operator: UpdateOperator,
    tokens: &'t [Token<'s>],
) -> Parsed<'t, 's>
    requires { room < MOST_ROOM }
    ensures gives { ReadsExpression (reading.unary_by (below room) room (an_update operator) (tokens_view tokens.now)) result }
    ensures height { ExpressionWithin (room + 1) result }
    ensures placed { IsNext (fixed (update_kind operator)) (head_of (tokens_view tokens.now)) → ExpressionPlaced nodes.old nodes.new (tokens_view tokens.now) result }
{
    let (operand, height, rest) = call_below(nodes, room, tail(tokens))?;
    if !is_target(&operand) {
        return Err(ParseError::Syntax { left: rest.len() });
    }
    let node = nodes.add(tokens, rest)?;
    let tree = prefix(nodes.alloc(), node, operator, operand)?;
    Ok((tree, height + 1, rest))
}

// An UpdateExpression without prefix (13.4).
#[cycle(parser)]
#[tactic(auto, unfolding(js_parser_readers::specs::Parsing::postfix))]
fn postfix_at<'t, 's>(nodes: &mut Nodes, room: u32, tokens: &'t [Token<'s>]) -> Parsed<'t, 's>
    requires { room < MOST_ROOM }
    ensures gives { ReadsExpression (reading.postfix (below room) room (tokens_view tokens.now)) result }
    ensures height { ExpressionWithin (room + 1) result }
    ensures placed { ExpressionPlaced nodes.old nodes.new (tokens_view tokens.now) result }
{
    let (operand, height, rest) = call_at(nodes, room, tokens)?;
    let Some(operator) = update_near(rest) else {
        return Ok((operand, height, rest));
    };
    if !is_target(&operand) {
        return Err(ParseError::Syntax { left: rest.len() });
    }
    if height > room {
        return Err(ParseError::TooDeep {
            left: tail(rest).len(),
        });
    }
    let after = tail(rest);
    let node = nodes.add(tokens, after)?;
    let tree = postfix(nodes.alloc(), node, operator, operand)?;
    Ok((tree, height + 1, after))
}
