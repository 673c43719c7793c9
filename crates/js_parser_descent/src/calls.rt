//! Members and calls (ECMA-262, 13.3).

ghost use Rattle.std.specs.Prelude.{◌≡◌, ◌≤◌, ◌<◌, ◌+◌, Some, true, List};
ghost use Rattle.js_tree.specs.Height.{height};
ghost use Rattle.js_tree.specs.Views.{expression_view};
ghost use Rattle.js_parser_readers.specs.Parsing as reading;
ghost use Rattle.js_parser_readers.specs.Parsing.{below};
ghost use Rattle.js_parser_readers.specs.Views.{tokens_view};
ghost use Rattle.js_parser_readers.specs.Classes.{key};
ghost use Rattle.js_parser_readers.specs.Classes as classes;
ghost use Rattle.js_parser_readers.specs.Heads.{link_view};
ghost use Rattle.js_parser_language.specs.Places.{expression_places};
ghost use Rattle.js_parser_readers.specs.Placed.{Placed};
ghost use Rattle.js_tree.specs.declared.node.Span.{Span};
ghost use Rattle.js_parser_language.specs.Tokens.{head_of};
ghost use Rattle.js_parser_descent.specs.ReadTrees.{ReadsExpression, ExpressionWithin, ExpressionPlaced};

use crate::expressions::expression_below;
use crate::limits::MOST_ROOM;
use crate::lists::arguments_before;
use crate::parsed::{Parsed, deeper};
use crate::primaries::primary_at;
use cdp_text::units::Units;
use js_lexer::token::{Token, TokenKind};
use js_parser_language::boxes::boxed;
use js_parser_language::expressions::{call, index, member};
use js_parser_readers::classes::expressions::{CallTail, link_of};
use js_parser_readers::fault::ParseError;
use js_parser_readers::nodes::Nodes;
use js_parser_readers::token::{expect, tail};
use js_parser_readers::words::word_at;
use js_tree::tree::Expr;

/// A CallExpression or a MemberExpression, at most `room` high.
#[cycle(parser)]
#[tactic(auto, unfolding(js_parser_readers::specs::Parsing::below))]
pub fn call_below<'t, 's>(nodes: &mut Nodes, room: u32, tokens: &'t [Token<'s>]) -> Parsed<'t, 's>
    requires { room ≤ MOST_ROOM }
    ensures gives { ReadsExpression ((below room).call (tokens_view tokens.now)) result }
    ensures height { ExpressionWithin room result }
    ensures placed { ExpressionPlaced nodes.old nodes.new (tokens_view tokens.now) result }
{
    if room == 0 {
        return Err(ParseError::TooDeep { left: tokens.len() });
    }
    call_at(nodes, room - 1, tokens)
}

/// A CallExpression or a MemberExpression.
#[cycle(parser)]
#[tactic(auto, unfolding(js_parser_readers::specs::Parsing::call))]
pub fn call_at<'t, 's>(nodes: &mut Nodes, room: u32, tokens: &'t [Token<'s>]) -> Parsed<'t, 's>
    requires { room < MOST_ROOM }
    ensures gives { ReadsExpression (reading.call (below room) room (tokens_view tokens.now)) result }
    ensures height { ExpressionWithin (room + 1) result }
    ensures placed { ExpressionPlaced nodes.old nodes.new (tokens_view tokens.now) result }
{
    let (callee, height, rest) = primary_at(nodes, room, tokens)?;
    let callee = boxed(nodes.alloc(), callee)?;
    links_at(nodes, room, room + 1, callee, height, tokens, rest)
}

// Members and calls of what was read from the start.
#[cycle(parser)]
#[tactic(auto, unfolding(js_parser_readers::specs::Parsing::links))]
fn links_at<'t, 's>(
    nodes: &mut Nodes,
    room: u32,
    turns: u32,
    object: Box<Expr>,
    object_height: u32,
    start: &[Token<'s>],
    tokens: &'t [Token<'s>],
) -> Parsed<'t, 's>
    requires room { room < MOST_ROOM }
    requires few { turns ≤ room + 1 }
    requires height { object_height ≡ height (expression_view object.value) }
    requires low { object_height ≤ room + 1 }
    ensures gives { ReadsExpression (reading.links (below room) room turns (expression_view object.value) (tokens_view tokens.now)) result }
    ensures height { ExpressionWithin (room + 1) result }
    ensures placed { (old : List Span) → Placed true old nodes.old (expression_places object.value) (tokens_view start.now) (tokens_view tokens.now) → ExpressionPlaced old nodes.new (tokens_view start.now) result }
{
    if turns == 0 {
        return Err(ParseError::TooDeep { left: tokens.len() });
    }
    let Some(link) = link_of(tokens) else {
        return Ok((object, object_height, tokens));
    };
    if object_height > room {
        return Err(ParseError::TooDeep {
            left: tail(tokens).len(),
        });
    }
    let (tree, height, rest) = linked_at(nodes, room, link, object, object_height, start, tokens)?;
    links_at(nodes, room, turns - 1, tree, height, start, rest)
}

// One member or call of what was read from the start.
#[cycle(parser)]
fn linked_at<'t, 's>(
    nodes: &mut Nodes,
    room: u32,
    link: CallTail,
    object: Box<Expr>,
    object_height: u32,
    start: &[Token<'s>],
    tokens: &'t [Token<'s>],
) -> Parsed<'t, 's>
    requires room { room < MOST_ROOM }
    requires height { object_height ≡ height (expression_view object.value) }
    requires low { object_height ≤ room }
    ensures gives { ReadsExpression (reading.linked_by (below room) (expression_view object.value) (link_view (Some link)) (tokens_view tokens.now)) result }
    ensures height { ExpressionWithin (room + 1) result }
    ensures placed { (old : List Span) → link_view (Some link) ≡ classes.link (head_of (tokens_view tokens.now)) → Placed true old nodes.old (expression_places object.value) (tokens_view start.now) (tokens_view tokens.now) → ExpressionPlaced old nodes.new (tokens_view start.now) result }
{
    match link {
        CallTail::Dot => {
            let (text, rest) = word_at(tail(tokens))?;
            let node = nodes.add(start, rest)?;
            let name = Units::from_slice(nodes.alloc(), text)?;
            let tree = member(nodes.alloc(), node, object, name)?;
            Ok((tree, object_height + 1, rest))
        }
        CallTail::Key => indexed_at(nodes, room, object, object_height, start, tokens),
        CallTail::Arguments => called_at(nodes, room, object, object_height, start, tokens),
    }
}

// The key of a member of what was read from the start.
#[cycle(parser)]
fn indexed_at<'t, 's>(
    nodes: &mut Nodes,
    room: u32,
    object: Box<Expr>,
    object_height: u32,
    start: &[Token<'s>],
    tokens: &'t [Token<'s>],
) -> Parsed<'t, 's>
    requires room { room < MOST_ROOM }
    requires height { object_height ≡ height (expression_view object.value) }
    requires low { object_height ≤ room }
    ensures gives { ReadsExpression (reading.linked_by (below room) (expression_view object.value) key (tokens_view tokens.now)) result }
    ensures height { ExpressionWithin (room + 1) result }
    ensures placed { (old : List Span) → Placed true old nodes.old (expression_places object.value) (tokens_view start.now) (tokens_view tokens.now) → ExpressionPlaced old nodes.new (tokens_view start.now) result }
{
    let rest = expect(TokenKind::LeftBracket, tokens)?;
    let (key, key_height, rest) = expression_below(nodes, room, rest)?;
    let rest = expect(TokenKind::RightBracket, rest)?;
    let node = nodes.add(start, rest)?;
    let tree = index(nodes.alloc(), node, object, key)?;
    Ok((tree, deeper(object_height, key_height) + 1, rest))
}

// The arguments of a call of what was read from the start.
#[cycle(parser)]
fn called_at<'t, 's>(
    nodes: &mut Nodes,
    room: u32,
    object: Box<Expr>,
    object_height: u32,
    start: &[Token<'s>],
    tokens: &'t [Token<'s>],
) -> Parsed<'t, 's>
    requires room { room < MOST_ROOM }
    requires height { object_height ≡ height (expression_view object.value) }
    requires low { object_height ≤ room }
    ensures gives { ReadsExpression (reading.linked_by (below room) (expression_view object.value) classes.arguments (tokens_view tokens.now)) result }
    ensures height { ExpressionWithin (room + 1) result }
    ensures placed { (old : List Span) → Placed true old nodes.old (expression_places object.value) (tokens_view start.now) (tokens_view tokens.now) → ExpressionPlaced old nodes.new (tokens_view start.now) result }
{
    let rest = expect(TokenKind::LeftParenthesis, tokens)?;
    let (arguments, height, rest) = arguments_before(
        nodes,
        room,
        TokenKind::RightParenthesis,
        rest,
    )?;
    let parentheses = nodes.add(tokens, rest)?;
    let node = nodes.add(start, rest)?;
    let tree = call(nodes.alloc(), node, object, parentheses, arguments)?;
    Ok((tree, deeper(object_height, height) + 1, rest))
}
