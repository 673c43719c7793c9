//! Assignments, conditional expressions and comma lists (ECMA-262, 13.14 to 13.16).

ghost use Rattle.std.specs.Prelude.{◌≡◌, ◌≤◌, ◌<◌, ◌+◌, Some, List};
ghost use Rattle.js_tree.specs.Height.{height};
ghost use Rattle.js_tree.specs.Views.{expression_view};
ghost use Rattle.js_parser_readers.specs.Parsing as reading;
ghost use Rattle.js_parser_readers.specs.Parsing.{below};
ghost use Rattle.js_parser_readers.specs.Views.{tokens_view};
ghost use Rattle.js_parser_readers.specs.Classes.{question, assigns_by};
ghost use Rattle.std.specs.Prelude.{true};
ghost use Rattle.js_parser_language.specs.Places.{expression_places};
ghost use Rattle.js_parser_readers.specs.Placed.{Placed};
ghost use Rattle.js_tree.specs.declared.node.Span.{Span};
ghost use Rattle.js_parser_descent.specs.ReadTrees.{ReadsExpression, ExpressionWithin, ExpressionPlaced};

use crate::arrows::{arrow_of_list, arrow_of_one};
use crate::limits::MOST_ROOM;
use crate::lists::more_assignments;
use crate::operators::operation_at;
use crate::parsed::{Parsed, deeper};
use js_lexer::token::{Token, TokenKind};
use js_parser_language::expressions::{assign, comma, conditional};
use js_parser_language::parts::expressions_of;
use js_parser_readers::classes::arrows::{ArrowStart, arrow_head};
use js_parser_readers::classes::expressions::{Joint, joint_of};
use js_parser_readers::fault::ParseError;
use js_parser_readers::nodes::Nodes;
use js_parser_readers::targets::assignment_kind;
use js_parser_readers::token::{expect, is_next, tail};
use js_tree::targets::is_target;
use js_tree::tree::Expr;
use js_tree_operators::operator::AssignmentOperator;

/// An Expression, at most `room` high.
#[cycle(parser)]
#[tactic(auto, unfolding(js_parser_readers::specs::Parsing::below))]
pub fn expression_below<'t, 's>(
    nodes: &mut Nodes,
    room: u32,
    tokens: &'t [Token<'s>],
) -> Parsed<'t, 's>
    requires { room ≤ MOST_ROOM }
    ensures gives { ReadsExpression ((below room).expression (tokens_view tokens.now)) result }
    ensures height { ExpressionWithin room result }
    ensures placed { ExpressionPlaced nodes.old nodes.new (tokens_view tokens.now) result }
{
    if room == 0 {
        return Err(ParseError::TooDeep { left: tokens.len() });
    }
    expression_at(nodes, room - 1, tokens)
}

/// An AssignmentExpression, at most `room` high.
#[cycle(parser)]
#[tactic(auto, unfolding(js_parser_readers::specs::Parsing::below))]
pub fn assignment_below<'t, 's>(
    nodes: &mut Nodes,
    room: u32,
    tokens: &'t [Token<'s>],
) -> Parsed<'t, 's>
    requires { room ≤ MOST_ROOM }
    ensures gives { ReadsExpression ((below room).assignment (tokens_view tokens.now)) result }
    ensures height { ExpressionWithin room result }
    ensures placed { ExpressionPlaced nodes.old nodes.new (tokens_view tokens.now) result }
{
    if room == 0 {
        return Err(ParseError::TooDeep { left: tokens.len() });
    }
    assignment_at(nodes, room - 1, tokens)
}

/// An Expression (13.16).
#[cycle(parser)]
#[tactic(auto, unfolding(js_parser_readers::specs::Parsing::expression))]
pub fn expression_at<'t, 's>(
    nodes: &mut Nodes,
    room: u32,
    tokens: &'t [Token<'s>],
) -> Parsed<'t, 's>
    requires { room < MOST_ROOM }
    ensures gives { ReadsExpression (reading.expression (below room) room (tokens_view tokens.now)) result }
    ensures height { ExpressionWithin (room + 1) result }
    ensures placed { ExpressionPlaced nodes.old nodes.new (tokens_view tokens.now) result }
{
    let (first, height, rest) = assignment_at(nodes, room, tokens)?;
    if is_next(TokenKind::Comma, rest) {
        comma_at(nodes, room, first, height, tokens, rest)
    } else {
        Ok((first, height, rest))
    }
}

// A comma list whose first expression was read from the start.
#[cycle(parser)]
#[tactic(auto, unfolding(js_parser_readers::specs::Productions::more_assignments))]
fn comma_at<'t, 's>(
    nodes: &mut Nodes,
    room: u32,
    first: Box<Expr>,
    first_height: u32,
    start: &[Token<'s>],
    tokens: &'t [Token<'s>],
) -> Parsed<'t, 's>
    requires room { room < MOST_ROOM }
    requires height { first_height ≡ height (expression_view first.value) }
    requires low { first_height ≤ room + 1 }
    ensures gives { ReadsExpression (reading.comma_by (below room) room (expression_view first.value) true (tokens_view tokens.now)) result }
    ensures height { ExpressionWithin (room + 1) result }
    ensures placed { (old : List Span) → Placed true old nodes.old (expression_places first.value) (tokens_view start.now) (tokens_view tokens.now) → ExpressionPlaced old nodes.new (tokens_view start.now) result }
{
    if first_height > room {
        return Err(ParseError::TooDeep {
            left: tail(tokens).len(),
        });
    }
    let (mut items, height, rest) = more_assignments(nodes, room, tokens)?;
    items.insert(0, Box::into_inner(first))?;
    let node = nodes.add(start, rest)?;
    let tree = comma(nodes.alloc(), node, expressions_of(items))?;
    Ok((tree, deeper(first_height, height) + 1, rest))
}

/// An AssignmentExpression (13.15).
#[cycle(parser)]
#[tactic(auto, unfolding(js_parser_readers::specs::Parsing::assignment))]
pub fn assignment_at<'t, 's>(
    nodes: &mut Nodes,
    room: u32,
    tokens: &'t [Token<'s>],
) -> Parsed<'t, 's>
    requires { room < MOST_ROOM }
    ensures gives { ReadsExpression (reading.assignment (below room) room (tokens_view tokens.now)) result }
    ensures height { ExpressionWithin (room + 1) result }
    ensures placed { ExpressionPlaced nodes.old nodes.new (tokens_view tokens.now) result }
{
    match arrow_head(tokens) {
        Some(ArrowStart::Name) => arrow_of_one(nodes, room, tokens),
        Some(ArrowStart::List(only)) => arrow_of_list(nodes, room, only, tokens),
        None => {
            let (first, height, rest) = operation_at(nodes, room, 3, tokens)?;
            joined_at(nodes, room, first, height, tokens, rest)
        }
    }
}

// What goes on behind the operation that was read from the start.
#[cycle(parser)]
#[tactic(auto, unfolding(js_parser_readers::specs::Parsing::joined))]
fn joined_at<'t, 's>(
    nodes: &mut Nodes,
    room: u32,
    first: Box<Expr>,
    first_height: u32,
    start: &[Token<'s>],
    tokens: &'t [Token<'s>],
) -> Parsed<'t, 's>
    requires room { room < MOST_ROOM }
    requires height { first_height ≡ height (expression_view first.value) }
    requires low { first_height ≤ room + 1 }
    ensures gives { ReadsExpression (reading.joined (below room) room (expression_view first.value) (tokens_view tokens.now)) result }
    ensures height { ExpressionWithin (room + 1) result }
    ensures placed { (old : List Span) → Placed true old nodes.old (expression_places first.value) (tokens_view start.now) (tokens_view tokens.now) → ExpressionPlaced old nodes.new (tokens_view start.now) result }
{
    match joint_of(tokens) {
        Some(Joint::Question) => conditional_at(nodes, room, first, first_height, start, tokens),
        Some(Joint::Assigns(operator)) => {
            assigned_at(nodes, room, operator, first, first_height, start, tokens)
        }
        None => Ok((first, first_height, tokens)),
    }
}

// A ConditionalExpression (13.14) whose test was read from the start.
#[cycle(parser)]
fn conditional_at<'t, 's>(
    nodes: &mut Nodes,
    room: u32,
    first: Box<Expr>,
    first_height: u32,
    start: &[Token<'s>],
    tokens: &'t [Token<'s>],
) -> Parsed<'t, 's>
    requires room { room < MOST_ROOM }
    requires height { first_height ≡ height (expression_view first.value) }
    requires low { first_height ≤ room + 1 }
    ensures gives { ReadsExpression (reading.joined_by (below room) room (expression_view first.value) question (tokens_view tokens.now)) result }
    ensures height { ExpressionWithin (room + 1) result }
    ensures placed { (old : List Span) → Placed true old nodes.old (expression_places first.value) (tokens_view start.now) (tokens_view tokens.now) → ExpressionPlaced old nodes.new (tokens_view start.now) result }
{
    if first_height > room {
        return Err(ParseError::TooDeep {
            left: tail(tokens).len(),
        });
    }
    let rest = expect(TokenKind::Question, tokens)?;
    let (consequent, consequent_height, rest) = assignment_below(nodes, room, rest)?;
    let rest = expect(TokenKind::Colon, rest)?;
    let (alternate, alternate_height, rest) = assignment_below(nodes, room, rest)?;
    let node = nodes.add(start, rest)?;
    let tree = conditional(nodes.alloc(), node, first, consequent, alternate)?;
    let branches_height = deeper(consequent_height, alternate_height);
    Ok((tree, deeper(first_height, branches_height) + 1, rest))
}

// An assignment (13.15) whose target was read from the start.
#[cycle(parser)]
fn assigned_at<'t, 's>(
    nodes: &mut Nodes,
    room: u32,
    operator: AssignmentOperator,
    first: Box<Expr>,
    first_height: u32,
    start: &[Token<'s>],
    tokens: &'t [Token<'s>],
) -> Parsed<'t, 's>
    requires room { room < MOST_ROOM }
    requires height { first_height ≡ height (expression_view first.value) }
    requires low { first_height ≤ room + 1 }
    ensures gives { ReadsExpression (reading.joined_by (below room) room (expression_view first.value) (assigns_by operator) (tokens_view tokens.now)) result }
    ensures height { ExpressionWithin (room + 1) result }
    ensures placed { (old : List Span) → Placed true old nodes.old (expression_places first.value) (tokens_view start.now) (tokens_view tokens.now) → ExpressionPlaced old nodes.new (tokens_view start.now) result }
{
    if !is_target(&first) {
        return Err(ParseError::Syntax { left: tokens.len() });
    }
    if first_height > room {
        return Err(ParseError::TooDeep {
            left: tail(tokens).len(),
        });
    }
    let rest = expect(assignment_kind(operator), tokens)?;
    let (value, height, rest) = assignment_below(nodes, room, rest)?;
    let node = nodes.add(start, rest)?;
    let tree = assign(nodes.alloc(), node, operator, first, value)?;
    Ok((tree, deeper(first_height, height) + 1, rest))
}
