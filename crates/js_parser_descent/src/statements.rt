//! Statements (ECMA-262, 14).

ghost use Rattle.std.specs.Prelude.{◌≡◌, ◌≤◌, ◌<◌, ◌+◌, ◌∷◌, [], ℕ, IfOk, true};
ghost use Rattle.js_tree.specs.Height.{height, height_of_optional, height_of_statement};
ghost use Rattle.js_parser_language.specs.Tokens.{head_of, is_on_line, tail_of};
ghost use Rattle.js_tree.specs.Trees as trees;
ghost use Rattle.js_tree.specs.Views.{optional_view, statement_view};
ghost use Rattle.js_parser_language.specs.Well as well;
ghost use Rattle.js_parser_readers.specs.Classes as classes;
ghost use Rattle.js_parser_readers.specs.Giving.{Gives};
ghost use Rattle.js_parser_readers.specs.Parsing as reading;
ghost use Rattle.js_parser_readers.specs.Parsing.{below};
ghost use Rattle.js_parser_readers.specs.Productions as productions;
ghost use Rattle.js_parser_readers.specs.Views.{tokens_view};
ghost use Rattle.js_parser_readers.specs.Context.{context_view};
ghost use Rattle.js_parser_language.specs.Boxes.{unboxed};
ghost use Rattle.js_parser_language.specs.Places.{statement_places, in_turn, may_stand, expression_places, plain, optional_places};
ghost use Rattle.js_parser_readers.specs.Placed.{Placed};
ghost use Rattle.js_parser_language.specs.Flat.{a};
ghost use Rattle.js_lexer.specs.declared.token.TokenKind.TheVariants as kinds;
ghost use Rattle.js_parser_descent.specs.ReadTrees.{ReadsExpression, ExpressionWithin, ReadsStatement, StatementWithin, StatementPlaced};

use crate::blocks::braces_at;
use crate::exceptions::try_at;
use crate::expressions::expression_below;
use crate::limits::MOST_ROOM;
use crate::loops::{do_at, for_at, while_at};
use crate::parsed::{Parsed, ParsedOptional, ParsedStatement, ParsedSubstatement, deeper};
use js_lexer::token::{Token, TokenKind};
use js_parser_language::boxes::boxed;
use js_parser_language::parts::block;
use js_parser_language::statements::{
    block_statement, break_statement, continue_statement, debugger_statement, empty_statement,
    expression_statement, if_else_statement, if_statement, return_statement, throw_statement,
};
use js_parser_readers::classes::statements::{StatementEnd, StatementStart, ends_return, first_of};
use js_parser_readers::context::StatementContext;
use js_parser_readers::endings::{edge_of, semicolon_at};
use js_parser_readers::fault::ParseError;
use js_parser_readers::name_set::NameSet;
use js_parser_readers::nodes::Nodes;
use js_parser_readers::token::{expect, is_next, is_on_line, tail};
use js_parser_readers::words::single;

/// A statement that declares nothing, at most `room` high.
#[cycle(parser)]
#[tactic(auto, unfolding(js_parser_readers::specs::Parsing::below))]
pub fn statement_below<'t, 's>(
    nodes: &mut Nodes,
    room: u32,
    context: StatementContext,
    tokens: &'t [Token<'s>],
) -> ParsedSubstatement<'t, 's>
    requires { room ≤ MOST_ROOM }
    ensures gives { Gives (λ x. (statement_view x.0.value, tokens_view x.2.now)) result ((below room).statement (context_view context) (tokens_view tokens.now)) }
    ensures height { IfOk result (λ x. (x.1 ≡ height_of_statement (statement_view x.0.value)) × (x.1 ≤ room)) }
    ensures placed { IfOk result (λ x. Placed true nodes.old nodes.new (statement_places x.0.value) (tokens_view tokens.now) (tokens_view x.2.now)) }
{
    if room == 0 {
        return Err(ParseError::TooDeep { left: tokens.len() });
    }
    let (tree, height, rest) = statement_at(nodes, room - 1, context, tokens)?;
    Ok((boxed(nodes.alloc(), tree)?, height, rest))
}

/// A statement that declares nothing.
#[cycle(parser)]
#[tactic(auto, unfolding(js_parser_readers::specs::Parsing::statement))]
pub fn statement_at<'t, 's>(
    nodes: &mut Nodes,
    room: u32,
    context: StatementContext,
    tokens: &'t [Token<'s>],
) -> ParsedStatement<'t, 's>
    requires { room < MOST_ROOM }
    ensures gives { ReadsStatement (reading.statement (below room) (context_view context) (tokens_view tokens.now)) result }
    ensures height { StatementWithin (room + 1) result }
    ensures placed { StatementPlaced nodes.old nodes.new (tokens_view tokens.now) result }
{
    match first_of(tokens) {
        StatementStart::Block => block_at(nodes, room, context, tokens),
        StatementStart::Semicolon => {
            let (node, rest) = single(nodes, tokens)?;
            Ok((empty_statement(node), 1, rest))
        }
        StatementStart::If => if_at(nodes, room, context, tokens),
        StatementStart::Do => do_at(nodes, room, context, tokens),
        StatementStart::While => while_at(nodes, room, context, tokens),
        StatementStart::For => for_at(nodes, room, context, tokens),
        StatementStart::Continue => continue_at(nodes, context, tokens),
        StatementStart::Break => break_at(nodes, context, tokens),
        StatementStart::Return => return_at(nodes, room, context, tokens),
        StatementStart::Throw => throw_at(nodes, room, tokens),
        StatementStart::Try => try_at(nodes, room, context, tokens),
        StatementStart::Debugger => debugger_at(nodes, tokens),
        StatementStart::Expression => expression_statement_at(nodes, room, tokens),
        StatementStart::Lexical { .. } | StatementStart::Function => Err(ParseError::Syntax {
            left: tokens.len(),
        }),
    }
}

// A block (14.2).
#[cycle(parser)]
fn block_at<'t, 's>(
    nodes: &mut Nodes,
    room: u32,
    context: StatementContext,
    tokens: &'t [Token<'s>],
) -> ParsedStatement<'t, 's>
    requires { room < MOST_ROOM }
    ensures gives { ReadsStatement (reading.statement_by (below room) (context_view context) classes.a_block (tokens_view tokens.now)) result }
    ensures height { StatementWithin (room + 1) result }
    ensures placed { StatementPlaced nodes.old nodes.new (tokens_view tokens.now) result }
{
    let names = NameSet::new(nodes.alloc());
    let (body, height, rest) = braces_at(nodes, room, context, names, tokens)?;
    let node = nodes.add(tokens, rest)?;
    Ok((block_statement(block(node, body)), height + 1, rest))
}

// An expression with the semicolon of its statement.
#[cycle(parser)]
#[tactic(auto, unfolding(js_parser_readers::specs::Productions::ended_expression))]
fn ended_expression<'t, 's>(nodes: &mut Nodes, room: u32, tokens: &'t [Token<'s>]) -> Parsed<'t, 's>
    requires { room < MOST_ROOM }
    ensures gives { ReadsExpression (productions.ended_expression (below room) (tokens_view tokens.now)) result }
    ensures height { ExpressionWithin room result }
    ensures placed { IfOk result (λ x. Placed true nodes.old nodes.new (in_turn (expression_places x.0.value ∷ may_stand kinds.Semicolon ∷ [])) (tokens_view tokens.now) (tokens_view x.2.now)) }
{
    let (tree, height, rest) = expression_below(nodes, room, tokens)?;
    let rest = semicolon_at(StatementEnd::Expression(edge_of(&tree)), rest)?;
    Ok((tree, height, rest))
}

/// An expression or nothing, and the token behind it.
#[cycle(parser)]
#[tactic(auto, unfolding(js_parser_readers::specs::Productions::optional_before))]
pub fn optional_before<'t, 's>(
    nodes: &mut Nodes,
    room: u32,
    closer: TokenKind,
    tokens: &'t [Token<'s>],
) -> ParsedOptional<'t, 's>
    requires { room < MOST_ROOM }
    ensures gives { Gives (λ x. (optional_view (unboxed x.0), tokens_view x.2.now)) result (productions.optional_before (below room) closer (tokens_view tokens.now)) }
    ensures height { IfOk result (λ x. (x.1 ≡ height_of_optional (optional_view (unboxed x.0))) × (x.1 ≤ room)) }
    ensures placed { IfOk result (λ x. Placed true nodes.old nodes.new (in_turn (optional_places (unboxed x.0) ∷ plain (a closer) ∷ [])) (tokens_view tokens.now) (tokens_view x.2.now)) }
{
    if is_next(closer, tokens) {
        return Ok((None, 0, tail(tokens)));
    }
    let (tree, height, rest) = expression_below(nodes, room, tokens)?;
    let rest = expect(closer, rest)?;
    Ok((Some(tree), height, rest))
}

// An expression as a statement (14.5).
#[cycle(parser)]
fn expression_statement_at<'t, 's>(
    nodes: &mut Nodes,
    room: u32,
    tokens: &'t [Token<'s>],
) -> ParsedStatement<'t, 's>
    requires { room < MOST_ROOM }
    ensures gives { ReadsStatement (productions.made (below room) (productions.ended ∷ []) (λ v. trees.expression v.0) (tokens_view tokens.now)) result }
    ensures height { StatementWithin (room + 1) result }
    ensures placed { StatementPlaced nodes.old nodes.new (tokens_view tokens.now) result }
{
    let (tree, height, rest) = ended_expression(nodes, room, tokens)?;
    let node = nodes.add(tokens, rest)?;
    Ok((expression_statement(node, tree), height + 1, rest))
}

// `if` (14.6).
#[cycle(parser)]
#[tactic(auto, unfolding(js_parser_readers::specs::Parsing::if_at))]
fn if_at<'t, 's>(
    nodes: &mut Nodes,
    room: u32,
    context: StatementContext,
    tokens: &'t [Token<'s>],
) -> ParsedStatement<'t, 's>
    requires { room < MOST_ROOM }
    ensures gives { ReadsStatement (reading.if_at (below room) (context_view context) (tokens_view tokens.now)) result }
    ensures height { StatementWithin (room + 1) result }
    ensures placed { StatementPlaced nodes.old nodes.new (tokens_view tokens.now) result }
{
    let rest = expect(TokenKind::If, tokens)?;
    let rest = expect(TokenKind::LeftParenthesis, rest)?;
    let (test, test_height, rest) = expression_below(nodes, room, rest)?;
    let rest = expect(TokenKind::RightParenthesis, rest)?;
    let (consequent, consequent_height, rest) = statement_below(nodes, room, context, rest)?;
    if is_next(TokenKind::Else, rest) {
        let (alternate, alternate_height, rest) = statement_below(
            nodes,
            room,
            context,
            tail(rest),
        )?;
        let node = nodes.add(tokens, rest)?;
        let branches = deeper(consequent_height, alternate_height);
        let tree = if_else_statement(node, test, consequent, alternate);
        return Ok((tree, deeper(test_height, branches) + 1, rest));
    }
    let node = nodes.add(tokens, rest)?;
    let tree = if_statement(node, test, consequent);
    Ok((tree, deeper(test_height, consequent_height) + 1, rest))
}

// `continue` (14.8).
fn continue_at<'t, 's>(
    nodes: &mut Nodes,
    context: StatementContext,
    tokens: &'t [Token<'s>],
) -> ParsedStatement<'t, 's>
    ensures gives { (room : ℕ) → ReadsStatement (reading.statement_by (below room) (context_view context) classes.a_continue (tokens_view tokens.now)) result }
    ensures height { IfOk result (λ x. (x.1 ≡ height_of_statement (statement_view x.0)) × (x.1 ≡ 1)) }
    ensures placed { StatementPlaced nodes.old nodes.new (tokens_view tokens.now) result }
{
    if !context.in_loop {
        return Err(ParseError::Syntax { left: tokens.len() });
    }
    let rest = expect(TokenKind::Continue, tokens)?;
    let rest = semicolon_at(StatementEnd::Word, rest)?;
    let node = nodes.add(tokens, rest)?;
    Ok((continue_statement(node), 1, rest))
}

// `break` (14.9).
fn break_at<'t, 's>(
    nodes: &mut Nodes,
    context: StatementContext,
    tokens: &'t [Token<'s>],
) -> ParsedStatement<'t, 's>
    ensures gives { (room : ℕ) → ReadsStatement (reading.statement_by (below room) (context_view context) classes.a_break (tokens_view tokens.now)) result }
    ensures height { IfOk result (λ x. (x.1 ≡ height_of_statement (statement_view x.0)) × (x.1 ≡ 1)) }
    ensures placed { StatementPlaced nodes.old nodes.new (tokens_view tokens.now) result }
{
    if !context.in_loop {
        return Err(ParseError::Syntax { left: tokens.len() });
    }
    let rest = expect(TokenKind::Break, tokens)?;
    let rest = semicolon_at(StatementEnd::Word, rest)?;
    let node = nodes.add(tokens, rest)?;
    Ok((break_statement(node), 1, rest))
}

// `debugger` (14.16).
fn debugger_at<'t, 's>(nodes: &mut Nodes, tokens: &'t [Token<'s>]) -> ParsedStatement<'t, 's>
    ensures gives { (room : ℕ) (context : well.StatementContext) → ReadsStatement (reading.statement_by (below room) context classes.a_debugger (tokens_view tokens.now)) result }
    ensures height { IfOk result (λ x. (x.1 ≡ height_of_statement (statement_view x.0)) × (x.1 ≡ 1)) }
    ensures placed { StatementPlaced nodes.old nodes.new (tokens_view tokens.now) result }
{
    let rest = expect(TokenKind::Debugger, tokens)?;
    let rest = semicolon_at(StatementEnd::Word, rest)?;
    let node = nodes.add(tokens, rest)?;
    Ok((debugger_statement(node), 1, rest))
}

// `return` (14.10).
#[cycle(parser)]
fn return_at<'t, 's>(
    nodes: &mut Nodes,
    room: u32,
    context: StatementContext,
    tokens: &'t [Token<'s>],
) -> ParsedStatement<'t, 's>
    requires { room < MOST_ROOM }
    ensures gives { ReadsStatement (reading.statement_by (below room) (context_view context) classes.a_return (tokens_view tokens.now)) result }
    ensures height { StatementWithin (room + 1) result }
    ensures placed { StatementPlaced nodes.old nodes.new (tokens_view tokens.now) result }
{
    if !context.in_function {
        return Err(ParseError::Syntax { left: tokens.len() });
    }
    let rest = expect(TokenKind::Return, tokens)?;
    if ends_return(tail(tokens)) {
        let rest = semicolon_at(StatementEnd::Word, rest)?;
        let node = nodes.add(tokens, rest)?;
        return Ok((return_statement(node, None), 1, rest));
    }
    let (value, height, rest) = ended_expression(nodes, room, rest)?;
    let node = nodes.add(tokens, rest)?;
    Ok((return_statement(node, Some(value)), height + 1, rest))
}

// `throw` (14.14).
#[cycle(parser)]
fn throw_at<'t, 's>(
    nodes: &mut Nodes,
    room: u32,
    tokens: &'t [Token<'s>],
) -> ParsedStatement<'t, 's>
    requires { room < MOST_ROOM }
    ensures gives { ReadsStatement (reading.throw_by (below room) (is_on_line (head_of (tail_of (tokens_view tokens.now)))) (tokens_view tokens.now)) result }
    ensures height { StatementWithin (room + 1) result }
    ensures placed { StatementPlaced nodes.old nodes.new (tokens_view tokens.now) result }
{
    let value = tail(tokens);
    if !is_on_line(value) {
        return Err(ParseError::Syntax { left: value.len() });
    }
    let rest = expect(TokenKind::Throw, tokens)?;
    let (value, height, rest) = ended_expression(nodes, room, rest)?;
    let node = nodes.add(tokens, rest)?;
    Ok((throw_statement(node, value), height + 1, rest))
}
