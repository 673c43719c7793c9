//! Loops (ECMA-262, 14.7).

ghost use Rattle.std.specs.Prelude.{◌≡◌, ◌<◌, ◌+◌, Some};
ghost use Rattle.js_parser_readers.specs.Classes as classes;
ghost use Rattle.js_parser_readers.specs.Parsing as reading;
ghost use Rattle.js_parser_readers.specs.Parsing.{below};
ghost use Rattle.js_parser_readers.specs.Views.{tokens_view};
ghost use Rattle.js_parser_readers.specs.Context.{context_view};
ghost use Rattle.js_parser_descent.specs.ReadTrees.{ReadsStatement, StatementWithin, StatementPlaced};

use crate::declarations::declarators_at;
use crate::expressions::{assignment_below, expression_below};
use crate::limits::MOST_ROOM;
use crate::parsed::{ParsedStatement, deeper};
use crate::statements::{optional_before, statement_below};
use cdp_text::units::Units;
use js_lexer::token::{Token, TokenKind};
use js_parser_language::statements::{
    do_while_statement, for_lexical_statement, for_of_statement, for_statement, while_statement,
};
use js_parser_readers::classes::statements::{ForHead, OF, StatementEnd, for_head_of};
use js_parser_readers::context::StatementContext;
use js_parser_readers::endings::semicolon_at;
use js_parser_readers::name_set::NameSet;
use js_parser_readers::names::expect_name;
use js_parser_readers::nodes::Nodes;
use js_parser_readers::token::{expect, tail};
use js_parser_readers::words::name_at;

/// `do` (14.7.2).
#[cycle(parser)]
pub fn do_at<'t, 's>(
    nodes: &mut Nodes,
    room: u32,
    context: StatementContext,
    tokens: &'t [Token<'s>],
) -> ParsedStatement<'t, 's>
    requires { room < MOST_ROOM }
    ensures gives { ReadsStatement (reading.statement_by (below room) (context_view context) classes.a_do (tokens_view tokens.now)) result }
    ensures height { StatementWithin (room + 1) result }
    ensures placed { StatementPlaced nodes.old nodes.new (tokens_view tokens.now) result }
{
    let rest = expect(TokenKind::Do, tokens)?;
    let (body, body_height, rest) = statement_below(nodes, room, context.loop_body(), rest)?;
    let rest = expect(TokenKind::While, rest)?;
    let rest = expect(TokenKind::LeftParenthesis, rest)?;
    let (test, test_height, rest) = expression_below(nodes, room, rest)?;
    let rest = expect(TokenKind::RightParenthesis, rest)?;
    let rest = semicolon_at(StatementEnd::Do, rest)?;
    let node = nodes.add(tokens, rest)?;
    let tree = do_while_statement(node, body, test);
    Ok((tree, deeper(body_height, test_height) + 1, rest))
}

/// `while` (14.7.3).
#[cycle(parser)]
pub fn while_at<'t, 's>(
    nodes: &mut Nodes,
    room: u32,
    context: StatementContext,
    tokens: &'t [Token<'s>],
) -> ParsedStatement<'t, 's>
    requires { room < MOST_ROOM }
    ensures gives { ReadsStatement (reading.statement_by (below room) (context_view context) classes.a_while (tokens_view tokens.now)) result }
    ensures height { StatementWithin (room + 1) result }
    ensures placed { StatementPlaced nodes.old nodes.new (tokens_view tokens.now) result }
{
    let rest = expect(TokenKind::While, tokens)?;
    let rest = expect(TokenKind::LeftParenthesis, rest)?;
    let (test, test_height, rest) = expression_below(nodes, room, rest)?;
    let rest = expect(TokenKind::RightParenthesis, rest)?;
    let (body, body_height, rest) = statement_below(nodes, room, context.loop_body(), rest)?;
    let node = nodes.add(tokens, rest)?;
    let tree = while_statement(node, test, body);
    Ok((tree, deeper(test_height, body_height) + 1, rest))
}

/// `for` (14.7.4 and 14.7.5).
#[cycle(parser)]
#[tactic(auto, unfolding(js_parser_readers::specs::Parsing::for_at))]
pub fn for_at<'t, 's>(
    nodes: &mut Nodes,
    room: u32,
    context: StatementContext,
    tokens: &'t [Token<'s>],
) -> ParsedStatement<'t, 's>
    requires { room < MOST_ROOM }
    ensures gives { ReadsStatement (reading.for_at (below room) (context_view context) (tokens_view tokens.now)) result }
    ensures height { StatementWithin (room + 1) result }
    ensures placed { StatementPlaced nodes.old nodes.new (tokens_view tokens.now) result }
{
    match for_head_of(tail(tail(tokens))) {
        Some(ForHead::Each { constant }) => for_of_at(nodes, room, context, constant, tokens),
        Some(ForHead::Declares { constant }) => {
            for_lexical_at(nodes, room, context, constant, tokens)
        }
        None => for_plain_at(nodes, room, context, tokens),
    }
}

// The keyword of a declaration.
fn let_kind(constant: bool) -> TokenKind
    ensures { result ≡ reading.let_kind constant }
{
    if constant {
        TokenKind::Const
    } else {
        TokenKind::Let
    }
}

// `for` with `let` or `const`, a name and `of` (14.7.5).
#[cycle(parser)]
fn for_of_at<'t, 's>(
    nodes: &mut Nodes,
    room: u32,
    context: StatementContext,
    constant: bool,
    tokens: &'t [Token<'s>],
) -> ParsedStatement<'t, 's>
    requires { room < MOST_ROOM }
    ensures gives { ReadsStatement (reading.for_by (below room) (context_view context) (classes.each constant) (tokens_view tokens.now)) result }
    ensures height { StatementWithin (room + 1) result }
    ensures placed { StatementPlaced nodes.old nodes.new (tokens_view tokens.now) result }
{
    let rest = expect(TokenKind::For, tokens)?;
    let rest = expect(TokenKind::LeftParenthesis, rest)?;
    let rest = expect(let_kind(constant), rest)?;
    let (text, rest) = name_at(rest)?;
    let rest = expect_name(OF, rest)?;
    let (list, list_height, rest) = assignment_below(nodes, room, rest)?;
    let rest = expect(TokenKind::RightParenthesis, rest)?;
    let (body, body_height, rest) = statement_below(nodes, room, context.loop_body(), rest)?;
    let node = nodes.add(tokens, rest)?;
    let name = Units::from_slice(nodes.alloc(), text)?;
    let tree = for_of_statement(node, constant, name, list, body);
    Ok((tree, deeper(list_height, body_height) + 1, rest))
}

// `for` with `let` or `const` and three parts (14.7.4).
#[cycle(parser)]
fn for_lexical_at<'t, 's>(
    nodes: &mut Nodes,
    room: u32,
    context: StatementContext,
    constant: bool,
    tokens: &'t [Token<'s>],
) -> ParsedStatement<'t, 's>
    requires { room < MOST_ROOM }
    ensures gives { ReadsStatement (reading.for_by (below room) (context_view context) (classes.declares constant) (tokens_view tokens.now)) result }
    ensures height { StatementWithin (room + 1) result }
    ensures placed { StatementPlaced nodes.old nodes.new (tokens_view tokens.now) result }
{
    let rest = expect(TokenKind::For, tokens)?;
    let rest = expect(TokenKind::LeftParenthesis, rest)?;
    let rest = expect(let_kind(constant), rest)?;
    let mut names = NameSet::new(nodes.alloc());
    let (declarators, first, rest) = declarators_at(nodes, room, constant, &mut names, rest)?;
    let rest = expect(TokenKind::Semicolon, rest)?;
    let (test, second, rest) = optional_before(nodes, room, TokenKind::Semicolon, rest)?;
    let (update, third, rest) = optional_before(nodes, room, TokenKind::RightParenthesis, rest)?;
    let (body, fourth, rest) = statement_below(nodes, room, context.loop_body(), rest)?;
    let node = nodes.add(tokens, rest)?;
    let tree = for_lexical_statement(node, constant, declarators, test, update, body);
    Ok((
        tree,
        deeper(first, deeper(second, deeper(third, fourth))) + 1,
        rest,
    ))
}

// `for` with three expressions, each of which may be left out (14.7.4).
#[cycle(parser)]
fn for_plain_at<'t, 's>(
    nodes: &mut Nodes,
    room: u32,
    context: StatementContext,
    tokens: &'t [Token<'s>],
) -> ParsedStatement<'t, 's>
    requires { room < MOST_ROOM }
    ensures gives { ReadsStatement (reading.for_by (below room) (context_view context) classes.plain_head (tokens_view tokens.now)) result }
    ensures height { StatementWithin (room + 1) result }
    ensures placed { StatementPlaced nodes.old nodes.new (tokens_view tokens.now) result }
{
    let rest = expect(TokenKind::For, tokens)?;
    let rest = expect(TokenKind::LeftParenthesis, rest)?;
    let (initializer, first, rest) = optional_before(nodes, room, TokenKind::Semicolon, rest)?;
    let (test, second, rest) = optional_before(nodes, room, TokenKind::Semicolon, rest)?;
    let (update, third, rest) = optional_before(nodes, room, TokenKind::RightParenthesis, rest)?;
    let (body, fourth, rest) = statement_below(nodes, room, context.loop_body(), rest)?;
    let node = nodes.add(tokens, rest)?;
    let tree = for_statement(node, initializer, test, update, body);
    Ok((
        tree,
        deeper(first, deeper(second, deeper(third, fourth))) + 1,
        rest,
    ))
}
