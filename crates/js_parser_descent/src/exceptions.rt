//! `try` (ECMA-262, 14.15).

ghost use Rattle.std.specs.Prelude.{◌≡◌, ◌≤◌, ◌<◌, ◌+◌, IfOk, true, false, List};
ghost use Rattle.js_tree.specs.Height.{height_of_finalizer, height_of_handler};
ghost use Rattle.js_tree.specs.Views.{catch_view, finalizer_view, handler_view};
ghost use Rattle.js_parser_readers.specs.Giving.{Gives};
ghost use Rattle.js_parser_language.specs.Kinds.{is_kind};
ghost use Rattle.js_parser_readers.specs.Parsing as reading;
ghost use Rattle.js_parser_readers.specs.Parsing.{below};
ghost use Rattle.js_parser_readers.specs.Views.{tokens_view};
ghost use Rattle.js_parser_language.specs.Tokens.{head_of};
ghost use Rattle.js_lexer.specs.declared.token.TokenKind.TheVariants as kinds;
ghost use Rattle.js_parser_readers.specs.Context.{context_view};
ghost use Rattle.js_parser_language.specs.Places.{handler_places, plain, catch_places, finalizer_places};
ghost use Rattle.js_parser_readers.specs.Placed.{Placed};
ghost use Rattle.js_tree.specs.declared.node.Span.{Span};
ghost use Rattle.js_parser_language.specs.Flat.{a};
ghost use Rattle.js_parser_descent.specs.ReadTrees.{ReadsStatement, StatementWithin, StatementPlaced};

use crate::blocks::block_below;
use crate::limits::MOST_ROOM;
use crate::parsed::{ParsedCatch, ParsedFinalizer, ParsedHandler, ParsedStatement, deeper};
use cdp_text::units::Units;
use js_lexer::token::{Token, TokenKind};
use js_parser_language::parts::catch_clause;
use js_parser_language::statements::try_statement;
use js_parser_readers::context::StatementContext;
use js_parser_readers::fault::ParseError;
use js_parser_readers::name_set::NameSet;
use js_parser_readers::nodes::Nodes;
use js_parser_readers::token::{expect, is_next, tail};
use js_parser_readers::words::name_at;
use js_tree::tree::Catch;

/// `try` with its blocks.
#[cycle(parser)]
#[tactic(auto, unfolding(js_parser_readers::specs::Parsing::try_at))]
pub fn try_at<'t, 's>(
    nodes: &mut Nodes,
    room: u32,
    context: StatementContext,
    tokens: &'t [Token<'s>],
) -> ParsedStatement<'t, 's>
    requires { room < MOST_ROOM }
    ensures gives { ReadsStatement (reading.try_at (below room) (context_view context) (tokens_view tokens.now)) result }
    ensures height { StatementWithin (room + 1) result }
    ensures placed { StatementPlaced nodes.old nodes.new (tokens_view tokens.now) result }
{
    let rest = expect(TokenKind::Try, tokens)?;
    let names = NameSet::new(nodes.alloc());
    let (block, block_height, rest) = block_below(nodes, room, context, names, rest)?;
    let (handler, handler_height, rest) = handler_at(nodes, room, context, rest)?;
    let (finalizer, finalizer_height, rest) = finalizer_at(nodes, room, context, &handler, rest)?;
    let node = nodes.add(tokens, rest)?;
    let tree = try_statement(node, block, handler, finalizer);
    let height = deeper(block_height, deeper(handler_height, finalizer_height));
    Ok((tree, height + 1, rest))
}

// `catch` with its block, or nothing.
#[cycle(parser)]
#[tactic(auto, unfolding(js_parser_readers::specs::Parsing::handler_at))]
fn handler_at<'t, 's>(
    nodes: &mut Nodes,
    room: u32,
    context: StatementContext,
    tokens: &'t [Token<'s>],
) -> ParsedHandler<'t, 's>
    requires { room < MOST_ROOM }
    ensures gives { Gives (λ x. (handler_view x.0, tokens_view x.2.now)) result (reading.handler_at (below room) (context_view context) (tokens_view tokens.now)) }
    ensures height { IfOk result (λ x. (x.1 ≡ height_of_handler (handler_view x.0)) × (x.1 ≤ room)) }
    ensures placed { IfOk result (λ x. Placed false nodes.old nodes.new (handler_places x.0) (tokens_view tokens.now) (tokens_view x.2.now)) }
{
    if !is_next(TokenKind::Catch, tokens) {
        return Ok((None, 0, tokens));
    }
    let (handler, height, rest) = catch_at(nodes, room, context, tail(tokens))?;
    Ok((Some(handler), height, rest))
}

// The block of a `catch` with its name, if it has one.
#[cycle(parser)]
fn catch_at<'t, 's>(
    nodes: &mut Nodes,
    room: u32,
    context: StatementContext,
    tokens: &'t [Token<'s>],
) -> ParsedCatch<'t, 's>
    requires { room < MOST_ROOM }
    ensures gives { Gives (λ x. (catch_view x.0, tokens_view x.2.now)) result (reading.catch_by (below room) (context_view context) (is_kind kinds.LeftParenthesis (head_of (tokens_view tokens.now))) (tokens_view tokens.now)) }
    ensures height { IfOk result (λ x. (x.1 ≡ height_of_handler (catch_view x.0)) × (x.1 ≤ room)) }
    ensures placed { (old : List Span) (ts : _) → Placed true old nodes.old (plain (a kinds.Catch)) ts (tokens_view tokens.now) → IfOk result (λ x. Placed true old nodes.new (catch_places x.0) ts (tokens_view x.2.now)) }
{
    let mut names = NameSet::new(nodes.alloc());
    if !is_next(TokenKind::LeftParenthesis, tokens) {
        let (block, height, rest) = block_below(nodes, room, context, names, tokens)?;
        return Ok((catch_clause(None, block), height, rest));
    }
    let rest = expect(TokenKind::LeftParenthesis, tokens)?;
    let (text, rest) = name_at(rest)?;
    let rest = expect(TokenKind::RightParenthesis, rest)?;
    names.insert(text)?;
    let (block, height, rest) = block_below(nodes, room, context, names, rest)?;
    let name = Units::from_slice(nodes.alloc(), text)?;
    Ok((catch_clause(Some(name), block), height, rest))
}

// `finally` with its block, or nothing behind a `catch`.
#[cycle(parser)]
#[tactic(auto, unfolding(js_parser_readers::specs::Parsing::finalizer_at))]
fn finalizer_at<'t, 's>(
    nodes: &mut Nodes,
    room: u32,
    context: StatementContext,
    handler: &Option<Catch>,
    tokens: &'t [Token<'s>],
) -> ParsedFinalizer<'t, 's>
    requires { room < MOST_ROOM }
    ensures gives { Gives (λ x. (finalizer_view x.0, tokens_view x.2.now)) result (reading.finalizer_at (below room) (context_view context) (handler_view handler.now) (tokens_view tokens.now)) }
    ensures height { IfOk result (λ x. (x.1 ≡ height_of_finalizer (finalizer_view x.0)) × (x.1 ≤ room)) }
    ensures placed { IfOk result (λ x. Placed false nodes.old nodes.new (finalizer_places x.0) (tokens_view tokens.now) (tokens_view x.2.now)) }
{
    if is_next(TokenKind::Finally, tokens) {
        let rest = expect(TokenKind::Finally, tokens)?;
        let names = NameSet::new(nodes.alloc());
        let (block, height, rest) = block_below(nodes, room, context, names, rest)?;
        return Ok((Some(block), height, rest));
    }
    if handler.is_none() {
        return Err(ParseError::Syntax { left: tokens.len() });
    }
    Ok((None, 0, tokens))
}
