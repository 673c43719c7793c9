//! Lists of statements, blocks and functions (ECMA-262, 14.2 and 15.2).

ghost use Rattle.std.specs.Prelude.{◌≡◌, ◌≤◌, ◌<◌, ◌+◌, suc, IfOk, true, [], ◌∷◌, false};
ghost use Rattle.js_tree.specs.Height.{height_of_statements};
ghost use Rattle.js_tree.specs.Views.{block_view, statements_view};
ghost use Rattle.js_parser_readers.specs.Giving.{Gives};
ghost use Rattle.js_parser_readers.specs.Parsing.{below};
ghost use Rattle.js_parser_readers.specs.Productions as productions;
ghost use Rattle.js_parser_readers.specs.Views.{tokens_view};
ghost use Rattle.js_parser_descent.specs.Views.{function_view};
ghost use Rattle.js_parser_readers.specs.Context.{context_view};
ghost use Rattle.js_parser_language.specs.Places.{block_places, in_turn, plain, in_braces, statements_places};
ghost use Rattle.js_parser_readers.specs.Placed.{Placed};
ghost use Rattle.js_parser_language.specs.Flat.{flat_parameters};

use crate::declarations::item_below;
use crate::limits::MOST_ROOM;
use crate::parsed::{ParametersAndBody, ParsedBlock, ParsedFunction, ParsedStatements, deeper};
use js_lexer::token::{Token, TokenKind};
use js_parser_language::parts::{block, statements_of};
use js_parser_readers::classes::lists::ends_list;
use js_parser_readers::context::StatementContext;
use js_parser_readers::fault::ParseError;
use js_parser_readers::name_set::NameSet;
use js_parser_readers::names::parameters_at;
use js_parser_readers::nodes::Nodes;
use js_parser_readers::token::expect;

/// Statements in braces that declare other names than these, at most `room` high with the braces.
#[cycle(parser)]
#[tactic(auto, unfolding(js_parser_readers::specs::Parsing::below))]
pub fn block_below<'t, 's>(
    nodes: &mut Nodes,
    room: u32,
    context: StatementContext,
    names: NameSet<'s>,
    tokens: &'t [Token<'s>],
) -> ParsedBlock<'t, 's>
    requires { room ≤ MOST_ROOM }
    ensures gives { Gives (λ x. (block_view x.0, tokens_view x.2.now)) result ((below room).block (context_view context) names.entry (tokens_view tokens.now)) }
    ensures height { IfOk result (λ x. (x.1 ≡ suc (height_of_statements (block_view x.0))) × (x.1 ≤ room)) }
    ensures placed { IfOk result (λ x. Placed true nodes.old nodes.new (block_places x.0) (tokens_view tokens.now) (tokens_view x.2.now)) }
{
    if room == 0 {
        return Err(ParseError::TooDeep { left: tokens.len() });
    }
    let (body, height, rest) = braces_at(nodes, room - 1, context, names, tokens)?;
    let node = nodes.add(tokens, rest)?;
    Ok((block(node, body), height + 1, rest))
}

/// The parameters of a function and its body, at most `room` high with the function.
#[cycle(parser)]
#[tactic(auto, unfolding(js_parser_readers::specs::Parsing::below))]
pub fn function_below<'t, 's>(
    nodes: &mut Nodes,
    room: u32,
    tokens: &'t [Token<'s>],
) -> ParsedFunction<'t, 's>
    requires { room ≤ MOST_ROOM }
    ensures gives { Gives (λ x. (function_view x.0, tokens_view x.2.now)) result ((below room).function (tokens_view tokens.now)) }
    ensures height { IfOk result (λ x. (x.1 ≡ height_of_statements (statements_view x.0.body)) × (x.1 < room)) }
    ensures placed { IfOk result (λ x. Placed true nodes.old nodes.new (in_turn (plain (flat_parameters x.0.parameters) ∷ in_braces (statements_places x.0.body) ∷ [])) (tokens_view tokens.now) (tokens_view x.2.now)) }
{
    if room == 0 {
        return Err(ParseError::TooDeep { left: tokens.len() });
    }
    code_at(nodes, room - 1, tokens)
}

/// Statements up to what ends a list, that declare other names than these.
#[cycle(parser)]
#[tactic(auto, unfolding(js_parser_readers::specs::Productions::items_at))]
pub fn items_at<'t, 's>(
    nodes: &mut Nodes,
    room: u32,
    context: StatementContext,
    names: NameSet<'s>,
    tokens: &'t [Token<'s>],
) -> ParsedStatements<'t, 's>
    requires { room ≤ MOST_ROOM }
    ensures gives { Gives (λ x. (statements_view x.0, tokens_view x.2.now)) result (productions.items_at (below room) (context_view context) names.entry (tokens_view tokens.now)) }
    ensures height { IfOk result (λ x. (x.1 ≡ height_of_statements (statements_view x.0)) × (x.1 ≤ room)) }
    ensures placed { IfOk result (λ x. Placed false nodes.old nodes.new (statements_places x.0) (tokens_view tokens.now) (tokens_view x.2.now)) }
{
    let mut names = names;
    let mut items = Vec::new(nodes.alloc());
    // the height of the statements, and the tokens after them
    let mut read = (0, tokens);
    'items: while !ends_list(read.1) {
        let (item, height, rest) = item_below(nodes, room, context, &mut names, read.1)?;
        items.push(item)?;
        read = (deeper(read.0, height), rest);
    }
    Ok((statements_of(items), read.0, read.1))
}

/// Statements in braces that declare other names than these.
#[cycle(parser)]
#[tactic(auto, unfolding(js_parser_readers::specs::Productions::braces))]
pub fn braces_at<'t, 's>(
    nodes: &mut Nodes,
    room: u32,
    context: StatementContext,
    names: NameSet<'s>,
    tokens: &'t [Token<'s>],
) -> ParsedStatements<'t, 's>
    requires { room < MOST_ROOM }
    ensures gives { Gives (λ x. (statements_view x.0, tokens_view x.2.now)) result (productions.braces (below room) (context_view context) names.entry (tokens_view tokens.now)) }
    ensures height { IfOk result (λ x. (x.1 ≡ height_of_statements (statements_view x.0)) × (x.1 ≤ room)) }
    ensures placed { IfOk result (λ x. Placed true nodes.old nodes.new (in_braces (statements_places x.0)) (tokens_view tokens.now) (tokens_view x.2.now)) }
{
    let rest = expect(TokenKind::LeftBrace, tokens)?;
    let (body, height, rest) = items_at(nodes, room, context, names, rest)?;
    let rest = expect(TokenKind::RightBrace, rest)?;
    Ok((body, height, rest))
}

/// The parameters of a function and its body.
#[cycle(parser)]
#[tactic(auto, unfolding(js_parser_readers::specs::Productions::code_at))]
pub fn code_at<'t, 's>(
    nodes: &mut Nodes,
    room: u32,
    tokens: &'t [Token<'s>],
) -> ParsedFunction<'t, 's>
    requires { room < MOST_ROOM }
    ensures gives { Gives (λ x. (function_view x.0, tokens_view x.2.now)) result (productions.code_at (below room) (tokens_view tokens.now)) }
    ensures height { IfOk result (λ x. (x.1 ≡ height_of_statements (statements_view x.0.body)) × (x.1 ≤ room)) }
    ensures placed { IfOk result (λ x. Placed true nodes.old nodes.new (in_turn (plain (flat_parameters x.0.parameters) ∷ in_braces (statements_places x.0.body) ∷ [])) (tokens_view tokens.now) (tokens_view x.2.now)) }
{
    let (parameters, names, rest) = parameters_at(nodes.alloc(), tokens)?;
    let (body, height, rest) = braces_at(
        nodes,
        room,
        StatementContext::function_body(),
        names,
        rest,
    )?;
    Ok((ParametersAndBody { parameters, body }, height, rest))
}
