//! Arrow functions (ECMA-262, 15.3).

ghost use Rattle.std.specs.Prelude.{◌≡◌, ◌<◌, ◌+◌, suc, List, ◌∷◌};
ghost use Rattle.js_tree.specs.Height.{height};
ghost use Rattle.js_parser_readers.specs.Parsing as reading;
ghost use Rattle.js_parser_readers.specs.Parsing.{below};
ghost use Rattle.js_parser_readers.specs.Views.{tokens_view};
ghost use Rattle.std.specs.Prelude.{length, true, [], if◌then◌else◌};
ghost use Rattle.js_tree.specs.Views.{parameters_view};
ghost use Rattle.js_parser_language.specs.Well.{names_of_parameters};
ghost use Rattle.js_parser_readers.specs.Names.{texts};
ghost use Rattle.js_parser_readers.specs.Reading.{with_names};
ghost use Rattle.js_parser_language.specs.Places.{plain, in_turn};
ghost use Rattle.js_parser_readers.specs.Placed.{Placed};
ghost use Rattle.js_tree.specs.declared.node.Span.{Span};
ghost use Rattle.js_parser_language.specs.Flat.{flat_parameters, flat_arrow_parameters, a};
ghost use Rattle.js_lexer.specs.declared.token.TokenKind.TheVariants as kinds;
ghost use Rattle.js_parser_descent.specs.ReadTrees.{ReadsExpression, ExpressionWithin, ExpressionPlaced};

use crate::blocks::braces_at;
use crate::expressions::assignment_below;
use crate::limits::MOST_ROOM;
use crate::parsed::Parsed;
use cdp_text::units::Units;
use js_lexer::token::{Token, TokenKind};
use js_parser_language::expressions::{arrow, arrow_block};
use js_parser_readers::classes::arrows::take_fresh;
use js_parser_readers::context::StatementContext;
use js_parser_readers::fault::ParseError;
use js_parser_readers::name_set::NameSet;
use js_parser_readers::nodes::Nodes;
use js_parser_readers::token::{expect, is_next};
use js_parser_readers::words::{expect_near, name_at, names_before, names_of};
use js_tree::tree::ArrowParameters;

/// An arrow function of one name without parentheses.
#[cycle(parser)]
#[tactic(auto, unfolding(js_parser_readers::specs::Parsing::arrow_of_one))]
pub fn arrow_of_one<'t, 's>(nodes: &mut Nodes, room: u32, tokens: &'t [Token<'s>]) -> Parsed<'t, 's>
    requires { room < MOST_ROOM }
    ensures gives { ReadsExpression (reading.arrow_of_one (below room) (tokens_view tokens.now)) result }
    ensures height { ExpressionWithin (room + 1) result }
    ensures placed { ExpressionPlaced nodes.old nodes.new (tokens_view tokens.now) result }
{
    let (text, rest) = name_at(tokens)?;
    let mut taken = NameSet::new(nodes.alloc());
    taken.insert(text)?;
    let parameters = ArrowParameters::Name(Units::from_slice(nodes.alloc(), text)?);
    arrow_rest(nodes, room, parameters, taken, tokens, rest)
}

/// An arrow function of names in parentheses, where `only` such a one can begin so.
#[cycle(parser)]
#[tactic(auto, unfolding(js_parser_readers::specs::Parsing::arrow_of_list))]
pub fn arrow_of_list<'t, 's>(
    nodes: &mut Nodes,
    room: u32,
    only: bool,
    tokens: &'t [Token<'s>],
) -> Parsed<'t, 's>
    requires { room < MOST_ROOM }
    ensures gives { ReadsExpression (reading.arrow_of_list (below room) only (tokens_view tokens.now)) result }
    ensures height { ExpressionWithin (room + 1) result }
    ensures placed { ExpressionPlaced nodes.old nodes.new (tokens_view tokens.now) result }
{
    let rest = expect(TokenKind::LeftParenthesis, tokens)?;
    let (names, rest) = names_before(nodes.alloc(), rest)?;
    arrow_of_names(nodes, room, only, &names, tokens, rest)
}

// How many tokens are left where names that don't differ are refused: at the arrow, or at the
// parenthesis before it where an arrow alone can follow.
fn left_at_arrow(only: bool, tokens: &[Token<'_>]) -> usize
    ensures { result ≡ (if only then suc (length (tokens_view tokens.now)) else length (tokens_view tokens.now)) }
{
    if only { tokens.len() + 1 } else { tokens.len() }
}

// An arrow function whose names in parentheses were read from the start.
#[cycle(parser)]
fn arrow_of_names<'t, 's>(
    nodes: &mut Nodes,
    room: u32,
    only: bool,
    names: &[&'s [u16]],
    start: &[Token<'s>],
    tokens: &'t [Token<'s>],
) -> Parsed<'t, 's>
    requires { room < MOST_ROOM }
    ensures gives { ReadsExpression (reading.arrow_of_names (below room) only (texts names.now) (tokens_view tokens.now)) result }
    ensures height { ExpressionWithin (room + 1) result }
    ensures placed { (old : List Span) → Placed true old nodes.old (plain (flat_parameters (texts names.now))) (tokens_view start.now) (tokens_view tokens.now) → ExpressionPlaced old nodes.new (tokens_view start.now) result }
{
    let mut taken = NameSet::new(nodes.alloc());
    if !take_fresh(&mut taken, names)? {
        let left = left_at_arrow(only, tokens);
        return Err(ParseError::Syntax { left });
    }
    let parameters = ArrowParameters::List(names_of(nodes.alloc(), names)?);
    arrow_rest(nodes, room, parameters, taken, start, tokens)
}

/// The arrow and the body of an arrow function whose parameters were read from the start.
#[cycle(parser)]
#[tactic(auto, unfolding(js_parser_readers::specs::Parsing::arrow_rest))]
pub fn arrow_rest<'t, 's>(
    nodes: &mut Nodes,
    room: u32,
    parameters: ArrowParameters,
    taken: NameSet<'s>,
    start: &[Token<'s>],
    tokens: &'t [Token<'s>],
) -> Parsed<'t, 's>
    requires room { room < MOST_ROOM }
    requires taken { taken ≡ with_names [] (names_of_parameters (parameters_view parameters)) }
    ensures gives { ReadsExpression (reading.arrow_rest (below room) (parameters_view parameters) (names_of_parameters (parameters_view parameters)) (tokens_view tokens.now)) result }
    ensures height { ExpressionWithin (room + 1) result }
    ensures placed { (old : List Span) → Placed true old nodes.old (plain (flat_arrow_parameters (parameters_view parameters))) (tokens_view start.now) (tokens_view tokens.now) → ExpressionPlaced old nodes.new (tokens_view start.now) result }
{
    let rest = expect_near(TokenKind::Arrow, tokens)?;
    if is_next(TokenKind::LeftBrace, rest) {
        arrow_block_at(nodes, room, parameters, taken, start, rest)
    } else {
        let (body, height, rest) = assignment_below(nodes, room, rest)?;
        let node = nodes.add(start, rest)?;
        let tree = arrow(nodes.alloc(), node, parameters, body)?;
        Ok((tree, height + 1, rest))
    }
}

// The body in braces of an arrow function whose parameters were read from the start.
#[cycle(parser)]
fn arrow_block_at<'t, 's>(
    nodes: &mut Nodes,
    room: u32,
    parameters: ArrowParameters,
    taken: NameSet<'s>,
    start: &[Token<'s>],
    tokens: &'t [Token<'s>],
) -> Parsed<'t, 's>
    requires room { room < MOST_ROOM }
    requires taken { taken ≡ with_names [] (names_of_parameters (parameters_view parameters)) }
    ensures gives { ReadsExpression (reading.arrow_body_by (below room) (parameters_view parameters) (names_of_parameters (parameters_view parameters)) true (tokens_view tokens.now)) result }
    ensures height { ExpressionWithin (room + 1) result }
    ensures placed { (old : List Span) → Placed true old nodes.old (in_turn (plain (flat_arrow_parameters (parameters_view parameters)) ∷ plain (a kinds.Arrow) ∷ [])) (tokens_view start.now) (tokens_view tokens.now) → ExpressionPlaced old nodes.new (tokens_view start.now) result }
{
    let (body, height, rest) = braces_at(
        nodes,
        room,
        StatementContext::function_body(),
        taken,
        tokens,
    )?;
    let node = nodes.add(start, rest)?;
    let tree = arrow_block(nodes.alloc(), node, parameters, body)?;
    Ok((tree, height + 1, rest))
}
