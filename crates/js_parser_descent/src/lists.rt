//! Lists of expressions.

ghost use Rattle.std.specs.Prelude.{◌≡◌, ◌≤◌, ◌<◌, suc, length, map, IfOk, [], ◌∷◌, true, false};
ghost use Rattle.js_tree.specs.Height.{height};
ghost use Rattle.js_tree.specs.Views.{expression_view};
ghost use Rattle.js_parser_readers.specs.Giving.{Gives};
ghost use Rattle.js_parser_readers.specs.Parsing.{below};
ghost use Rattle.js_parser_readers.specs.Views.{tokens_view};
ghost use Rattle.js_tree.specs.Height.{height_of_expressions};
ghost use Rattle.js_tree.specs.Views.{expressions, expressions_view};
ghost use Rattle.js_parser_readers.specs.Productions as productions;
ghost use Rattle.js_parser_readers.specs.Productions.{one_of};
ghost use Rattle.js_parser_readers.specs.Reading.{elements, others, no_state};
ghost use Rattle.js_parser_language.specs.Flat.{a};
ghost use Rattle.js_parser_language.specs.Places.{in_turn, plain, may_stand, expressions_places, with_commas, expression_places, behind_commas};
ghost use Rattle.js_parser_language.specs.Kinds.{is_same_kind};
ghost use Rattle.js_parser_readers.specs.Placed.{Placed};
ghost use Rattle.js_lexer.specs.declared.token.TokenKind.TheVariants as kinds;

use crate::expressions::assignment_below;
use crate::limits::MOST_ROOM;
use crate::parsed::{ParsedExpressions, ParsedItems, deeper, nothing_read};
use js_lexer::token::{Token, TokenKind};
use js_parser_language::parts::expressions_of;
use js_parser_readers::classes::lists::{AfterElement, after_of};
use js_parser_readers::fault::ParseError;
use js_parser_readers::nodes::Nodes;
use js_parser_readers::token::{is_next, tail};

/// Elements or arguments up to the token that ends them, before which a comma may stand.
#[cycle(parser)]
#[tactic(auto, unfolding(js_parser_readers::specs::Productions::arguments_before))]
pub fn arguments_before<'t, 's>(
    nodes: &mut Nodes,
    room: u32,
    closer: TokenKind,
    tokens: &'t [Token<'s>],
) -> ParsedExpressions<'t, 's>
    requires { room < MOST_ROOM }
    ensures gives { Gives (λ x. (expressions_view x.0, tokens_view x.2.now)) result (productions.arguments_before (below room) closer (tokens_view tokens.now)) }
    ensures height { IfOk result (λ x. (x.1 ≡ height_of_expressions (expressions_view x.0)) × (x.1 ≤ room)) }
    ensures placed { is_same_kind closer kinds.Comma ≡ false → IfOk result (λ x. Placed true nodes.old nodes.new (in_turn (expressions_places x.0 ∷ may_stand kinds.Comma ∷ plain (a closer) ∷ [])) (tokens_view tokens.now) (tokens_view x.2.now)) }
{
    let (items, height, rest) = elements_before(nodes, room, closer, tokens)?;
    Ok((expressions_of(items), height, rest))
}

// The elements in a vector.
#[cycle(parser)]
fn elements_before<'t, 's>(
    nodes: &mut Nodes,
    room: u32,
    closer: TokenKind,
    tokens: &'t [Token<'s>],
) -> ParsedItems<'t, 's>
    requires { room < MOST_ROOM }
    ensures gives { Gives (λ x. (map expression_view x.0.items, tokens_view x.2.now)) result (elements (one_of (below room).assignment) no_state closer (suc (length (tokens_view tokens.now))) tt (tokens_view tokens.now)) }
    ensures height { IfOk result (λ x. (x.1 ≡ height_of_expressions (expressions (map expression_view x.0.items))) × (x.1 ≤ room)) }
    ensures placed { is_same_kind closer kinds.Comma ≡ false → IfOk result (λ x. Placed true nodes.old nodes.new (in_turn (with_commas (map expression_places x.0.items) ∷ may_stand kinds.Comma ∷ plain (a closer) ∷ [])) (tokens_view tokens.now) (tokens_view x.2.now)) }
{
    let mut items = Vec::new(nodes.alloc());
    let mut height = 0;
    let mut rest = tokens;
    'elements: loop {
        if is_next(closer, rest) {
            return Ok((items, height, tail(rest)));
        }
        let (item, item_height, later) = assignment_below(nodes, room, rest)?;
        items.push(Box::into_inner(item))?;
        height = deeper(height, item_height);
        match after_of(closer, later) {
            Some(AfterElement::GoesOn) => rest = tail(later),
            Some(AfterElement::Ends) => return Ok((items, height, tail(later))),
            None => return Err(ParseError::Syntax { left: later.len() }),
        }
    }
}

/// Further expressions, each behind a comma.
#[cycle(parser)]
pub fn more_assignments<'t, 's>(
    nodes: &mut Nodes,
    room: u32,
    tokens: &'t [Token<'s>],
) -> ParsedItems<'t, 's>
    requires { room < MOST_ROOM }
    ensures gives { Gives (λ x. (map expression_view x.0.items, tokens_view x.2.now)) result (others (one_of (below room).assignment) no_state (suc (length (tokens_view tokens.now))) tt (tokens_view tokens.now)) }
    ensures height { IfOk result (λ x. (x.1 ≡ height_of_expressions (expressions (map expression_view x.0.items))) × (x.1 ≤ room)) }
    ensures placed { IfOk result (λ x. Placed false nodes.old nodes.new (behind_commas (map expression_places x.0.items)) (tokens_view tokens.now) (tokens_view x.2.now)) }
{
    let mut items = Vec::new(nodes.alloc());
    let (mut height, mut rest) = nothing_read(tokens);
    'others: loop {
        if !is_next(TokenKind::Comma, rest) {
            return Ok((items, height, rest));
        }
        let (item, item_height, later) = assignment_below(nodes, room, tail(rest))?;
        items.push(Box::into_inner(item))?;
        height = deeper(height, item_height);
        rest = later;
    }
}
