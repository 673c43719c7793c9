//! Object literals (ECMA-262, 13.2.5).

ghost use Rattle.std.specs.Prelude.{◌≡◌, ◌≤◌, ◌<◌, ◌+◌, suc, length, map, IfOk, [], ◌∷◌, true, List};
ghost use Rattle.js_tree.specs.Height.{height};
ghost use Rattle.js_parser_readers.specs.Giving.{Gives};
ghost use Rattle.js_parser_readers.specs.Parsing as reading;
ghost use Rattle.js_parser_readers.specs.Parsing.{below};
ghost use Rattle.js_parser_readers.specs.Views.{tokens_view};
ghost use Rattle.js_tree.specs.Height.{height_of_key, height_of_property, height_of_properties};
ghost use Rattle.js_tree.specs.Views.{key_view, property_view, properties, properties_view};
ghost use Rattle.js_parser_readers.specs.Classes as classes;
ghost use Rattle.js_parser_readers.specs.Productions.{one_of};
ghost use Rattle.js_parser_readers.specs.Reading.{elements, no_state};
ghost use Rattle.js_parser_language.specs.Flat.{a};
ghost use Rattle.js_parser_language.specs.Places.{in_turn, plain, may_stand, properties_places, with_commas, property_places, key_places};
ghost use Rattle.js_parser_readers.specs.Placed.{Placed};
ghost use Rattle.js_tree.specs.declared.node.Span.{Span};
ghost use Rattle.js_lexer.specs.declared.token.TokenKind.TheVariants as kinds;

use crate::blocks::function_below;
use crate::expressions::assignment_below;
use crate::limits::MOST_ROOM;
use crate::parsed::{ParsedKey, ParsedMembers, ParsedProperties, ParsedProperty, deeper};
use cdp_text::units::Units;
use js_lexer::strings::string_value;
use js_lexer::token::{Token, TokenKind};
use js_parser_language::boxes::boxed;
use js_parser_language::parts::{
    computed_key, method, number_key, properties_of, property, shorthand_property, string_key,
    word_key,
};
use js_parser_readers::classes::lists::{AfterElement, after_of};
use js_parser_readers::classes::objects::{
    AfterKey, KeyStart, after_key_of, is_shorthand, key_start_of,
};
use js_parser_readers::fault::ParseError;
use js_parser_readers::nodes::Nodes;
use js_parser_readers::token::{expect, is_next, tail};
use js_parser_readers::words::name_at;
use js_tree::tree::PropertyName;

/// The members of an object literal up to the brace that ends it.
#[cycle(parser)]
#[tactic(auto, unfolding(js_parser_readers::specs::Parsing::properties_at))]
pub fn properties_at<'t, 's>(
    nodes: &mut Nodes,
    room: u32,
    tokens: &'t [Token<'s>],
) -> ParsedProperties<'t, 's>
    requires { room < MOST_ROOM }
    ensures gives { Gives (λ x. (properties_view x.0, tokens_view x.2.now)) result (reading.properties_at (below room) room (tokens_view tokens.now)) }
    ensures height { IfOk result (λ x. (x.1 ≡ height_of_properties (properties_view x.0)) × (x.1 ≤ room)) }
    ensures placed { IfOk result (λ x. Placed true nodes.old nodes.new (in_turn (properties_places x.0 ∷ may_stand kinds.Comma ∷ plain (a kinds.RightBrace) ∷ [])) (tokens_view tokens.now) (tokens_view x.2.now)) }
{
    let (members, height, rest) = members_before(nodes, room, tokens)?;
    Ok((properties_of(members), height, rest))
}

// The members in a vector.
#[cycle(parser)]
fn members_before<'t, 's>(
    nodes: &mut Nodes,
    room: u32,
    tokens: &'t [Token<'s>],
) -> ParsedMembers<'t, 's>
    requires { room < MOST_ROOM }
    ensures gives { Gives (λ x. (map property_view x.0.items, tokens_view x.2.now)) result (elements (one_of (λ r. reading.property_at (below room) room r)) no_state TokenKind.RightBrace (suc (length (tokens_view tokens.now))) tt (tokens_view tokens.now)) }
    ensures height { IfOk result (λ x. (x.1 ≡ height_of_properties (properties (map property_view x.0.items))) × (x.1 ≤ room)) }
    ensures placed { IfOk result (λ x. Placed true nodes.old nodes.new (in_turn (with_commas (map property_places x.0.items) ∷ may_stand kinds.Comma ∷ plain (a kinds.RightBrace) ∷ [])) (tokens_view tokens.now) (tokens_view x.2.now)) }
{
    let mut members = Vec::new(nodes.alloc());
    let mut height = 0;
    let mut rest = tokens;
    'members: loop {
        if is_next(TokenKind::RightBrace, rest) {
            return Ok((members, height, tail(rest)));
        }
        let (member, member_height, later) = property_at(nodes, room, rest)?;
        members.push(member)?;
        height = deeper(height, member_height);
        match after_of(TokenKind::RightBrace, later) {
            Some(AfterElement::GoesOn) => rest = tail(later),
            Some(AfterElement::Ends) => return Ok((members, height, tail(later))),
            None => return Err(ParseError::Syntax { left: later.len() }),
        }
    }
}

// A PropertyDefinition.
#[cycle(parser)]
#[tactic(auto, unfolding(js_parser_readers::specs::Parsing::property_at))]
fn property_at<'t, 's>(
    nodes: &mut Nodes,
    room: u32,
    tokens: &'t [Token<'s>],
) -> ParsedProperty<'t, 's>
    requires { room < MOST_ROOM }
    ensures gives { Gives (λ x. (property_view x.0, tokens_view x.2.now)) result (reading.property_at (below room) room (tokens_view tokens.now)) }
    ensures height { IfOk result (λ x. (x.1 ≡ height_of_property (property_view x.0)) × (x.1 ≤ room)) }
    ensures placed { IfOk result (λ x. Placed true nodes.old nodes.new (property_places x.0) (tokens_view tokens.now) (tokens_view x.2.now)) }
{
    if is_shorthand(tokens) {
        let (text, rest) = name_at(tokens)?;
        let name = Units::from_slice(nodes.alloc(), text)?;
        return Ok((shorthand_property(name), 0, rest));
    }
    let (key, height, rest) = key_at(nodes, room, tokens)?;
    let key = boxed(nodes.alloc(), key)?;
    match after_key_of(rest) {
        Some(AfterKey::Colon) => valued_at(nodes, room, key, height, rest),
        Some(AfterKey::Parameters) => method_at(nodes, room, key, height, tokens, rest),
        None => Err(ParseError::Syntax { left: rest.len() }),
    }
}

// The colon behind a key, and the value.
#[cycle(parser)]
fn valued_at<'t, 's>(
    nodes: &mut Nodes,
    room: u32,
    key: Box<PropertyName>,
    key_height: u32,
    tokens: &'t [Token<'s>],
) -> ParsedProperty<'t, 's>
    requires room { room < MOST_ROOM }
    requires height { key_height ≡ height_of_key (key_view key.value) }
    requires low { key_height ≤ room }
    ensures gives { Gives (λ x. (property_view x.0, tokens_view x.2.now)) result (reading.member_by (below room) room (key_view key.value) classes.colon (tokens_view tokens.now)) }
    ensures height { IfOk result (λ x. (x.1 ≡ height_of_property (property_view x.0)) × (x.1 ≤ room)) }
    ensures placed { (old : List Span) (ts : _) → Placed true old nodes.old (key_places key.value) ts (tokens_view tokens.now) → IfOk result (λ x. Placed true old nodes.new (property_places x.0) ts (tokens_view x.2.now)) }
{
    let rest = expect(TokenKind::Colon, tokens)?;
    let (value, value_height, rest) = assignment_below(nodes, room, rest)?;
    Ok((property(key, value), deeper(key_height, value_height), rest))
}

// A MethodDefinition (15.4) from the start, behind its key.
#[cycle(parser)]
fn method_at<'t, 's>(
    nodes: &mut Nodes,
    room: u32,
    key: Box<PropertyName>,
    key_height: u32,
    start: &[Token<'s>],
    tokens: &'t [Token<'s>],
) -> ParsedProperty<'t, 's>
    requires room { room < MOST_ROOM }
    requires height { key_height ≡ height_of_key (key_view key.value) }
    requires low { key_height ≤ room }
    ensures gives { Gives (λ x. (property_view x.0, tokens_view x.2.now)) result (reading.member_by (below room) room (key_view key.value) classes.parameters (tokens_view tokens.now)) }
    ensures height { IfOk result (λ x. (x.1 ≡ height_of_property (property_view x.0)) × (x.1 ≤ room)) }
    ensures placed { (old : List Span) → Placed true old nodes.old (key_places key.value) (tokens_view start.now) (tokens_view tokens.now) → IfOk result (λ x. Placed true old nodes.new (property_places x.0) (tokens_view start.now) (tokens_view x.2.now)) }
{
    if key_height >= room {
        return Err(ParseError::TooDeep {
            left: tail(tokens).len(),
        });
    }
    let (code, code_height, rest) = function_below(nodes, room, tokens)?;
    let node = nodes.add(start, rest)?;
    let tree = method(node, key, code.parameters, code.body);
    Ok((tree, deeper(key_height, code_height) + 1, rest))
}

// A PropertyName.
#[cycle(parser)]
#[tactic(auto, unfolding(js_parser_readers::specs::Parsing::key_at))]
fn key_at<'t, 's>(nodes: &mut Nodes, room: u32, tokens: &'t [Token<'s>]) -> ParsedKey<'t, 's>
    requires { room < MOST_ROOM }
    ensures gives { Gives (λ x. (key_view x.0, tokens_view x.2.now)) result (reading.key_at (below room) (tokens_view tokens.now)) }
    ensures height { IfOk result (λ x. (x.1 ≡ height_of_key (key_view x.0)) × (x.1 ≤ room)) }
    ensures placed { IfOk result (λ x. Placed true nodes.old nodes.new (key_places x.0) (tokens_view tokens.now) (tokens_view x.2.now)) }
{
    match key_start_of(tokens) {
        Some(KeyStart::Word(text)) => {
            let name = Units::from_slice(nodes.alloc(), text)?;
            Ok((word_key(name), 0, tail(tokens)))
        }
        Some(KeyStart::String(text)) => {
            let value = string_value(nodes.alloc(), text)?;
            Ok((string_key(value), 0, tail(tokens)))
        }
        Some(KeyStart::Number(value)) => Ok((number_key(value), 0, tail(tokens))),
        Some(KeyStart::Computed) => {
            let rest = expect(TokenKind::LeftBracket, tokens)?;
            let (key, height, rest) = assignment_below(nodes, room, rest)?;
            let rest = expect(TokenKind::RightBracket, rest)?;
            Ok((computed_key(key), height, rest))
        }
        None => Err(ParseError::Syntax { left: tokens.len() }),
    }
}
