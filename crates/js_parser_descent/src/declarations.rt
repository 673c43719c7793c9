//! Declarations, and statements with what they declare (ECMA-262, 14.3.1 and 15.2).

ghost use Rattle.std.specs.Prelude.{◌≡◌, ◌≤◌, ◌<◌, ◌+◌, IfOk, true};
ghost use Rattle.js_tree.specs.Height.{height_of_declarator, height_of_declarators};
ghost use Rattle.js_tree.specs.Views.{declarator_view, declarators_view, statement_view};
ghost use Rattle.js_parser_language.specs.Well as well;
ghost use Rattle.js_parser_readers.specs.Giving.{Gives};
ghost use Rattle.js_parser_readers.specs.Parsing as reading;
ghost use Rattle.js_parser_readers.specs.Parsing.{below};
ghost use Rattle.js_parser_readers.specs.Productions as productions;
ghost use Rattle.js_parser_readers.specs.Productions.{with_declarator};
ghost use Rattle.js_parser_readers.specs.Reading.{with_names};
ghost use Rattle.js_parser_readers.specs.Views.{tokens_view};
ghost use Rattle.js_parser_readers.specs.Context.{context_view};
ghost use Rattle.js_parser_language.specs.Places.{declarators_places, declarator_places};
ghost use Rattle.js_parser_readers.specs.Placed.{Placed};
ghost use Rattle.js_parser_language.specs.Tokens.{head_of, IsNext, fixed};
ghost use Rattle.js_lexer.specs.declared.token.TokenKind.TheVariants as kinds;
ghost use Rattle.js_parser_descent.specs.ReadTrees.{ReadsStatement, StatementWithin, StatementPlaced};

use crate::blocks::code_at;
use crate::expressions::assignment_below;
use crate::limits::MOST_ROOM;
use crate::parsed::{ParsedDeclarator, ParsedDeclarators, ParsedStatement, deeper};
use crate::statements::statement_at;
use cdp_text::units::Units;
use js_lexer::token::{Token, TokenKind};
use js_parser_language::parts::{declarator, declarators_of};
use js_parser_language::statements::{function_declaration, lexical_declaration};
use js_parser_readers::classes::statements::{StatementStart, first_of};
use js_parser_readers::context::StatementContext;
use js_parser_readers::endings::{end_of, semicolon_at};
use js_parser_readers::fault::ParseError;
use js_parser_readers::name_set::NameSet;
use js_parser_readers::names::fresh_name;
use js_parser_readers::nodes::Nodes;
use js_parser_readers::token::{is_next, tail};

/// A statement or a declaration of other names than these, at most `room` high. Its names are taken.
#[cycle(parser)]
#[tactic(auto, unfolding(js_parser_readers::specs::Parsing::below))]
pub fn item_below<'t, 's>(
    nodes: &mut Nodes,
    room: u32,
    context: StatementContext,
    names: &mut NameSet<'s>,
    tokens: &'t [Token<'s>],
) -> ParsedStatement<'t, 's>
    requires { room ≤ MOST_ROOM }
    ensures gives { ReadsStatement ((below room).item (context_view context) names.old (tokens_view tokens.now)) result }
    ensures height { StatementWithin room result }
    ensures names { IfOk result (λ x. names.new ≡ productions.with_declared names.old (statement_view x.0)) }
    ensures placed { StatementPlaced nodes.old nodes.new (tokens_view tokens.now) result }
{
    if room == 0 {
        return Err(ParseError::TooDeep { left: tokens.len() });
    }
    item_at(nodes, room - 1, context, names, tokens)
}

/// A statement or a declaration of other names than these. Its names are taken.
#[cycle(parser)]
#[tactic(auto, unfolding(js_parser_readers::specs::Parsing::item))]
pub fn item_at<'t, 's>(
    nodes: &mut Nodes,
    room: u32,
    context: StatementContext,
    names: &mut NameSet<'s>,
    tokens: &'t [Token<'s>],
) -> ParsedStatement<'t, 's>
    requires { room < MOST_ROOM }
    ensures gives { ReadsStatement (reading.item (below room) (context_view context) names.old (tokens_view tokens.now)) result }
    ensures height { StatementWithin (room + 1) result }
    ensures names { IfOk result (λ x. names.new ≡ productions.with_declared names.old (statement_view x.0)) }
    ensures placed { StatementPlaced nodes.old nodes.new (tokens_view tokens.now) result }
{
    match first_of(tokens) {
        StatementStart::Lexical { constant } => lexical_at(nodes, room, constant, names, tokens),
        StatementStart::Function => declaration_at(nodes, room, names, tokens),
        StatementStart::Block
        | StatementStart::Semicolon
        | StatementStart::If
        | StatementStart::Do
        | StatementStart::While
        | StatementStart::For => { statement_at(nodes, room, context, tokens) }
        StatementStart::Continue
        | StatementStart::Break
        | StatementStart::Return
        | StatementStart::Throw
        | StatementStart::Try => { statement_at(nodes, room, context, tokens) }
        StatementStart::Debugger | StatementStart::Expression => statement_at(
            nodes, room, context, tokens,
        ),
    }
}

// `let` or `const` with its names, which differ from these and are taken (14.3.1).
#[cycle(parser)]
#[tactic(auto, unfolding(js_parser_readers::specs::Parsing::lexical_at))]
fn lexical_at<'t, 's>(
    nodes: &mut Nodes,
    room: u32,
    constant: bool,
    names: &mut NameSet<'s>,
    tokens: &'t [Token<'s>],
) -> ParsedStatement<'t, 's>
    requires { room < MOST_ROOM }
    ensures gives { ReadsStatement (reading.lexical_at (below room) constant names.old (tokens_view tokens.now)) result }
    ensures height { StatementWithin (room + 1) result }
    ensures names { IfOk result (λ x. names.new ≡ productions.with_declared names.old (statement_view x.0)) }
    ensures placed { IsNext (fixed (reading.let_kind constant)) (head_of (tokens_view tokens.now)) → StatementPlaced nodes.old nodes.new (tokens_view tokens.now) result }
{
    let (declarators, height, rest) = declarators_at(nodes, room, constant, names, tail(tokens))?;
    let rest = semicolon_at(end_of(&declarators), rest)?;
    let node = nodes.add(tokens, rest)?;
    let tree = lexical_declaration(node, constant, declarators);
    Ok((tree, height + 1, rest))
}

// A function declaration, whose name differs from these and is taken (15.2).
#[cycle(parser)]
#[tactic(auto, unfolding(js_parser_readers::specs::Parsing::declaration_at))]
fn declaration_at<'t, 's>(
    nodes: &mut Nodes,
    room: u32,
    names: &mut NameSet<'s>,
    tokens: &'t [Token<'s>],
) -> ParsedStatement<'t, 's>
    requires { room < MOST_ROOM }
    ensures gives { ReadsStatement (reading.declaration_at (below room) names.old (tokens_view tokens.now)) result }
    ensures height { StatementWithin (room + 1) result }
    ensures names { IfOk result (λ x. names.new ≡ productions.with_declared names.old (statement_view x.0)) }
    ensures placed { IsNext (fixed kinds.Function) (head_of (tokens_view tokens.now)) → StatementPlaced nodes.old nodes.new (tokens_view tokens.now) result }
{
    let (text, rest) = fresh_name(names, tail(tokens))?;
    let (function, height, rest) = code_at(nodes, room, rest)?;
    names.insert(text)?;
    let node = nodes.add(tokens, rest)?;
    let name = Units::from_slice(nodes.alloc(), text)?;
    let tree = function_declaration(node, name, function.parameters, function.body);
    Ok((tree, height + 1, rest))
}

/// Names with commas between, which differ from these and from one another, and are taken.
#[cycle(parser)]
#[tactic(auto, unfolding(js_parser_readers::specs::Productions::declarators_at))]
pub fn declarators_at<'t, 's>(
    nodes: &mut Nodes,
    room: u32,
    constant: bool,
    names: &mut NameSet<'s>,
    tokens: &'t [Token<'s>],
) -> ParsedDeclarators<'t, 's>
    requires { room < MOST_ROOM }
    ensures gives { Gives (λ x. (declarators_view x.0, tokens_view x.2.now)) result (productions.declarators_at (below room) constant names.old (tokens_view tokens.now)) }
    ensures height { IfOk result (λ x. (x.1 ≡ height_of_declarators (declarators_view x.0)) × (x.1 ≤ room)) }
    ensures names { IfOk result (λ x. names.new ≡ with_names names.old (well.names_of_declarators (declarators_view x.0))) }
    ensures placed { IfOk result (λ x. Placed true nodes.old nodes.new (declarators_places x.0) (tokens_view tokens.now) (tokens_view x.2.now)) }
{
    let (first, height, rest) = declarator_at(nodes, room, constant, names, tokens)?;
    let mut items = Vec::new(nodes.alloc());
    items.push(first)?;
    // the height of the names, and the tokens after them
    let mut read = (height, rest);
    'others: while is_next(TokenKind::Comma, read.1) {
        let (item, height, rest) = declarator_at(nodes, room, constant, names, tail(read.1))?;
        items.push(item)?;
        read = (deeper(read.0, height), rest);
    }
    Ok((declarators_of(items), read.0, read.1))
}

// A name that differs from these, with its initializer, which a constant has. The name is taken.
#[cycle(parser)]
#[tactic(auto, unfolding(js_parser_readers::specs::Productions::declarator_at))]
fn declarator_at<'t, 's>(
    nodes: &mut Nodes,
    room: u32,
    constant: bool,
    names: &mut NameSet<'s>,
    tokens: &'t [Token<'s>],
) -> ParsedDeclarator<'t, 's>
    requires { room < MOST_ROOM }
    ensures gives { Gives (λ x. (declarator_view x.0, tokens_view x.2.now)) result (productions.declarator_at (below room) constant names.old (tokens_view tokens.now)) }
    ensures height { IfOk result (λ x. (x.1 ≡ height_of_declarator (declarator_view x.0)) × (x.1 ≤ room)) }
    ensures names { IfOk result (λ x. names.new ≡ with_declarator names.old (declarator_view x.0)) }
    ensures placed { IfOk result (λ x. Placed true nodes.old nodes.new (declarator_places x.0) (tokens_view tokens.now) (tokens_view x.2.now)) }
{
    let (text, rest) = fresh_name(names, tokens)?;
    names.insert(text)?;
    let name = Units::from_slice(nodes.alloc(), text)?;
    if is_next(TokenKind::Assign, rest) {
        let (value, height, rest) = assignment_below(nodes, room, tail(rest))?;
        return Ok((declarator(name, Some(value)), height, rest));
    }
    if constant {
        return Err(ParseError::Syntax { left: rest.len() });
    }
    Ok((declarator(name, None), 0, rest))
}
