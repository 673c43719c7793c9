//! Functions that stand alone: a FunctionExpression or an ArrowFunction (ECMA-262, 15.2 and 15.3).

ghost use Rattle.std.specs.Prelude.{◌<◌, ◌+◌};
ghost use Rattle.js_tree.specs.Height.{height};
ghost use Rattle.js_parser_language.specs.Tokens.{head_of};
ghost use Rattle.js_parser_readers.specs.Classes.{parenthesis, start};
ghost use Rattle.js_parser_readers.specs.Parsing as reading;
ghost use Rattle.js_parser_readers.specs.Parsing.{below};
ghost use Rattle.js_parser_readers.specs.Views.{tokens_view};
ghost use Rattle.js_parser_descent.specs.ReadTrees.{ReadsExpression, ExpressionWithin, ExpressionPlaced};

use js_lexer::token::Token;
use js_parser_descent::arrows::{arrow_of_one, arrow_rest};
use js_parser_descent::limits::MOST_ROOM;
use js_parser_descent::parsed::Parsed;
use js_parser_descent::primaries::function_at;
use js_parser_language::boxes::boxed;
use js_parser_readers::classes::expressions::{PrimaryStart, start_of};
use js_parser_readers::fault::ParseError;
use js_parser_readers::names::parameters_at;
use js_parser_readers::nodes::Nodes;
use js_parser_readers::token::tail;
use js_tree::tree::ArrowParameters;

/// A function expression or an arrow function, and the tokens after it. Other expressions are
/// refused at their first token.
///
/// # Errors
///
/// `Syntax` at the first token that doesn't go on with a function; `TooDeep` where its tree would
/// be more than `room` high below it; no memory.
pub fn function_code_at<'t, 's>(
    nodes: &mut Nodes,
    room: u32,
    tokens: &'t [Token<'s>],
) -> Parsed<'t, 's>
    requires { room < MOST_ROOM }
    ensures gives { ReadsExpression (reading.function_code_by (below room) (start (head_of (tokens_view tokens.now))) (tokens_view tokens.now)) result }
    ensures height { ExpressionWithin (room + 1) result }
    ensures placed { ExpressionPlaced nodes.old nodes.new (tokens_view tokens.now) result }
{
    match start_of(tokens) {
        PrimaryStart::Function => {
            let (tree, height, rest) = function_at(nodes, room, tokens, tail(tokens))?;
            Ok((boxed(nodes.alloc(), tree)?, height, rest))
        }
        PrimaryStart::Name(_) => arrow_of_one(nodes, room, tokens),
        PrimaryStart::Parenthesis => arrow_of_parameters(nodes, room, tokens),
        PrimaryStart::This
        | PrimaryStart::Number(_)
        | PrimaryStart::String(_)
        | PrimaryStart::Boolean(_)
        | PrimaryStart::Null => { Err(ParseError::Syntax { left: tokens.len() }) }
        PrimaryStart::Bracket | PrimaryStart::Brace | PrimaryStart::Other => {
            Err(ParseError::Syntax { left: tokens.len() })
        }
    }
}

// An arrow function with parameters in parentheses, of which none is named twice.
fn arrow_of_parameters<'t, 's>(
    nodes: &mut Nodes,
    room: u32,
    tokens: &'t [Token<'s>],
) -> Parsed<'t, 's>
    requires { room < MOST_ROOM }
    ensures gives { ReadsExpression (reading.function_code_by (below room) parenthesis (tokens_view tokens.now)) result }
    ensures height { ExpressionWithin (room + 1) result }
    ensures placed { ExpressionPlaced nodes.old nodes.new (tokens_view tokens.now) result }
{
    let (parameters, names, rest) = parameters_at(nodes.alloc(), tokens)?;
    arrow_rest(
        nodes,
        room,
        ArrowParameters::List(parameters),
        names,
        tokens,
        rest,
    )
}
