//! Names and words at the front of the tokens.

ghost use Rattle.std.specs.Prelude.{◌≡◌, IfOk, true, [], ◌∷◌};
ghost use Rattle.js_parser_language.specs.Tokens.{tail_of, head_of, Symbol, IsNext};
ghost use Rattle.js_parser_readers.specs.Giving.{Gives};
ghost use Rattle.js_parser_readers.specs.Names.{texts};
ghost use Rattle.js_parser_readers.specs.Productions as productions;
ghost use Rattle.js_parser_readers.specs.Reading as reading;
ghost use Rattle.js_parser_readers.specs.Views.{tokens_view};
ghost use Rattle.js_parser_language.specs.Places.{stands, node_of};
ghost use Rattle.js_parser_readers.specs.Placed.{Placed};

use crate::classes::lists::{AfterElement, after_of, is_word};
use crate::fault::ParseError;
use crate::nodes::Nodes;
use crate::token::{expect, is_next, tail};
use cdp_text::units::Units;
use js_lexer::token::{Token, TokenKind};
use js_tree::names::ParameterNames;
use js_tree::node::NodeId;
use std::alloc::{AllocError, Global};

/// A name, lent from its source, and the tokens after it.
///
/// # Errors
///
/// `Syntax` at the next token where it is no name (ECMA-262, 13.1, Identifier).
#[tactic(auto, unfolding(crate::specs::Reading::name_at))]
pub fn name_at<'t, 's>(tokens: &'t [Token<'s>]) -> Result<(&'s [u16], &'t [Token<'s>]), ParseError>
    ensures { Gives (λ x. (x.0.now, tokens_view x.1.now)) result (reading.name_at (tokens_view tokens.now)) }
{
    match tokens {
        [token, rest @ ..] if token.kind == TokenKind::Name => Ok((token.text, rest)),
        _ => Err(ParseError::Syntax { left: tokens.len() }),
    }
}

/// A name or a reserved word, lent from its source, and the tokens after it.
///
/// # Errors
///
/// `Syntax` at the next token where it is neither (ECMA-262, 12.7, IdentifierName).
#[tactic(auto, unfolding(crate::specs::Reading::word_at))]
pub fn word_at<'t, 's>(tokens: &'t [Token<'s>]) -> Result<(&'s [u16], &'t [Token<'s>]), ParseError>
    ensures { Gives (λ x. (x.0.now, tokens_view x.1.now)) result (reading.word_at (tokens_view tokens.now)) }
{
    match tokens {
        [token, rest @ ..] if is_word(token.kind) => Ok((token.text, rest)),
        _ => Err(ParseError::Syntax { left: tokens.len() }),
    }
}

/// A token of this kind on the line of the token before it.
///
/// # Errors
///
/// `Syntax` at the next token where it is none.
#[tactic(auto, unfolding(crate::specs::Reading::expect_near))]
pub fn expect_near<'t, 's>(
    kind: TokenKind,
    tokens: &'t [Token<'s>],
) -> Result<&'t [Token<'s>], ParseError>
    ensures { Gives (λ rest. (tt, tokens_view rest.now)) result (reading.expect_near kind (tokens_view tokens.now)) }
{
    match tokens {
        [token, ..] if token.newline_before => Err(ParseError::Syntax { left: tokens.len() }),
        _ => expect(kind, tokens),
    }
}

/// The node of one token, and the tokens after it.
pub fn single<'t, 's>(
    nodes: &mut Nodes,
    tokens: &'t [Token<'s>],
) -> Result<(NodeId, &'t [Token<'s>]), AllocError>
    ensures rest { IfOk result (λ x. tokens_view x.1.now ≡ tail_of (tokens_view tokens.now)) }
    ensures placed { (s : Symbol) → IsNext s (head_of (tokens_view tokens.now)) → IfOk result (λ x. Placed true nodes.old nodes.new (node_of x.0 ((stands s ∷ []) ∷ [])) (tokens_view tokens.now) (tokens_view x.1.now)) }
{
    let rest = tail(tokens);
    Ok((nodes.add(tokens, rest)?, rest))
}

/// Names in parentheses, behind the first of these, lent from their source; a comma may stand
/// behind the last. And the tokens after them.
///
/// # Errors
///
/// `Syntax` at the first token that doesn't go on so.
pub fn names_before<'t, 's>(
    alloc: Global,
    tokens: &'t [Token<'s>],
) -> Result<(Vec<&'s [u16]>, &'t [Token<'s>]), ParseError>
    ensures { Gives (λ x. (texts x.0.items, tokens_view x.1.now)) result (productions.names_before (tokens_view tokens.now)) }
{
    let mut names = Vec::new(alloc);
    let mut rest = tokens;
    'names: loop {
        if is_next(TokenKind::RightParenthesis, rest) {
            return Ok((names, tail(rest)));
        }
        let (name, later) = name_at(rest)?;
        names.push(name)?;
        match after_of(TokenKind::RightParenthesis, later) {
            Some(AfterElement::GoesOn) => rest = tail(later),
            Some(AfterElement::Ends) => return Ok((names, tail(later))),
            None => return Err(ParseError::Syntax { left: later.len() }),
        }
    }
}

/// Copies of names, in order.
pub fn names_of(alloc: Global, names: &[&[u16]]) -> Result<ParameterNames, AllocError>
    ensures { IfOk result (λ copies. copies ≡ texts names.now) }
{
    let mut copies = Vec::new(alloc);
    for name in names {
        copies.push(Units::from_slice(alloc, name)?)?;
    }
    Ok(ParameterNames::from_vec(copies))
}
