//! Names that differ from those before them.

ghost use Rattle.std.specs.Prelude.{◌≡◌, [], suc, length, IfOk};
ghost use Rattle.js_lexer.specs.declared.token.TokenKind.TheVariants as kinds;
ghost use Rattle.js_parser_readers.specs.Giving.{Gives};
ghost use Rattle.js_parser_readers.specs.Productions as productions;
ghost use Rattle.js_parser_readers.specs.Reading as reading;
ghost use Rattle.js_parser_readers.specs.Reading.{with_names};
ghost use Rattle.js_parser_readers.specs.Views.{tokens_view};

use crate::classes::lists::{AfterElement, after_of};
use crate::classes::statements::is_name;
use crate::fault::ParseError;
use crate::name_set::NameSet;
use crate::token::{expect, is_next, tail};
use crate::words::name_at;
use cdp_text::units::Units;
use js_lexer::token::{Token, TokenKind};
use js_tree::names::ParameterNames;
use std::alloc::Global;

/// A name that differs from these, lent from its source, and the tokens after it.
///
/// # Errors
///
/// `Syntax` at the next token where it is no name or one of these.
#[tactic(auto, using(crate::proofs::NewNameLemmas::fresh_laws))]
pub fn fresh_name<'t, 's>(
    names: &NameSet<'_>,
    tokens: &'t [Token<'s>],
) -> Result<(&'s [u16], &'t [Token<'s>]), ParseError>
    ensures { Gives (λ x. (x.0.now, tokens_view x.1.now)) result (reading.fresh_name names.now (tokens_view tokens.now)) }
{
    let (name, rest) = name_at(tokens)?;
    if names.contains(name) {
        return Err(ParseError::Syntax { left: tokens.len() });
    }
    Ok((name, rest))
}

/// The tokens after the next one, which is to be this name.
///
/// # Errors
///
/// `Syntax` at the next token where it is another one or the end.
#[tactic(auto, unfolding(crate::specs::Productions::expect_name))]
pub fn expect_name<'t, 's>(
    name: &[u16],
    tokens: &'t [Token<'s>],
) -> Result<&'t [Token<'s>], ParseError>
    ensures { Gives (λ rest. (tt, tokens_view rest.now)) result (productions.expect_name name.now (tokens_view tokens.now)) }
{
    if is_name(name, tokens) {
        Ok(tail(tokens))
    } else {
        Err(ParseError::Syntax { left: tokens.len() })
    }
}

/// The parameters of a function in parentheses, the same names as a set, and the tokens after them
/// (ECMA-262, 15.1, FormalParameters).
///
/// # Errors
///
/// `Syntax` at the first token that doesn't go on with them, or at a name for the second time.
#[tactic(auto, unfolding(crate::specs::Productions::parameters_at))]
pub fn parameters_at<'t, 's>(
    alloc: Global,
    tokens: &'t [Token<'s>],
) -> Result<(ParameterNames, NameSet<'s>, &'t [Token<'s>]), ParseError>
    ensures gives { Gives (λ x. (x.0, tokens_view x.2.now)) result (productions.parameters_at (tokens_view tokens.now)) }
    ensures names { IfOk result (λ x. x.1 ≡ with_names [] x.0) }
{
    let rest = expect(TokenKind::LeftParenthesis, tokens)?;
    parameters_before(alloc, rest)
}

// Parameters up to the parenthesis that ends them, with the same names as a set.
fn parameters_before<'t, 's>(
    alloc: Global,
    tokens: &'t [Token<'s>],
) -> Result<(ParameterNames, NameSet<'s>, &'t [Token<'s>]), ParseError>
    ensures gives { Gives (λ x. (x.0, tokens_view x.2.now)) result (reading.elements reading.fresh_name reading.with_name kinds.RightParenthesis (suc (length (tokens_view tokens.now))) [] (tokens_view tokens.now)) }
    ensures names { IfOk result (λ x. x.1 ≡ with_names [] x.0) }
{
    let mut rest = tokens;
    let mut parameters = Vec::new(alloc);
    let mut names = NameSet::new(alloc);
    'parameters: loop {
        if is_next(TokenKind::RightParenthesis, rest) {
            return Ok((ParameterNames::from_vec(parameters), names, tail(rest)));
        }
        let (name, later) = fresh_name(&names, rest)?;
        parameters.push(Units::from_slice(alloc, name)?)?;
        names.insert(name)?;
        match after_of(TokenKind::RightParenthesis, later) {
            Some(AfterElement::GoesOn) => rest = tail(later),
            Some(AfterElement::Ends) => {
                return Ok((ParameterNames::from_vec(parameters), names, tail(later)));
            }
            None => return Err(ParseError::Syntax { left: later.len() }),
        }
    }
}
