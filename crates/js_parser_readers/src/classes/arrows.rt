//! What an arrow function begins with (ECMA-262, 15.3).

ghost use Rattle.std.specs.Prelude.{◌≡◌, true, IfOk};
ghost use Rattle.js_parser_language.specs.Tokens.{head_of};
ghost use Rattle.js_parser_readers.specs.Classes.{arrow_head, is_arrow, past_names};
ghost use Rattle.js_parser_readers.specs.Heads.{head_view, past_view};
ghost use Rattle.js_parser_readers.specs.Names.{texts};
ghost use Rattle.js_parser_readers.specs.Parsing.{are_fresh};
ghost use Rattle.js_parser_readers.specs.Reading.{with_names};
ghost use Rattle.js_parser_readers.specs.Views.{tokens_view};

use crate::classes::expressions::{PrimaryStart, start_of};
use crate::name_set::NameSet;
use crate::token::{is_next, is_on_line, tail};
use js_lexer::token::{Token, TokenKind};
use std::alloc::AllocError;

/// What an arrow function begins with.
#[derive(Clone, Copy)]
pub enum ArrowStart {
    /// One name without parentheses.
    Name,
    /// Names in parentheses. `true` where an arrow function alone begins so, since there is no name
    /// or a comma behind the last one: its arrow isn't looked at.
    List(bool),
}

/// Whether `=>` comes, on the line of the token before it.
fn is_arrow_next(tokens: &[Token<'_>]) -> bool
    ensures { result ≡ is_arrow (head_of (tokens_view tokens.now)) }
{
    is_on_line(tokens) && is_next(TokenKind::Arrow, tokens)
}

/// How names in parentheses end, behind the first parenthesis: whether an arrow alone can follow,
/// since there is no name or a comma behind the last one; and the tokens after the last
/// parenthesis. `None` where other tokens stand there.
fn past_names<'t, 's>(tokens: &'t [Token<'s>]) -> Option<(bool, &'t [Token<'s>])>
    ensures { past_view result ≡ past_names true (tokens_view tokens.now) }
{
    let mut at_name = true;
    let mut rest = tokens;
    while let [token, after @ ..] = rest {
        match token.kind {
            TokenKind::RightParenthesis => return Some((at_name, after)),
            TokenKind::Name if at_name => at_name = false,
            TokenKind::Comma if !at_name => at_name = true,
            _ => return None,
        }
        rest = after;
    }
    None
}

/// What arrow function the next tokens begin. `None` where they begin none.
pub fn arrow_head(tokens: &[Token<'_>]) -> Option<ArrowStart>
    ensures { head_view result ≡ arrow_head (tokens_view tokens.now) }
{
    match start_of(tokens) {
        PrimaryStart::Name(_) if is_arrow_next(tail(tokens)) => Some(ArrowStart::Name),
        PrimaryStart::Parenthesis => match past_names(tail(tokens)) {
            Some((true, _)) => Some(ArrowStart::List(true)),
            Some((false, rest)) if is_arrow_next(rest) => Some(ArrowStart::List(false)),
            _ => None,
        },
        _ => None,
    }
}

/// Takes names in order, up to one that is taken already. `true` where there is none, so they
/// differ from those taken before and from one another.
///
/// # Errors
///
/// No memory.
pub fn take_fresh<'s>(taken: &mut NameSet<'s>, names: &[&'s [u16]]) -> Result<bool, AllocError>
    ensures fresh { IfOk result (λ fresh. fresh ≡ are_fresh taken.old (texts names.now)) }
    ensures taken { IfOk result (λ fresh. fresh ≡ true → taken.new ≡ with_names taken.old (texts names.now)) }
{
    for name in names {
        if taken.contains(name) {
            return Ok(false);
        }
        taken.insert(name)?;
    }
    Ok(true)
}
