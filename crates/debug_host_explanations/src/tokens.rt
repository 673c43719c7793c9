//! Why a token can't stand where it does.

use crate::bracket::{Head, Hold, List};
use crate::kinds::{
    begins_behind, ends_expression, is_absent_word, is_assignment, is_reserved_alone, is_word,
};
use crate::reason::Reason;
use crate::walk::Walk;
use js_lexer::token::{Token, TokenKind};

/// What the tokens at a place are spelled as.
#[derive(Clone, Copy)]
pub(crate) struct Spelled<'t> {
    /// The token at the place.
    pub(crate) token: &'t str,
    /// The token before it; empty where there is none.
    pub(crate) last: &'t str,
    /// What the source goes on with from the token on.
    pub(crate) ahead: &'t str,
    /// What the source goes on with from the token before it on, where nothing stands between the two.
    pub(crate) joined: &'t str,
}

/// Why a token can't stand behind these tokens. The name of a declaration can't where the scope has it already; that is
/// no matter of this call.
pub(crate) fn token_reason<'t>(
    walk: &Walk<'_>,
    token: &Token<'_>,
    spelled: Spelled<'t>,
) -> Reason<'t> {
    if let Some(reason) = form_reason(walk, token, spelled) {
        return reason;
    }
    if let Some(reason) = word_reason(walk, token, spelled.token) {
        return reason;
    }
    if let Some(reason) = place_reason(walk, token, spelled) {
        return reason;
    }
    if misses_semicolon(walk, token) {
        Reason::Semicolon(spelled.token)
    } else {
        Reason::Unexpected(spelled.token)
    }
}

/// The form to which a token belongs that the language hasn't.
fn form_reason<'t>(walk: &Walk<'_>, token: &Token<'_>, spelled: Spelled<'t>) -> Option<Reason<'t>> {
    match absent_operator(spelled) {
        Some(operator) => Some(Reason::NoForm(operator)),
        None => Some(Reason::NoForm(absent_form(walk, token, spelled.last)?)),
    }
}

/// The form that the language hasn't to which a token belongs behind one of this text.
fn absent_form(walk: &Walk<'_>, token: &Token<'_>, last: &str) -> Option<&'static str> {
    let kind = token.kind;
    match walk.kind {
        Some(TokenKind::Name) => form_behind_name(walk, token, last),
        Some(TokenKind::Let) | Some(TokenKind::Const) if opens_pattern(kind) => {
            Some("patterns: each name is declared by itself")
        }
        Some(TokenKind::Function) if kind == TokenKind::Multiply => Some("generators"),
        before if is_slash(kind) && awaits_operand(before) => Some("regular expressions"),
        _ => None,
    }
}

/// The form that the language hasn't to which a token belongs behind this name.
fn form_behind_name(walk: &Walk<'_>, token: &Token<'_>, name: &str) -> Option<&'static str> {
    let kind = token.kind;
    if kind == TokenKind::Colon {
        return if is_label_place(walk) {
            Some("labels")
        } else {
            None
        };
    }
    if !is_word(token.text) {
        return None;
    }
    if name == "async" && !token.newline_before {
        Some("'async'")
    } else if walk.is_behind_key() && (name == "get" || name == "set") {
        Some("accessors")
    } else {
        None
    }
}

/// Whether a token of this kind opens a pattern where a name is to stand.
fn opens_pattern(kind: TokenKind) -> bool {
    matches!(kind, TokenKind::LeftBracket | TokenKind::LeftBrace)
}

/// Whether a token of this kind may begin a regular expression.
fn is_slash(kind: TokenKind) -> bool {
    matches!(kind, TokenKind::Divide | TokenKind::DivideAssign)
}

/// The operator that the language hasn't with which the source goes on, in quotes.
fn absent_operator(spelled: Spelled<'_>) -> Option<&'static str> {
    let joined = spelled.joined;
    if spelled.ahead.starts_with("...") {
        Some("'...'")
    } else if joined.starts_with("**") {
        Some("'**'")
    } else if joined.starts_with("??") {
        Some("'??'")
    } else if joined.starts_with("?.") {
        Some("'?.'")
    } else if joined.starts_with("&&=") {
        Some("'&&='")
    } else if joined.starts_with("||=") {
        Some("'||='")
    } else {
        None
    }
}

/// Whether the last token is a name that begins a statement.
fn is_label_place(walk: &Walk<'_>) -> bool {
    walk.current.has_statements()
        && matches!(
            walk.before,
            None | Some(TokenKind::Semicolon)
                | Some(TokenKind::LeftBrace)
                | Some(TokenKind::RightBrace)
        )
}

/// Whether an operand comes next behind a token of this kind.
fn awaits_operand(last: Option<TokenKind>) -> bool {
    match last {
        None => true,
        Some(last) => !ends_expression(last) && !may_end_expression(last),
    }
}

/// Whether a token of this kind may end an expression, or a property's name comes behind it.
fn may_end_expression(kind: TokenKind) -> bool {
    matches!(
        kind,
        TokenKind::RightParenthesis
            | TokenKind::RightBrace
            | TokenKind::Dot
            | TokenKind::Increment
            | TokenKind::Decrement
    )
}

/// Why a word can't stand here.
fn word_reason<'t>(walk: &Walk<'_>, token: &Token<'_>, text: &'t str) -> Option<Reason<'t>> {
    let kind = token.kind;
    if !is_word(token.text) || kind == TokenKind::Name {
        return None;
    }
    if is_reserved_alone(kind) || names_next(walk) {
        return Some(Reason::Reserved(text));
    }
    if is_absent_word(kind) {
        return Some(Reason::NoWord(text));
    }
    match kind {
        TokenKind::Break | TokenKind::Continue if !is_looping(walk, kind) => {
            Some(Reason::OutsideLoop(text))
        }
        TokenKind::Return if !walk.current.in_function => Some(Reason::OutsideFunction),
        TokenKind::Let | TokenKind::Const | TokenKind::Function if is_part_next(walk) => {
            Some(Reason::Braces)
        }
        _ => None,
    }
}

/// Whether a name comes next that is declared by it.
pub(crate) fn names_next(walk: &Walk<'_>) -> bool {
    walk.is_declaring() && walk.current.hold != Hold::Parentheses(Head::Other)
}

/// Whether a word that comes next may stand in a loop of its function.
fn is_looping(walk: &Walk<'_>, kind: TokenKind) -> bool {
    if walk.begins_statement(kind) {
        walk.current.in_loop
    } else {
        walk.current.is_looping()
    }
}

/// Whether the part of an `if` or of a loop comes next.
fn is_part_next(walk: &Walk<'_>) -> bool {
    match walk.kind {
        Some(TokenKind::RightParenthesis) => matches!(walk.closed, Head::Test | Head::For),
        Some(TokenKind::Else) | Some(TokenKind::Do) => true,
        _ => false,
    }
}

/// Why a token can't stand behind the last one.
fn place_reason<'t>(
    walk: &Walk<'_>,
    token: &Token<'_>,
    spelled: Spelled<'t>,
) -> Option<Reason<'t>> {
    let kind = token.kind;
    if misses_value(walk, kind) {
        return Some(Reason::NoValue(spelled.last));
    }
    if !is_assignment(kind) {
        return None;
    }
    match walk.current.hold {
        Hold::Parentheses(Head::Function) => Some(Reason::Default),
        Hold::Object | Hold::Parentheses(Head::Catch) => None,
        _ if is_behind_expression(walk) => Some(Reason::NoTarget(spelled.token)),
        _ => None,
    }
}

/// Whether the last token is the name of a constant, and a token of this kind gives it no value.
fn misses_value(walk: &Walk<'_>, kind: TokenKind) -> bool {
    if walk.current.list != List::Const || walk.kind != Some(TokenKind::Name) {
        return false;
    }
    if !matches!(walk.before, Some(TokenKind::Const) | Some(TokenKind::Comma)) {
        return false;
    }
    walk.current.has_statements() || matches!(kind, TokenKind::Semicolon | TokenKind::Comma)
}

/// Whether the last token ends an expression.
fn is_behind_expression(walk: &Walk<'_>) -> bool {
    match walk.kind {
        Some(TokenKind::RightParenthesis) => walk.closed == Head::Other,
        Some(last) => ends_expression(last),
        None => false,
    }
}

/// Whether a token stands on the line of an expression that may end before it, and begins a statement.
fn misses_semicolon(walk: &Walk<'_>, token: &Token<'_>) -> bool {
    walk.current.has_statements()
        && !token.newline_before
        && is_behind_expression(walk)
        && (begins_behind(token.kind) || token.kind == TokenKind::Else)
}
