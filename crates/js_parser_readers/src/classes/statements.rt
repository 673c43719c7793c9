//! What the next tokens begin or end in a statement (ECMA-262, 14).

ghost use Rattle.std.specs.Prelude.{◌≡◌};
ghost use Rattle.js_parser_language.specs.Tokens as spec;
ghost use Rattle.js_parser_language.specs.Tokens.{absent, head_of};
ghost use Rattle.js_parser_readers.specs.Classes.{ends_return, first, for_head, is_name};
ghost use Rattle.js_parser_readers.specs.Heads.{edge_view, end_view, first_view, for_head_view};
ghost use Rattle.js_parser_readers.specs.Views.{tokens_view};

use crate::classes::lists::is_name_next;
use crate::token::{is_next, tail};
use js_lexer::token::{Token, TokenKind};

/// What begins a statement or a declaration.
#[derive(Clone, Copy)]
pub enum StatementStart {
    /// `{`
    Block,
    /// `let`, or `const` where `constant` is true.
    Lexical { constant: bool },
    /// `;`
    Semicolon,
    /// `if`
    If,
    /// `do`
    Do,
    /// `while`
    While,
    /// `for`
    For,
    /// `continue`
    Continue,
    /// `break`
    Break,
    /// `return`
    Return,
    /// `throw`
    Throw,
    /// `try`
    Try,
    /// `debugger`
    Debugger,
    /// `function`
    Function,
    /// Another token, or the end.
    Expression,
}

/// What the head of a `for` begins with, behind its parenthesis (ECMA-262, 14.7.4 and 14.7.5).
#[derive(Clone, Copy)]
pub enum ForHead {
    /// `let` or `const`, a name and `of`.
    Each { constant: bool },
    /// `let` or `const`.
    Declares { constant: bool },
}

/// What the last token of an expression ends.
#[derive(Clone, Copy)]
pub enum ExpressionEnd {
    /// Any other expression.
    Plain,
    /// An arrow function with a body in braces.
    Braces,
    /// A postfix `++` or `--`.
    Update,
}

/// What a statement ends in before its semicolon (ECMA-262, 12.10).
#[derive(Clone, Copy)]
pub enum StatementEnd {
    /// An expression, whose last token ends this.
    Expression(ExpressionEnd),
    /// A keyword, or a declared name without initializer.
    Word,
    /// The `)` of a `do`.
    Do,
}

/// The name `of`, in code units.
pub const OF: &[u16] = &[0x6F, 0x66];

/// What the next token begins.
pub fn first_of(tokens: &[Token<'_>]) -> StatementStart
    ensures { first_view result ≡ first (head_of (tokens_view tokens.now)) }
{
    let [token, ..] = tokens else {
        return StatementStart::Expression;
    };
    match token.kind {
        TokenKind::LeftBrace => StatementStart::Block,
        TokenKind::Let => StatementStart::Lexical { constant: false },
        TokenKind::Const => StatementStart::Lexical { constant: true },
        TokenKind::Semicolon => StatementStart::Semicolon,
        TokenKind::If => StatementStart::If,
        TokenKind::Do => StatementStart::Do,
        TokenKind::While => StatementStart::While,
        TokenKind::For => StatementStart::For,
        TokenKind::Continue => StatementStart::Continue,
        TokenKind::Break => StatementStart::Break,
        TokenKind::Return => StatementStart::Return,
        TokenKind::Throw => StatementStart::Throw,
        TokenKind::Try => StatementStart::Try,
        TokenKind::Debugger => StatementStart::Debugger,
        TokenKind::Function => StatementStart::Function,
        _ => StatementStart::Expression,
    }
}

/// Whether a token of this kind goes on with an expression which ends so, also on a new line.
fn continues(edge: ExpressionEnd, kind: TokenKind) -> bool
    ensures { result ≡ spec.continues (edge_view edge) kind }
{
    match edge {
        ExpressionEnd::Plain => matches!(
            kind,
            TokenKind::LeftParenthesis | TokenKind::LeftBracket | TokenKind::Plus | TokenKind::Minus
        ),
        ExpressionEnd::Update => matches!(kind, TokenKind::Plus | TokenKind::Minus),
        ExpressionEnd::Braces => false,
    }
}

/// Whether the semicolon of a statement that ends so may be absent before the next token or the
/// end of the source (ECMA-262, 12.10).
pub(crate) fn is_absent(end: StatementEnd, tokens: &[Token<'_>]) -> bool
    ensures { result ≡ absent (end_view end) (head_of (tokens_view tokens.now)) }
{
    let [token, ..] = tokens else {
        return true;
    };
    match (token.kind, end) {
        (TokenKind::Semicolon, _) => false,
        (TokenKind::RightBrace, _) | (_, StatementEnd::Do) => true,
        (_, StatementEnd::Word) => token.newline_before,
        (kind, StatementEnd::Expression(edge)) => token.newline_before && !continues(edge, kind),
    }
}

/// Whether `return` ends here, since no value follows it on its line (ECMA-262, 14.10).
pub fn ends_return(tokens: &[Token<'_>]) -> bool
    ensures { result ≡ ends_return (head_of (tokens_view tokens.now)) }
{
    is_next(TokenKind::Semicolon, tokens) || is_absent(StatementEnd::Word, tokens)
}

/// Whether the next token is this name.
pub(crate) fn is_name(name: &[u16], tokens: &[Token<'_>]) -> bool
    ensures { result ≡ is_name name.now (head_of (tokens_view tokens.now)) }
{
    match tokens {
        [token, ..] if token.kind == TokenKind::Name => token.text == name,
        _ => false,
    }
}

/// What the next tokens begin in the head of a `for`. `None` where it declares nothing.
pub fn for_head_of(tokens: &[Token<'_>]) -> Option<ForHead>
    ensures { for_head_view result ≡ for_head (tokens_view tokens.now) }
{
    let StatementStart::Lexical { constant } = first_of(tokens) else {
        return None;
    };
    let names = tail(tokens);
    if is_name_next(names) && is_name(OF, tail(names)) {
        Some(ForHead::Each { constant })
    } else {
        Some(ForHead::Declares { constant })
    }
}
