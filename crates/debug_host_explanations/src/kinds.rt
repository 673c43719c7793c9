//! Kinds of tokens.

use js_lexer::token::TokenKind;

/// Whether a text of a token is a word.
pub(crate) fn is_word(text: &[u16]) -> bool {
    match text {
        [first, ..] => {
            matches!(*first, 0x41..=0x5A | 0x61..=0x7A) || *first == 0x24 || *first == 0x5F
        }
        [] => false,
    }
}

/// Whether a token of this kind ends an expression. Closing parentheses and braces may, and aren't among these.
pub(crate) fn ends_expression(kind: TokenKind) -> bool {
    matches!(
        kind,
        TokenKind::Name
            | TokenKind::Number
            | TokenKind::String
            | TokenKind::This
            | TokenKind::True
            | TokenKind::False
            | TokenKind::Null
            | TokenKind::RightBracket
    )
}

/// Whether a token of this kind goes on with nothing that ends before it, so that it begins a statement.
pub(crate) fn begins_behind(kind: TokenKind) -> bool {
    matches!(
        kind,
        TokenKind::Name
            | TokenKind::Number
            | TokenKind::String
            | TokenKind::This
            | TokenKind::True
            | TokenKind::False
            | TokenKind::Null
            | TokenKind::LeftBrace
            | TokenKind::Let
            | TokenKind::Const
            | TokenKind::Function
            | TokenKind::If
            | TokenKind::For
            | TokenKind::Do
            | TokenKind::Return
            | TokenKind::Break
            | TokenKind::Continue
            | TokenKind::Throw
            | TokenKind::Try
            | TokenKind::Debugger
            | TokenKind::Typeof
            | TokenKind::Void
            | TokenKind::Delete
    )
}

/// Whether a token of this kind assigns.
pub(crate) fn is_assignment(kind: TokenKind) -> bool {
    matches!(
        kind,
        TokenKind::Assign
            | TokenKind::AddAssign
            | TokenKind::SubtractAssign
            | TokenKind::MultiplyAssign
            | TokenKind::DivideAssign
            | TokenKind::RemainderAssign
            | TokenKind::LeftShiftAssign
            | TokenKind::RightShiftAssign
            | TokenKind::UnsignedRightShiftAssign
            | TokenKind::BitwiseAndAssign
            | TokenKind::BitwiseOrAssign
            | TokenKind::BitwiseXorAssign
    )
}

/// Whether this is a word of ECMA-262 for a form that the language hasn't.
pub(crate) fn is_absent_word(kind: TokenKind) -> bool {
    matches!(
        kind,
        TokenKind::Case
            | TokenKind::Class
            | TokenKind::Default
            | TokenKind::Enum
            | TokenKind::Export
            | TokenKind::Extends
            | TokenKind::Import
            | TokenKind::In
            | TokenKind::Instanceof
            | TokenKind::New
            | TokenKind::Super
            | TokenKind::Switch
            | TokenKind::Var
            | TokenKind::With
            | TokenKind::Yield
            | TokenKind::Await
    )
}

/// Whether this is a word that strict code reserves, and no form has.
pub(crate) fn is_reserved_alone(kind: TokenKind) -> bool {
    matches!(
        kind,
        TokenKind::Static
            | TokenKind::Implements
            | TokenKind::Interface
            | TokenKind::Package
            | TokenKind::Private
            | TokenKind::Protected
            | TokenKind::Public
            | TokenKind::Eval
            | TokenKind::Arguments
    )
}
