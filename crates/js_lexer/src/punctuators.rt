//! Punctuators.

ghost use Rattle.std.specs.Prelude.{◌≡◌, ◌≤◌, length, IfSome};
ghost use Rattle.js_lexer.specs.Punctuators.{punctuators};
ghost use Rattle.js_lexer.specs.Spellings.{first_in};

use crate::spelling;
use crate::token::TokenKind;

/// The punctuators (ECMA-262, 12.8), the longest first.
const PUNCTUATORS: [(TokenKind, &str); 49] = [
    (TokenKind::UnsignedRightShiftAssign, ">>>="),
    (TokenKind::StrictEqual, "==="),
    (TokenKind::StrictNotEqual, "!=="),
    (TokenKind::UnsignedRightShift, ">>>"),
    (TokenKind::LeftShiftAssign, "<<="),
    (TokenKind::RightShiftAssign, ">>="),
    (TokenKind::LessThanOrEqual, "<="),
    (TokenKind::GreaterThanOrEqual, ">="),
    (TokenKind::Equal, "=="),
    (TokenKind::NotEqual, "!="),
    (TokenKind::Increment, "++"),
    (TokenKind::Decrement, "--"),
    (TokenKind::LeftShift, "<<"),
    (TokenKind::RightShift, ">>"),
    (TokenKind::LogicalAnd, "&&"),
    (TokenKind::LogicalOr, "||"),
    (TokenKind::AddAssign, "+="),
    (TokenKind::SubtractAssign, "-="),
    (TokenKind::MultiplyAssign, "*="),
    (TokenKind::DivideAssign, "/="),
    (TokenKind::RemainderAssign, "%="),
    (TokenKind::BitwiseAndAssign, "&="),
    (TokenKind::BitwiseOrAssign, "|="),
    (TokenKind::BitwiseXorAssign, "^="),
    (TokenKind::Arrow, "=>"),
    (TokenKind::LeftBrace, "{"),
    (TokenKind::RightBrace, "}"),
    (TokenKind::LeftParenthesis, "("),
    (TokenKind::RightParenthesis, ")"),
    (TokenKind::LeftBracket, "["),
    (TokenKind::RightBracket, "]"),
    (TokenKind::Dot, "."),
    (TokenKind::Semicolon, ";"),
    (TokenKind::Comma, ","),
    (TokenKind::LessThan, "<"),
    (TokenKind::GreaterThan, ">"),
    (TokenKind::Plus, "+"),
    (TokenKind::Minus, "-"),
    (TokenKind::Multiply, "*"),
    (TokenKind::Divide, "/"),
    (TokenKind::Remainder, "%"),
    (TokenKind::BitwiseAnd, "&"),
    (TokenKind::BitwiseOr, "|"),
    (TokenKind::BitwiseXor, "^"),
    (TokenKind::LogicalNot, "!"),
    (TokenKind::BitwiseNot, "~"),
    (TokenKind::Question, "?"),
    (TokenKind::Colon, ":"),
    (TokenKind::Assign, "="),
];

/// The longest punctuator at the front, with its length.
pub fn punctuator(units: &[u16]) -> Option<(TokenKind, usize)>
    ensures longest { result ≡ first_in punctuators units.now }
    ensures within { IfSome result (λ t. t.1 ≤ length units.now) }
{
    spelling::first_in(&PUNCTUATORS, units)
}
