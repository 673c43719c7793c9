//! What the next token begins or goes on with in an expression.

ghost use Rattle.std.specs.Prelude.{◌≡◌};
ghost use Rattle.js_parser_language.specs.Tokens.{head_of};
ghost use Rattle.js_parser_readers.specs.Classes.{joint, link, operator, prefix, start, update_by, update_near};
ghost use Rattle.js_parser_readers.specs.Heads.{joint_view, link_view, prefix_view, start_view};
ghost use Rattle.js_parser_readers.specs.Views.{tokens_view};

use js_lexer::number::number_value;
use js_lexer::token::{Token, TokenKind};
use js_tree::integer::SafeInteger;
use js_tree_operators::operator::{
    AssignmentOperator, BinaryOperator, UnaryOperator, UpdateOperator,
};

/// What begins a PrimaryExpression (ECMA-262, 13.2).
#[derive(Clone, Copy)]
pub enum PrimaryStart<'s> {
    /// `this`
    This,
    /// A name, with its text.
    Name(&'s [u16]),
    /// A numeric literal, with its value.
    Number(SafeInteger),
    /// A string literal, with its text in quotes.
    String(&'s [u16]),
    /// `true` or `false`
    Boolean(bool),
    /// `null`
    Null,
    /// `[`
    Bracket,
    /// `{`
    Brace,
    /// `(`
    Parenthesis,
    /// `function`
    Function,
    /// Another token, or the end.
    Other,
}

/// What goes on with a call or a member (ECMA-262, 13.3).
#[derive(Clone, Copy)]
pub enum CallTail {
    /// `.`
    Dot,
    /// `[`
    Key,
    /// `(`
    Arguments,
}

/// What stands before an operand (ECMA-262, 13.4 and 13.5).
#[derive(Clone, Copy)]
pub enum Prefix {
    /// `delete`
    Delete,
    /// Any other operator of a UnaryExpression.
    Unary(UnaryOperator),
    /// `++` or `--`
    Update(UpdateOperator),
}

/// What goes on behind an operation (ECMA-262, 13.14 and 13.15).
#[derive(Clone, Copy)]
pub enum Joint {
    /// `?`
    Question,
    /// An assignment operator.
    Assigns(AssignmentOperator),
}

/// What the next token begins.
pub fn start_of<'s>(tokens: &[Token<'s>]) -> PrimaryStart<'s>
    ensures { start_view result ≡ start (head_of (tokens_view tokens.now)) }
{
    let [token, ..] = tokens else {
        return PrimaryStart::Other;
    };
    match token.kind {
        TokenKind::This => PrimaryStart::This,
        TokenKind::Name => PrimaryStart::Name(token.text),
        TokenKind::Number => PrimaryStart::Number(SafeInteger {
            value: number_value(token.text),
        }),
        TokenKind::String => PrimaryStart::String(token.text),
        TokenKind::True => PrimaryStart::Boolean(true),
        TokenKind::False => PrimaryStart::Boolean(false),
        TokenKind::Null => PrimaryStart::Null,
        TokenKind::LeftBracket => PrimaryStart::Bracket,
        TokenKind::LeftBrace => PrimaryStart::Brace,
        TokenKind::LeftParenthesis => PrimaryStart::Parenthesis,
        TokenKind::Function => PrimaryStart::Function,
        _ => PrimaryStart::Other,
    }
}

/// How the next token goes on with what stands before it. `None` where it doesn't.
pub fn link_of(tokens: &[Token<'_>]) -> Option<CallTail>
    ensures { link_view result ≡ link (head_of (tokens_view tokens.now)) }
{
    let [token, ..] = tokens else {
        return None;
    };
    match token.kind {
        TokenKind::Dot => Some(CallTail::Dot),
        TokenKind::LeftBracket => Some(CallTail::Key),
        TokenKind::LeftParenthesis => Some(CallTail::Arguments),
        _ => None,
    }
}

/// The operator of an UpdateExpression that a token of this kind is (ECMA-262, 13.4).
fn update_of(kind: TokenKind) -> Option<UpdateOperator>
    ensures { result ≡ update_by kind }
{
    match kind {
        TokenKind::Increment => Some(UpdateOperator::Increment),
        TokenKind::Decrement => Some(UpdateOperator::Decrement),
        _ => None,
    }
}

/// The update operator that comes next on the line of the token before it (ECMA-262, 13.4).
pub fn update_near(tokens: &[Token<'_>]) -> Option<UpdateOperator>
    ensures { result ≡ update_near (head_of (tokens_view tokens.now)) }
{
    match tokens {
        [token, ..] if !token.newline_before => update_of(token.kind),
        _ => None,
    }
}

/// The operator before an operand that the next token is.
pub fn prefix_of(tokens: &[Token<'_>]) -> Option<Prefix>
    ensures { prefix_view result ≡ prefix (head_of (tokens_view tokens.now)) }
{
    let [token, ..] = tokens else {
        return None;
    };
    let prefix = match token.kind {
        TokenKind::Delete => Prefix::Delete,
        TokenKind::Void => Prefix::Unary(UnaryOperator::Void),
        TokenKind::Typeof => Prefix::Unary(UnaryOperator::Typeof),
        TokenKind::Plus => Prefix::Unary(UnaryOperator::Plus),
        TokenKind::Minus => Prefix::Unary(UnaryOperator::Minus),
        TokenKind::BitwiseNot => Prefix::Unary(UnaryOperator::BitwiseNot),
        TokenKind::LogicalNot => Prefix::Unary(UnaryOperator::LogicalNot),
        TokenKind::Increment => Prefix::Update(UpdateOperator::Increment),
        TokenKind::Decrement => Prefix::Update(UpdateOperator::Decrement),
        _ => return None,
    };
    Some(prefix)
}

/// The operator between two operands that the next token is (ECMA-262, 13.6 to 13.13).
pub fn operator_of(tokens: &[Token<'_>]) -> Option<BinaryOperator>
    ensures { result ≡ operator (head_of (tokens_view tokens.now)) }
{
    let [token, ..] = tokens else {
        return None;
    };
    let operator = match token.kind {
        TokenKind::LogicalOr => BinaryOperator::LogicalOr,
        TokenKind::LogicalAnd => BinaryOperator::LogicalAnd,
        TokenKind::BitwiseOr => BinaryOperator::BitwiseOr,
        TokenKind::BitwiseXor => BinaryOperator::BitwiseXor,
        TokenKind::BitwiseAnd => BinaryOperator::BitwiseAnd,
        TokenKind::Equal => BinaryOperator::Equal,
        TokenKind::NotEqual => BinaryOperator::NotEqual,
        TokenKind::StrictEqual => BinaryOperator::StrictEqual,
        TokenKind::StrictNotEqual => BinaryOperator::StrictNotEqual,
        TokenKind::LessThan => BinaryOperator::LessThan,
        TokenKind::GreaterThan => BinaryOperator::GreaterThan,
        TokenKind::LessThanOrEqual => BinaryOperator::LessThanOrEqual,
        TokenKind::GreaterThanOrEqual => BinaryOperator::GreaterThanOrEqual,
        TokenKind::LeftShift => BinaryOperator::LeftShift,
        TokenKind::RightShift => BinaryOperator::RightShift,
        TokenKind::UnsignedRightShift => BinaryOperator::UnsignedRightShift,
        TokenKind::Plus => BinaryOperator::Add,
        TokenKind::Minus => BinaryOperator::Subtract,
        TokenKind::Multiply => BinaryOperator::Multiply,
        TokenKind::Divide => BinaryOperator::Divide,
        TokenKind::Remainder => BinaryOperator::Remainder,
        _ => return None,
    };
    Some(operator)
}

/// How the next token goes on behind an operation. `None` where it doesn't.
pub fn joint_of(tokens: &[Token<'_>]) -> Option<Joint>
    ensures { joint_view result ≡ joint (head_of (tokens_view tokens.now)) }
{
    let [token, ..] = tokens else {
        return None;
    };
    let operator = match token.kind {
        TokenKind::Question => return Some(Joint::Question),
        TokenKind::Assign => AssignmentOperator::Assign,
        TokenKind::AddAssign => AssignmentOperator::Add,
        TokenKind::SubtractAssign => AssignmentOperator::Subtract,
        TokenKind::MultiplyAssign => AssignmentOperator::Multiply,
        TokenKind::DivideAssign => AssignmentOperator::Divide,
        TokenKind::RemainderAssign => AssignmentOperator::Remainder,
        TokenKind::LeftShiftAssign => AssignmentOperator::LeftShift,
        TokenKind::RightShiftAssign => AssignmentOperator::RightShift,
        TokenKind::UnsignedRightShiftAssign => AssignmentOperator::UnsignedRightShift,
        TokenKind::BitwiseAndAssign => AssignmentOperator::BitwiseAnd,
        TokenKind::BitwiseOrAssign => AssignmentOperator::BitwiseOr,
        TokenKind::BitwiseXorAssign => AssignmentOperator::BitwiseXor,
        _ => return None,
    };
    Some(Joint::Assigns(operator))
}
