//! Tokens, lent from their source.

ghost use Rattle.std.specs.Prelude.{◌≡◌};
ghost use Rattle.js_lexer.specs.declared.token.TokenKind.TheVariants.{Number};
ghost use Rattle.js_lexer.specs.Numbers.{IsNumber};

use thiserror::Error;

/// What a token is: a name, a numeric literal, a string literal, one of the reserved words, or one
/// of the punctuators (ECMA-262, 12.7.2 and 12.8).
#[derive(Clone, Copy, Debug, PartialEq, Eq)]
pub enum TokenKind {
    /// A word that isn't reserved.
    Name,
    /// An integer literal in base 2, 8, 10 or 16.
    Number,
    /// A string literal in single or double quotes.
    String,
    /// `break`
    Break,
    /// `case`
    Case,
    /// `catch`
    Catch,
    /// `class`
    Class,
    /// `const`
    Const,
    /// `continue`
    Continue,
    /// `debugger`
    Debugger,
    /// `default`
    Default,
    /// `delete`
    Delete,
    /// `do`
    Do,
    /// `else`
    Else,
    /// `enum`
    Enum,
    /// `export`
    Export,
    /// `extends`
    Extends,
    /// `false`
    False,
    /// `finally`
    Finally,
    /// `for`
    For,
    /// `function`
    Function,
    /// `if`
    If,
    /// `import`
    Import,
    /// `in`
    In,
    /// `instanceof`
    Instanceof,
    /// `new`
    New,
    /// `null`
    Null,
    /// `return`
    Return,
    /// `super`
    Super,
    /// `switch`
    Switch,
    /// `this`
    This,
    /// `throw`
    Throw,
    /// `true`
    True,
    /// `try`
    Try,
    /// `typeof`
    Typeof,
    /// `var`
    Var,
    /// `void`
    Void,
    /// `while`
    While,
    /// `with`
    With,
    /// `let`
    Let,
    /// `static`
    Static,
    /// `implements`
    Implements,
    /// `interface`
    Interface,
    /// `package`
    Package,
    /// `private`
    Private,
    /// `protected`
    Protected,
    /// `public`
    Public,
    /// `yield`
    Yield,
    /// `await`
    Await,
    /// `eval`
    Eval,
    /// `arguments`
    Arguments,
    /// `{`
    LeftBrace,
    /// `}`
    RightBrace,
    /// `(`
    LeftParenthesis,
    /// `)`
    RightParenthesis,
    /// `[`
    LeftBracket,
    /// `]`
    RightBracket,
    /// `.`
    Dot,
    /// `;`
    Semicolon,
    /// `,`
    Comma,
    /// `<`
    LessThan,
    /// `>`
    GreaterThan,
    /// `<=`
    LessThanOrEqual,
    /// `>=`
    GreaterThanOrEqual,
    /// `==`
    Equal,
    /// `!=`
    NotEqual,
    /// `===`
    StrictEqual,
    /// `!==`
    StrictNotEqual,
    /// `+`
    Plus,
    /// `-`
    Minus,
    /// `*`
    Multiply,
    /// `/`
    Divide,
    /// `%`
    Remainder,
    /// `++`
    Increment,
    /// `--`
    Decrement,
    /// `<<`
    LeftShift,
    /// `>>`
    RightShift,
    /// `>>>`
    UnsignedRightShift,
    /// `&`
    BitwiseAnd,
    /// `|`
    BitwiseOr,
    /// `^`
    BitwiseXor,
    /// `!`
    LogicalNot,
    /// `~`
    BitwiseNot,
    /// `&&`
    LogicalAnd,
    /// `||`
    LogicalOr,
    /// `?`
    Question,
    /// `:`
    Colon,
    /// `=`
    Assign,
    /// `+=`
    AddAssign,
    /// `-=`
    SubtractAssign,
    /// `*=`
    MultiplyAssign,
    /// `/=`
    DivideAssign,
    /// `%=`
    RemainderAssign,
    /// `<<=`
    LeftShiftAssign,
    /// `>>=`
    RightShiftAssign,
    /// `>>>=`
    UnsignedRightShiftAssign,
    /// `&=`
    BitwiseAndAssign,
    /// `|=`
    BitwiseOrAssign,
    /// `^=`
    BitwiseXorAssign,
    /// `=>`
    Arrow,
}

/// A token, lent from its source.
#[derive(Clone, Copy)]
pub struct Token<'s> {
    /// What it is.
    pub kind: TokenKind,
    /// Its code units, a slice of the source.
    pub text: &'s [u16],
    /// How many units of the source stand before it.
    pub start: usize,
    /// Whether a line terminator stands between it and the token before it, also within a comment.
    pub newline_before: bool,
    // so `number_value` may be asked for its value
    pub ghost is_number: { kind ≡ Number → IsNumber text.now },
}

/// No token begins here, nor white space, a line terminator, a comment or the end.
#[derive(Clone, Copy, Debug, Error)]
#[error("no token begins at {at}")]
pub struct BadToken {
    /// How many units of the source stand before this place.
    pub at: usize,
}
