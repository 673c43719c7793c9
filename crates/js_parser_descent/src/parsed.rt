//! What the functions of the parser answer.

ghost use Rattle.std.specs.Prelude.{◌≡◌, max};

use js_lexer::token::Token;
use js_parser_readers::fault::ParseError;
use js_tree::names::ParameterNames;
use js_tree::tree::{
    Block, Catch, Declarator, Declarators, Expr, Exprs, PropertyDefinition, PropertyDefinitions,
    PropertyName, Stmt, Stmts,
};

/// An expression, its height, and the tokens after it. It has memory of its own: what is held while reading goes on is
/// small.
pub type Parsed<'t, 's> = Result<(Box<Expr>, u32, &'t [Token<'s>]), ParseError>;

/// A primary expression, its height, and the tokens after it.
pub type ParsedPrimary<'t, 's> = Result<(Expr, u32, &'t [Token<'s>]), ParseError>;

/// Expressions, the greatest of their heights, and the tokens after them.
pub type ParsedExpressions<'t, 's> = Result<(Exprs, u32, &'t [Token<'s>]), ParseError>;

/// A vector of expressions, the greatest of their heights, and the tokens after them.
pub type ParsedItems<'t, 's> = Result<(Vec<Expr>, u32, &'t [Token<'s>]), ParseError>;

/// A key of an object literal, its height, and the tokens after it.
pub type ParsedKey<'t, 's> = Result<(PropertyName, u32, &'t [Token<'s>]), ParseError>;

/// A member of an object literal, its height, and the tokens after it.
pub type ParsedProperty<'t, 's> = Result<(PropertyDefinition, u32, &'t [Token<'s>]), ParseError>;

/// The members of an object literal, the greatest of their heights, and the tokens after them.
pub type ParsedProperties<'t, 's> = Result<(PropertyDefinitions, u32, &'t [Token<'s>]), ParseError>;

/// A vector of members, the greatest of their heights, and the tokens after them.
pub type ParsedMembers<'t, 's> = Result<
    (Vec<PropertyDefinition>, u32, &'t [Token<'s>]),
    ParseError,
>;

/// A statement, its height, and the tokens after it.
pub type ParsedStatement<'t, 's> = Result<(Stmt, u32, &'t [Token<'s>]), ParseError>;

/// A statement within another one, its height, and the tokens after it. It has memory of its own.
pub type ParsedSubstatement<'t, 's> = Result<(Box<Stmt>, u32, &'t [Token<'s>]), ParseError>;

/// Statements, their height, and the tokens after them.
pub type ParsedStatements<'t, 's> = Result<(Stmts, u32, &'t [Token<'s>]), ParseError>;

/// A block, its height, and the tokens after it.
pub type ParsedBlock<'t, 's> = Result<(Block, u32, &'t [Token<'s>]), ParseError>;

/// An expression that may be left out, its height, and the tokens after it.
pub type ParsedOptional<'t, 's> = Result<(Option<Box<Expr>>, u32, &'t [Token<'s>]), ParseError>;

/// A declared name, its height, and the tokens after it.
pub type ParsedDeclarator<'t, 's> = Result<(Declarator, u32, &'t [Token<'s>]), ParseError>;

/// The names of a declaration, their height, and the tokens after them.
pub type ParsedDeclarators<'t, 's> = Result<(Declarators, u32, &'t [Token<'s>]), ParseError>;

/// A `catch`, its height, and the tokens after it.
pub type ParsedCatch<'t, 's> = Result<(Catch, u32, &'t [Token<'s>]), ParseError>;

/// A `catch` that may be left out, its height, and the tokens after it.
pub type ParsedHandler<'t, 's> = Result<(Option<Catch>, u32, &'t [Token<'s>]), ParseError>;

/// A `finally` that may be left out, its height, and the tokens after it.
pub type ParsedFinalizer<'t, 's> = Result<(Option<Block>, u32, &'t [Token<'s>]), ParseError>;

/// The parameters of a function and its body.
#[derive(Drop)]
pub struct ParametersAndBody {
    /// The names of the parameters.
    pub parameters: ParameterNames,
    /// The statements and declarations of the body.
    pub body: Stmts,
}

/// The parameters of a function and its body, the height of the body, and the tokens after it.
pub type ParsedFunction<'t, 's> = Result<(ParametersAndBody, u32, &'t [Token<'s>]), ParseError>;

/// The height of nothing, and all of the tokens after it.
pub fn nothing_read<'t, 's>(tokens: &'t [Token<'s>]) -> (u32, &'t [Token<'s>])
    ensures height { result.0 ≡ 0 }
    ensures tokens { result.1.now ≡ tokens.now }
{
    (0, tokens)
}

/// The greater of two heights.
pub fn deeper(one: u32, other: u32) -> u32
    ensures { result ≡ max one other }
{
    if one < other { other } else { one }
}
