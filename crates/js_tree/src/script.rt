//! Whole sources with their trees.

ghost use Rattle.std.specs.Prelude.{length, All};
ghost use Rattle.js_tree.specs.Spans.{IsWithin};

use crate::node::Spans;
use crate::tree::{Expr, Stmts};
use cdp_text::units::Units;

/// A script (ECMA-262, 16.1).
#[derive(Drop)]
pub struct Script {
    /// Its number among the scripts of a run, from 1.
    pub number: u32,
    /// Where it came from.
    pub url: Units,
    /// Its text.
    pub source: Units,
    /// Its items in order.
    pub body: Stmts,
    /// The spans of its nodes.
    pub spans: Spans,
    pub ghost within: { All (IsWithin (length source)) spans },
}

/// A source that is one expression.
#[derive(Drop)]
pub struct Expression {
    /// Its text.
    pub source: Units,
    /// The expression.
    pub tree: Expr,
    /// The spans of its nodes.
    pub spans: Spans,
    pub ghost within: { All (IsWithin (length source)) spans },
}

/// A source that is one function expression or one arrow function.
#[derive(Drop)]
pub struct FunctionCode {
    /// Its text.
    pub source: Units,
    /// The function, of a form of `Expr` that makes a function.
    pub tree: Expr,
    /// The spans of its nodes.
    pub spans: Spans,
    pub ghost within: { All (IsWithin (length source)) spans },
}

/// A source that an evaluation keeps.
#[derive(Drop)]
pub enum Kept {
    /// An expression that was evaluated.
    Expression(Expression),
    /// A function that was called.
    Function(FunctionCode),
}
