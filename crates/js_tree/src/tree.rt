//! Trees: one variant for each form of the grammar.
//!
//! The lists in a tree are small types over a vector.

use crate::integer::SafeInteger;
use crate::names::ParameterNames;
use crate::node::NodeId;
use cdp_text::units::Units;
use js_tree_operators::operator::{
    AssignmentOperator, BinaryOperator, UnaryOperator, UpdateOperator,
};

/// The parameters of an arrow function (ECMA-262, 15.3, ArrowParameters).
#[derive(Drop)]
pub enum ArrowParameters {
    /// One name without parentheses.
    Name(Units),
    /// Names in parentheses.
    List(ParameterNames),
}

/// An expression (ECMA-262, 13).
#[derive(Drop)]
#[cycle(tree)]
pub enum Expr {
    /// `this` (13.2.1).
    This {
        node: NodeId,
    },
    /// A name that stands for what it is bound to (13.1, IdentifierReference).
    Name {
        node: NodeId,
        name: Units,
    },
    /// A numeric literal (12.9.3), by its value.
    Number {
        node: NodeId,
        value: SafeInteger,
    },
    /// A string literal (12.9.4), by the code units that it stands for.
    String {
        node: NodeId,
        value: Units,
    },
    /// `true` or `false` (12.9.2).
    Boolean {
        node: NodeId,
        value: bool,
    },
    /// `null` (12.9.1).
    Null {
        node: NodeId,
    },
    /// `[a, b]` (13.2.4).
    Array {
        node: NodeId,
        elements: Exprs,
    },
    /// `{a, b: c, d() {}}` (13.2.5).
    Object {
        node: NodeId,
        properties: PropertyDefinitions,
    },
    /// `function name(parameters) { body }` (15.2, FunctionExpression).
    Function {
        node: NodeId,
        name: Option<Units>,
        parameters: ParameterNames,
        body: Stmts,
    },
    /// `parameters => body` with an expression (15.3).
    Arrow {
        node: NodeId,
        parameters: ArrowParameters,
        body: Box<Expr>,
    },
    /// `parameters => { body }` (15.3).
    ArrowBlock {
        node: NodeId,
        parameters: ArrowParameters,
        body: Stmts,
    },
    /// `(inner)` (13.2.9, ParenthesizedExpression).
    Parenthesized {
        node: NodeId,
        inner: Box<Expr>,
    },
    /// `object.name` (13.3.2); the name may be a reserved word.
    Member {
        node: NodeId,
        object: Box<Expr>,
        name: Units,
    },
    /// `object[key]` (13.3.2).
    Index {
        node: NodeId,
        object: Box<Expr>,
        key: Box<Expr>,
    },
    /// `callee(arguments)` (13.3.6). `parentheses` is the node of the arguments with their parentheses.
    Call {
        node: NodeId,
        callee: Box<Expr>,
        parentheses: NodeId,
        arguments: Exprs,
    },
    /// `operand++` (13.4.2, 13.4.3).
    Postfix {
        node: NodeId,
        operator: UpdateOperator,
        operand: Box<Expr>,
    },
    /// `++operand` (13.4.4, 13.4.5).
    Prefix {
        node: NodeId,
        operator: UpdateOperator,
        operand: Box<Expr>,
    },
    /// `-operand` and its like (13.5).
    Unary {
        node: NodeId,
        operator: UnaryOperator,
        operand: Box<Expr>,
    },
    /// `left + right` and its like (13.7 to 13.13).
    Binary {
        node: NodeId,
        operator: BinaryOperator,
        left: Box<Expr>,
        right: Box<Expr>,
    },
    /// `test ? consequent : alternate` (13.14).
    Conditional {
        node: NodeId,
        test: Box<Expr>,
        consequent: Box<Expr>,
        alternate: Box<Expr>,
    },
    /// `target = value` and its like (13.15).
    Assign {
        node: NodeId,
        operator: AssignmentOperator,
        target: Box<Expr>,
        value: Box<Expr>,
    },
    /// `a, b, c`, of two expressions at least (13.16).
    Comma {
        node: NodeId,
        expressions: Exprs,
    },
}

/// A key of an object literal (ECMA-262, 13.2.5, PropertyName).
#[derive(Drop)]
#[cycle(tree)]
pub enum PropertyName {
    /// A name or a reserved word.
    Word(Units),
    /// A string literal, by the code units that it stands for.
    StringLiteral(Units),
    /// A numeric literal, by its value.
    NumericLiteral(SafeInteger),
    /// `[key]`
    Computed(Expr),
}

/// A member of an object literal (ECMA-262, 13.2.5, PropertyDefinition).
#[derive(Drop)]
#[cycle(tree)]
pub enum PropertyDefinition {
    /// `name`, which is short for `name: name`.
    Shorthand {
        name: Units,
    },
    /// `key: value`
    Value {
        key: PropertyName,
        value: Expr,
    },
    /// `key(parameters) { body }` (15.4, MethodDefinition).
    Method {
        node: NodeId,
        key: PropertyName,
        parameters: ParameterNames,
        body: Stmts,
    },
}

/// A name that `let` or `const` declares (ECMA-262, 14.3.1, LexicalBinding).
#[derive(Drop)]
#[cycle(tree)]
pub struct Declarator {
    /// The name that is declared.
    pub name: Units,
    /// What its first value is, if that is written.
    pub initializer: Option<Expr>,
}

/// `{ body }` (ECMA-262, 14.2).
#[derive(Drop)]
#[cycle(tree)]
pub struct Block {
    /// Its number.
    pub node: NodeId,
    /// Its statements and declarations.
    pub body: Stmts,
}

/// `catch (parameter) block` (ECMA-262, 14.15).
#[derive(Drop)]
#[cycle(tree)]
pub struct Catch {
    /// The name of the value that was thrown, if it has one.
    pub parameter: Option<Units>,
    /// What is done then.
    pub block: Block,
}

/// A statement or a declaration (ECMA-262, 14).
#[derive(Drop)]
#[cycle(tree)]
pub enum Stmt {
    /// `{ body }` (14.2).
    Block(Block),
    /// `let` or, where it is constant, `const` with its names (14.3.1).
    Lexical {
        node: NodeId,
        constant: bool,
        declarators: Declarators,
    },
    /// `;` (14.4).
    Empty {
        node: NodeId,
    },
    /// `expression;` (14.5).
    Expression {
        node: NodeId,
        expression: Expr,
    },
    /// `if (test) consequent else alternate` (14.6).
    If {
        node: NodeId,
        test: Expr,
        consequent: Box<Stmt>,
        alternate: Option<Box<Stmt>>,
    },
    /// `do body while (test);` (14.7.2).
    DoWhile {
        node: NodeId,
        body: Box<Stmt>,
        test: Expr,
    },
    /// `while (test) body` (14.7.3).
    While {
        node: NodeId,
        test: Expr,
        body: Box<Stmt>,
    },
    /// `for (initializer; test; update) body` (14.7.4).
    For {
        node: NodeId,
        initializer: Option<Expr>,
        test: Option<Expr>,
        update: Option<Expr>,
        body: Box<Stmt>,
    },
    /// `for (let declarators; test; update) body`, or with `const` (14.7.4).
    ForLexical {
        node: NodeId,
        constant: bool,
        declarators: Declarators,
        test: Option<Expr>,
        update: Option<Expr>,
        body: Box<Stmt>,
    },
    /// `for (let name of list) body`, or with `const` (14.7.5).
    ForOf {
        node: NodeId,
        constant: bool,
        name: Units,
        list: Expr,
        body: Box<Stmt>,
    },
    /// `continue;` (14.8).
    Continue {
        node: NodeId,
    },
    /// `break;` (14.9).
    Break {
        node: NodeId,
    },
    /// `return value;` (14.10).
    Return {
        node: NodeId,
        value: Option<Expr>,
    },
    /// `throw value;` (14.14).
    Throw {
        node: NodeId,
        value: Expr,
    },
    /// `try block catch (parameter) block finally block` (14.15).
    Try {
        node: NodeId,
        block: Block,
        handler: Option<Catch>,
        finalizer: Option<Block>,
    },
    /// `debugger;` (14.16).
    Debugger {
        node: NodeId,
    },
    /// `function name(parameters) { body }` (15.2).
    FunctionDeclaration {
        node: NodeId,
        name: Units,
        parameters: ParameterNames,
        body: Stmts,
    },
}

/// Expressions in order. Contracts see their list.
#[derive(Drop)]
#[cycle(tree)]
pub struct Exprs {
    /// The expressions.
    pub items: Vec<Expr>,
}

/// Statements and declarations in order. Contracts see their list.
#[derive(Drop)]
#[cycle(tree)]
pub struct Stmts {
    /// The statements and declarations.
    pub items: Vec<Stmt>,
}

/// The members of an object literal in order. Contracts see their list.
#[derive(Drop)]
#[cycle(tree)]
pub struct PropertyDefinitions {
    /// The members.
    pub items: Vec<PropertyDefinition>,
}

/// The names that one `let` or `const` declares, in order. Contracts see their list.
#[derive(Drop)]
#[cycle(tree)]
pub struct Declarators {
    /// The names, each with its initializer.
    pub items: Vec<Declarator>,
}
