//! The forms of residual terms: what a part of a tree is, apart from its own parts.

ghost use Rattle.std.specs.Prelude.{◌≡◌};

use cdp_text::units::Units;
use js_heap::built_in::Code;
use js_heap::cell::{Binding, ScopeNames};
use js_heap::value::{Addr, Value};
use js_tree::names::ParameterNames;
use js_tree_operators::operator::{BinaryOperator, UnaryOperator, UpdateOperator};
use std::marker::Model;

/// Which source: a script by its number, or one that an evaluation kept.
#[derive(Clone, Copy)]
pub enum Source {
    Script(u32),
    Kept(Addr),
}

/// A place in a source: its beginning, the start of a node, or so many units before the end of a node.
#[derive(Clone, Copy)]
pub enum Mark {
    Beginning,
    Start(u32),
    BeforeEnd(u32, usize),
}

/// A place in one of the sources.
#[derive(Clone, Copy)]
pub struct SourceMark {
    pub source: Source,
    pub mark: Mark,
}

/// How a statement ends that doesn't end normally (ECMA-262, 6.2.4). A throw has the place of its fresh raise.
#[derive(Clone, Copy)]
pub enum Completion {
    Throws(Value, SourceMark),
    Returns(Value),
    Breaks,
    Continues,
}

/// What a name, a property with a fixed key, or one with a computed key refers to (6.2.5).
///
/// Its parts are none, the object, or the object and the key.
#[derive(Drop)]
pub enum Reference {
    Name(Units),
    Member(Units),
    Index,
}

/// A function's code but for its body and the functions that the body declares.
#[derive(Drop)]
pub struct FunctionForm {
    pub code: Code,
    pub node: u32,
    pub name: Units,
    pub parameters: ParameterNames,
    pub names: ScopeNames,
    pub is_arrow: bool,
    pub is_named: bool,
}

/// A member of an object literal: a fixed key, or a key that is computed and stands before the value.
#[derive(Drop)]
pub enum Member {
    Keyed(Units),
    Computed,
}

/// The members of an object literal in order. Contracts see their list.
#[derive(Drop)]
pub struct Members {
    items: Vec<Member>,
}

impl Model for Members {
    ghost use Rattle.std.specs.Prelude.{List};
    ghost use Rattle.js_semantics.specs.declared.form.Member.{Member};

    ghost Value = { List Member };

    ghost view = { λ members. members.items.items };
}

impl Members {
    /// The members in the memory of the vector.
    pub fn from_vec(items: Vec<Member>) -> Members
        ensures { result ≡ items.items }
    {
        Members { items }
    }

    /// The members.
    pub fn slice(&self) -> &[Member]
        ensures { result.now ≡ self.now }
    {
        self.items.as_slice()
    }
}

/// Where a loop is: before its initialiser's end, before the body of a `do`, at its test, in its body, at its update.
#[derive(Clone, Copy)]
pub enum Stage {
    First,
    Doing,
    Testing,
    Body,
    Updating,
}

/// What a part of a tree is, apart from its own parts.
#[derive(Drop)]
pub enum Form {
    /// The scripts one after another.
    Scripts,
    /// A script by its number, with its top-level names. Its later parts are its statements and its functions.
    Script(u32, ScopeNames),
    /// Statements one after another.
    Sequence,
    /// An untouched statement, or an arrow's expression body, by its node. Its later part is what it is once it is entered.
    Enter(u32),
    /// An untouched `debugger`.
    EnterDebugger(u32),
    /// An untouched `for` with names, and whether they are constant.
    EnterFor(u32, bool, ScopeNames),
    /// An untouched `for .. of` with its name.
    EnterForOf(u32, Binding),
    /// An untouched block with its names.
    Block(ScopeNames),
    /// A part in a scope of its own.
    Scoped(Addr),
    /// The body of an active call, with its function's node.
    Frame(u32, Addr),
    /// A declared name with its initialiser.
    Initialize(Units),
    /// `if` and `? :`.
    Choose,
    /// `&&`
    Both,
    /// `||`
    Either,
    /// A loop, with the scope of its present turn where it is a `for` with `let`.
    Loop(Stage, Option<Addr>),
    /// The list of a `for .. of`.
    ListOf(Binding),
    /// A `for .. of` before the turn of an index.
    TurnOf(Binding, u32),
    /// A `for .. of` in the turn before an index.
    BodyOf(Binding, u32),
    /// `break`
    Break,
    /// `continue`
    Continue,
    /// `return`
    Return,
    /// `throw`, by its node.
    Throw(u32),
    /// A `try` with its catch.
    Catching(Option<Units>),
    /// A `try` with its finally.
    Finishing,
    /// A finally that runs, with what it keeps.
    Ending(Option<Completion>),
    /// `this`
    This,
    /// A name or a property that is read.
    Read(Reference),
    /// `typeof` of a name.
    TypeofName(Units),
    /// A string literal whose cell isn't made yet.
    Literal(Units),
    /// An operator on one value.
    Unary(UnaryOperator),
    /// An operator on two values.
    Binary(BinaryOperator),
    /// `a, b`
    Comma,
    /// A function expression, an arrow, a method or a declared function. Its later parts are its body and the functions that the body declares.
    Function(FunctionForm),
    /// An array literal.
    Array,
    /// An object literal.
    Object(Members),
    /// A method with a computed key.
    Method(FunctionForm),
    /// `=`
    Assign(Reference),
    /// `+=` and its like.
    Compound(BinaryOperator, Reference),
    /// `++` and `--`, and whether it stands in front.
    Update(UpdateOperator, bool, Reference),
    /// `delete`
    Delete(Reference),
    /// A call, by its place and the node of the statement that it stands in. Its first values are `this` and the callee.
    Call(Mark, u32),
    /// A call whose callee is a reference, before that is read.
    CallOf(Reference, Mark, u32),
}
