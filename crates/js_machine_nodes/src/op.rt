//! What a node does.

ghost use Rattle.std.specs.Prelude.{◌≡◌, true};
ghost use Rattle.js_machine_nodes.specs.Ops.{is_literal, is_loop};

use js_tree_operators::operator::{BinaryOperator, UnaryOperator};

/// `++` or `--` in front of its target or behind it (ECMA-262, 13.4).
#[derive(Clone, Copy)]
pub enum UpdateKind {
    PrefixIncrement,
    PrefixDecrement,
    PostfixIncrement,
    PostfixDecrement,
}

/// What a node or a task does, apart from its parts and from what its number `info` says.
///
/// `Scoped`, `Frame`, `ListOf`, `TurnOf`, `BodyOf`, `Ending` and `ObjectRest` come up in a run; no node has them.
#[derive(Clone, Copy)]
pub enum Op {
    /// A value, the constant of this number.
    Literal,
    /// The scripts one after another.
    Scripts,
    /// A script, by its entry.
    Script,
    /// Statements one after another.
    Sequence,
    /// An untouched statement, or an arrow's expression body, by the number of its node.
    Enter,
    /// An untouched `debugger`, by the number of its node.
    EnterDebugger,
    /// An untouched `for` with names, by its entry.
    EnterFor,
    /// An untouched `for .. of`, by its entry.
    EnterForOf,
    /// An untouched block, by the entry of its names.
    Block,
    /// A part in a scope of its own.
    Scoped,
    /// The body of an active call, with the number of its function's node.
    Frame,
    /// A declared name with its initialiser.
    Initialize,
    /// `if` and `? :`
    Choose,
    /// `&&`
    Both,
    /// `||`
    Either,
    /// A loop before the end of its initialiser; of a loop's stages, a task whose `info` isn't 0 has a scope for each turn.
    LoopFirst,
    /// A loop before the body of a `do`.
    LoopDoing,
    /// A loop at its test.
    LoopTesting,
    /// A loop in its body.
    LoopBody,
    /// A loop at its update.
    LoopUpdating,
    /// The list of a `for .. of`, by its entry.
    ListOf,
    /// A `for .. of` before a turn, by its entry.
    TurnOf,
    /// A `for .. of` in a turn, by its entry.
    BodyOf,
    /// `break`
    Break,
    /// `continue`
    Continue,
    /// `return`
    Return,
    /// `throw`, by the number of its node.
    Throw,
    /// A `try` with a `catch` without a name.
    Catching,
    /// A `try` with a `catch` with a name.
    CatchingName,
    /// A `try` with its `finally`.
    Finishing,
    /// A `finally` that runs; where `info` isn't 0 it keeps a completion.
    Ending,
    /// `this`
    This,
    /// A name that is read.
    ReadName,
    /// A property with a fixed key that is read.
    ReadMember,
    /// A property with a computed key that is read.
    ReadIndex,
    /// `typeof` of a name.
    TypeofName,
    /// An operator on one value.
    Unary(UnaryOperator),
    /// An operator on two values.
    Binary(BinaryOperator),
    /// `a, b`
    Comma,
    /// A function, by its entry.
    Function,
    /// A method with a computed key, by its function's entry.
    Method,
    /// An array literal.
    Array,
    /// An object literal, by the entry of its members.
    Object,
    /// An object literal behind a method with a computed key, by the entry of its members.
    ObjectRest,
    /// `=` to a name.
    AssignName,
    /// `=` to a property with a fixed key.
    AssignMember,
    /// `=` to a property with a computed key.
    AssignIndex,
    /// `+=` and its like on a name.
    CompoundName(BinaryOperator),
    /// `+=` and its like on a property with a fixed key.
    CompoundMember(BinaryOperator),
    /// `+=` and its like on a property with a computed key.
    CompoundIndex(BinaryOperator),
    /// `++` and `--` of a name.
    UpdateName(UpdateKind),
    /// `++` and `--` of a property with a fixed key.
    UpdateMember(UpdateKind),
    /// `++` and `--` of a property with a computed key.
    UpdateIndex(UpdateKind),
    /// `delete` of a name.
    DeleteName,
    /// `delete` of a property with a fixed key.
    DeleteMember,
    /// `delete` of a property with a computed key.
    DeleteIndex,
    /// A call, by its entry. Its first values are `this` and the callee.
    Call,
    /// A call of a name, by its entry, before the name is read.
    CallOfName,
    /// A call of a property with a fixed key, by its entry, before that is read.
    CallOfMember,
    /// A call of a property with a computed key, by its entry, before that is read.
    CallOfIndex,
}

/// Whether a node is a value.
pub fn is_literal(op: Op) -> bool
    ensures { result ≡ is_literal op }
{
    match op {
        Op::Literal => true,
        _ => false,
    }
}

/// Whether it is a loop.
pub fn is_loop(op: Op) -> bool
    ensures { result ≡ is_loop op }
{
    match op {
        Op::LoopFirst => true,
        Op::LoopDoing => true,
        Op::LoopTesting => true,
        Op::LoopBody => true,
        Op::LoopUpdating => true,
        _ => false,
    }
}
