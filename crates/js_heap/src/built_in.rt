//! The built-in functions, the classes of errors, and where a function's code is.

ghost use Rattle.std.specs.Prelude.{◌≡◌};
ghost use Rattle.js_heap.specs.BuiltIns.{built_in_at, script_scope};

use crate::value::Addr;

/// The built-in functions.
#[derive(Clone, Copy)]
pub enum BuiltIn {
    /// `console.log`
    ConsoleLog,
    /// `readline`
    ReadLine,
    /// A constructor of errors, called as a function (ECMA-262, 20.5.1.1).
    MakeError(ErrorClass),
    /// `Object.keys` (20.1.2.18)
    ObjectKeys,
    /// `Array.isArray` (23.1.2.2)
    ArrayIsArray,
    /// `String` (22.1.1.1)
    MakeString,
    /// `push` of an array (23.1.3.23)
    ArrayPush,
    /// `pop` of an array (23.1.3.22)
    ArrayPop,
    /// `indexOf` of an array (23.1.3.17)
    ArrayIndexOf,
    /// `join` of an array (23.1.3.18)
    ArrayJoin,
    /// `slice` of an array (23.1.3.28)
    ArraySlice,
    /// `indexOf` of a string (22.1.3.9)
    StringIndexOf,
    /// `slice` of a string (22.1.3.21)
    StringSlice,
    /// `charCodeAt` of a string (22.1.3.3)
    StringCharCodeAt,
}

/// The classes of errors (ECMA-262, 20.5).
#[derive(Clone, Copy)]
pub enum ErrorClass {
    Error,
    TypeError,
    RangeError,
    ReferenceError,
}

/// Where the code of a function is: a node of a script, or of a source that an evaluation kept at an address, or in no source.
#[derive(Clone, Copy)]
pub enum Code {
    Script { number: u32, node: u32 },
    Kept { at: Addr, node: u32 },
    BuiltIn(BuiltIn),
}

/// Where the cell of a built-in function is.
pub fn built_in_at(f: BuiltIn) -> Addr
    ensures { result ≡ built_in_at f }
{
    match f {
        BuiltIn::ConsoleLog => Addr::Base(7),
        BuiltIn::ReadLine => Addr::Base(8),
        BuiltIn::MakeError(ErrorClass::Error) => Addr::Base(9),
        BuiltIn::MakeError(ErrorClass::TypeError) => Addr::Base(10),
        BuiltIn::MakeError(ErrorClass::RangeError) => Addr::Base(11),
        BuiltIn::MakeError(ErrorClass::ReferenceError) => Addr::Base(12),
        BuiltIn::ObjectKeys => Addr::Base(13),
        BuiltIn::ArrayIsArray => Addr::Base(14),
        BuiltIn::MakeString => Addr::Base(15),
        BuiltIn::ArrayPush => Addr::Base(16),
        BuiltIn::ArrayPop => Addr::Base(17),
        BuiltIn::ArrayIndexOf => Addr::Base(18),
        BuiltIn::ArrayJoin => Addr::Base(19),
        BuiltIn::ArraySlice => Addr::Base(20),
        BuiltIn::StringIndexOf => Addr::Base(21),
        BuiltIn::StringSlice => Addr::Base(22),
        BuiltIn::StringCharCodeAt => Addr::Base(23),
    }
}

/// Where the scope of the scripts' top-level names is.
pub fn script_scope() -> Addr
    ensures { result ≡ script_scope }
{
    Addr::Base(1)
}
