//! Open brackets of a script.

/// What stands before parentheses.
#[derive(Clone, Copy, PartialEq)]
pub(crate) enum Head {
    /// `if` or `while`.
    Test,
    /// `for`.
    For,
    /// `catch`.
    Catch,
    /// `function` with or without a name, or a method's key.
    Function,
    /// Something else.
    Other,
}

/// What a bracket holds.
#[derive(Clone, Copy, PartialEq)]
pub(crate) enum Hold {
    /// The statements of a script, where no bracket is open.
    Script,
    /// The statements of a block.
    Block,
    /// The statements of a function.
    Function,
    /// The members of an object literal.
    Object,
    /// Elements, or a key.
    Elements,
    /// What stands in parentheses.
    Parentheses(Head),
}

/// Which declaration goes on.
#[derive(Clone, Copy, PartialEq)]
pub(crate) enum List {
    /// None.
    None,
    /// One by `let`.
    Let,
    /// One by `const`.
    Const,
}

/// An open bracket, or the script around all of them.
#[derive(Clone, Copy)]
pub(crate) struct Bracket {
    /// What it holds.
    pub(crate) hold: Hold,
    /// How many units of the source stand before it.
    pub(crate) start: usize,
    /// How many names of scopes around it there are.
    pub(crate) names_from: usize,
    /// The declaration that goes on in it.
    pub(crate) list: List,
    /// Whether it stands in a loop of its function.
    pub(crate) in_loop: bool,
    /// Whether it stands in a function.
    pub(crate) in_function: bool,
    /// Whether a loop may go on in it.
    pub(crate) loops: bool,
}

impl Bracket {
    /// A script.
    pub(crate) fn script() -> Bracket {
        Bracket {
            hold: Hold::Script,
            start: 0,
            names_from: 0,
            list: List::None,
            in_loop: false,
            in_function: false,
            loops: false,
        }
    }

    /// A bracket in this one.
    pub(crate) fn inner(&self, hold: Hold, start: usize, names_from: usize) -> Bracket {
        let is_function = hold == Hold::Function;
        Bracket {
            hold,
            start,
            names_from,
            list: List::None,
            in_loop: !is_function && self.is_looping(),
            in_function: is_function || self.in_function,
            loops: false,
        }
    }

    /// Whether it may stand in a loop, or a loop may go on in it.
    pub(crate) fn is_looping(&self) -> bool {
        self.in_loop || self.loops
    }

    /// Whether it holds statements.
    pub(crate) fn has_statements(&self) -> bool {
        matches!(self.hold, Hold::Script | Hold::Block | Hold::Function)
    }

    /// Whether it holds the parameters of a function, or the name of a catch.
    pub(crate) fn has_parameters(&self) -> bool {
        matches!(
            self.hold,
            Hold::Parentheses(Head::Function) | Hold::Parentheses(Head::Catch)
        )
    }
}
