//! What a statement stands in.

ghost use Rattle.std.specs.Prelude.{◌≡◌};
ghost use Rattle.js_parser_language.specs.Well as well;
ghost use Rattle.js_parser_readers.specs.Context.{context_view};

/// What a statement stands in, which says where `continue` and `break` (ECMA-262, 14.8 and 14.9)
/// and `return` (14.10) may stand.
#[derive(Clone, Copy)]
pub struct StatementContext {
    /// In a loop of its function.
    pub in_loop: bool,
    /// In the body of a function.
    pub in_function: bool,
}

impl StatementContext {
    /// At the top of a script.
    pub fn top() -> StatementContext
        ensures { context_view result ≡ well.top }
    {
        StatementContext {
            in_loop: false,
            in_function: false,
        }
    }

    /// In the body of a function.
    pub fn function_body() -> StatementContext
        ensures { context_view result ≡ well.function_body }
    {
        StatementContext {
            in_loop: false,
            in_function: true,
        }
    }

    /// In the body of a loop that stands here.
    pub fn loop_body(self) -> StatementContext
        ensures { context_view result ≡ well.loop_body (context_view self) }
    {
        StatementContext {
            in_loop: true,
            in_function: self.in_function,
        }
    }
}
