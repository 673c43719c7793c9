//! Where a step leaves the program.

ghost use Rattle.std.specs.Prelude.{◌≡◌};
ghost use Rattle.stepping.specs.Beside.{is_plain};

use cdp_text::position::Place;

/// Where a step leaves the program, as far as rules ask for it.
#[derive(Clone, Copy)]
pub struct Arrival {
    /// The break location that the next step enters, if it enters one: then the program has arrived there.
    pub place: Option<Place>,
    /// How many calls are active.
    pub depth: usize,
    /// Whether the next step enters a `debugger` statement.
    pub debugger: bool,
    /// Where the step raised a throw that hadn't been travelling before it: whether no `try` with a `catch`, in any call, has
    /// the raise within its block.
    pub raised: Option<bool>,
}

impl Arrival {
    /// Whether the step led to no `debugger` statement, and raised nothing.
    pub fn is_plain(&self) -> bool
        ensures { result ≡ is_plain self.now }
    {
        !self.debugger && !self.raised.is_some()
    }
}
