//! What a session asks for.

ghost use Rattle.std.specs.Prelude.{◌≡◌, ◌||◌, is_some};
ghost use Rattle.stepping.specs.Rules.{has_request, no_rules, without_requests};

use cdp_text::position::Place;

/// Which throws stop the program where they are raised.
#[derive(Clone, Copy)]
pub enum Exceptions {
    /// None.
    Never,
    /// Those that no `catch` takes.
    Uncaught,
    /// All.
    All,
}

/// How far a step goes.
#[derive(Clone, Copy)]
pub enum StepKind {
    /// To the next arrival, also in a function that is called.
    Into,
    /// To the next arrival that isn't in a function called meanwhile.
    Over,
    /// To the next arrival after the function has returned.
    Out,
}

/// A step that was asked for while the program was stopped.
#[derive(Clone, Copy)]
pub struct StepRequest {
    /// How far it goes.
    pub kind: StepKind,
    /// How many calls were active at the stop.
    pub depth: usize,
}

/// What a session asks for: its flags, which throws it stops at, and its requests, each of which ends with the next stop.
#[derive(Clone, Copy)]
pub struct Rules {
    /// Whether the session debugs the program at all.
    pub enabled: bool,
    /// Whether it lets the program run past whatever it asked for.
    pub skip: bool,
    /// At which throws the program stops.
    pub exceptions: Exceptions,
    /// A request to stop at the next arrival.
    pub pause: bool,
    /// A request for a step.
    pub step: Option<StepRequest>,
    /// A request to stop at a place.
    pub to: Option<Place>,
}

impl Rules {
    /// Rules that name nothing: not enabled, not skipping, no throws, no requests.
    pub fn new() -> Rules
        ensures { result ≡ no_rules }
    {
        Rules {
            enabled: false,
            skip: false,
            exceptions: Exceptions::Never,
            pause: false,
            step: None,
            to: None,
        }
    }

    /// Drops the requests, as each stop does. The flags and the throws stay.
    pub fn clear_requests(&mut self)
        ensures { self.new ≡ without_requests self.old }
    {
        self.pause = false;
        self.step = None;
        self.to = None;
    }

    /// Whether a pause, a step or a place to run to is asked for.
    pub fn has_request(&self) -> bool
        ensures { result ≡ has_request self.now }
    {
        self.pause || self.asks_to_go_on()
    }

    /// Whether a step or a place to run to is asked for.
    fn asks_to_go_on(&self) -> bool
        ensures { result ≡ (is_some self.now.step || is_some self.now.to) }
    {
        self.step.is_some() || self.to.is_some()
    }
}
