//! The active calls of a run.

ghost use Rattle.std.specs.Prelude.{◌≡◌};

use js_heap::value::{Addr, Value};
use js_semantics::form::{Mark, Source};
use std::marker::Model;

/// An active call, or the script as the bottom one. Contracts see the definition's frame.
#[derive(Drop)]
pub struct Frame {
    function: Option<Addr>,
    source: Source,
    receiver: Value,
    scope: Addr,
    here: Mark,
}

impl Model for Frame {
    ghost use Rattle.js_semantics.specs.State.{Frame as AnyFrame};

    ghost Value = { AnyFrame };

    ghost view = { λ f. record { function = f.function; source = f.source; receiver = f.receiver; scope = f.scope; here = f.here } };
}

impl Frame {
    /// The frame of a call, or without a function of a script.
    pub fn new(
        function: Option<Addr>,
        source: Source,
        receiver: Value,
        scope: Addr,
        here: Mark,
    ) -> Frame
        ensures { result ≡ record { function = function; source = source; receiver = receiver; scope = scope; here = here } }
    {
        Frame {
            function,
            source,
            receiver,
            scope,
            here,
        }
    }

    /// Its function.
    pub fn function(&self) -> Option<Addr>
        ensures { result ≡ self.now.function }
    {
        self.function
    }

    /// The source of its code.
    pub fn source(&self) -> Source
        ensures { result ≡ self.now.source }
    {
        self.source
    }

    /// Its `this`.
    pub fn receiver(&self) -> Value
        ensures { result ≡ self.now.receiver }
    {
        self.receiver
    }

    /// The scope of its body.
    pub fn scope(&self) -> Addr
        ensures { result ≡ self.now.scope }
    {
        self.scope
    }

    /// The place of the statement last entered or call last reduced in it.
    pub fn here(&self) -> Mark
        ensures { result ≡ self.now.here }
    {
        self.here
    }

    /// Another place.
    pub fn set_here(&mut self, here: Mark)
        ensures { self.new ≡ record self.old { here = here } }
    {
        self.here = here;
    }
}
