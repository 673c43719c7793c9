//! Handles and what they stand for.

ghost use Rattle.std.specs.Prelude.{◌≡◌};
ghost use Rattle.object_groups.specs.Handles.{is_in_scratch, is_on_scratch};

use cdp_text::units::Units;
use js_heap::value::Addr;

/// What a handle stands for: an object, or a scope as an object of its bindings.
#[derive(Clone, Copy)]
pub enum Target {
    /// The object whose cell is at this address.
    Object(Addr),
    /// The scope whose cell is at this address.
    Scope(Addr),
}

impl Target {
    /// Whether its cell is among those that evaluations made.
    fn is_in_scratch(self) -> bool
        ensures { result ≡ is_in_scratch self }
    {
        match self {
            Target::Object(Addr::Scratch(_)) | Target::Scope(Addr::Scratch(_)) => true,
            Target::Object(Addr::Base(_)) | Target::Scope(Addr::Base(_)) => false,
        }
    }
}

/// A numbered target.
#[derive(Drop)]
pub struct Handle {
    /// Its number, counted from 1 in the order of making.
    pub number: u64,
    /// What it stands for.
    pub target: Target,
    /// The name of the group with which it is released, if it is in one.
    pub group: Option<Units>,
}

impl Handle {
    /// Whether it stands for a cell that an evaluation made.
    pub fn is_on_scratch(&self) -> bool
        ensures { result ≡ is_on_scratch self.now }
    {
        self.target.is_in_scratch()
    }
}
