//! Spaces of addresses, in which the cells of literals stand.

ghost use Rattle.std.specs.Prelude.{◌≡◌};
ghost use Rattle.js_machine_lowering_parts.specs.Spaces.{address};

use js_heap::value::Addr;

/// Where the cells of literals stand.
#[derive(Clone, Copy)]
pub enum Space {
    /// In the program's heap.
    Program,
    /// Among the cells that evaluations made.
    Session,
}

/// The address with a number in a space.
pub fn address(space: Space, number: u32) -> Addr
    ensures { result ≡ address space number }
{
    match space {
        Space::Program => Addr::Base(number),
        Space::Session => Addr::Scratch(number),
    }
}
