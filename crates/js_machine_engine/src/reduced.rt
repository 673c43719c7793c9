//! What a row comes to.

use js_heap::change::Counted;
use js_heap::value::{Addr, Value};

/// What becomes of what was about to be reduced. Nodes are numbers of the table.
#[derive(Clone, Copy)]
pub enum Reduced {
    /// It is a value.
    Gives(Value),
    /// It is a kept part, as that stands in the table.
    Goes(u32),
    /// It is a kept part that is uncovered: where nothing is left to do in it, it gives way.
    Uncovers(u32),
    /// It is a kept part that is uncovered in a scope of its own.
    Scopes(Addr, u32),
    /// It is the body of a function, by the function's node in its source, in the call's scope, and by its own node.
    Enters {
        function: u32,
        scope: Addr,
        body: u32,
    },
    /// It raises a value.
    Raises(Value),
    /// It is a completion that travels outward.
    Returns(Value),
    Breaks,
    Continues,
    /// It is the completion that the `finally` kept.
    Resumes,
    /// It is a call of this value, whose arguments come.
    Calls(Value),
    /// It is an assignment, of an operator on this old value and the kept part.
    Assigns(Value),
    /// A loop goes on with its test, in a new scope.
    Tests(Addr),
    /// A loop goes on with its update, in a new scope.
    Updates(Addr),
    /// A loop goes on with its body.
    Turns,
    /// A `for` with names goes on with its initialiser, in their scope.
    Initializes {
        constant: bool,
        scope: Addr,
    },
    /// A `for .. of` goes on with its list, in a scope.
    Lists(Addr),
    /// A `for .. of` goes on with its first turn, over this list.
    Iterates(Value),
    /// A `for .. of` goes on with a turn, in a scope.
    Iterated(Addr),
    /// A comma list goes on with its next part.
    Commas,
    /// An object literal goes on behind this method.
    Adds(Value),
    /// It printed its arguments, and is undefined.
    Prints,
    /// An evaluation ends: it would reach what isn't its own.
    Effect,
    /// An evaluation ends: it would pass a limit.
    Full(Counted),
    /// There is no memory for it.
    Memory,
}
