//! How serving a port ended.

ghost use Rattle.std.specs.Prelude.{◌≡◌};
ghost use Rattle.ws_service.specs.Serving.{with_door, with_spent};

use crate::door::DoorEnd;
use crate::program::RunEnd;

/// How all doors of a port ended.
#[derive(Clone, Copy)]
pub enum DoorsEnd {
    /// Each found the program over.
    Over,
    /// A door failed, and its count rose.
    Failed,
    /// No door failed, and for one no ticket was left.
    Spent,
}

/// How the program and the doors of a port ended.
#[derive(Clone, Copy)]
pub struct Ends {
    /// How the run of the program ended.
    pub run: RunEnd,
    /// How the doors ended.
    pub doors: DoorsEnd,
}

/// Doors, and one more for which no ticket was left.
fn with_spent(doors: DoorsEnd) -> DoorsEnd
    ensures { result ≡ with_spent doors }
{
    match doors {
        DoorsEnd::Over | DoorsEnd::Spent => DoorsEnd::Spent,
        DoorsEnd::Failed => DoorsEnd::Failed,
    }
}

/// How doors ended together, and one more that ended so.
pub(crate) fn with_door(doors: DoorsEnd, door: Option<DoorEnd>) -> DoorsEnd
    ensures { result ≡ with_door doors door }
{
    match door {
        None | Some(DoorEnd::Over(_)) => doors,
        Some(DoorEnd::Fault { .. }) => DoorsEnd::Failed,
        Some(DoorEnd::Spent { .. }) => with_spent(doors),
    }
}
