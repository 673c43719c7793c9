//! How a machine's run ended.

use js_heap::change::Counted;
use js_machine_engine::stepped::Finish;

/// How a run ended.
#[derive(Clone, Copy)]
pub enum End {
    /// With a value, or by a throw that no `catch` took.
    Finished(Finish),
    /// An evaluation: it would have reached what isn't its own.
    Effect,
    /// An evaluation: it would have passed a limit.
    Full(Counted),
    /// There was no memory for a step; the machine is given up.
    Lost,
}
