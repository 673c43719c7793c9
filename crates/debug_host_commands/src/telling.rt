//! The texts that tell of the program itself: help, and its version.

ghost use Rattle.cdp_edge.specs.Outside.{GainsPrefix};
ghost use Rattle.debug_host_commands.specs.TextCauses.{BecauseTold};

use crate::outcome::CommandEnd;
use cdp_edge::{Sink, SinkFault, put};

/// Writes such a text.
pub(crate) fn tell<O: Sink>(text: &str, out: &mut O) -> CommandEnd<'static>
    ensures cause { BecauseTold result text.now (O.faults out.old) (O.faults out.new) (O.content out.old) (O.content out.new) }
    ensures part { GainsPrefix (O.content out.old) (O.content out.new) text.now }
{
    match put(out, text.as_bytes()) {
        Ok(()) => CommandEnd::Done,
        Err(SinkFault::Failed) => CommandEnd::CannotWrite,
        Err(SinkFault::Memory) => CommandEnd::OutOfMemory,
    }
}
