//! The reading of a head from a wire, byte by byte.

ghost use Rattle.std.specs.Prelude.{◌≡◌, ◌≢◌, [], Some};
ghost use Rattle.cdp_edge.specs.Outside.{Rose};
ghost use Rattle.cdp_door.specs.Greetings.{Hears, Looks};

use crate::answer::Response;
use crate::reader::HeadBuffer;
use cdp_edge_wire::{Taken, Wire};
use std::alloc::Global;
use std::sync::Wait;

/// How the reading of a head ended.
#[derive(Clone, Copy)]
pub enum HeadEnd {
    /// An answer is owed.
    Answer(Response),
    /// The peer went away, after so many bytes.
    Closed { taken: usize },
    /// The wire failed, and its count rose.
    Fault,
    /// No memory was left.
    Memory,
}

/// Reads until an answer is owed or nothing more comes. It waits for the peer where no byte has arrived.
pub fn hear<R: Wait, W: Wire>(
    rt: &R,
    alloc: Global,
    wire: &mut W,
    reader: &mut HeadBuffer,
) -> HeadEnd
    requires { reader.old ≡ [] }
    ensures hears { Hears result (record { answers = W.answers wire.old; content = W.content wire.old }) (record { answers = W.answers wire.new; content = W.content wire.new }) }
    ensures quiet { result ≢ HeadEnd.Fault → W.faults wire.new ≡ W.faults wire.old }
    ensures failed { result ≡ HeadEnd.Fault → Rose (W.faults wire.old) (W.faults wire.new) }
{
    for _ in rt.forever() {
        if let Some(end) = look(alloc, wire, reader) {
            return end;
        }
    }
    unreachable!()
}

/// Looks whether an answer is owed, and asks the wire for one byte more where none is.
fn look<W: Wire>(alloc: Global, wire: &mut W, reader: &mut HeadBuffer) -> Option<HeadEnd>
    ensures looks { Looks result reader.old reader.new (record { answers = W.answers wire.old; content = W.content wire.old }) (record { answers = W.answers wire.new; content = W.content wire.new }) }
    ensures quiet { result ≢ Some HeadEnd.Fault → W.faults wire.new ≡ W.faults wire.old }
    ensures failed { result ≡ Some HeadEnd.Fault → Rose (W.faults wire.old) (W.faults wire.new) }
{
    match reader.answer(alloc) {
        Ok(Some(answer)) => return Some(HeadEnd::Answer(answer)),
        Ok(None) => {}
        Err(_) => return Some(HeadEnd::Memory),
    }
    match wire.take() {
        Taken::Byte(byte) => match reader.push(byte) {
            Ok(()) => None,
            Err(_) => Some(HeadEnd::Memory),
        },
        Taken::Quiet => None,
        Taken::End => Some(HeadEnd::Closed {
            taken: reader.len(),
        }),
        Taken::Failed => Some(HeadEnd::Fault),
    }
}
