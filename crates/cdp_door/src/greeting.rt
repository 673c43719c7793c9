//! What a door does with a connection in bytes: it reads the head of a request, and nothing past it, and answers.
//!
//! The head is read anew with each byte, so that nothing after it is taken.

ghost use Rattle.std.specs.Prelude.{◌≡◌, ◌≢◌};
ghost use Rattle.cdp_edge.specs.Outside.{Rose};
ghost use Rattle.cdp_door.specs.Greetings.{Greets, Writes, EndsWith};
ghost use Rattle.cdp_door.specs.Texts.{text_of as text_of_answer};

use crate::answer::Response;
use crate::hear::{HeadEnd, hear};
use crate::reader::HeadBuffer;
use crate::text::{status_of, text_of};
use cdp_edge::SinkFault;
use cdp_edge_wire::{Wire, put_all};
use std::alloc::Global;
use std::sync::Wait;

/// How a greeting ended.
#[derive(Clone, Copy)]
pub enum Greeted {
    /// The upgrade was answered: what comes next are WebSocket frames.
    Upgraded,
    /// Another answer was written, of this status.
    Answered { status: u16 },
    /// The peer went away within the head, after so many bytes.
    Closed { taken: usize },
    /// The wire failed, and its count rose.
    Fault,
    /// No memory was left.
    Memory,
}

/// Greets a peer: reads a head of at most 8,192 bytes from the wire, byte by byte and nothing after it, and writes its
/// answer (RFC 9110, RFC 6455). It waits for the peer where no byte has arrived.
///
/// `/json/version`, `/json/list` and `/json` are pages, `/session` is where the WebSocket begins. `port` is the port
/// that the list names, and `url` the url of the first script, which the list has as title and url.
pub fn greet<R: Wait, W: Wire>(rt: &R, alloc: Global, wire: &mut W, port: u16, url: &str) -> Greeted
    ensures greets { Greets result port url.now (record { answers = W.answers wire.old; content = W.content wire.old }) (record { answers = W.answers wire.new; content = W.content wire.new }) }
    ensures quiet { result ≢ Greeted.Fault → W.faults wire.new ≡ W.faults wire.old }
    ensures failed { result ≡ Greeted.Fault → Rose (W.faults wire.old) (W.faults wire.new) }
{
    let Ok(mut reader) = HeadBuffer::new(alloc) else {
        return Greeted::Memory;
    };
    match hear(rt, alloc, wire, &mut reader) {
        HeadEnd::Answer(answer) => say(alloc, wire, &answer, port, url),
        HeadEnd::Closed { taken } => Greeted::Closed { taken },
        HeadEnd::Fault => Greeted::Fault,
        HeadEnd::Memory => Greeted::Memory,
    }
}

/// Writes an answer.
fn say<W: Wire>(alloc: Global, wire: &mut W, answer: &Response, port: u16, url: &str) -> Greeted
    ensures writes { Writes result answer.now (text_of_answer port url.now answer.now) (record { answers = W.answers wire.old; content = W.content wire.old }) (record { answers = W.answers wire.new; content = W.content wire.new }) }
    ensures answers { W.answers wire.new ≡ W.answers wire.old }
    ensures quiet { result ≢ Greeted.Fault → W.faults wire.new ≡ W.faults wire.old }
    ensures failed { result ≡ Greeted.Fault → Rose (W.faults wire.old) (W.faults wire.new) }
{
    let Ok(text) = text_of(alloc, answer, port, url) else {
        return Greeted::Memory;
    };
    match put_all(wire, &text) {
        Ok(()) => end_with(answer),
        Err(SinkFault::Failed) => Greeted::Fault,
        Err(SinkFault::Memory) => Greeted::Memory,
    }
}

/// How a greeting ends whose answer was written.
fn end_with(answer: &Response) -> Greeted
    ensures { EndsWith result answer.now }
{
    match status_of(answer) {
        101 => Greeted::Upgraded,
        status => Greeted::Answered { status },
    }
}
