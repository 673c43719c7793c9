//! A WebSocket over a stream that doesn't block, with what its thread waits with.

ghost use Rattle.std.specs.Prelude.{IfSome};
ghost use Rattle.cdp_edge_server.specs.Heard.{IsWithin};
ghost use Rattle.cdp_edge_sockets.specs.Received.{IsWithinLimit};

use crate::deadline::Deadline;
use crate::received::{Received, close_frame, read_as};
use crate::streams::let_go;
use crate::waits::{ROUNDS, WatchedSockets};
use cdp_edge_server::{LinkFault, Recv};
use mio::net::TcpStream;
use std::alloc::Global;
use std::io::ErrorKind;
use std::random::RandomSource;
use std::rt::Clock;
use std::time::Duration;
use tungstenite::{Error, Message, RandomKeys, WebSocket};

/// How many pings and pongs one call passes over.
const CONTROLS: u32 = 1000;

/// A socket and what its thread waits with.
#[derive(Drop)]
pub struct Connection<R: RandomSource + Clock + Copy + Drop> {
    pub rt: R,
    pub alloc: Global,
    pub socket: WebSocket<TcpStream, RandomKeys<R>>,
    pub waits: WatchedSockets,
}

impl<R: RandomSource + Clock + Copy + Drop> Connection<R> {
    /// What has arrived.
    fn hear(&mut self) -> Received
        ensures { IsWithinLimit result }
    {
        for _ in 0..CONTROLS {
            match read_as(self.alloc, self.socket.read()) {
                Received::Control => {}
                other => return other,
            }
        }
        Received::Control
    }

    /// The answer to what was heard; None where the link may still wait.
    fn answer(&mut self, heard: Received) -> Option<Recv>
        requires { IsWithinLimit heard }
        ensures { IfSome result IsWithin }
    {
        match heard {
            Received::Nothing => None,
            Received::Control => Some(Recv::Quiet),
            Received::Answer(Recv::Closed) => {
                let _ = self.socket.flush();
                Some(Recv::Closed)
            }
            Received::Answer(answer) => Some(answer),
            Received::Broken(code) => {
                let _ = self.close(code);
                Some(Recv::Failed)
            }
        }
    }

    /// The next message, or Quiet where none arrives within a second or before the bell is rung.
    pub fn recv(&mut self) -> Recv
        ensures { IsWithin result }
    {
        let first = self.hear();
        if let Some(answer) = self.answer(first) {
            return answer;
        }
        if self.waits.wait_or_ring(Duration::from_secs(1)).is_err() {
            return Recv::Failed;
        }
        let second = self.hear();
        match self.answer(second) {
            Some(answer) => answer,
            None => Recv::Quiet,
        }
    }

    /// Sends the rest of what a first try didn't, as the peer takes it.
    fn push(&mut self, first: Result<(), Error>) -> Result<(), LinkFault> {
        let mut result = first;
        let deadline = Deadline::new(&self.rt);
        for _ in 0..ROUNDS {
            match result {
                Ok(()) => return Ok(()),
                Err(Error::OutOfMemory) => return Err(LinkFault::Memory),
                Err(Error::Io(error)) if error.kind() == ErrorKind::WouldBlock => {}
                Err(_) => break,
            }
            if self.waits.wait_until(&self.rt, &deadline).is_err() {
                break;
            }
            result = self.socket.flush();
        }
        Err(LinkFault::Failed)
    }

    /// Sends a text.
    pub fn send(&mut self, text: &str) -> Result<(), LinkFault> {
        let Ok(message) = Message::text(self.alloc, text) else {
            return Err(LinkFault::Memory);
        };
        let first = self.socket.send(message);
        self.push(first)
    }

    /// Sends a close with this code.
    pub fn close(&mut self, code: u16) -> Result<(), LinkFault> {
        let first = self.socket.close(Some(close_frame(code)));
        self.push(first)
    }

    /// Ends the connection, and gives back what its thread waits with.
    pub fn let_go(self) -> WatchedSockets {
        let Connection {
            rt: _,
            alloc: _,
            socket,
            mut waits,
        } = self;
        let_go(socket.into_inner(), &mut waits);
        waits
    }
}
