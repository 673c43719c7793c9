//! Where connections arrive, and what becomes of each.
//!
//! A stream that becomes a WebSocket takes what its thread waits with along, until `back` returns it.

use crate::line::Connection;
use crate::streams::prepare;
use crate::waits::WatchedSockets;
use crate::wire::SocketWire;
use cdp_door::{Greeted, greet};
use cdp_edge_server::DoorAnswer;
use mio::net::TcpListener;
use std::alloc::Global;
use std::io::{BufReader, ErrorKind};
use std::random::RandomSource;
use std::rt::Clock;
use std::sync::Wait;
use std::time::Duration;
use std::{io, net};

/// A listener that doesn't block, and what who asks there is told: the port, and the url of the first script.
#[derive(Drop)]
pub struct Entrance<R: RandomSource + Clock + Wait + Copy + Drop> {
    pub rt: R,
    pub alloc: Global,
    pub listener: TcpListener,
    pub port: u16,
    pub url: String,
}

impl<R: RandomSource + Clock + Wait + Copy + Drop> Entrance<R> {
    /// A connection that waits here; None where there is none, or none that can be accepted now.
    fn accepted(&self) -> io::Result<Option<net::TcpStream>> {
        match self.listener.accept() {
            Ok((stream, _)) => Ok(Some(net::TcpStream::from(stream))),
            Err(error) if error.kind() == ErrorKind::InvalidInput => Err(error),
            Err(_) => Ok(None),
        }
    }

    /// The next connection; None where none comes within a second or before the bell is rung.
    fn arrived(&self, waits: &mut WatchedSockets) -> io::Result<Option<net::TcpStream>> {
        let first = self.accepted()?;
        if first.is_some() {
            return Ok(first);
        }
        waits.wait_or_ring(Duration::from_secs(1))?;
        self.accepted()
    }

    /// What the door answers next with these waits, and the waits where no link took them.
    pub fn admit(
        &self,
        mut waits: WatchedSockets,
    ) -> (DoorAnswer<Connection<R>>, Option<WatchedSockets>) {
        let stream = match self.arrived(&mut waits) {
            Ok(Some(stream)) => stream,
            Ok(None) => return (DoorAnswer::Quiet, Some(waits)),
            Err(_) => return (DoorAnswer::Failed, Some(waits)),
        };
        match self.read_ahead(stream, &waits) {
            Ok(reader) => self.answer(SocketWire::new(self.rt, reader, waits)),
            Err(error) if error.kind() == ErrorKind::OutOfMemory => {
                (DoorAnswer::Memory, Some(waits))
            }
            Err(_) => (DoorAnswer::Quiet, Some(waits)),
        }
    }

    /// A connection, made ready for a wire.
    fn read_ahead(
        &self,
        stream: net::TcpStream,
        waits: &WatchedSockets,
    ) -> io::Result<BufReader<mio::net::TcpStream>> {
        BufReader::new(self.alloc, prepare(stream, waits)?)
    }

    /// What the door answers where this connection came, once it has its answer.
    fn answer(
        &self,
        mut wire: SocketWire<R>,
    ) -> (DoorAnswer<Connection<R>>, Option<WatchedSockets>) {
        match greet(
            &self.rt,
            self.alloc,
            &mut wire,
            self.port,
            self.url.as_str(),
        ) {
            Greeted::Upgraded => match wire.upgrade(self.alloc) {
                Ok(line) => (DoorAnswer::Arrived(line), None),
                Err(waits) => (DoorAnswer::Memory, Some(waits)),
            },
            Greeted::Answered { status: _ } | Greeted::Closed { taken: _ } | Greeted::Fault => {
                (DoorAnswer::Quiet, Some(wire.let_go()))
            }
            Greeted::Memory => (DoorAnswer::Memory, Some(wire.let_go())),
        }
    }
}
