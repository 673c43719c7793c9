//! A wire over a stream that arrived.
//!
//! It reads ahead; what is left is the first that the WebSocket reads.

ghost use Rattle.std.specs.Prelude.{◌≡◌, ◌≤◌, ◌<◌, None, length, IfOk};

use crate::deadline::Deadline;
use crate::line::Connection;
use crate::received::served_limits;
use crate::streams::let_go;
use crate::waits::{ROUNDS, WatchedSockets};
use cdp_edge::SinkFault;
use cdp_edge_wire::{Taken, Wire};
use mio::net::TcpStream;
use std::alloc::Global;
use std::io;
use std::io::{BufReader, ErrorKind, Read, Write};
use std::marker::Model;
use std::random::RandomSource;
use std::rt::Clock;
use tungstenite::{RandomKeys, Role, WebSocket};

/// A stream that is read ahead, and what its thread waits with.
#[derive(Drop)]
struct Stream<R: RandomSource + Clock + Copy + Drop> {
    rt: R,
    reader: BufReader<TcpStream>,
    waits: WatchedSockets,
}

/// A connection in bytes, before it is a WebSocket. A contract sees its count of faults.
///
/// A call waits for the peer. One that closes, goes away, or is silent for five seconds has ended; one that takes nothing
/// for five seconds is a fault.
#[derive(Drop)]
pub struct SocketWire<R: RandomSource + Clock + Copy + Drop> {
    stream: Stream<R>,
    faults: u64,
}

impl<R: RandomSource + Clock + Copy + Drop> Model for SocketWire<R> {
    ghost use Rattle.std.specs.Prelude.{ℕ};

    ghost Value = { ℕ };

    ghost view = { λ a. a.faults };
}

impl<R: RandomSource + Clock + Copy + Drop> Stream<R> {
    /// The next byte, None at the end.
    fn read_byte(&mut self) -> io::Result<Option<u8>> {
        let mut byte = [0u8; 1];
        let count = self.reader.read(&mut byte)?;
        Ok(if count == 0 { None } else { Some(byte[0]) })
    }

    /// The next byte, None at the end, waited for until the deadline.
    fn take(&mut self) -> io::Result<Option<u8>> {
        let deadline = Deadline::new(&self.rt);
        for _ in 0..ROUNDS {
            match self.read_byte() {
                Err(error) if error.kind() == ErrorKind::WouldBlock => {
                    self.waits.wait_until(&self.rt, &deadline)?;
                }
                read => return read,
            }
        }
        Err(io::Error::from(ErrorKind::TimedOut))
    }

    /// Writes some first bytes of the piece, waited for until the deadline, and answers how many.
    fn write(&mut self, piece: &[u8]) -> io::Result<usize>
        ensures { IfOk result (λ n. n ≤ length piece.now) }
    {
        let deadline = Deadline::new(&self.rt);
        for _ in 0..ROUNDS {
            let mut stream = self.reader.get_ref();
            match stream.write(piece) {
                Err(error) if error.kind() == ErrorKind::WouldBlock => {
                    self.waits.wait_until(&self.rt, &deadline)?;
                }
                written => return written,
            }
        }
        Err(io::Error::from(ErrorKind::TimedOut))
    }
}

/// What a read that failed says of its wire.
fn taken_at(kind: ErrorKind) -> Taken {
    match kind {
        ErrorKind::Interrupted => Taken::Quiet,
        ErrorKind::ConnectionReset
        | ErrorKind::ConnectionAborted
        | ErrorKind::BrokenPipe
        | ErrorKind::TimedOut => Taken::End,
        _ => Taken::Failed,
    }
}

/// What a write that failed says of its wire.
fn fault_at(kind: ErrorKind) -> SinkFault {
    match kind {
        ErrorKind::OutOfMemory => SinkFault::Memory,
        _ => SinkFault::Failed,
    }
}

impl<R: RandomSource + Clock + Copy + Drop> SocketWire<R> {
    /// A wire that never failed, over a stream of which nothing was read.
    pub fn new(rt: R, reader: BufReader<TcpStream>, waits: WatchedSockets) -> SocketWire<R>
        ensures { result ≡ 0 }
    {
        SocketWire {
            stream: Stream { rt, reader, waits },
            faults: 0,
        }
    }

    /// The line of a connection that was upgraded, which reads first what was read ahead. At want of memory it ends the
    /// connection, and gives back what its thread waits with.
    pub fn upgrade(self, alloc: Global) -> Result<Connection<R>, WatchedSockets> {
        let Stream {
            rt,
            reader,
            mut waits,
        } = self.stream;
        let ahead = Vec::from_slice(alloc, reader.buffer());
        let stream = reader.into_inner();
        match ahead {
            Ok(ahead) => {
                let keys = RandomKeys::new(rt);
                let limits = Some(served_limits());
                let socket = WebSocket::from_partially_read(
                    alloc,
                    stream,
                    keys,
                    ahead,
                    Role::Server,
                    limits,
                );
                Ok(Connection {
                    rt,
                    alloc,
                    socket,
                    waits,
                })
            }
            Err(_) => {
                let_go(stream, &mut waits);
                Err(waits)
            }
        }
    }

    /// Ends the connection, and gives back what its thread waits with.
    pub fn let_go(self) -> WatchedSockets {
        let Stream {
            rt: _,
            reader,
            mut waits,
        } = self.stream;
        let_go(reader.into_inner(), &mut waits);
        waits
    }
}

impl<R: RandomSource + Clock + Copy + Drop> Wire for SocketWire<R> {
    ghost faults = { λ wire. wire };

    ghost answers = { λ _. None };

    ghost content = { λ _. None };

    fn take(&mut self) -> Taken {
        let answer = match self.stream.take() {
            Ok(Some(byte)) => Taken::Byte(byte),
            Ok(None) => Taken::End,
            Err(error) => taken_at(error.kind()),
        };
        if let Taken::Failed = answer {
            self.faults = self.faults.saturating_add(1);
        }
        answer
    }

    fn write(&mut self, piece: &[u8]) -> Result<usize, SinkFault> {
        let answer = match self.stream.write(piece) {
            Ok(0) if !piece.is_empty() => Err(SinkFault::Failed),
            Ok(count) => Ok(count),
            Err(error) => Err(fault_at(error.kind())),
        };
        if let Err(SinkFault::Failed) = answer {
            self.faults = self.faults.saturating_add(1);
        }
        answer
    }
}
