//! Dials a port, and asks for a WebSocket there.

use crate::deadline::Deadline;
use crate::line::Connection;
use crate::received::dialled_limits;
use crate::streams::prepare;
use crate::waits::{ROUNDS, WatchedSockets};
use mio::net::TcpStream;
use std::alloc::Global;
use std::net;
use std::net::{Ipv4Addr, Net, SocketAddr};
use std::random::RandomSource;
use std::rt::Clock;
use tungstenite::handshake::client;
use tungstenite::{Error, HandshakeError, RandomKeys, WebSocket};

/// A line to this port of 127.0.0.1.
pub fn dial_line<
    R: Net<Listener = net::TcpListener, Stream = net::TcpStream>
        + RandomSource
        + Clock
        + Copy
        + Drop,
>(rt: R, alloc: Global, port: u16) -> Result<Connection<R>, Error> {
    let mut waits = WatchedSockets::new(&rt, alloc)?;
    let stream = net::TcpStream::connect(&rt, SocketAddr::from((Ipv4Addr::LOCALHOST, port)))?;
    let stream = prepare(stream, &waits)?;
    let socket = ask(rt, alloc, port, stream, &mut waits)?;
    Ok(Connection {
        rt,
        alloc,
        socket,
        waits,
    })
}

/// The socket of a stream that was dialled, if the server takes the upgrade in time.
fn ask<R: RandomSource + Clock + Copy + Drop>(
    rt: R,
    alloc: Global,
    port: u16,
    stream: TcpStream,
    waits: &mut WatchedSockets,
) -> Result<WebSocket<TcpStream, RandomKeys<R>>, Error> {
    let uri = format!(in alloc; "ws://127.0.0.1:{port}/session")?;
    let request = client::request_of(alloc, uri.as_str())?;
    let mut nonce = [0u8; 16];
    rt.fill_bytes(&mut nonce)?;
    let keys = RandomKeys::new(rt);
    let limits = Some(dialled_limits());
    let deadline = Deadline::new(&rt);
    let mut stage = client::start(alloc, nonce, keys, request, stream, limits)?.handshake();
    for _ in 0..ROUNDS {
        match stage {
            Ok((socket, _)) => return Ok(socket),
            Err(HandshakeError::Failure(error)) => return Err(error),
            Err(HandshakeError::Interrupted(half)) => {
                waits.wait_until(&rt, &deadline)?;
                stage = half.handshake();
            }
        }
    }
    Err(Error::HandshakeIncomplete)
}
