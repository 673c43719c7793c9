//! How a connection begins and ends.
//!
//! It ends by `let_go`: the way out is shut first, and what still comes is read for a while, so that the peer gets all
//! that it was sent.

use crate::waits::WatchedSockets;
use mio::net::TcpStream;
use std::io::{ErrorKind, Read};
use std::net::Shutdown;
use std::time::Duration;
use std::{io, net};

/// How many reads a farewell makes at most.
const FAREWELL_READS: u32 = 1024;

/// How often a farewell waits at most.
const FAREWELL_WAITS: u32 = 64;

/// Makes a connection ready: its stream doesn't block, sends each piece at once, and is watched by these waits.
pub fn prepare(stream: net::TcpStream, waits: &WatchedSockets) -> io::Result<TcpStream> {
    stream.set_nonblocking(true)?;
    stream.set_nodelay(true)?;
    let mut stream = TcpStream::from_std(stream);
    waits.watch(&mut stream)?;
    Ok(stream)
}

/// Ends a connection so that the peer reads what it was sent. Else the system would reset the connection, and what was sent last might be lost.
pub fn let_go(mut stream: TcpStream, waits: &mut WatchedSockets) {
    let _ = stream.shutdown(Shutdown::Write);
    pass_over(&mut stream, waits);
}

/// Reads to the end, or for a while.
fn pass_over(stream: &mut TcpStream, waits: &mut WatchedSockets) {
    let mut part = [0u8; 4096];
    let mut patience = FAREWELL_WAITS;
    for _ in 0..FAREWELL_READS {
        match stream.read(&mut part) {
            Ok(0) => return,
            Ok(_) => {}
            Err(error) if error.kind() == ErrorKind::WouldBlock => {
                if patience == 0 {
                    return;
                }
                patience -= 1;
                if waits.wait(Duration::from_millis(10)).is_err() {
                    return;
                }
            }
            Err(_) => return,
        }
    }
}
