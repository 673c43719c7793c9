//! Serves a script over a socket of this machine, sends it the commands of a file by the client, and prints what the client
//! printed, what the script printed, and how both ended.

use cdp_edge::{FileShelf, MemSink};
use cdp_edge_server::FixedClock;
use cdp_edge_sockets::SocketHarbor;
use debug_host_commands::debug_main;
use std::alloc::AllocError;
use std::net::{Ipv4Addr, Net, SocketAddr, TcpListener, TcpStream};
use std::random::RandomSource;
use std::rt::{Clock, Files};
use std::sync::Wait;
use std::thread::{Threads, sleep};
use std::time::Duration;
use std::{io, str};

/// How often the client dials before it gives up.
const TRIES: u32 = 200;

/// How one of the two ended, and what it printed.
#[derive(Drop)]
pub(crate) struct Ended {
    status: u8,
    output: MemSink,
}

/// A port of this machine at which nobody listens now.
pub(crate) fn free_port(
    rt: &impl Net<Listener = TcpListener, Stream = TcpStream>,
) -> io::Result<u16> {
    let listener = TcpListener::bind(rt, SocketAddr::from((Ipv4Addr::LOCALHOST, 0)))?;
    Ok(listener.local_addr()?.port())
}

/// The program's call with the words that this text has, cut at its blanks.
fn call<
    R: Threads
        + Wait
        + Sync
        + Send
        + Files
        + Eprint
        + Net<Listener = TcpListener, Stream = TcpStream>
        + RandomSource
        + Clock
        + AllocGlobal
        + Copy
        + Drop,
>(rt: R, line: &str) -> Result<Ended, AllocError> {
    let alloc = rt.alloc();
    let mut words = Vec::new(alloc);
    for word in line.split(' ') {
        words.push(String::from_str(alloc, word)?)?;
    }
    let mut shelf = FileShelf::new(alloc, rt);
    let mut output = MemSink::new(Vec::new(alloc));
    let mut errors = MemSink::new(Vec::new(alloc));
    let mut harbor = SocketHarbor::new(alloc, rt, String::new(alloc));
    let mut clock = FixedClock::new(0);
    let status = debug_main(
        &rt,
        alloc,
        &words,
        &mut shelf,
        &mut output,
        &mut errors,
        &mut harbor,
        &mut clock,
    );
    Ok(Ended { status, output })
}

/// Serves the script to one client, which lets it begin.
pub(crate) fn serve<
    R: Threads
        + Wait
        + Sync
        + Send
        + Files
        + Eprint
        + Net<Listener = TcpListener, Stream = TcpStream>
        + RandomSource
        + Clock
        + AllocGlobal
        + Copy
        + Drop,
>(rt: R, port: u16) -> Result<Ended, AllocError> {
    let line = format!(in rt.alloc(); "serve --port {port} --sessions 1 --wait served.js")?;
    call(rt, line.as_str())
}

/// Sends the commands, once the host listens.
pub(crate) fn send_until_served<
    R: Threads
        + Wait
        + Sync
        + Send
        + Files
        + Eprint
        + Net<Listener = TcpListener, Stream = TcpStream>
        + RandomSource
        + Clock
        + AllocGlobal
        + Copy
        + Drop,
>(rt: R, port: u16) -> Result<Ended, AllocError> {
    let line = format!(in rt.alloc(); "send --port {port} served.commands")?;
    for _ in 0..TRIES {
        let ended = call(rt, line.as_str())?;
        if ended.status != 7 {
            return Ok(ended);
        }
        let _ = sleep(&rt, Duration::from_millis(50));
    }
    call(rt, line.as_str())
}

/// Tells how the server and its client ended.
///
/// # Errors
///
/// Those of the system.
pub(crate) fn tell_both(
    rt: &impl Print,
    served: Result<Ended, AllocError>,
    sent: Result<Ended, AllocError>,
) -> io::Result<()> {
    let (Ok(served), Ok(sent)) = (served, sent) else {
        return println!(rt; "out of memory");
    };
    tell(rt, "the client", &sent)?;
    tell(rt, "the host", &served)
}

/// Prints how one ended.
fn tell(rt: &impl Print, name: &str, ended: &Ended) -> io::Result<()> {
    let status = ended.status;
    let text = str::from_utf8(ended.output.taken()).unwrap_or("not UTF-8");
    println!(rt; "{name} ended with status {status}, after it printed")?;
    print!(rt; "{text}")
}
