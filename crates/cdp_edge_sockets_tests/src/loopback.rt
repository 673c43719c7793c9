//! A door of one harbor, and who comes to it, in two threads: a request of HTTP, and a dialled link.

use cdp_edge_server::{Bell, Clock, Door, DoorAnswer, Harbor, Link, Recv};
use cdp_edge_sockets::{SocketDoor, SocketHarbor, SocketLink, SystemClock};
use std::alloc::Global;
use std::io::{Read, Write};
use std::net::{Ipv4Addr, Net, SocketAddr, TcpListener, TcpStream};
use std::random::RandomSource;
use std::sync::Wait;
use std::thread::join;

/// How often one end waits for the other, a second each time.
const WAITS: u32 = 30;

/// The next link that arrives.
fn arrived<R: RandomSource + std::rt::Clock + Wait + Copy + Drop>(
    door: &mut SocketDoor<R>,
) -> Option<SocketLink<R>> {
    for _ in 0..WAITS {
        if let DoorAnswer::Arrived(link) = door.next() {
            return Some(link);
        }
    }
    None
}

/// Whether a text came, went back, and was followed by a close.
fn echo<L: Link>(link: &mut L) -> bool {
    for _ in 0..WAITS {
        match link.recv() {
            Recv::Text(text) => {
                if link.send(text.as_str()).is_err() {
                    return false;
                }
            }
            Recv::Quiet => {}
            Recv::Closed => return true,
            _ => return false,
        }
    }
    false
}

/// What a link hears next.
fn next_of<L: Link>(link: &mut L) -> Recv {
    for _ in 0..WAITS {
        match link.recv() {
            Recv::Quiet => {}
            answer => return answer,
        }
    }
    Recv::Quiet
}

/// Whether this text is the next that a link hears.
fn hears<L: Link>(link: &mut L, text: &str) -> bool {
    match next_of(link) {
        Recv::Text(heard) => heard.as_str() == text,
        _ => false,
    }
}

/// Whether a text that is sent comes back, and a close too.
fn talk<L: Link>(link: &mut L, text: &str) -> bool {
    if link.send(text).is_err() || !hears(link, text) || link.close(1000).is_err() {
        return false;
    }
    match next_of(link) {
        Recv::Closed => true,
        _ => false,
    }
}

/// Whether the version is told at a port, and the connection is then closed.
fn is_told<R: Net<Listener = TcpListener, Stream = TcpStream>>(
    rt: &R,
    alloc: Global,
    port: u16,
) -> bool {
    let place = SocketAddr::from((Ipv4Addr::LOCALHOST, port));
    let Ok(mut stream) = TcpStream::connect(rt, place) else {
        return false;
    };
    let request = b"GET /json/version HTTP/1.1\r\nHost: x\r\n\r\n";
    let mut answer = Vec::new(alloc);
    stream.write_all(request).is_ok()
        && stream.read_to_end(&mut answer).is_ok()
        && answer.starts_with(b"HTTP/1.1 200 OK\r\n")
        && answer.ends_with(br#"{"Browser":"debug_host","Protocol-Version":"1.3"}"#)
}

/// Dials a port, and sends a text that comes back.
fn call<
    R: Net<Listener = TcpListener, Stream = TcpStream>
        + RandomSource
        + std::rt::Clock
        + Wait
        + Eprint
        + Copy
        + Drop,
>(harbor: &mut SocketHarbor<R>, port: u16) -> bool {
    let Ok(mut link) = harbor.dial(port) else {
        return false;
    };
    let heard = talk(&mut link, "h\u{e9}llo");
    harbor.hang_up(link);
    heard
}

/// Serves one link.
fn serve<R: RandomSource + std::rt::Clock + Wait + Copy + Drop>(door: &mut SocketDoor<R>) -> bool {
    let Some(mut link) = arrived(door) else {
        return false;
    };
    let served = echo(&mut link);
    door.back(link);
    served
}

#[test]
fn a_text_goes_both_ways(rt: HostRuntime) {
    let mut harbor = SocketHarbor::new(rt.alloc(), rt, String::new(rt.alloc()));
    let mut doors = harbor.open(0, 1).expect(&rt, "a port is free");
    let port = harbor.port().expect(&rt, "the doors are open");
    let mut door = doors.pop().expect(&rt, "one was asked for");
    let bell = harbor.bell();
    let (served, heard) = join(
        &rt,
        || {
            let served = serve(&mut door);
            bell.ring();
            served
        },
        || is_told(&rt, rt.alloc(), port) && call(&mut harbor, port),
    );
    bell.wait(&rt);
    assert!(rt; served);
    assert!(rt; heard);
    doors.push(door).expect(&rt, "there is room for a door");
    harbor.shut(doors);
    assert!(rt; harbor.faults() == 0);
    assert!(rt; SystemClock::new(rt).now_ms() > 1_700_000_000_000);
}
