//! A harbor over the sockets of this machine.

ghost use Rattle.std.specs.Prelude.{◌≡◌, None, length, All, IfOk};
ghost use Rattle.cdp_edge_server.specs.Contents.{no_calls};
ghost use Rattle.cdp_edge_sockets.specs.Counts.{IsNewDoor, any_failed, after_shut};

use crate::bell::{Sleepers, SocketBell};
use crate::dialing::dial_line;
use crate::door::SocketDoor;
use crate::link::SocketLink;
use crate::waits::WatchedSockets;
use cdp_edge_server::{Harbor, HarborFault};
use std::alloc::Global;
use std::io;
use std::io::ErrorKind;
use std::marker::Model;
use std::net::{Ipv4Addr, Net, SocketAddr, TcpListener, TcpStream};
use std::random::RandomSource;
use std::rt::Clock;
use std::sync::{Arc, Wait};
use tungstenite::Error;

/// A harbor whose doors listen on 127.0.0.1, and that dials ports of it. A contract sees what it was asked for, and how
/// often it failed.
///
/// Once its doors are open it says so on the process's error stream, by a line with the port. Doors that are opened
/// again have a bell of their own.
#[derive(Drop)]
pub struct SocketHarbor<
    R: Net<Listener = TcpListener, Stream = TcpStream>
        + RandomSource
        + Clock
        + Wait
        + Eprint
        + Copy
        + Drop,
> {
    rt: R,
    alloc: Global,
    url: String,
    sleepers: Option<Arc<Sleepers, Global>>,
    port: Option<u16>,
    opens: u64,
    opened_with: Option<(u16, usize)>,
    dials: u64,
    dialled_with: Option<u16>,
    faults: u64,
}

impl<
    R: Net<Listener = TcpListener, Stream = TcpStream>
        + RandomSource
        + Clock
        + Wait
        + Eprint
        + Copy
        + Drop,
> Model for SocketHarbor<R> {
    ghost use Rattle.cdp_edge_sockets.specs.Counts.{HarborCounts};

    ghost Value = { HarborCounts };

    ghost view = { λ a. record {
      opens = record { count = a.opens; last = a.opened_with };
      dials = record { count = a.dials; last = a.dialled_with };
      faults = a.faults;
    } };
}

impl<
    R: Net<Listener = TcpListener, Stream = TcpStream>
        + RandomSource
        + Clock
        + Wait
        + Eprint
        + Copy
        + Drop,
> SocketHarbor<R> {
    /// A harbor that was asked for nothing, of a program whose first script has this url. It takes no memory.
    pub fn new(alloc: Global, rt: R, url: String) -> SocketHarbor<R>
        ensures { result ≡ record { opens = no_calls; dials = no_calls; faults = 0 } }
    {
        SocketHarbor {
            rt,
            alloc,
            url,
            sleepers: None,
            port: None,
            opens: 0,
            opened_with: None,
            dials: 0,
            dialled_with: None,
            faults: 0,
        }
    }

    /// The port at which the doors that were opened last listen.
    pub fn port(&self) -> Option<u16> {
        self.port
    }

    /// How often a call failed.
    pub fn faults(&self) -> u64
        ensures { result ≡ self.now.faults }
    {
        self.faults
    }
}

/// Doors on one port, and who waits there.
#[derive(Drop)]
struct Opened<R: RandomSource + Clock + Wait + Copy + Drop> {
    port: u16,
    doors: Vec<SocketDoor<R>>,
    sleepers: Arc<Sleepers, Global>,
}

/// This many doors on one port, of a program whose first script has this url.
fn open_doors<
    R: Net<Listener = TcpListener, Stream = TcpStream> + RandomSource + Clock + Wait + Copy + Drop,
>(rt: R, alloc: Global, port: u16, url: &str, count: usize) -> io::Result<Opened<R>>
    ensures number { IfOk result (λ opened. length opened.doors.items ≡ count) }
    ensures new { IfOk result (λ opened. All IsNewDoor opened.doors.items) }
{
    let listener = TcpListener::bind(&rt, SocketAddr::from((Ipv4Addr::LOCALHOST, port)))?;
    listener.set_nonblocking(true)?;
    let port = listener.local_addr()?.port();
    let mut doors = Vec::new(alloc);
    let mut wakers = Vec::new(alloc);
    for _ in 0..count {
        let waits = WatchedSockets::new(&rt, alloc)?;
        wakers.push(waits.waker()?)?;
        doors.push(SocketDoor::new(rt, alloc, &listener, port, url, waits)?)?;
    }
    let sleepers = Arc::new(alloc, Sleepers::new(wakers))?;
    Ok(Opened {
        port,
        doors,
        sleepers,
    })
}

/// Whether one of these doors has failed.
fn any_failed<R: RandomSource + Clock + Wait + Copy + Drop>(doors: &[SocketDoor<R>]) -> bool
    ensures { result ≡ any_failed doors.now }
{
    for door in doors {
        if door.faults() != 0 {
            return true;
        }
    }
    false
}

/// Why a socket gave nothing.
fn fault_of(kind: ErrorKind) -> HarborFault {
    match kind {
        ErrorKind::OutOfMemory => HarborFault::Memory,
        _ => HarborFault::Failed,
    }
}

/// Why a port wasn't dialled.
fn dial_fault_of(error: &Error) -> HarborFault {
    match error {
        Error::OutOfMemory => HarborFault::Memory,
        Error::Io(error) => fault_of(error.kind()),
        _ => HarborFault::Failed,
    }
}

impl<
    R: Net<Listener = TcpListener, Stream = TcpStream>
        + RandomSource
        + Clock
        + Wait
        + Eprint
        + Copy
        + Drop,
> Harbor for SocketHarbor<R> {
    type Link = SocketLink<R>;

    type Door = SocketDoor<R>;

    type Bell = SocketBell;

    ghost faults = { λ harbor. harbor.faults };

    ghost opens = { λ harbor. harbor.opens };

    ghost dials = { λ harbor. harbor.dials };

    ghost doors_out = { λ _. None };

    ghost links_out = { λ _. None };

    ghost kept = { λ _. None };

    ghost hung_up = { λ _. None };

    fn open(&mut self, port: u16, count: usize) -> Result<Vec<SocketDoor<R>>, HarborFault> {
        self.opens = self.opens.saturating_add(1);
        self.opened_with = Some((port, count));
        match open_doors(self.rt, self.alloc, port, self.url.as_str(), count) {
            Ok(opened) => {
                let Opened {
                    port,
                    doors,
                    sleepers,
                } = opened;
                self.port = Some(port);
                self.sleepers = Some(sleepers);
                let _ = eprintln!(self.rt; "Debugger listening on ws://127.0.0.1:{port}/session");
                Ok(doors)
            }
            Err(error) => match fault_of(error.kind()) {
                HarborFault::Memory => Err(HarborFault::Memory),
                HarborFault::Failed => {
                    self.faults = self.faults.saturating_add(1);
                    Err(HarborFault::Failed)
                }
            },
        }
    }

    fn shut(&mut self, doors: Vec<SocketDoor<R>>)
        ensures { self.new ≡ after_shut doors.items self.old }
    {
        if any_failed(&doors) {
            self.faults = self.faults.saturating_add(1);
        }
    }

    fn dial(&mut self, port: u16) -> Result<SocketLink<R>, HarborFault> {
        self.dials = self.dials.saturating_add(1);
        self.dialled_with = Some(port);
        match dial_line(self.rt, self.alloc, port) {
            Ok(line) => Ok(SocketLink::new(line)),
            Err(error) => match dial_fault_of(&error) {
                HarborFault::Memory => Err(HarborFault::Memory),
                HarborFault::Failed => {
                    self.faults = self.faults.saturating_add(1);
                    Err(HarborFault::Failed)
                }
            },
        }
    }

    fn hang_up(&mut self, link: SocketLink<R>) {
        if link.faults() != 0 {
            self.faults = self.faults.saturating_add(1);
        }
        link.let_go();
    }

    fn bell(&self) -> SocketBell {
        SocketBell::new(&self.sleepers)
    }
}
