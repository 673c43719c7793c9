//! A door over a listening socket.

ghost use Rattle.std.specs.Prelude.{◌≡◌, None, IfOk};
ghost use Rattle.cdp_edge_sockets.specs.Counts.{IsNewDoor};

use crate::entrance::Entrance;
use crate::link::SocketLink;
use crate::waits::WatchedSockets;
use cdp_edge_server::{Door, DoorAnswer};
use mio::net::TcpListener;
use std::alloc::Global;
use std::marker::Model;
use std::random::RandomSource;
use std::rt::Clock;
use std::sync::Wait;
use std::{io, net};

/// A door at which HTTP is spoken (RFC 9112), and from which WebSockets arrive. A contract sees how often it was asked and
/// how often it failed.
///
/// Each connection has one request and one answer, that of `cdp_door`; a link is one that was upgraded. Where a connection
/// can't be accepted, breaks off, is silent for five seconds within its request, or gets another answer, nobody has arrived:
/// that is no fault of the door. A link takes along what the door waits with, until it is taken back.
#[derive(Drop)]
pub struct SocketDoor<R: RandomSource + Clock + Wait + Copy + Drop> {
    entrance: Entrance<R>,
    waits: Option<WatchedSockets>,
    asked: u64,
    faults: u64,
}

impl<R: RandomSource + Clock + Wait + Copy + Drop> Model for SocketDoor<R> {
    ghost use Rattle.cdp_edge_sockets.specs.Counts.{DoorCounts};

    ghost Value = { DoorCounts };

    ghost view = { λ a. record { asked = a.asked; faults = a.faults } };
}

impl<R: RandomSource + Clock + Wait + Copy + Drop> SocketDoor<R> {
    /// One more door on a listener that doesn't block, at this port, of a program whose first script has this url.
    pub(crate) fn new(
        rt: R,
        alloc: Global,
        listener: &net::TcpListener,
        port: u16,
        url: &str,
        waits: WatchedSockets,
    ) -> io::Result<SocketDoor<R>>
        ensures { IfOk result IsNewDoor }
    {
        let mut listener = TcpListener::from_std(listener.try_clone()?);
        waits.watch(&mut listener)?;
        let url = String::from_str(alloc, url)?;
        Ok(SocketDoor {
            entrance: Entrance {
                rt,
                alloc,
                listener,
                port,
                url,
            },
            waits: Some(waits),
            asked: 0,
            faults: 0,
        })
    }

    /// How often a call failed.
    pub(crate) fn faults(&self) -> u64
        ensures { result ≡ self.now.faults }
    {
        self.faults
    }
}

impl<R: RandomSource + Clock + Wait + Copy + Drop> Door for SocketDoor<R> {
    type Link = SocketLink<R>;

    ghost faults = { λ door. door.faults };

    ghost asked = { λ door. door.asked };

    ghost waiting = { λ _. None };

    ghost served = { λ _. None };

    ghost is_out = { λ _. None };

    fn next(&mut self) -> DoorAnswer<SocketLink<R>> {
        self.asked = self.asked.saturating_add(1);
        let Some(waits) = self.waits.take() else {
            self.faults = self.faults.saturating_add(1);
            return DoorAnswer::Failed;
        };
        let (answer, left) = self.entrance.admit(waits);
        self.waits = left;
        match answer {
            DoorAnswer::Arrived(line) => DoorAnswer::Arrived(SocketLink::new(line)),
            DoorAnswer::Quiet => DoorAnswer::Quiet,
            DoorAnswer::Memory => DoorAnswer::Memory,
            DoorAnswer::Failed => {
                self.faults = self.faults.saturating_add(1);
                DoorAnswer::Failed
            }
        }
    }

    fn back(&mut self, link: SocketLink<R>) {
        self.waits = Some(link.let_go());
    }
}
