//! A link over a socket.

ghost use Rattle.std.specs.Prelude.{◌≡◌, None};

use crate::line::Connection;
use crate::waits::WatchedSockets;
use cdp_edge_server::{Link, LinkFault, Recv};
use std::marker::Model;
use std::random::RandomSource;
use std::rt::Clock;

/// A link over a WebSocket, served or dialled. A contract sees its count of faults.
///
/// A text above the limit answers `TooBig`. A peer that breaks the protocol is sent the close code of RFC 6455, and the
/// link answers `Failed`; one that goes away without a close is `Closed`. A send that the peer doesn't take for five
/// seconds has failed.
#[derive(Drop)]
pub struct SocketLink<R: RandomSource + Clock + Copy + Drop> {
    line: Connection<R>,
    faults: u64,
}

impl<R: RandomSource + Clock + Copy + Drop> Model for SocketLink<R> {
    ghost use Rattle.std.specs.Prelude.{ℕ};

    ghost Value = { ℕ };

    ghost view = { λ a. a.faults };
}

impl<R: RandomSource + Clock + Copy + Drop> SocketLink<R> {
    /// A link that never failed.
    pub(crate) fn new(line: Connection<R>) -> SocketLink<R>
        ensures { result ≡ 0 }
    {
        SocketLink { line, faults: 0 }
    }

    /// How often a call failed.
    pub(crate) fn faults(&self) -> u64
        ensures { result ≡ self.now }
    {
        self.faults
    }

    /// Ends the connection, and gives back what its thread waits with.
    pub(crate) fn let_go(self) -> WatchedSockets {
        self.line.let_go()
    }
}

impl<R: RandomSource + Clock + Copy + Drop> Link for SocketLink<R> {
    ghost faults = { λ link. link };

    ghost coming = { λ _. None };

    ghost answers = { λ _. None };

    ghost sent = { λ _. None };

    ghost closed = { λ _. None };

    fn recv(&mut self) -> Recv {
        let answer = self.line.recv();
        if let Recv::Failed = answer {
            self.faults = self.faults.saturating_add(1);
        }
        answer
    }

    fn send(&mut self, text: &str) -> Result<(), LinkFault> {
        let answer = self.line.send(text);
        if let Err(LinkFault::Failed) = answer {
            self.faults = self.faults.saturating_add(1);
        }
        answer
    }

    fn close(&mut self, code: u16) -> Result<(), LinkFault> {
        let answer = self.line.close(code);
        if let Err(LinkFault::Failed) = answer {
            self.faults = self.faults.saturating_add(1);
        }
        answer
    }
}
