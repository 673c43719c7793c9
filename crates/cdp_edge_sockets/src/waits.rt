//! What one thread waits with, for its sockets or for a ring of the bell.
//!
//! A ring during a wait for the socket alone is kept for the next wait.

use crate::deadline::Deadline;
use mio::event::Source;
use mio::{Events, Interest, Poll, Token, Waker};
use std::alloc::Global;
use std::io;
use std::io::ErrorKind;
use std::net::Net;
use std::rt::Clock;
use std::time::Duration;

/// How many waits one call makes at most, whatever the clock says.
pub const ROUNDS: u32 = 100_000;

/// A socket that is watched.
const SOCKET: Token = Token(0);

/// The bell.
const BELL: Token = Token(1);

/// The sockets that are watched, and whether the bell was rung in a wait that was not for it.
#[derive(Drop)]
pub struct WatchedSockets {
    poll: Poll,
    events: Events,
    is_rung: bool,
}

impl WatchedSockets {
    /// Waits that watch no socket.
    pub fn new<R: Net>(rt: &R, alloc: Global) -> io::Result<WatchedSockets> {
        Ok(WatchedSockets {
            poll: Poll::new(rt)?,
            events: Events::with_capacity(alloc, 4)?,
            is_rung: false,
        })
    }

    /// What rings here. One is asked for.
    pub fn waker(&self) -> io::Result<Waker> {
        Waker::new(self.poll.registry(), BELL)
    }

    /// Watches a socket, both ways.
    pub fn watch<S: Source>(&self, socket: &mut S) -> io::Result<()> {
        let both = Interest::READABLE | Interest::WRITABLE;
        self.poll.registry().register(socket, SOCKET, both)
    }

    /// Waits for a socket, this long. A ring ends the wait too, and is kept for `wait_or_ring`.
    pub fn wait(&mut self, patience: Duration) -> io::Result<()> {
        self.poll.poll(&mut self.events, Some(patience))?;
        if self.events.iter().any(|event| event.token() == BELL) {
            self.is_rung = true;
        }
        Ok(())
    }

    /// Waits for a socket until the deadline, as `wait` does.
    ///
    /// # Errors
    ///
    /// `TimedOut` where the deadline has passed, and those of the system.
    pub fn wait_until<R: Clock>(&mut self, rt: &R, deadline: &Deadline) -> io::Result<()> {
        match deadline.left(rt) {
            Some(left) => self.wait(left),
            None => Err(io::Error::from(ErrorKind::TimedOut)),
        }
    }

    /// Waits for a socket or a ring, this long. A ring since the last such wait isn't lost.
    pub fn wait_or_ring(&mut self, patience: Duration) -> io::Result<()> {
        if !self.is_rung {
            self.wait(patience)?;
        }
        self.is_rung = false;
        Ok(())
    }
}
