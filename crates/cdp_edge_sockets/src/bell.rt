//! The bell of a harbor's doors.

use cdp_edge_server::Bell;
use mio::Waker;
use std::alloc::Global;
use std::sync::{Arc, Wait};
use std::thread::Parker;
use std::time::Duration;

/// Who waits: at each door or for its link, and one at the bell.
#[derive(Drop)]
pub struct Sleepers {
    doors: Vec<Waker>,
    at_bell: Parker,
}

/// A bell that wakes those who wait at the doors of one harbor and for their links. A dialled link has no bell.
#[derive(Drop)]
pub struct SocketBell {
    sleepers: Option<Arc<Sleepers, Global>>,
}

impl Sleepers {
    /// Those who are woken by these.
    pub fn new(doors: Vec<Waker>) -> Sleepers {
        Sleepers {
            doors,
            at_bell: Parker::new(),
        }
    }

    /// Wakes them all.
    fn wake(&self) {
        for waker in &self.doors {
            let _ = waker.wake();
        }
        self.at_bell.unpark();
    }
}

impl SocketBell {
    /// The bell of these, or one that wakes nobody.
    pub fn new(sleepers: &Option<Arc<Sleepers, Global>>) -> SocketBell {
        SocketBell {
            sleepers: match sleepers {
                Some(sleepers) => Arc::try_clone(sleepers).ok(),
                None => None,
            },
        }
    }
}

impl Bell for SocketBell {
    fn ring(&self) {
        if let Some(sleepers) = &self.sleepers {
            sleepers.wake();
        }
    }

    fn wait<R: Wait>(&self, rt: &R) {
        let patience = Duration::from_secs(1);
        match &self.sleepers {
            Some(sleepers) => sleepers.at_bell.park_timeout(rt, patience),
            None => Parker::new().park_timeout(rt, patience),
        }
    }
}
