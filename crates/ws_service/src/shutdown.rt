//! Shuts the program where something failed.

ghost use Rattle.std.specs.Prelude.{◌≡◌, false};
ghost use Rattle.ws_service.specs.Shutdowns.{ShutsDown};

use cdp_edge_server::Bell;
use cdp_host_turns::{Hosted, Lock, Worker, shut};
use history_lock::Spent;
use std::sync::Wait;

/// A program that was to be shut and was not, since no ticket was left for that turn. It comes from `shut_down` alone.
#[derive(Clone, Copy)]
pub struct NotShut {
    ticket: u64,
}

/// Shuts the program by one turn. Where no ticket is left for that, nobody takes a turn any more.
pub(crate) fn shut_down<H: Hosted<B>, B, D: Bell, R: Wait>(
    rt: &R,
    lock: &Lock<H, B>,
    bell: &D,
    p: &mut Worker<H, B>,
) -> Option<NotShut>
    requires lock { p.old.lock ≡ lock.now }
    requires free { p.old.in_turn ≡ false }
    ensures { ShutsDown H.debugs p.old p.new result }
{
    match shut(rt, lock, bell, p) {
        Ok(()) => None,
        Err(Spent { ticket }) => Some(NotShut { ticket }),
    }
}
