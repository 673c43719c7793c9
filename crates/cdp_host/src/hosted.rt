//! A host under the lock of its history: what a turn asks of it.

ghost use Rattle.std.specs.Prelude.{[], false};

use crate::host::Host;
use cdp_host_seats::SessionLost;
use cdp_host_turns::{Entry, Hosted, Ran, State, Told};
use history_lock::Standing;
use std::alloc::AllocError;
use std::marker::Brand;

/// Names what a host began with. Only contracts read it.
pub trait Beginning {
    ghost use Rattle.std.specs.Prelude.{ℕ, List, Bool};
    ghost use Rattle.js_tree.specs.declared.script.Script.{Script as AnyScript};

    /// The scripts.
    ghost scripts: { List AnyScript };

    /// The lines of input.
    ghost input: { List (List ℕ) };

    /// Whether the program is to wait for a client.
    ghost wait: { Bool };
}

impl Beginning for Brand {
    ghost scripts = { [] };

    ghost input = { [] };

    ghost wait = { false };
}

impl<'p, B: Beginning> Standing<Entry, B> for Host<'p> {
    ghost use Rattle.cdp_host.specs.Debugged.{StandsOwned};

    ghost stands = { λ host history. StandsOwned B.scripts B.input B.wait host history };
}

impl<'p, B: Beginning> Hosted<B> for Host<'p> {
    ghost use Rattle.std.specs.Prelude.{[]};
    ghost use Rattle.cdp_host_isolation.specs.Seats.{is_attached, seat_of};
    ghost use Rattle.cdp_host.specs.Debugged.{debugging};
    ghost use Rattle.cdp_host.specs.Hosts.{state_at};

    ghost debugs = { debugging B.scripts B.input B.wait };

    ghost attached = { λ host session. is_attached (seat_of session host.meaning.seats) };

    ghost tells = { λ host. state_at host [] };

    fn state(&self) -> State {
        Host::state(self)
    }

    fn is_attached(&self, session: u64) -> bool {
        self.attached(session)
    }

    fn attach(&mut self) -> Result<u64, AllocError> {
        Host::attach(self)
    }

    fn tell(&mut self, session: u64, text: &str) -> Told {
        Host::tell(self, session, text)
    }

    fn take(&mut self, session: u64) -> Vec<String> {
        Host::take(self, session)
    }

    fn detach(&mut self, session: u64) -> Option<SessionLost> {
        Host::detach(self, session)
    }

    fn run(&mut self, most: u64, moment: u64) -> Result<Ran, Vec<SessionLost>> {
        match Host::run(self, most, moment) {
            Ok(ran) => Ok(ran),
            Err(AllocError) => Err(self.fallen()),
        }
    }

    fn shut(&mut self) {
        Host::shut(self);
    }
}
