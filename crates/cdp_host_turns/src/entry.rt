//! Entries of a history.

ghost use Rattle.std.specs.Prelude.{◌≡◌, string_bytes};
ghost use Rattle.cdp_host_isolation.specs.Histories.{Attach, Tell, Take, Detach, Ran, Shut};
ghost use Rattle.cdp_host_turns.specs.Entries.{lost_for_memory};

use cdp_host_seats::SessionLost;
use std::marker::Model;

/// What befell a host.
#[derive(Drop)]
enum Event {
    /// A session was attached.
    Attach,
    /// A session was told a text.
    Tell {
        session: u64,
        text: String,
    },
    /// A session's texts were handed out.
    Take {
        session: u64,
    },
    /// A session was detached.
    Detach {
        session: u64,
    },
    /// So many steps were made at a moment, in milliseconds since the epoch, and these sessions were lost.
    Ran {
        steps: u64,
        moment: u64,
        lost: Vec<SessionLost>,
    },
    /// The program was shut.
    Shut,
}

/// One entry of a history. Contracts see it as `cdp_host_isolation` has it.
#[derive(Drop)]
pub struct Entry {
    event: Event,
}

impl Model for Entry {
    ghost use Rattle.cdp_host_isolation.specs.Histories.{Entry as AnyEntry};
    ghost use Rattle.cdp_host_turns.specs.Entries.{entry_of};

    ghost Value = { AnyEntry };

    ghost view = { λ a. entry_of a.event };
}

impl Entry {
    /// A session was attached.
    pub fn attach() -> Entry
        ensures { result ≡ Attach }
    {
        Entry {
            event: Event::Attach,
        }
    }

    /// A session was told a text.
    pub fn tell(session: u64, text: String) -> Entry
        ensures { result ≡ Tell session (string_bytes text) }
    {
        Entry {
            event: Event::Tell { session, text },
        }
    }

    /// A session's texts were handed out; that of the number 0 is nobody.
    pub fn take(session: u64) -> Entry
        ensures { result ≡ Take session }
    {
        Entry {
            event: Event::Take { session },
        }
    }

    /// A session was detached.
    pub fn detach(session: u64) -> Entry
        ensures { result ≡ Detach session }
    {
        Entry {
            event: Event::Detach { session },
        }
    }

    /// So many steps were made at a moment, in milliseconds since the epoch, and these sessions were lost.
    pub fn ran(steps: u64, moment: u64, lost: Vec<SessionLost>) -> Entry
        ensures { result ≡ Ran steps moment (lost_for_memory lost.items) }
    {
        Entry {
            event: Event::Ran {
                steps,
                moment,
                lost,
            },
        }
    }

    /// The program was shut.
    pub fn shut() -> Entry
        ensures { result ≡ Shut }
    {
        Entry { event: Event::Shut }
    }
}
