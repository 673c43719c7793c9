//! A harbor opens doors on a port and dials ports. It counts its faults and tells what it was asked for.

ghost use Rattle.std.specs.Prelude.{◌≡◌, ◌≤◌, ◌∷◌, [], ℕ, List, Option, length, map, All, IfOk, OnOk, OnErr, IsErrOf};
ghost use Rattle.cdp_edge.specs.Outside.{IfTold, Rose};
ghost use Rattle.cdp_edge_server.specs.Contents.{Spoken, Tended, IsUnused, IsNew, Calls, called, adds, any_fault, RisesAt};
ghost use Rattle.cdp_edge_server.specs.Contents.{raised, lowered};

use crate::{Bell, Door, Link};
use thiserror::Error;

/// Why a harbor gave nothing.
#[derive(Clone, Copy, Debug, Error)]
pub enum HarborFault {
    /// The harbor failed, and its count rose.
    #[error("the port can't be reached")]
    Failed,
    /// No memory was left for the call.
    #[error("out of memory")]
    Memory,
}

/// Where doors are opened, and from where ports are dialled.
pub trait Harbor {
    /// The links of ports that are dialled.
    type Link: Link;

    /// The doors that are opened here.
    type Door: Door;

    /// The bell of those who wait at its doors and for its links.
    type Bell: Bell;

    /// How often a call has failed; it stays at the greatest `u64`.
    ghost faults: { Self → ℕ };

    /// How often `open` was called, and with which port and how many doors last.
    ghost opens: { Self → Calls (ℕ × ℕ) };

    /// How often `dial` was called, and with which port last.
    ghost dials: { Self → Calls ℕ };

    /// How many doors are out, where that is told.
    ghost doors_out: { Self → Option ℕ };

    /// How many dialled links are out, where that is told.
    ghost links_out: { Self → Option ℕ };

    /// The doors that were given back, in order, where they are told.
    ghost kept: { Self → Option (List Tended) };

    /// The dialled links that were given back, in order, where they are told.
    ghost hung_up: { Self → Option (List Spoken) };

    /// Opens so many doors on one port, at least one.
    ///
    /// # Errors
    ///
    /// `Failed`, and the count rose, or stands at the greatest `u64`; `Memory` at want of memory, and
    /// the count is as it was.
    fn open(&mut self, port: u16, count: usize) -> Result<Vec<Self::Door>, HarborFault>
        requires some { 1 ≤ count }
        ensures number { IfOk result (λ doors. length doors.items ≡ count) }
        ensures doors { IfOk result (λ doors. All (λ door. IsNew (record {
          faults = Self.Door.faults door;
          asked = Self.Door.asked door;
          served = Self.Door.served door;
          is_out = Self.Door.is_out door;
        })) doors.items) }
        ensures out { OnOk result (doors_out self.new ≡ raised (doors_out self.old) count) }
        ensures nothing { OnErr result (doors_out self.new ≡ doors_out self.old) }
        ensures opens { opens self.new ≡ called (port, count) (opens self.old) }
        ensures dials { dials self.new ≡ dials self.old }
        ensures links { links_out self.new ≡ links_out self.old }
        ensures kept { kept self.new ≡ kept self.old }
        ensures hung_up { hung_up self.new ≡ hung_up self.old }
        ensures count { faults self.old ≤ faults self.new }
        ensures quiet { OnOk result (faults self.new ≡ faults self.old) }
        ensures memory { IsErrOf result HarborFault.Memory → faults self.new ≡ faults self.old }
        ensures failed { IsErrOf result HarborFault.Failed → Rose (faults self.old) (faults self.new) };

    /// Takes back doors that it opened. Its count rises where a door's count isn't 0. It takes no
    /// memory.
    fn shut(&mut self, doors: Vec<Self::Door>)
        requires out { IfTold (doors_out self.old) (λ out. length doors.items ≤ out) }
        ensures kept { kept self.new ≡ adds (kept self.old) (map (λ door. record {
          faults = Self.Door.faults door;
          asked = Self.Door.asked door;
          served = Self.Door.served door;
          is_out = Self.Door.is_out door;
        }) doors.items) }
        ensures home { doors_out self.new ≡ lowered (doors_out self.old) (length doors.items) }
        ensures count { RisesAt (any_fault (map (λ door. Self.Door.faults door) doors.items)) (faults self.old) (faults self.new) }
        ensures opens { opens self.new ≡ opens self.old }
        ensures dials { dials self.new ≡ dials self.old }
        ensures links { links_out self.new ≡ links_out self.old }
        ensures hung_up { hung_up self.new ≡ hung_up self.old };

    /// A link to this port of this machine.
    ///
    /// # Errors
    ///
    /// As `open`.
    fn dial(&mut self, port: u16) -> Result<Self::Link, HarborFault>
        ensures unused { IfOk result (λ link. IsUnused (record {
          faults = Self.Link.faults link;
          answers = Self.Link.answers link;
          sent = Self.Link.sent link;
          closed = Self.Link.closed link;
        })) }
        ensures out { OnOk result (links_out self.new ≡ raised (links_out self.old) 1) }
        ensures nothing { OnErr result (links_out self.new ≡ links_out self.old) }
        ensures dials { dials self.new ≡ called port (dials self.old) }
        ensures opens { opens self.new ≡ opens self.old }
        ensures doors { doors_out self.new ≡ doors_out self.old }
        ensures kept { kept self.new ≡ kept self.old }
        ensures hung_up { hung_up self.new ≡ hung_up self.old }
        ensures count { faults self.old ≤ faults self.new }
        ensures quiet { OnOk result (faults self.new ≡ faults self.old) }
        ensures memory { IsErrOf result HarborFault.Memory → faults self.new ≡ faults self.old }
        ensures failed { IsErrOf result HarborFault.Failed → Rose (faults self.old) (faults self.new) };

    /// Takes back a link that it dialled. Its count rises where the link's count isn't 0. It takes
    /// no memory.
    fn hang_up(&mut self, link: Self::Link)
        requires out { IfTold (links_out self.old) (λ out. 1 ≤ out) }
        ensures hung_up { hung_up self.new ≡ adds (hung_up self.old) (record {
          faults = Self.Link.faults link;
          answers = Self.Link.answers link;
          sent = Self.Link.sent link;
          closed = Self.Link.closed link;
        } ∷ []) }
        ensures home { links_out self.new ≡ lowered (links_out self.old) 1 }
        ensures count { RisesAt (any_fault (Self.Link.faults link ∷ [])) (faults self.old) (faults self.new) }
        ensures opens { opens self.new ≡ opens self.old }
        ensures dials { dials self.new ≡ dials self.old }
        ensures doors { doors_out self.new ≡ doors_out self.old }
        ensures kept { kept self.new ≡ kept self.old };

    /// Its bell.
    fn bell(&self) -> Self::Bell;
}
