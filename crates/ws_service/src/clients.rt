//! Which clients are let in, and through which doors.

ghost use Rattle.std.specs.Prelude.{◌≡◌};
ghost use Rattle.cdp_edge_server.specs.Contents.{IsNew, Tended};
ghost use Rattle.ws_service_devtools.specs.Links.{seen};

use cdp_edge_server::Door;
use std::alloc::Global;
use ws_service_devtools::DevtoolsDoor;

/// Which clients are let in.
#[derive(Clone, Copy)]
pub enum Clients {
    /// Those that use the methods of the host alone.
    Plain,
    /// DevTools and `node inspect` too, which ask for more.
    Devtools,
}

/// A door over a door of a harbor, or that door itself.
pub(crate) trait OverDoor<D: Door>: Door {
    /// What it tells, by what the door below tells.
    ghost seen: { Tended → Tended };

    /// Over this door.
    fn over(alloc: Global, door: D) -> Self
        requires { IsNew (record {
          faults = D.faults door;
          asked = D.asked door;
          served = D.served door;
          is_out = D.is_out door;
        }) }
        ensures { IsNew (record {
          faults = Self.faults result;
          asked = Self.asked result;
          served = Self.served result;
          is_out = Self.is_out result;
        }) };

    /// The door below.
    fn into_door(self) -> D
        ensures seen { record {
          faults = Self.faults self;
          asked = Self.asked self;
          served = Self.served self;
          is_out = Self.is_out self;
        } ≡ seen (record {
          faults = D.faults result;
          asked = D.asked result;
          served = D.served result;
          is_out = D.is_out result;
        }) }
        ensures faults { Self.faults self ≡ D.faults result };
}

impl<D: Door> OverDoor<D> for D {
    ghost seen = { λ door. door };

    fn over(_alloc: Global, door: D) -> D {
        door
    }

    fn into_door(self) -> D {
        self
    }
}

impl<D: Door> OverDoor<D> for DevtoolsDoor<D> {
    ghost seen = { seen };

    fn over(alloc: Global, door: D) -> DevtoolsDoor<D> {
        DevtoolsDoor::new(alloc, door)
    }

    fn into_door(self) -> D {
        self.into_door()
    }
}
