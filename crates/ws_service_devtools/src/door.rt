//! A door whose links let DevTools in, over another door.

ghost use Rattle.std.specs.Prelude.{◌≡◌, None};

use crate::link::DevtoolsLink;
use cdp_edge_server::{Door, DoorAnswer};
use std::alloc::Global;

/// A door over another one. It doesn't tell the links that it took back.
#[derive(Drop)]
pub struct DevtoolsDoor<D: Door> {
    door: D,
    alloc: Global,
}

impl<D: Door> DevtoolsDoor<D> {
    /// Over this door.
    pub fn new(alloc: Global, door: D) -> DevtoolsDoor<D>
        ensures { result.door ≡ door }
    {
        DevtoolsDoor { door, alloc }
    }

    /// The door below.
    pub fn into_door(self) -> D
        ensures { result ≡ self.door }
    {
        let DevtoolsDoor { door, alloc: _ } = self;
        door
    }
}

impl<D: Door> Door for DevtoolsDoor<D> {
    type Link = DevtoolsLink<D::Link>;

    ghost faults = { λ door. D.faults door.door };

    ghost asked = { λ door. D.asked door.door };

    ghost waiting = { λ door. D.waiting door.door };

    ghost served = { λ _. None };

    ghost is_out = { λ door. D.is_out door.door };

    fn next(&mut self) -> DoorAnswer<DevtoolsLink<D::Link>> {
        match self.door.next() {
            DoorAnswer::Arrived(link) => DoorAnswer::Arrived(DevtoolsLink::new(self.alloc, link)),
            DoorAnswer::Quiet => DoorAnswer::Quiet,
            DoorAnswer::Failed => DoorAnswer::Failed,
            DoorAnswer::Memory => DoorAnswer::Memory,
        }
    }

    fn back(&mut self, link: DevtoolsLink<D::Link>) {
        self.door.back(link.into_link());
    }
}
