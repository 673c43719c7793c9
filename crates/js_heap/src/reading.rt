//! Reading the cells of a world.

use crate::computed::{Computed, Written};
use crate::value::{Addr, Value};
use std::alloc::{AllocError, Global};

/// What has the cells of a world, however it keeps them. Contracts see the world.
pub trait Cells {
    ghost use Rattle.std.specs.Prelude.{◌≡◌, IfOk};
    ghost use Rattle.js_heap.specs.World.{World as AnyWorld, read_cell};
    ghost use Rattle.js_heap.specs.Values.{units_at, object_type};
    ghost use Rattle.js_heap.specs.Properties.{cell_property, cell_change, cell_removal};

    ghost world: { Self → AnyWorld };

    /// The units of the text at an address; of another cell none.
    fn units_at(&self, a: Addr) -> &[u16]
        ensures { result.now ≡ units_at (world self.now) a };

    /// What `typeof` says of the object at an address (ECMA-262, 13.5.3).
    fn object_type(&self, a: Addr) -> &'static [u8]
        ensures { result.now ≡ object_type (read_cell (world self.now) a) };

    /// What reading a property of the object at an address gives (10.1.8).
    fn property(&self, alloc: Global, a: Addr, key: &[u16]) -> Result<Computed, AllocError>
        ensures { IfOk result (λ r. r ≡ cell_property (read_cell (world self.now) a) key.now) };

    /// What writing a property of the object at an address changes (10.1.9).
    fn change(
        &self,
        alloc: Global,
        a: Addr,
        key: &[u16],
        value: Value,
    ) -> Result<Written, AllocError>
        ensures { IfOk result (λ r. r ≡ cell_change a (read_cell (world self.now) a) key.now value) };

    /// What deleting a property of the object at an address changes (10.1.10).
    fn removal(&self, alloc: Global, a: Addr, key: &[u16]) -> Result<Written, AllocError>
        ensures { IfOk result (λ r. r ≡ cell_removal a (read_cell (world self.now) a) key.now) };
}
