//! The count of a shelf's faults and the calls that raised it.

ghost use Rattle.std.specs.Prelude.{◌≡◌, IfOk, OnOk};
ghost use Rattle.cdp_edge.specs.Blame.{Read, Store, no_faults, blamed};
ghost use Rattle.cdp_edge.specs.FaultLog.{call_of, faults_of, HasRoom};

use std::alloc::{AllocError, Global};

/// A call of a shelf.
#[derive(Drop)]
pub enum ShelfCall {
    /// A read of the file of this name.
    Read(String),
    /// A store under this name.
    Store(String),
}

/// How often a shelf's calls have failed, and those calls, in order.
#[derive(Drop)]
pub struct FaultLog {
    count: u64,
    calls: Vec<ShelfCall>,
}

impl FaultLog {
    /// A log with no fault. It takes no memory.
    pub fn new(alloc: Global) -> FaultLog
        ensures { faults_of result ≡ no_faults }
    {
        FaultLog {
            count: 0,
            calls: Vec::new(alloc),
        }
    }

    /// Where it takes its memory.
    pub fn allocator(&self) -> Global {
        *self.calls.allocator()
    }

    /// Takes the room that a read of this name needs to be blamed.
    pub fn prepare_read(&mut self, alloc: Global, name: &str) -> Result<ShelfCall, AllocError>
        ensures call { IfOk result (λ call. call_of call ≡ Read name.now) }
        ensures room { OnOk result (HasRoom self.new) }
        ensures same { faults_of self.new ≡ faults_of self.old }
    {
        let name = String::from_str(alloc, name)?;
        self.calls.reserve(1)?;
        Ok(ShelfCall::Read(name))
    }

    /// Takes the room that a store under this name needs to be blamed.
    pub fn prepare_store(&mut self, alloc: Global, name: &str) -> Result<ShelfCall, AllocError>
        ensures call { IfOk result (λ call. call_of call ≡ Store name.now) }
        ensures room { OnOk result (HasRoom self.new) }
        ensures same { faults_of self.new ≡ faults_of self.old }
    {
        let name = String::from_str(alloc, name)?;
        self.calls.reserve(1)?;
        Ok(ShelfCall::Store(name))
    }

    /// Counts a fault by this call, for which there is room.
    pub fn blame(&mut self, call: ShelfCall)
        requires { HasRoom self.old }
        ensures { faults_of self.new ≡ blamed (call_of call) (faults_of self.old) }
    {
        if self.count < u64::MAX {
            self.calls.push(call).unwrap();
            self.count += 1;
        }
    }
}
