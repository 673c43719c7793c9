//! A shelf in memory, for tests.

ghost use Rattle.std.specs.Prelude.{◌≡◌, ◌⊎◌, ◌∷◌, Some, None, map, Contains, IfSome, IfNone, IsErrOf, OnOk, OnErr};
ghost use Rattle.cdp_edge.specs.MemShelf.{named, unused_shelf, after_read, after_store};
ghost use Rattle.cdp_edge.specs.Outside.{content_of, one_more, Tells, Stores};

use crate::fault_log::FaultLog;
use crate::file_log::FileLog;
use crate::{Shelf, ShelfFault};
use std::alloc::{AllocError, Global};
use std::marker::Model;

/// A shelf of given files. Where two have one name, the first counts, and what is stored comes first.
///
/// A call takes the room for the name first. Then one whose number is listed answers `Failed`, and
/// else the read of a name that no file has `NotThere`.
#[derive(Drop)]
pub struct MemShelf {
    files: Vec<(String, Vec<u8>)>,
    handed: FileLog,
    stored: FileLog,
    calls: u64,
    log: FaultLog,
    fails: Vec<u64>,
}

impl Model for MemShelf {
    ghost use Rattle.std.specs.Prelude.{map};
    ghost use Rattle.cdp_edge.specs.FaultLog.{faults_of};
    ghost use Rattle.cdp_edge.specs.MemShelf.{MemoryShelf, named};

    ghost Value = { MemoryShelf };

    ghost view = { λ a. record {
      files = map named a.files.items;
      handed = a.handed.files;
      stored = a.stored.files;
      calls = a.calls;
      faults = faults_of a.log;
      fails = a.fails.items;
    } };
}

impl MemShelf {
    /// A shelf of these files, each with its name and its bytes. `fails` are the numbers, from 1,
    /// of the calls that fail.
    pub fn new(files: Vec<(String, Vec<u8>)>, fails: Vec<u64>) -> MemShelf
        ensures { result ≡ unused_shelf (map named files.items) fails.items }
    {
        MemShelf {
            handed: FileLog::new(),
            stored: FileLog::new(),
            log: FaultLog::new(*files.allocator()),
            files,
            calls: 0,
            fails,
        }
    }
}

/// The content of the first file of this name.
fn find<'a>(files: &'a [(String, Vec<u8>)], name: &str) -> Option<&'a [u8]>
    ensures found { IfSome result (λ bytes. content_of name.now (map named files.now) ≡ Some bytes.now) }
    ensures missing { IfNone result (content_of name.now (map named files.now) ≡ None) }
{
    for file in files {
        if file.0.as_str() == name {
            return Some(file.1.as_slice());
        }
    }
    None
}

/// Puts a file of this name with these bytes before the others.
fn put_first(files: &mut Vec<(String, Vec<u8>)>, name: &str, bytes: &[u8]) -> Result<(), AllocError>
    ensures ok { OnOk result (map named files.new.items ≡ record { name = name.now; bytes = bytes.now } ∷ map named files.old.items) }
    ensures err { OnErr result (files.new.items ≡ files.old.items) }
{
    let alloc = *files.allocator();
    let name = String::from_str(alloc, name)?;
    let bytes = bytes.to_vec(alloc)?;
    files.insert(0, (name, bytes))?;
    Ok(())
}

impl Shelf for MemShelf {
    ghost faults = { λ shelf. shelf.faults };

    ghost files = { λ shelf. Some shelf.files };

    ghost handed = { λ shelf. shelf.handed };

    ghost stored = { λ shelf. shelf.stored };

    fn read(&mut self, alloc: Global, name: &str) -> Result<Vec<u8>, ShelfFault>
        ensures content { Tells result name.now self.old.files }
        ensures failed { IsErrOf result ShelfFault.Failed
            → Contains self.old.fails (one_more self.old.calls) }
        ensures listed { Contains self.old.fails (one_more self.old.calls)
            → IsErrOf result ShelfFault.Failed ⊎ IsErrOf result ShelfFault.Memory }
        ensures shelf { self.new ≡ after_read result name.now self.old }
    {
        self.calls = self.calls.saturating_add(1);
        let Ok(call) = self.log.prepare_read(alloc, name) else {
            return Err(ShelfFault::Memory);
        };
        if self.fails.contains(&self.calls) {
            self.log.blame(call);
            return Err(ShelfFault::Failed);
        }
        let Some(bytes) = find(&self.files, name) else {
            self.log.blame(call);
            return Err(ShelfFault::NotThere);
        };
        let Ok(bytes) = bytes.to_vec(alloc) else {
            return Err(ShelfFault::Memory);
        };
        self.handed.note(name.as_bytes(), &bytes);
        Ok(bytes)
    }

    #[tactic(auto, using(crate::proofs::StoreLemmas::stores))]
    fn store(&mut self, name: &str, bytes: &[u8]) -> Result<(), ShelfFault>
        ensures files { Stores result name.now bytes.now self.old.files self.new.files }
        ensures failed { IsErrOf result ShelfFault.Failed
            → Contains self.old.fails (one_more self.old.calls) }
        ensures listed { Contains self.old.fails (one_more self.old.calls)
            → IsErrOf result ShelfFault.Failed ⊎ IsErrOf result ShelfFault.Memory }
        ensures shelf { self.new ≡ after_store result name.now bytes.now self.old }
    {
        self.calls = self.calls.saturating_add(1);
        let Ok(call) = self.log.prepare_store(self.log.allocator(), name) else {
            return Err(ShelfFault::Memory);
        };
        if self.fails.contains(&self.calls) {
            self.log.blame(call);
            return Err(ShelfFault::Failed);
        }
        let Ok(()) = put_first(&mut self.files, name, bytes) else {
            return Err(ShelfFault::Memory);
        };
        self.stored.note(name.as_bytes(), bytes);
        Ok(())
    }
}
