//! The files of the system as a shelf. It tells nothing of what they hold: its logs say what it handed in and stored.

ghost use Rattle.std.specs.Prelude.{◌≡◌, ◌↔◌, None, IfOk, IfSome, OnOk, IsErrOf};
ghost use Rattle.std.specs.Io.KnownBytes.{Appends};
ghost use Rattle.cdp_edge.specs.Blame.{Read, Store};
ghost use Rattle.cdp_edge.specs.FileShelf.{unused_shelf};
ghost use Rattle.cdp_edge.specs.Outside.{faults_after, handed_after, stored_after};

use crate::fault_log::FaultLog;
use crate::file_log::FileLog;
use crate::{Shelf, ShelfFault};
use std::alloc::{AllocError, Global};
use std::fs::OpenFile;
use std::io::{ErrorKind, Read, Write};
use std::marker::Model;
use std::rt::Files;
use std::{fs, io};

/// A shelf over the system's files. A contract sees its faults, what it handed in and what it stored.
#[derive(Drop)]
pub struct FileShelf<R: Files + Drop> {
    rt: R,
    log: FaultLog,
    handed: FileLog,
    stored: FileLog,
}

impl<R: Files + Drop> Model for FileShelf<R> {
    ghost use Rattle.cdp_edge.specs.FaultLog.{faults_of};
    ghost use Rattle.cdp_edge.specs.FileShelf.{SystemShelf};

    ghost Value = { SystemShelf };

    ghost view = { λ a. record { faults = faults_of a.log; handed = a.handed.files; stored = a.stored.files } };
}

impl<R: Files + Drop> FileShelf<R> {
    /// A shelf that handed in and stored nothing, and never failed. It takes no memory.
    pub fn new(alloc: Global, rt: R) -> FileShelf<R>
        ensures { result ≡ unused_shelf }
    {
        FileShelf {
            rt,
            log: FaultLog::new(alloc),
            handed: FileLog::new(),
            stored: FileLog::new(),
        }
    }
}

/// Reads all that a file still holds.
fn read_rest<F: Read>(alloc: Global, file: &mut F) -> io::Result<Vec<u8>>
    ensures { IfOk result (λ bytes. IfSome (F.remaining file.old) (λ rest. bytes.items ≡ rest)) }
{
    let mut bytes = Vec::new(alloc);
    file.read_to_end(&mut bytes)?;
    Ok(bytes)
}

/// Reads the file of this name.
fn read_file<R: Files>(rt: &R, alloc: Global, name: &str) -> io::Result<Vec<u8>>
    // what it answers is all that a file of the system held
    ensures { IfOk result (λ bytes. (file : _) × IfSome (R.File.remaining file) (λ rest. bytes.items ≡ rest)) }
{
    let mut file = fs::open(rt, name)?;
    read_rest(alloc, &mut file)
}

/// The name of the file in which the bytes for this one are gathered.
fn name_beside(alloc: Global, name: &str) -> Result<String, AllocError> {
    let mut beside = String::from_str(alloc, name)?;
    beside.push_str(".new")?;
    Ok(beside)
}

/// Writes these bytes as all of the file of this name, and waits until the system has put them away.
fn write_file<R: Files>(rt: &R, name: &str, bytes: &[u8]) -> io::Result<()>
    // a file of the system took them
    ensures { OnOk result ((before : _) × (after : _) × Appends (R.File.contents before) (R.File.contents after) bytes.now) }
{
    let mut file = fs::create(rt, name)?;
    file.write_all(bytes)?;
    file.sync_all()
}

/// Stores these bytes as all of the file of this name. They are gathered in a file beside it, which then takes its
/// place: a crash leaves the file as it was, or with all of them.
fn store_file<R: Files>(rt: &R, alloc: Global, name: &str, bytes: &[u8]) -> io::Result<()>
    // a file of the system took them
    ensures { OnOk result ((before : _) × (after : _) × Appends (R.File.contents before) (R.File.contents after) bytes.now) }
{
    let Ok(beside) = name_beside(alloc, name) else {
        return Err(io::Error::from(ErrorKind::OutOfMemory));
    };
    if let Err(error) = write_file(rt, beside.as_str(), bytes) {
        let _ = fs::remove_file(rt, beside.as_str());
        return Err(error);
    }
    fs::rename(rt, beside.as_str(), name)
}

/// What a read answers where the system answers an error of this kind.
fn fault_of(kind: ErrorKind) -> ShelfFault
    ensures not_there { (result ≡ ShelfFault.NotThere) ↔ (kind ≡ ErrorKind.NotFound) }
    ensures memory { (result ≡ ShelfFault.Memory) ↔ (kind ≡ ErrorKind.OutOfMemory) }
{
    match kind {
        ErrorKind::NotFound => ShelfFault::NotThere,
        ErrorKind::OutOfMemory => ShelfFault::Memory,
        _ => ShelfFault::Failed,
    }
}

impl<R: Files + Drop> Shelf for FileShelf<R> {
    ghost faults = { λ shelf. shelf.faults };

    ghost files = { λ _. None };

    ghost handed = { λ shelf. shelf.handed };

    ghost stored = { λ shelf. shelf.stored };

    fn read(&mut self, alloc: Global, name: &str) -> Result<Vec<u8>, ShelfFault>
        ensures shelf { self.new ≡ record {
          faults = faults_after result (Read name.now) self.old.faults;
          handed = handed_after result name.now self.old.handed;
          stored = self.old.stored;
        } }
        ensures file { IfOk result (λ bytes. (file : _) × IfSome (R.File.remaining file) (λ rest. bytes.items ≡ rest)) }
    {
        let Ok(call) = self.log.prepare_read(alloc, name) else {
            return Err(ShelfFault::Memory);
        };
        match read_file(&self.rt, alloc, name) {
            Ok(bytes) => {
                self.handed.note(name.as_bytes(), &bytes);
                Ok(bytes)
            }
            Err(error) => {
                let fault = fault_of(error.kind());
                if let ShelfFault::NotThere | ShelfFault::Failed = fault {
                    self.log.blame(call);
                }
                Err(fault)
            }
        }
    }

    fn store(&mut self, name: &str, bytes: &[u8]) -> Result<(), ShelfFault>
        ensures shelf { self.new ≡ record {
          faults = faults_after result (Store name.now) self.old.faults;
          handed = self.old.handed;
          stored = stored_after result name.now bytes.now self.old.stored;
        } }
        ensures there { IsErrOf result ShelfFault.NotThere → ⊥ }
        ensures file { OnOk result ((before : _) × (after : _) × Appends (R.File.contents before) (R.File.contents after) bytes.now) }
    {
        let alloc = self.log.allocator();
        let Ok(call) = self.log.prepare_store(alloc, name) else {
            return Err(ShelfFault::Memory);
        };
        match store_file(&self.rt, alloc, name, bytes) {
            Ok(()) => {
                self.stored.note(name.as_bytes(), bytes);
                Ok(())
            }
            Err(error) => {
                if let ErrorKind::OutOfMemory = error.kind() {
                    return Err(ShelfFault::Memory);
                }
                self.log.blame(call);
                Err(ShelfFault::Failed)
            }
        }
    }
}
