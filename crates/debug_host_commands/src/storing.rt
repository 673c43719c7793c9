//! The journal of a server, as it is stored.

ghost use Rattle.std.specs.Prelude.{◌≡◌, ℕ, List, IfOk};
ghost use Rattle.std.specs.Option.{option_map};
ghost use Rattle.cdp_host_isolation.specs.Histories.{Entry as AnyEntry};
ghost use Rattle.cdp_host_record.specs.Recordings.{RecordsIf, unwritten};
ghost use Rattle.debug_host_options.specs.Held.{text_held};
ghost use Rattle.debug_host_commands.specs.Stored.{HasStored, StoresLines, after_storing, is_program_end, spent_if, unless_ended};

use crate::outcome::CommandEnd;
use cdp_edge::{Shelf, ShelfFault};
use cdp_host_record::{Record, Recordable, Recorded, journal_of};
use std::alloc::{AllocError, Global};

/// What became of the journal of a server, with its name where it couldn't be stored.
#[derive(Clone, Copy)]
pub(crate) enum Storing<'w> {
    /// It was stored, or none was asked for.
    Done,
    /// No memory was left for a line of it, or to store it.
    Memory,
    Failed(&'w str),
    /// No turn was left to store it.
    Spent,
}

/// The record of a history that begins, if a journal is asked for.
///
/// # Errors
///
/// There is no memory.
pub(crate) fn record_if(alloc: Global, journal: Option<&str>) -> Result<Option<Record>, AllocError>
    ensures { IfOk result (λ made. made ≡ option_map (λ name. unwritten) (text_held journal.entry)) }
{
    match journal {
        None => Ok(None),
        Some(_) => Ok(Some(Record::new(alloc)?)),
    }
}

/// Stores the lines of a record under a name.
pub(crate) fn store_lines<'w, F: Shelf>(
    record: &Record,
    name: &'w str,
    shelf: &mut F,
) -> Storing<'w>
    ensures stores { StoresLines result name.entry record.now (record { files = F.stored shelf.old; faults = F.faults shelf.old }) (record { files = F.stored shelf.new; faults = F.faults shelf.new }) }
    ensures handed { F.handed shelf.new ≡ F.handed shelf.old }
{
    match shelf.store(name, record.lines()) {
        Ok(()) => {
            if record.is_lost() {
                Storing::Memory
            } else {
                Storing::Done
            }
        }
        Err(ShelfFault::Memory) => Storing::Memory,
        Err(ShelfFault::Failed | ShelfFault::NotThere) => Storing::Failed(name),
    }
}

/// Stores the journal of a host under this name, if there is one. A host that keeps no record counts as one for whose
/// record no memory was left.
pub(crate) fn store_journal<'w, H: Recordable<B>, B, F: Shelf>(
    recorded: &Recorded<H>,
    journal: Option<&'w str>,
    shelf: &mut F,
) -> Storing<'w>
    ensures stores { (h : List (ℕ × AnyEntry)) → RecordsIf H.debugs h recorded.now.journal
        → HasStored result H.debugs h (text_held journal.entry) (record { files = F.stored shelf.old; faults = F.faults shelf.old }) (record { files = F.stored shelf.new; faults = F.faults shelf.new }) }
    ensures handed { F.handed shelf.new ≡ F.handed shelf.old }
{
    let Some(name) = journal else {
        return Storing::Done;
    };
    let Some(record) = journal_of::<H, B>(recorded) else {
        return Storing::Memory;
    };
    store_lines(record, name, shelf)
}

/// What becomes of a journal where no turn is left, if one is asked for.
pub(crate) fn spent_if(journal: Option<&str>) -> Storing<'static>
    ensures { result ≡ spent_if (text_held journal.entry) }
{
    match journal {
        None => Storing::Done,
        Some(_) => Storing::Spent,
    }
}

/// The end of a server that ended so, of whose journal this became.
pub(crate) fn after_storing<'w>(end: CommandEnd<'w>, storing: Storing<'w>) -> CommandEnd<'w>
    ensures { result ≡ after_storing end.entry storing.entry }
{
    match storing {
        Storing::Done => end,
        Storing::Memory => CommandEnd::OutOfMemory,
        Storing::Failed(name) => unless_ended(end, CommandEnd::CannotStore(name)),
        Storing::Spent => unless_ended(end, CommandEnd::TicketsSpent),
    }
}

/// Whether the program ended, and nothing failed.
fn is_program_end(end: &CommandEnd<'_>) -> bool
    ensures { result ≡ is_program_end end.now }
{
    match end {
        CommandEnd::Done | CommandEnd::Threw(_) | CommandEnd::ThrewUnshown => true,
        CommandEnd::OutOfMemory
        | CommandEnd::Usage
        | CommandEnd::Refused(_, _)
        | CommandEnd::CannotRead(_)
        | CommandEnd::CannotStore(_)
        | CommandEnd::CannotWrite
        | CommandEnd::LineRefused(_)
        | CommandEnd::NetworkFault
        | CommandEnd::PeerClosed(_)
        | CommandEnd::TicketsSpent => false,
    }
}

/// Another end comes before that of the program.
fn unless_ended<'w>(end: CommandEnd<'w>, other: CommandEnd<'w>) -> CommandEnd<'w>
    ensures { result ≡ unless_ended end.entry other.entry }
{
    if is_program_end(&end) { other } else { end }
}
