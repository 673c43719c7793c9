//! A file that is read whole.

ghost use Rattle.std.specs.Prelude.{◌≡◌, IfOk, IfErr};
ghost use Rattle.cdp_edge.specs.Outside.{HandsIn, one_file};
ghost use Rattle.debug_host_commands.specs.ReadCauses.{BecauseUnread};

use crate::outcome::CommandEnd;
use cdp_edge::{Shelf, ShelfFault};
use debug_host_script_files::{Evidence, FileEvidence};
use std::alloc::Global;

/// The bytes of the file of this name. Where it can't be read, why becomes the evidence.
///
/// # Errors
///
/// `CannotRead` with the name, where the shelf's count rose, and `OutOfMemory`.
#[tactic(auto, using(cdp_edge::proofs::HandedLemmas::handing))]
pub(crate) fn read_whole<'w, F: Shelf>(
    alloc: Global,
    name: &'w str,
    shelf: &mut F,
    evidence: &mut Evidence,
) -> Result<Vec<u8>, CommandEnd<'w>>
    ensures content { IfOk result (λ bytes. (HandsIn (F.files shelf.old) (F.handed shelf.old) (F.handed shelf.new) (one_file name.now bytes.items))) }
    ensures quiet { IfOk result (λ bytes. F.faults shelf.new ≡ F.faults shelf.old) }
    ensures fault { IfErr result (λ end. BecauseUnread end name.now (HandsIn (F.files shelf.old) (F.handed shelf.old) (F.handed shelf.new)) (F.faults shelf.old) (F.faults shelf.new)) }
    ensures files { F.files shelf.new ≡ F.files shelf.old }
    ensures stored { F.stored shelf.new ≡ F.stored shelf.old }
{
    match shelf.read(alloc, name) {
        Ok(bytes) => Ok(bytes),
        Err(ShelfFault::Memory) => Err(CommandEnd::OutOfMemory),
        Err(ShelfFault::NotThere) => {
            evidence.file = FileEvidence::NotThere;
            Err(CommandEnd::CannotRead(name))
        }
        Err(ShelfFault::Failed) => {
            evidence.file = FileEvidence::Unreachable;
            Err(CommandEnd::CannotRead(name))
        }
    }
}
