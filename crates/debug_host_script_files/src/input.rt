//! The lines of input that a file holds.

ghost use Rattle.std.specs.Prelude.{◌≡◌, IfOk, IfErr};
ghost use Rattle.cdp_edge.specs.Outside.{Given, HandsIn};
ghost use Rattle.debug_host_script_files.specs.Input.{input_of, HoldsInput, FailsInput};

use crate::evidence::{Evidence, FileEvidence};
use crate::fault::{FileFault, TextFault};
use cdp_edge::{Shelf, ShelfFault};
use cdp_text::parts::halves;
use cdp_text::units::{Units, units_of};
use std::alloc::{AllocError, Global};
use std::collections::VecDeque;

/// The lines of a text, cut at LF; a last line without LF counts, and a CR stays in its line.
fn lines_of(alloc: Global, text: &str) -> Result<VecDeque<Units>, AllocError>
    ensures { IfOk result (λ lines. lines.items ≡ input_of text.now) }
{
    let mut lines = VecDeque::new(alloc);
    let mut rest = text;
    while let Some((line, after)) = halves(rest, '\n') {
        lines.push_back(units_of(alloc, line)?)?;
        rest = after;
    }
    if !rest.is_empty() {
        lines.push_back(units_of(alloc, rest)?)?;
    }
    Ok(lines)
}

/// Reads the lines of input that the file of this name holds. What is left of one that isn't taken becomes the evidence.
///
/// # Errors
///
/// `CannotRead` where the shelf doesn't give the file, `Refused` where it isn't UTF-8, and `Memory`.
#[tactic(auto, using(crate::proofs::ScriptLemmas::unread))]
pub fn read_input<F: Shelf>(
    alloc: Global,
    shelf: &mut F,
    name: &str,
    evidence: &mut Evidence,
) -> Result<VecDeque<Units>, FileFault>
    ensures lines { IfOk result (λ lines. Given (HandsIn (F.files shelf.old) (F.handed shelf.old) (F.handed shelf.new)) (λ given. HoldsInput given name.now lines.items)) }
    ensures quiet { IfOk result (λ lines. F.faults shelf.new ≡ F.faults shelf.old) }
    ensures fault { IfErr result (λ fault. FailsInput fault (HandsIn (F.files shelf.old) (F.handed shelf.old) (F.handed shelf.new)) name.now (F.faults shelf.old) (F.faults shelf.new)) }
    ensures files { F.files shelf.new ≡ F.files shelf.old }
    ensures stored { F.stored shelf.new ≡ F.stored shelf.old }
{
    let bytes = match shelf.read(alloc, name) {
        Ok(bytes) => bytes,
        Err(ShelfFault::Memory) => return Err(FileFault::Memory),
        Err(ShelfFault::NotThere) => {
            evidence.file = FileEvidence::NotThere;
            return Err(FileFault::CannotRead);
        }
        Err(ShelfFault::Failed) => {
            evidence.file = FileEvidence::Unreachable;
            return Err(FileFault::CannotRead);
        }
    };
    let Ok(text) = str::from_utf8(&bytes) else {
        evidence.file = FileEvidence::Content(bytes);
        return Err(FileFault::Refused(TextFault::NotUtf8));
    };
    match lines_of(alloc, text) {
        Ok(lines) => Ok(lines),
        Err(AllocError) => Err(FileFault::Memory),
    }
}
