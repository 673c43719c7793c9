//! The command `replay`, from its files to its end.

ghost use Rattle.std.specs.Prelude.{◌≡◌, ◌⊎◌};
ghost use Rattle.cdp_edge.specs.Outside.{Given, HandsIn};
ghost use Rattle.debug_host_options.specs.Held.{replay_held};
ghost use Rattle.debug_host_commands.specs.ReplayCauses.{BecauseReplay, ReplaysInPart, outcome_of_replay};
ghost use Rattle.debug_host_commands.specs.RunCauses.{IsUnbegun};

use crate::explaining::Remains;
use crate::journal::{self, ReplayEnd};
use crate::outcome::CommandEnd;
use crate::sources::{Program, read_sources};
use crate::whole_file::read_whole;
use cdp_edge::{Shelf, Sink};
use debug_host_options::ReplayWords;
use debug_host_script_files::FileEvidence;
use std::alloc::Global;

/// The end that the replay of a journal has.
fn outcome_of_replay(end: ReplayEnd) -> CommandEnd<'static>
    ensures { result ≡ outcome_of_replay end }
{
    match end {
        ReplayEnd::Done => CommandEnd::Done,
        ReplayEnd::Refused { line } => CommandEnd::LineRefused(line),
        ReplayEnd::WriteFault => CommandEnd::CannotWrite,
        ReplayEnd::Memory => CommandEnd::OutOfMemory,
    }
}

/// Replays the journal over the program that a request names: the journal is read first, then the input, and then the
/// scripts in order.
#[tactic(auto, using(crate::proofs::ReplayLemmas::unread, crate::proofs::ReplayLemmas::unread_part, crate::proofs::ReplayLemmas::no_journal, crate::proofs::ReplayLemmas::no_journal_part))]
pub(crate) fn replay<'w, F: Shelf, O: Sink>(
    alloc: Global,
    request: &ReplayWords<'w>,
    shelf: &mut F,
    out: &mut O,
    remains: &mut Remains,
) -> CommandEnd<'w>
    ensures cause { BecauseReplay result (replay_held request.now) (HandsIn (F.files shelf.old) (F.handed shelf.old) (F.handed shelf.new)) (F.faults shelf.old) (F.faults shelf.new) (O.faults out.old) (O.faults out.new) (O.content out.old) (O.content out.new) }
    ensures part { Given (HandsIn (F.files shelf.old) (F.handed shelf.old) (F.handed shelf.new)) (λ given. (O.content out.new ≡ O.content out.old) ⊎ ReplaysInPart given (replay_held request.now) (O.content out.old) (O.content out.new)) }
    ensures unbegun { IsUnbegun result → out.new ≡ out.old }
    ensures stored { F.stored shelf.new ≡ F.stored shelf.old }
{
    let journal = match read_whole(alloc, request.journal, shelf, &mut remains.evidence) {
        Ok(bytes) => bytes,
        Err(end) => return end,
    };
    match read_sources(alloc, &request.sources, shelf, &mut remains.evidence) {
        Ok(program) => {
            let Program { scripts, input } = program;
            let end = journal::replay(alloc, &scripts, input, request.wait, &journal, out);
            remains.evidence.file = FileEvidence::Content(journal);
            outcome_of_replay(end)
        }
        Err(end) => end,
    }
}
