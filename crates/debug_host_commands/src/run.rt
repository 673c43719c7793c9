//! The command `run`, from its files to its end.

ghost use Rattle.std.specs.Prelude.{◌≡◌, ◌⊎◌};
ghost use Rattle.cdp_edge.specs.Outside.{Given, HandsIn};
ghost use Rattle.debug_host_options.specs.Held.{run_held};
ghost use Rattle.debug_host_commands.specs.RunCauses.{BecauseRun, IsUnbegun, RunsInPart, outcome_of_run};

use crate::explaining::Remains;
use crate::outcome::CommandEnd;
use crate::sources::{Program, read_sources};
use crate::throwing::{copy_if, note_throw};
use cdp_edge::{Shelf, Sink};
use debug_host_options::RunWords;
use debug_host_plain_runs::end::PlainRunEnd;
use debug_host_plain_runs::run::run_scripts;
use std::alloc::Global;
use std::sync::Wait;

/// The end that a run of scripts has.
fn outcome_of_run(end: PlainRunEnd) -> CommandEnd<'static>
    ensures { result ≡ outcome_of_run end }
{
    match end {
        PlainRunEnd::Ended => CommandEnd::Done,
        PlainRunEnd::Threw(text) => CommandEnd::Threw(text),
        PlainRunEnd::CannotWrite => CommandEnd::CannotWrite,
        PlainRunEnd::Memory => CommandEnd::OutOfMemory,
    }
}

/// Runs the scripts of these names: the input is read first, then the scripts in order. A run that never ends prints as
/// it goes, and the call doesn't return.
#[tactic(auto, using(crate::proofs::RunLemmas::unread, crate::proofs::RunLemmas::unread_part))]
pub(crate) fn run<'w, R: Wait, F: Shelf, O: Sink>(
    rt: &R,
    alloc: Global,
    request: &RunWords<'w>,
    shelf: &mut F,
    out: &mut O,
    remains: &mut Remains,
) -> CommandEnd<'w>
    ensures cause { BecauseRun result ((run_held request.now).sources) (HandsIn (F.files shelf.old) (F.handed shelf.old) (F.handed shelf.new)) (F.faults shelf.old) (F.faults shelf.new) (O.faults out.old) (O.faults out.new) (O.content out.old) (O.content out.new) }
    ensures part { Given (HandsIn (F.files shelf.old) (F.handed shelf.old) (F.handed shelf.new)) (λ given. (O.content out.new ≡ O.content out.old) ⊎ RunsInPart given ((run_held request.now).sources) (O.content out.old) (O.content out.new)) }
    ensures unbegun { IsUnbegun result → out.new ≡ out.old }
    ensures stored { F.stored shelf.new ≡ F.stored shelf.old }
{
    match read_sources(alloc, &request.sources, shelf, &mut remains.evidence) {
        Ok(Program { scripts, input }) => {
            let kept = copy_if(alloc, request.explain, &input);
            let end = outcome_of_run(run_scripts(rt, alloc, &scripts, input, out));
            note_throw(alloc, &end, &scripts, kept, remains);
            end
        }
        Err(end) => end,
    }
}
