//! The scripts and the input of a program, from their files.

ghost use Rattle.std.specs.Prelude.{◌≡◌, IfOk, IfErr};
ghost use Rattle.cdp_edge.specs.Outside.{Given, HandsIn};
ghost use Rattle.debug_host_commands.specs.Files.{HoldsLines, HoldsSources};
ghost use Rattle.debug_host_options.specs.Held.{text_held, sources_held};
ghost use Rattle.debug_host_commands.specs.RunCauses.{BecauseInput, BecauseSources, outcome_of};

use crate::outcome::CommandEnd;
use cdp_edge::Shelf;
use cdp_text::units::Units;
use debug_host_options::Sources;
use debug_host_script_files::{Evidence, FileFault, read_input, read_scripts};
use js_tree::script::Script;
use std::alloc::Global;
use std::collections::VecDeque;

/// A program before it runs.
#[derive(Drop)]
pub(crate) struct Program {
    pub(crate) scripts: Vec<Script>,
    pub(crate) input: VecDeque<Units>,
}

/// The end that the fault of a file of this name is.
pub(crate) fn outcome_of(name: &str, fault: FileFault) -> CommandEnd<'_>
    ensures { result ≡ outcome_of name.entry fault }
{
    match fault {
        FileFault::CannotRead => CommandEnd::CannotRead(name),
        FileFault::Refused(refusal) => CommandEnd::Refused(name, refusal),
        FileFault::Memory => CommandEnd::OutOfMemory,
    }
}

/// The lines of input that the file of this name holds; without a name there is none.
#[tactic(auto, using(crate::proofs::SourceLemmas::input))]
fn read_lines<'w, F: Shelf>(
    alloc: Global,
    input: Option<&'w str>,
    shelf: &mut F,
    evidence: &mut Evidence,
) -> Result<VecDeque<Units>, CommandEnd<'w>>
    ensures lines { IfOk result (λ lines. Given (HandsIn (F.files shelf.old) (F.handed shelf.old) (F.handed shelf.new)) (λ given. HoldsLines given (text_held input.entry) lines.items)) }
    ensures quiet { IfOk result (λ lines. F.faults shelf.new ≡ F.faults shelf.old) }
    ensures fault { IfErr result (λ end. BecauseInput end (text_held input.entry) (HandsIn (F.files shelf.old) (F.handed shelf.old) (F.handed shelf.new)) (F.faults shelf.old) (F.faults shelf.new)) }
    ensures files { F.files shelf.new ≡ F.files shelf.old }
    ensures stored { F.stored shelf.new ≡ F.stored shelf.old }
{
    let Some(name) = input else {
        return Ok(VecDeque::new(alloc));
    };
    match read_input(alloc, shelf, name, evidence) {
        Ok(lines) => Ok(lines),
        Err(fault) => Err(outcome_of(name, fault)),
    }
}

/// The program that files of these names hold: the input is read first, then the scripts in order. What is left of a file
/// that isn't taken becomes the evidence.
///
/// # Errors
///
/// The end that the first fault decides: a file can't be read or is refused, or there is no memory.
#[tactic(auto, using(crate::proofs::SourceLemmas::program))]
pub(crate) fn read_sources<'w, F: Shelf>(
    alloc: Global,
    sources: &Sources<'w>,
    shelf: &mut F,
    evidence: &mut Evidence,
) -> Result<Program, CommandEnd<'w>>
    ensures holds { IfOk result (λ p. Given (HandsIn (F.files shelf.old) (F.handed shelf.old) (F.handed shelf.new)) (λ given. HoldsSources given (sources_held sources.now) p.scripts.items p.input.items)) }
    ensures quiet { IfOk result (λ p. F.faults shelf.new ≡ F.faults shelf.old) }
    ensures fault { IfErr result (λ end. BecauseSources end (sources_held sources.now) (HandsIn (F.files shelf.old) (F.handed shelf.old) (F.handed shelf.new)) (F.faults shelf.old) (F.faults shelf.new)) }
    ensures files { F.files shelf.new ≡ F.files shelf.old }
    ensures stored { F.stored shelf.new ≡ F.stored shelf.old }
{
    let input = match read_lines(alloc, sources.input, shelf, evidence) {
        Ok(input) => input,
        Err(end) => return Err(end),
    };
    match read_scripts(alloc, shelf, &sources.scripts, evidence) {
        Ok(scripts) => Ok(Program { scripts, input }),
        Err(fault) => Err(outcome_of(fault.name, fault.fault)),
    }
}
