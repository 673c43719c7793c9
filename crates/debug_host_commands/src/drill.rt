//! The command `drill`: a replay of a script and a journal that are made from a number, and a summary of its output.

ghost use Rattle.std.specs.Prelude.{◌≡◌, ◌⊎◌, ◌≤◌, ◌<◌, None, length, IfOk, IfErr, OnOk, OnErr, IsErrOf};
ghost use Rattle.cdp_edge.specs.Outside.{Rose, gains, GainsLess};
ghost use Rattle.debug_host_commands.specs.DrillCauses.{BecauseDrill, BecauseJournalOf, BecauseScript, DrillsInPart, IsDrillScript, IsDrilled};
ghost use Rattle.debug_host_commands.specs.RunCauses.{IsUnbegun};

use crate::journal::{ReplayEnd, replay};
use crate::outcome::CommandEnd;
use crate::sources::outcome_of;
use crate::transcript::Transcript;
use cdp_edge::{Sink, SinkFault, put};
use cdp_journal::{drill_journal, drill_source, summary};
use debug_host_script_files::script_of;
use js_tree::script::Script;
use std::alloc::Global;
use std::collections::VecDeque;
use std::slice;

/// The name of a drill's script.
const SCRIPT_NAME: &str = "drill.js";

/// Replays the journal of the drill of this number over its script, and writes a summary of the replay's output. Nothing is
/// written before all of the journal was replayed.
pub(crate) fn drill<O: Sink>(alloc: Global, number: u64, out: &mut O) -> CommandEnd<'static>
    ensures cause { BecauseDrill result number (O.faults out.old) (O.faults out.new) (O.content out.old) (O.content out.new) }
    ensures part { (O.content out.new ≡ O.content out.old) ⊎ DrillsInPart number (O.content out.old) (O.content out.new) }
    ensures unbegun { IsUnbegun result → out.new ≡ out.old }
{
    let script = match read_script(alloc, number) {
        Ok(script) => script,
        Err(end) => return end,
    };
    let transcript = match replay_over(alloc, number, &script) {
        Ok(transcript) => transcript,
        Err(end) => return end,
    };
    let Ok(text) = summary(alloc, transcript.bytes()) else {
        return CommandEnd::OutOfMemory;
    };
    match put_text(out, &text) {
        Ok(()) => CommandEnd::Done,
        Err(SinkFault::Failed) => CommandEnd::CannotWrite,
        Err(SinkFault::Memory) => CommandEnd::OutOfMemory,
    }
}

/// The script of the drill of this number.
fn read_script(alloc: Global, number: u64) -> Result<Script, CommandEnd<'static>>
    ensures script { IfOk result (λ script. IsDrillScript number script) }
    ensures fault { IfErr result (λ end. BecauseScript end number) }
{
    let Ok(source) = drill_source(alloc, number) else {
        return Err(CommandEnd::OutOfMemory);
    };
    match script_of(alloc, source.as_bytes(), SCRIPT_NAME, 0, &[]) {
        Ok(script) => Ok(script),
        Err(fault) => Err(outcome_of(SCRIPT_NAME, fault)),
    }
}

/// What the replay of the journal of the drill of this number over its script writes.
fn replay_over(
    alloc: Global,
    number: u64,
    script: &Script,
) -> Result<Transcript, CommandEnd<'static>>
    ensures output { IfOk result (λ transcript. IsDrilled number script.now None transcript.bytes.items) }
    ensures fault { IfErr result (λ end. BecauseJournalOf end number script.now) }
{
    let Ok(journal) = drill_journal(alloc, number) else {
        return Err(CommandEnd::OutOfMemory);
    };
    let mut transcript = Transcript::new(alloc);
    let lines = journal.as_bytes();
    match replay(
        alloc,
        slice::from_ref(script),
        VecDeque::new(alloc),
        false,
        lines,
        &mut transcript,
    ) {
        ReplayEnd::Done => Ok(transcript),
        ReplayEnd::Refused { line } => Err(CommandEnd::LineRefused(line)),
        ReplayEnd::WriteFault => unreachable!(),
        ReplayEnd::Memory => Err(CommandEnd::OutOfMemory),
    }
}

/// How many bytes the first line of a text has, with its LF.
fn line_length(text: &[u8]) -> usize
    requires { 0 < length text.now }
    ensures within { result ≤ length text.now }
    ensures some { 0 < result }
{
    match text.iter().position(|byte| *byte == b'\n') {
        Some(end) => end + 1,
        None => text.len(),
    }
}

/// Offers the lines of a text one by one, each with its LF in one write.
fn put_text<O: Sink>(out: &mut O, text: &[u8]) -> Result<(), SinkFault>
    ensures ok { OnOk result (O.content out.new ≡ gains (O.content out.old) text.now) }
    ensures err { OnErr result (GainsLess (O.content out.old) (O.content out.new) text.now) }
    ensures quiet { OnOk result (O.faults out.new ≡ O.faults out.old) }
    ensures memory { IsErrOf result SinkFault.Memory → O.faults out.new ≡ O.faults out.old }
    ensures failed { IsErrOf result SinkFault.Failed → Rose (O.faults out.old) (O.faults out.new) }
{
    let mut rest = text;
    while !rest.is_empty() {
        let (line, after) = rest.split_at(line_length(rest));
        put(out, line)?;
        rest = after;
    }
    Ok(())
}
