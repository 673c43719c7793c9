//! Journals: their replay over a host, line by line, and what is written of it.

ghost use Rattle.std.specs.Prelude.{◌≡◌, ◌≢◌, ◌⊎◌, ℕ, List, [], Bool, false, Some, None, OnOk, OnErr, IsErrOf, map, string_bytes};
ghost use Rattle.cdp_edge.specs.Outside.{Rose, gains, GainsPrefix, GainsLess};
ghost use Rattle.cdp_text.specs.Lines.{lines_of};
ghost use Rattle.cdp_host_isolation.specs.Histories.{Entry};
ghost use Rattle.js_tree.specs.declared.script.Script.{Script as AnyScript};
ghost use Rattle.cdp_host.specs.Histories.{begin, whole};
ghost use Rattle.cdp_host.specs.Hosts.{StandsFor};
ghost use Rattle.debug_host_commands.specs.Journal.{behind_memory, entry_of, refused};
ghost use Rattle.debug_host_commands.specs.Output.{joined};
ghost use Rattle.debug_host_commands.specs.Played.{IsCut, Plays, end_of, journal_output, line_output, of_sink};
ghost use Rattle.debug_host_commands.specs.Replays.{WritesLess, WritesPart, WritesReplay};

use crate::act::act;
use cdp_edge::{Sink, SinkFault, put};
use cdp_host::Host;
use cdp_journal::{is_memory, read_line};
use cdp_text::lines::cut_line;
use cdp_text::units::Units;
use js_tree::script::Script;
use std::alloc::{AllocError, Global};
use std::collections::VecDeque;

/// How the replay of a journal ends.
#[derive(Clone, Copy)]
pub enum ReplayEnd {
    /// Every line was applied.
    Done,
    /// The line of this number, from 1, isn't of its form, names a session that isn't attached, or follows the line
    /// `memory`; the lines before it were applied.
    Refused { line: u64 },
    /// The output can't be written.
    WriteFault,
    /// There is no memory, also where a session was lost for want of it.
    Memory,
}

/// Why a line wasn't played.
#[derive(Clone, Copy)]
enum LineFault {
    Refused,
    Memory,
    CannotWrite,
}

impl From<SinkFault> for LineFault {
    ghost from_gives = { λ fault e. e ≡ of_sink fault };

    fn from(fault: SinkFault) -> Self {
        match fault {
            SinkFault::Failed => LineFault::CannotWrite,
            SinkFault::Memory => LineFault::Memory,
        }
    }
}

/// Offers lines one by one, each in one write.
fn put_lines<O: Sink>(out: &mut O, lines: &[String]) -> Result<(), SinkFault>
    ensures ok { OnOk result (O.content out.new ≡ gains (O.content out.old) (joined (map string_bytes lines.now))) }
    ensures err { OnErr result (GainsLess (O.content out.old) (O.content out.new) (joined (map string_bytes lines.now))) }
    ensures quiet { OnOk result (O.faults out.new ≡ O.faults out.old) }
    ensures memory { IsErrOf result SinkFault.Memory → O.faults out.new ≡ O.faults out.old }
    ensures failed { IsErrOf result SinkFault.Failed → Rose (O.faults out.old) (O.faults out.new) }
{
    for line in lines {
        put(out, line.as_bytes())?;
    }
    Ok(())
}

/// Applies a journal's line to the host and writes its lines of output.
fn play_line<O: Sink>(
    alloc: Global,
    host: &mut Host,
    text: &[u8],
    out: &mut O,
) -> Result<(), LineFault>
    requires { host.old.broken ≡ false }
    ensures ok { OnOk result ((scripts : List AnyScript) (input : List (List ℕ)) (wait : Bool) (history : List Entry) → StandsFor scripts input wait host.old history
        → Plays scripts input wait history (entry_of scripts (whole scripts input wait history) text.now) host.new (O.content out.old) (O.content out.new)) }
    ensures works { OnOk result (host.new.broken ≡ false) }
    ensures refused { IsErrOf result LineFault.Refused → (out.new ≡ out.old) × ((scripts : List AnyScript) (input : List (List ℕ)) (wait : Bool) (history : List Entry) → StandsFor scripts input wait host.old history
        → entry_of scripts (whole scripts input wait history) text.now ≡ None) }
    ensures part { OnErr result ((scripts : List AnyScript) (input : List (List ℕ)) (wait : Bool) (history : List Entry) → StandsFor scripts input wait host.old history
        → GainsPrefix (O.content out.old) (O.content out.new) (line_output scripts (whole scripts input wait history) (entry_of scripts (whole scripts input wait history) text.now))) }
    ensures less { IsErrOf result LineFault.CannotWrite → (scripts : List AnyScript) (input : List (List ℕ)) (wait : Bool) (history : List Entry) → StandsFor scripts input wait host.old history
        → GainsLess (O.content out.old) (O.content out.new) (line_output scripts (whole scripts input wait history) (entry_of scripts (whole scripts input wait history) text.now)) }
    ensures quiet { OnOk result (O.faults out.new ≡ O.faults out.old) }
    ensures memory { IsErrOf result LineFault.Memory → O.faults out.new ≡ O.faults out.old }
    ensures failed { IsErrOf result LineFault.CannotWrite → Rose (O.faults out.old) (O.faults out.new) }
{
    let line = match read_line(alloc, text) {
        Err(_) => return Err(LineFault::Memory),
        Ok(None) => return Err(LineFault::Refused),
        Ok(Some(line)) => line,
    };
    let lines = match act(alloc, host, line) {
        Err(_) => return Err(LineFault::Memory),
        Ok(None) => return Err(LineFault::Refused),
        Ok(Some(lines)) => lines,
    };
    put_lines(out, &lines)?;
    Ok(())
}

/// How a replay ends at the line `memory`, where the first line behind it would have this number. Each line there is
/// refused.
fn end_behind_memory(number: u64, behind: &[u8]) -> ReplayEnd
    ensures is { result ≡ end_of (behind_memory number (lines_of behind.now)) }
    ensures uncut { result ≢ ReplayEnd.WriteFault }
{
    match cut_line(behind) {
        None => ReplayEnd::Done,
        Some(_) => ReplayEnd::Refused { line: number },
    }
}

/// Replays a journal's lines over a host before its first entry, up to the line `memory` or the first line that is
/// refused.
fn play_lines<O: Sink>(alloc: Global, host: &mut Host, journal: &[u8], out: &mut O) -> ReplayEnd
    requires { host.old.broken ≡ false }
    ensures end { (scripts : List AnyScript) (input : List (List ℕ)) (wait : Bool) → StandsFor scripts input wait host.old []
        → IsCut result ⊎ (result ≡ end_of (refused scripts 1 (begin scripts input wait) (lines_of journal.now))) }
    ensures whole { (scripts : List AnyScript) (input : List (List ℕ)) (wait : Bool) → StandsFor scripts input wait host.old []
        → IsCut result ⊎ (O.content out.new ≡ gains (O.content out.old) (journal_output scripts (begin scripts input wait) (lines_of journal.now))) }
    ensures part { (scripts : List AnyScript) (input : List (List ℕ)) (wait : Bool) → StandsFor scripts input wait host.old []
        → GainsPrefix (O.content out.old) (O.content out.new) (journal_output scripts (begin scripts input wait) (lines_of journal.now)) }
    ensures less { result ≡ ReplayEnd.WriteFault → (scripts : List AnyScript) (input : List (List ℕ)) (wait : Bool) → StandsFor scripts input wait host.old []
        → GainsLess (O.content out.old) (O.content out.new) (journal_output scripts (begin scripts input wait) (lines_of journal.now)) }
    ensures quiet { (result ≡ ReplayEnd.WriteFault) ⊎ (O.faults out.new ≡ O.faults out.old) }
    ensures failed { result ≡ ReplayEnd.WriteFault → Rose (O.faults out.old) (O.faults out.new) }
{
    let mut rest = journal;
    let mut number: u64 = 1;
    while let Some((line, after)) = cut_line(rest) {
        if is_memory(line) {
            return end_behind_memory(number + 1, after);
        }
        match play_line(alloc, host, line, out) {
            Ok(()) => {}
            Err(LineFault::Refused) => return ReplayEnd::Refused { line: number },
            Err(LineFault::Memory) => return ReplayEnd::Memory,
            Err(LineFault::CannotWrite) => return ReplayEnd::WriteFault,
        }
        rest = after;
        number += 1;
    }
    ReplayEnd::Done
}

/// Replays a journal's lines over these scripts with these lines of input, which may be to wait, up to the line `memory`
/// or the first line that is refused.
fn play<O: Sink>(
    alloc: Global,
    scripts: &[Script],
    input: VecDeque<Units>,
    wait: bool,
    journal: &[u8],
    out: &mut O,
) -> ReplayEnd
    ensures end { IsCut result ⊎ (result ≡ end_of (refused scripts.now 1 (begin scripts.now input.items wait) (lines_of journal.now))) }
    ensures whole { IsCut result ⊎ (O.content out.new ≡ gains (O.content out.old) (journal_output scripts.now (begin scripts.now input.items wait) (lines_of journal.now))) }
    ensures part { GainsPrefix (O.content out.old) (O.content out.new) (journal_output scripts.now (begin scripts.now input.items wait) (lines_of journal.now)) }
    ensures less { result ≡ ReplayEnd.WriteFault → GainsLess (O.content out.old) (O.content out.new) (journal_output scripts.now (begin scripts.now input.items wait) (lines_of journal.now)) }
    ensures quiet { (result ≡ ReplayEnd.WriteFault) ⊎ (O.faults out.new ≡ O.faults out.old) }
    ensures failed { result ≡ ReplayEnd.WriteFault → Rose (O.faults out.old) (O.faults out.new) }
{
    match Host::start(alloc, scripts, input, wait) {
        Ok(mut host) => play_lines(alloc, &mut host, journal, out),
        Err(AllocError) => ReplayEnd::Memory,
    }
}

/// Replays a journal over these scripts with these lines of input: its lines are applied one after another, up to the first that
/// is refused, and what they write is offered to the sink, each line of output in one write. With `wait` the program waits until
/// a client lets it begin (`Runtime.runIfWaitingForDebugger`).
///
/// A journal is UTF-8, and its lines are ended by LF, which the last may lack. They are `attach`, `tell S TEXT`, `take S`,
/// `detach S`, `run N MS` and `shut`; S is the number of an attached session, N a number of steps below 2^32, and MS a moment
/// below 2^53, in milliseconds since the epoch. A TEXT has at most 1,048,576 bytes and is written with `%25`, `%0A` and `%0D`
/// for `%`, LF and CR. What is written is `attached S`, `to S TEXT`, `out TEXT`, `overrun S` and `ran K STATE`. The last
/// line may be `memory`, which does nothing and writes nothing; a line behind it is refused.
pub fn replay<O: Sink>(
    alloc: Global,
    scripts: &[Script],
    input: VecDeque<Units>,
    wait: bool,
    journal: &[u8],
    out: &mut O,
) -> ReplayEnd
    // every line was applied, or those before the one that is refused, and all of their output is written
    ensures done { result ≡ ReplayEnd.Done → WritesReplay scripts.now input.items wait journal.now None (O.content out.old) (O.content out.new) }
    ensures refused { (line : ℕ) → result ≡ ReplayEnd.Refused line → WritesReplay scripts.now input.items wait journal.now (Some line) (O.content out.old) (O.content out.new) }
    // at every end a first part of the replay's output is written, and where a write failed not all of it
    ensures part { WritesPart scripts.now input.items wait journal.now (O.content out.old) (O.content out.new) }
    ensures less { result ≡ ReplayEnd.WriteFault → WritesLess scripts.now input.items wait journal.now (O.content out.old) (O.content out.new) }
    ensures quiet { (result ≡ ReplayEnd.WriteFault) ⊎ (O.faults out.new ≡ O.faults out.old) }
    ensures failed { result ≡ ReplayEnd.WriteFault → Rose (O.faults out.old) (O.faults out.new) }
{
    play(alloc, scripts, input, wait, journal, out)
}
