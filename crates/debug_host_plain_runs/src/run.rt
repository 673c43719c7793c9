//! Runs of scripts whose printed texts go to a sink.
ghost use Rattle.std.specs.Prelude.{◌≡◌, ◌⊎◌, IfOk, string_bytes};
ghost use Rattle.cdp_edge.specs.Outside.{Rose};
ghost use Rattle.cdp_text.specs.Units.{utf8_of};
ghost use Rattle.js_heap.specs.Values.{shown};
ghost use Rattle.js_semantics.specs.Sources.{terms_of_scripts};
ghost use Rattle.js_heap_memory.specs.Heaps.{heap_world};
ghost use Rattle.debug_host_plain_runs.specs.Runs.{ComesTo, EndsBy, IsFirstPart};

use crate::end::PlainRunEnd;
use crate::turns::run_on;
use cdp_edge::{Sink, SinkFault};
use cdp_text::units::{Units, text_of};
use js_heap::value::Value;
use js_heap_memory::heap::BaseHeap;
use js_machine::machine::{Machine, Started};
use js_machine_actions::shown::shown;
use js_machine_engine::stepped::Finish;
use js_tree::script::Script;
use std::alloc::{AllocError, Global};
use std::collections::VecDeque;
use std::sync::Wait;

/// The text that shows a value, as `console.log` does.
fn shown_text(
    alloc: Global,
    machine: &Machine,
    heap: &BaseHeap,
    value: Value,
) -> Result<String, AllocError>
    ensures { IfOk result (λ text. string_bytes text ≡ utf8_of (shown (heap_world machine.now.names heap.now) value)) }
{
    let units = shown(alloc, heap, machine.names(), value)?;
    text_of(alloc, units.as_slice())
}

/// How a run ended that is over so.
fn end_of(alloc: Global, machine: &Machine, heap: &BaseHeap, finish: Finish) -> PlainRunEnd
    ensures { EndsBy result finish (heap_world machine.now.names heap.now) }
{
    match finish {
        Finish::Ended(_) => PlainRunEnd::Ended,
        Finish::Threw(value, _) => match shown_text(alloc, machine, heap, value) {
            Ok(text) => PlainRunEnd::Threw(text),
            Err(AllocError) => PlainRunEnd::Memory,
        },
    }
}

/// Runs scripts one after another, with these lines of input. Each text that they print goes to `out` as soon as it is
/// printed, with LF, in one write. A run that never ends prints as it goes, and the call doesn't return.
pub fn run_scripts<R: Wait, O: Sink>(
    rt: &R,
    alloc: Global,
    scripts: &[Script],
    input: VecDeque<Units>,
    out: &mut O,
) -> PlainRunEnd
    // How the definition's run of the scripts ends, and what of its output was written.
    ensures comes { ComesTo result (terms_of_scripts scripts.now) input.items (O.content out.old) (O.content out.new) }
    // At every end, what was written is a first part of all that the run prints.
    ensures part { IsFirstPart (terms_of_scripts scripts.now) input.items (O.content out.old) (O.content out.new) }
    ensures quiet { (result ≡ PlainRunEnd.CannotWrite) ⊎ (O.faults out.new ≡ O.faults out.old) }
    ensures failed { result ≡ PlainRunEnd.CannotWrite → Rose (O.faults out.old) (O.faults out.new) }
{
    let Ok(started) = Machine::start(alloc, scripts, input) else {
        return PlainRunEnd::Memory;
    };
    let Started {
        mut machine,
        mut heap,
    } = started;
    match run_on(rt, alloc, &mut machine, &mut heap, out) {
        Ok(finish) => end_of(alloc, &machine, &heap, finish),
        Err(SinkFault::Memory) => PlainRunEnd::Memory,
        Err(SinkFault::Failed) => PlainRunEnd::CannotWrite,
    }
}
