//! Turns of a machine: many steps each.

ghost use Rattle.std.specs.Prelude.{◌≡◌, [], None, IfOk, IfNone, IfSome, OnErr, IsErrOf};
ghost use Rattle.cdp_edge.specs.Outside.{Rose};
ghost use Rattle.js_heap_memory.specs.Heaps.{heap_world};
ghost use Rattle.debug_host_plain_runs.specs.Turns.{HasTurned, HasCome, IsCutFrom, IsLessFrom, IsOverBy};

use cdp_edge::{Sink, SinkFault};
use cdp_edge_printing::put_texts;
use cdp_text::units::Units;
use js_heap_memory::heap::BaseHeap;
use js_machine::machine::Machine;
use js_machine::plain::Never;
use js_machine_engine::run::Why;
use js_machine_engine::stepped::Finish;
use std::alloc::{AllocError, Global};
use std::sync::Wait;

/// How many steps a turn makes at most. A print ends it before.
const MANY_STEPS: u64 = 1 << 20;

/// Many steps, and the texts that they print.
fn advance(machine: &mut Machine, heap: &mut BaseHeap) -> Result<Vec<Units>, AllocError>
    requires { machine.old.ended ≡ None }
    ensures { IfOk result (λ texts. HasTurned machine.old (heap_world machine.old.names heap.old) machine.new (heap_world machine.new.names heap.new) texts.items) }
{
    let ran = machine.run_until(heap, MANY_STEPS, &Never);
    if let Why::Memory = ran.why {
        return Err(AllocError);
    }
    Ok(machine.take_printed())
}

/// Many steps, whose texts are written; the answer is how the run ended, if it has.
///
/// # Errors
///
/// Those of the sink; `Memory` also where there is none for a step or a line.
fn turn<O: Sink>(
    alloc: Global,
    machine: &mut Machine,
    heap: &mut BaseHeap,
    out: &mut O,
) -> Result<Option<Finish>, SinkFault>
    requires going { machine.old.ended ≡ None }
    requires taken { machine.old.context.printed ≡ [] }
    ensures come { IfOk result (λ end. HasCome machine.old (heap_world machine.old.names heap.old) machine.new (heap_world machine.new.names heap.new) (O.content out.old) (O.content out.new)) }
    ensures goes_on { IfOk result (λ end. IfNone end (machine.new.ended ≡ None)) }
    ensures over { IfOk result (λ end. IfSome end (λ f. IsOverBy f machine.new (heap_world machine.new.names heap.new))) }
    ensures part { OnErr result (IsCutFrom machine.old (heap_world machine.old.names heap.old) (O.content out.old) (O.content out.new)) }
    ensures less { IsErrOf result SinkFault.Failed → IsLessFrom machine.old (heap_world machine.old.names heap.old) (O.content out.old) (O.content out.new) }
    ensures quiet { IfOk result (λ end. O.faults out.new ≡ O.faults out.old) }
    ensures memory { IsErrOf result SinkFault.Memory → O.faults out.new ≡ O.faults out.old }
    ensures failed { IsErrOf result SinkFault.Failed → Rose (O.faults out.old) (O.faults out.new) }
{
    let Ok(texts) = advance(machine, heap) else {
        return Err(SinkFault::Memory);
    };
    put_texts(alloc, out, &texts)?;
    match machine.finished() {
        Some(finish) => Ok(Some(finish)),
        None => {
            if machine.end().is_some() {
                return Err(SinkFault::Memory);
            }
            Ok(None)
        }
    }
}

/// Turn after turn, until the run ends; the answer is how. A run that never ends doesn't return.
///
/// # Errors
///
/// Those of the sink; `Memory` also where there is none for a step or a line.
pub(crate) fn run_on<R: Wait, O: Sink>(
    rt: &R,
    alloc: Global,
    machine: &mut Machine,
    heap: &mut BaseHeap,
    out: &mut O,
) -> Result<Finish, SinkFault>
    requires going { machine.old.ended ≡ None }
    requires taken { machine.old.context.printed ≡ [] }
    ensures come { IfOk result (λ f. HasCome machine.old (heap_world machine.old.names heap.old) machine.new (heap_world machine.new.names heap.new) (O.content out.old) (O.content out.new)) }
    ensures over { IfOk result (λ f. IsOverBy f machine.new (heap_world machine.new.names heap.new)) }
    ensures part { OnErr result (IsCutFrom machine.old (heap_world machine.old.names heap.old) (O.content out.old) (O.content out.new)) }
    ensures less { IsErrOf result SinkFault.Failed → IsLessFrom machine.old (heap_world machine.old.names heap.old) (O.content out.old) (O.content out.new) }
    ensures quiet { IfOk result (λ f. O.faults out.new ≡ O.faults out.old) }
    ensures memory { IsErrOf result SinkFault.Memory → O.faults out.new ≡ O.faults out.old }
    ensures failed { IsErrOf result SinkFault.Failed → Rose (O.faults out.old) (O.faults out.new) }
{
    'turns: for _ in rt.forever() {
        match turn(alloc, machine, heap, out) {
            Ok(None) => {}
            Ok(Some(finish)) => return Ok(finish),
            Err(fault) => return Err(fault),
        }
    }
    unreachable!()
}
