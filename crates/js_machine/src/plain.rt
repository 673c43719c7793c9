//! Plain runs: steps that nobody watches.

ghost use Rattle.std.specs.Prelude.{◌≡◌, [], false, IfOk};
ghost use Rattle.js_semantics.specs.Run.{plain, program_of as program_of_terms, start, steps_taken};
ghost use Rattle.js_semantics.specs.Sources.{terms_of_scripts};
ghost use Rattle.js_heap_memory.specs.Heaps.{heap_world};
ghost use Rattle.js_machine.specs.Machines.{run_at, IsKept};
ghost use Rattle.js_machine.specs.Plain.{HasRunWithin};

use crate::machine::{Machine, Started};
use cdp_text::units::Units;
use js_heap_memory::heap::BaseHeap;
use js_heap_memory::world::World;
use js_machine_actions::context::Context;
use js_machine_engine::run::{StopTest, Why};
use js_machine_engine::stack::Stack;
use js_machine_engine::task::Point;
use js_machine_nodes::table::NodeTable;
use js_tree::script::Script;
use std::alloc::{AllocError, Global};
use std::collections::VecDeque;

/// A host that never asks for a stop.
#[derive(Clone, Copy)]
pub struct Never;

impl StopTest for Never {
    ghost stops = { λ host term frames. false };

    fn asks(&self, _table: &NodeTable, _context: &Context, _stack: &Stack, _point: Point) -> bool {
        false
    }
}

/// Runs on until the run is over, but for so many steps at most; the answer is how many it took.
///
/// # Errors
///
/// There is no memory for a step.
pub fn run_on<W: World>(machine: &mut Machine, world: &mut W, most: u64) -> Result<u64, AllocError>
    requires { IsKept machine.old.ended }
    ensures { IfOk result (λ steps. HasRunWithin machine.old (W.world machine.old.names world.old) machine.new (W.world machine.new.names world.new) most steps) }
{
    let mut left = most;
    while left > 0 {
        if machine.end().is_some() {
            break;
        }
        let ran = machine.run_until(world, left, &Never);
        left -= ran.steps;
        if let Why::Memory = ran.why {
            return Err(AllocError);
        }
        if ran.steps == 0 {
            break;
        }
    }
    Ok(most - left)
}

/// How far a run came, after so many steps.
#[derive(Drop)]
pub struct PlainRun {
    pub machine: Machine,
    pub heap: BaseHeap,
    pub steps: u64,
}

/// Runs scripts one after another, at most so many steps, with these lines of input.
///
/// # Errors
///
/// There is no memory, also where the scripts have more string literals than there are addresses.
pub fn run_scripts(
    alloc: Global,
    scripts: &[Script],
    input: VecDeque<Units>,
    most: u64,
) -> Result<PlainRun, AllocError>
    // The run is where the definition's run of the scripts is after so many steps: what it has printed, how it has ended.
    ensures reached { IfOk result (λ o. run_at o.machine (heap_world o.machine.names o.heap) [] ≡ plain most (terms_of_scripts scripts.now) input.items) }
    // The steps that it took.
    ensures counted { IfOk result (λ o. o.steps ≡ steps_taken most (program_of_terms (terms_of_scripts scripts.now)) (start (terms_of_scripts scripts.now) input.items)) }
{
    let Started {
        mut machine,
        mut heap,
    } = Machine::start(alloc, scripts, input)?;
    let steps = run_on(&mut machine, &mut heap, most)?;
    Ok(PlainRun {
        machine,
        heap,
        steps,
    })
}
