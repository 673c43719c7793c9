//! Steps one after another.

ghost use Rattle.std.specs.Prelude.{◌≡◌, ◌-◌, ◌≤◌, ℕ, List, true, Some, is_some};
ghost use Rattle.js_semantics.specs.Run.{steps_in, run_of};
ghost use Rattle.js_machine_actions.specs.Contexts.{state_of};
ghost use Rattle.js_machine_nodes.specs.Codes.{HasFunctions};
ghost use Rattle.js_machine_nodes.specs.Trees.{program_of, IsTable};
ghost use Rattle.js_heap.specs.World.{World as AnyWorld};
ghost use Rattle.js_machine_engine.specs.Points.{term_at, IsAt};
ghost use Rattle.js_machine_engine.specs.Running.{why_of, RunsTo, RunsFor, CountsAs, IsAsked, HasPassed, passed_steps, asks_at, IfGoes};
ghost use Rattle.js_machine_engine.specs.Stepping.{told_by, StandsIn};
ghost use Rattle.js_machine_engine.specs.Prints.{PrintsAs, IsSilent, last_printed};

use crate::code::RunningCode;
use crate::position::Position;
use crate::rows::Rows;
use crate::stack::Stack;
use crate::step::advance;
use crate::stepped::{Finish, Stepped};
use crate::task::Point;
use js_heap::change::Counted;
use js_heap::value::Value;
use js_heap_memory::world::World;
use js_machine_actions::context::Context;
use js_machine_nodes::table::NodeTable;

/// Who is asked after each step that goes on whether the run stops there.
///
/// The answer depends on the residual term, without the texts of its names, and on the frames.
pub trait StopTest {
    ghost use Rattle.std.specs.Prelude.{◌≡◌, List, ℕ, Bool};
    ghost use Rattle.js_semantics.specs.Terms.{Term as AnyTerm};
    ghost use Rattle.js_semantics.specs.State.{Frame as AnyFrame};
    ghost use Rattle.js_machine_nodes.specs.Trees.{IsTable};
    ghost use Rattle.js_machine_engine.specs.Points.{term_at, IsAt};

    ghost stops: { Self → AnyTerm → List AnyFrame → Bool };

    /// Whether the run stops where the machine stands now.
    fn asks(&self, table: &NodeTable, context: &Context, stack: &Stack, point: Point) -> bool
        requires table { IsTable table.now }
        requires at { IsAt table.now stack.now point }
        ensures { (names : List (List ℕ)) → result ≡ stops self.now (term_at names table.now stack.now point) context.now.frames };
}

/// Why a run stops.
#[derive(Drop)]
pub enum Why {
    /// It was asked to.
    Asked,
    /// It has made as many steps as it may.
    Spent,
    /// A throw was raised, and stands.
    Raised,
    /// Values were printed.
    Printed(Vec<Value>),
    /// It has ended.
    Over(Finish),
    /// An evaluation ended: it would have reached what isn't its own.
    Effect,
    /// An evaluation ended: it would have passed a limit.
    Full(Counted),
    /// There was no memory for the last step.
    Memory,
}

/// How many steps a run made, and why it stops.
#[derive(Drop)]
pub struct StoppedRun {
    pub steps: u64,
    pub why: Why,
}

/// Whether a run stops behind a step that went or told this.
#[inline(always)]
fn is_stop(went: bool, told: &Stepped) -> bool
    ensures { result ≡ is_some (why_of (told_by went told.now)) }
{
    if went {
        return false;
    }
    match told {
        Stepped::Went => false,
        _ => true,
    }
}

/// Why a run stops behind a step.
fn why_of(stepped: Stepped) -> Why
    requires { is_some (why_of stepped) ≡ true }
    ensures { why_of stepped ≡ Some result }
{
    match stepped {
        Stepped::Went => Why::Spent,
        Stepped::Raised => Why::Raised,
        Stepped::Printed(values) => Why::Printed(values),
        Stepped::Over(finish) => Why::Over(finish),
        Stepped::Effect => Why::Effect,
        Stepped::Full(what) => Why::Full(what),
        Stepped::Memory => Why::Memory,
    }
}

/// Whether the host asks for a stop where the machine stands; it isn't asked where nothing is left to reduce.
#[inline(always)]
fn stops_at<H: StopTest>(
    host: &H,
    table: &NodeTable,
    context: &Context,
    stack: &Stack,
    point: &Position,
) -> bool
    requires table { IsTable table.now }
    requires at { IsAt table.now stack.now point.now }
    ensures { (names : List (List ℕ)) (world : AnyWorld) (taken : List (List ℕ)) → result ≡ asks_at (H.stops host.now) (run_of (term_at names table.now stack.now point.now) (state_of world context.now taken)) }
{
    match point.get() {
        Point::Done(_) => false,
        left => host.asks(table, context, stack, left),
    }
}

/// Steps until the host asks for a stop, until a raise, a print or the end, or until so many; `step_until` says what
/// they come to.
#[inline(always)]
fn run_on<T: Rows, W: World, H: StopTest>(
    code: &RunningCode<'_, '_>,
    context: &mut Context,
    world: &mut W,
    stack: &mut Stack,
    point: &mut Position,
    most: u64,
    host: &H,
) -> StoppedRun
    requires table { IsTable code.now.table.now }
    requires functions { HasFunctions code.now.table.now }
    requires stands { StandsIn code.now.table.now code.now.root stack.old point.old }
    ensures told { (taken : List (List ℕ)) → RunsTo (steps_in result.steps (program_of code.now.names.now code.now.table.now) code.now.root (run_of (term_at code.now.names.now code.now.table.now stack.old point.old) (state_of (W.world code.now.names.now world.old) context.old taken))) result.why (term_at code.now.names.now code.now.table.now stack.new point.new) (state_of (W.world code.now.names.now world.new) context.new taken) }
    ensures left { (taken : List (List ℕ)) → RunsFor result.steps (program_of code.now.names.now code.now.table.now) code.now.root (run_of (term_at code.now.names.now code.now.table.now stack.old point.old) (state_of (W.world code.now.names.now world.old) context.old taken)) }
    ensures stands { IfGoes result.why (StandsIn code.now.table.now code.now.root stack.new point.new) }
    ensures within { result.steps ≤ most }
    ensures counted { CountsAs result.why result.steps most }
    ensures asked { (taken : List (List ℕ)) → IsAsked (H.stops host.now) result.why (steps_in result.steps (program_of code.now.names.now code.now.table.now) code.now.root (run_of (term_at code.now.names.now code.now.table.now stack.old point.old) (state_of (W.world code.now.names.now world.old) context.old taken))) }
    ensures passed { (taken : List (List ℕ)) → HasPassed (H.stops host.now) (passed_steps result.why result.steps) (program_of code.now.names.now code.now.table.now) code.now.root (run_of (term_at code.now.names.now code.now.table.now stack.old point.old) (state_of (W.world code.now.names.now world.old) context.old taken)) }
    ensures values { (taken : List (List ℕ)) → PrintsAs result.why (last_printed result.steps (program_of code.now.names.now code.now.table.now) code.now.root (run_of (term_at code.now.names.now code.now.table.now stack.old point.old) (state_of (W.world code.now.names.now world.old) context.old taken))) }
    ensures silent { (taken : List (List ℕ)) → IsSilent (result.steps - 1) (program_of code.now.names.now code.now.table.now) code.now.root (run_of (term_at code.now.names.now code.now.table.now stack.old point.old) (state_of (W.world code.now.names.now world.old) context.old taken)) }
{
    let mut told = Stepped::Went;
    for steps in 0..most {
        if let Point::Done(value) = point.get() {
            return StoppedRun {
                steps,
                why: Why::Over(Finish::Ended(value)),
            };
        }
        let went = advance::<T, W>(code, context, world, stack, point, &mut told);
        if is_stop(went, &told) {
            return StoppedRun {
                steps: steps + 1,
                why: why_of(told),
            };
        }
        if stops_at(host, code.table, context, stack, point) {
            return StoppedRun {
                steps: steps + 1,
                why: Why::Asked,
            };
        }
    }
    StoppedRun {
        steps: most,
        why: Why::Spent,
    }
}

/// Steps until the host asks for a stop, until a raise, a print or the end, or until so many.
pub fn step_until<T: Rows, W: World, H: StopTest>(
    code: &RunningCode<'_, '_>,
    context: &mut Context,
    world: &mut W,
    stack: &mut Stack,
    point: &mut Point,
    most: u64,
    host: &H,
) -> StoppedRun
    requires table { IsTable code.now.table.now }
    requires functions { HasFunctions code.now.table.now }
    requires stands { StandsIn code.now.table.now code.now.root stack.old point.old }
    ensures told { (taken : List (List ℕ)) → RunsTo (steps_in result.steps (program_of code.now.names.now code.now.table.now) code.now.root (run_of (term_at code.now.names.now code.now.table.now stack.old point.old) (state_of (W.world code.now.names.now world.old) context.old taken))) result.why (term_at code.now.names.now code.now.table.now stack.new point.new) (state_of (W.world code.now.names.now world.new) context.new taken) }
    // Each of the steps is one of a run that isn't over.
    ensures left { (taken : List (List ℕ)) → RunsFor result.steps (program_of code.now.names.now code.now.table.now) code.now.root (run_of (term_at code.now.names.now code.now.table.now stack.old point.old) (state_of (W.world code.now.names.now world.old) context.old taken)) }
    ensures stands { IfGoes result.why (StandsIn code.now.table.now code.now.root stack.new point.new) }
    ensures within { result.steps ≤ most }
    ensures counted { CountsAs result.why result.steps most }
    // The host asked for a stop behind the last step, if that is the reason, and behind none before.
    ensures asked { (taken : List (List ℕ)) → IsAsked (H.stops host.now) result.why (steps_in result.steps (program_of code.now.names.now code.now.table.now) code.now.root (run_of (term_at code.now.names.now code.now.table.now stack.old point.old) (state_of (W.world code.now.names.now world.old) context.old taken))) }
    ensures passed { (taken : List (List ℕ)) → HasPassed (H.stops host.now) (passed_steps result.why result.steps) (program_of code.now.names.now code.now.table.now) code.now.root (run_of (term_at code.now.names.now code.now.table.now stack.old point.old) (state_of (W.world code.now.names.now world.old) context.old taken)) }
    // The last step printed these values, if they are the reason, and nothing otherwise; no step before it printed.
    ensures values { (taken : List (List ℕ)) → PrintsAs result.why (last_printed result.steps (program_of code.now.names.now code.now.table.now) code.now.root (run_of (term_at code.now.names.now code.now.table.now stack.old point.old) (state_of (W.world code.now.names.now world.old) context.old taken))) }
    ensures silent { (taken : List (List ℕ)) → IsSilent (result.steps - 1) (program_of code.now.names.now code.now.table.now) code.now.root (run_of (term_at code.now.names.now code.now.table.now stack.old point.old) (state_of (W.world code.now.names.now world.old) context.old taken)) }
{
    let mut position = Position::of(*point);
    let stopped = run_on::<T, W, H>(code, context, world, stack, &mut position, most, host);
    *point = position.get();
    stopped
}
