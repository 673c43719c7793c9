//! The machine of a run.
//!
//! It holds neither scripts nor cells, so an evaluation runs over other cells by the same calls.

ghost use Rattle.std.specs.Prelude.{◌≡◌, ◌-◌, ◌≤◌, ℕ, List, [], None, IfOk, IfSome, IfNone};
ghost use Rattle.js_heap.specs.BuiltIns.{script_scope};
ghost use Rattle.js_heap.specs.World.{World as AnyWorld};
ghost use Rattle.js_semantics.specs.Next.{next};
ghost use Rattle.js_semantics.specs.Run.{over, step_in};
ghost use Rattle.js_semantics.specs.Sources.{terms_of_scripts};
ghost use Rattle.js_machine_nodes.specs.Codes.{HasFunctions};
ghost use Rattle.js_machine_nodes.specs.Trees.{IsTable};
ghost use Rattle.js_machine_compiler.specs.Grown.{HasPlaces};
ghost use Rattle.js_machine_compiler.specs.Scripts.{IsOfScripts};
ghost use Rattle.js_machine_terms.specs.Views.{terms_view};
ghost use Rattle.js_machine_engine.specs.Running.{IsRunning, RunsFor, CountsAs, IsAsked, HasPassed, passed_steps};
ghost use Rattle.js_machine_engine.specs.Stepping.{StandsIn, Tells, finish_of};
ghost use Rattle.js_machine_engine.specs.Prints.{PrintsAs, IsSilent, last_printed};
ghost use Rattle.js_machine.specs.Machines.{program_of, term_of, state_of, run_at, run_with, run_after, IsGoing, IsKept, finish_at, end_of, end_of_run, HasSameCode};
ghost use Rattle.js_machine.specs.Starts.{IsStarted};

mod standing;

use crate::end::End;
use crate::scripts::terms_of_scripts;
use crate::start::{PreparedScripts, prepare};
use cdp_text::units::Units;
use js_heap::built_in::script_scope;
use js_heap_memory::heap::BaseHeap;
use js_heap_memory::names::NameTable;
use js_heap_memory::world::World;
use js_machine_actions::context::Context;
use js_machine_compiler::scripts::ScriptCode;
use js_machine_engine::code::RunningCode;
use js_machine_engine::run::{StopTest, StoppedRun, Why, step_until};
use js_machine_engine::settling::uncover;
use js_machine_engine::stack::Stack;
use js_machine_engine::step::step;
use js_machine_engine::stepped::{Finish, Stepped};
use js_machine_engine::task::Point;
use js_machine_nodes::table::NodeTable;
use js_machine_rows::table::StepTable;
use js_machine_terms::term::Terms;
use js_tree::script::Script;
use std::alloc::{AllocError, Global};
use std::collections::VecDeque;
use std::marker::Model;

/// A run of scripts, or of an evaluation: its code, and how far it is. Its cells are in a world that is lent to each call.
#[derive(Drop)]
pub struct Machine {
    alloc: Global,
    table: NodeTable,
    names: NameTable,
    context: Context,
    stack: Stack,
    point: Point,
    end: Option<End>,
}

impl Model for Machine {
    ghost use Rattle.js_machine.specs.Machines.{Machine as AnyMachine, IsSound};

    ghost Value = { AnyMachine };

    ghost view = { λ m. record { table = m.table; names = m.names; context = m.context; tasks = m.stack; point = m.point; ended = m.end } };

    ghost invariant = { λ m. IsSound m.table m.names m.stack m.point m.end };
}

/// A machine at the start of its scripts, with the cells before the first step.
#[derive(Drop)]
pub struct Started {
    pub machine: Machine,
    pub heap: BaseHeap,
}

/// How a step ends the run.
fn end_of(stepped: &Stepped) -> Option<End>
    ensures { result ≡ end_of stepped.now }
{
    match stepped {
        Stepped::Went => None,
        Stepped::Raised => None,
        Stepped::Printed(_) => None,
        Stepped::Over(finish) => Some(End::Finished(*finish)),
        Stepped::Effect => Some(End::Effect),
        Stepped::Full(what) => Some(End::Full(*what)),
        Stepped::Memory => Some(End::Lost),
    }
}

/// How many steps end the run.
fn end_of_run(why: &Why) -> Option<End>
    ensures { result ≡ end_of_run why.now }
{
    match why {
        Why::Asked => None,
        Why::Spent => None,
        Why::Raised => None,
        Why::Printed(_) => None,
        Why::Over(finish) => Some(End::Finished(*finish)),
        Why::Effect => Some(End::Effect),
        Why::Full(what) => Some(End::Full(*what)),
        Why::Memory => Some(End::Lost),
    }
}

impl Machine {
    /// A machine at the start of scripts, which run one after another with these lines of input.
    ///
    /// # Errors
    ///
    /// There is no memory, also where the scripts have more string literals than there are addresses.
    pub fn start(
        alloc: Global,
        scripts: &[Script],
        input: VecDeque<Units>,
    ) -> Result<Started, AllocError>
        ensures { IfOk result (λ s. IsStarted (terms_of_scripts scripts.now) input.items s) }
    {
        let terms = terms_of_scripts(alloc, scripts)?;
        Machine::of_terms(alloc, &terms, input)
    }

    /// A machine at the start of scripts that are given as terms.
    fn of_terms(
        alloc: Global,
        scripts: &Terms,
        input: VecDeque<Units>,
    ) -> Result<Started, AllocError>
        ensures { IfOk result (λ s. IsStarted (terms_view scripts.now) input.items s) }
    {
        let PreparedScripts { names, code, heap } = prepare(alloc, scripts)?;
        let ScriptCode { table, root } = code;
        let context = Context::start(alloc, input)?;
        let mut stack = Stack::new(alloc);
        let mut point = Point::Row;
        uncover(&table, script_scope(), &mut stack, &mut point, root)?;
        let machine = Machine {
            alloc,
            table,
            names,
            context,
            stack,
            point,
            end: None,
        };
        Ok(Started { machine, heap })
    }

    // ---- steps

    /// One step: what is about to be reduced is reduced by its row.
    pub fn step<W: World>(&mut self, world: &mut W) -> Stepped
        requires { IsGoing self.old }
        // The step is the definition's, and what it tells is what the definition's step tells.
        ensures told { (taken : List (List ℕ)) → Tells (next (program_of self.old) script_scope (term_of self.old) (state_of self.old (W.world self.old.names world.old) taken)) result (term_of self.new) (state_of self.new (W.world self.new.names world.new) taken) }
        ensures end { self.new.ended ≡ end_of result }
        ensures code { HasSameCode self.old self.new }
        // The run is one step further.
        ensures run { IsKept self.new.ended → (taken : List (List ℕ)) → run_with W.world self.new world.new taken ≡ step_in (program_of self.old) script_scope (run_with W.world self.old world.old taken) }
    {
        let stepped = step::<StepTable, W>(
            &RunningCode {
                alloc: self.alloc,
                table: &self.table,
                names: &self.names,
                root: script_scope(),
            },
            &mut self.context,
            world,
            &mut self.stack,
            &mut self.point,
        );
        self.end = end_of(&stepped);
        stepped
    }

    /// Steps until the host asks for a stop, until a raise, a print or the end, or until so many.
    pub fn run_until<W: World, H: StopTest>(
        &mut self,
        world: &mut W,
        most: u64,
        host: &H,
    ) -> StoppedRun
        requires { self.old.ended ≡ None }
        // The run is so many steps further, and it wasn't over before any of them.
        ensures run { IsKept self.new.ended → (taken : List (List ℕ)) → run_with W.world self.new world.new taken ≡ run_after result.steps W.world self.old world.old taken }
        ensures left { (taken : List (List ℕ)) → RunsFor result.steps (program_of self.old) script_scope (run_with W.world self.old world.old taken) }
        ensures within { result.steps ≤ most }
        ensures counted { CountsAs result.why result.steps most }
        // The host asked for a stop behind the last step, if that is the reason, and behind none before.
        ensures asked { (taken : List (List ℕ)) → IsAsked (H.stops host.now) result.why (run_after result.steps W.world self.old world.old taken) }
        ensures passed { (taken : List (List ℕ)) → HasPassed (H.stops host.now) (passed_steps result.why result.steps) (program_of self.old) script_scope (run_with W.world self.old world.old taken) }
        // The last step printed these values, if they are the reason, and nothing otherwise; no step before it printed.
        ensures values { (taken : List (List ℕ)) → PrintsAs result.why (last_printed result.steps (program_of self.old) script_scope (run_with W.world self.old world.old taken)) }
        ensures silent { (taken : List (List ℕ)) → IsSilent (result.steps - 1) (program_of self.old) script_scope (run_with W.world self.old world.old taken) }
        ensures end { self.new.ended ≡ end_of_run result.why }
        ensures code { HasSameCode self.old self.new }
    {
        let ran = step_until::<StepTable, W, H>(
            &RunningCode {
                alloc: self.alloc,
                table: &self.table,
                names: &self.names,
                root: script_scope(),
            },
            &mut self.context,
            world,
            &mut self.stack,
            &mut self.point,
            most,
            host,
        );
        self.end = end_of_run(&ran.why);
        ran
    }

    /// How the run ended, if it has: with a value, or by a throw that no `catch` took.
    pub fn finished(&self) -> Option<Finish>
        ensures finish { result ≡ finish_at self.now.ended self.now.point }
        ensures over { IfSome result (λ f. (w : AnyWorld) (taken : List (List ℕ)) → run_at self.now w taken ≡ over (finish_of f) (state_of self.now w taken)) }
        // Where it hasn't, and nothing else ended it, something is left to reduce.
        ensures left { IfNone result (self.now.ended ≡ None → (w : AnyWorld) (taken : List (List ℕ)) → IsRunning (run_at self.now w taken)) }
    {
        match self.end {
            Some(End::Finished(finish)) => Some(finish),
            Some(_) => None,
            None => match self.point {
                Point::Done(value) => Some(Finish::Ended(value)),
                _ => None,
            },
        }
    }

    /// How the run ended, by whatever.
    pub fn end(&self) -> Option<End>
        ensures { result ≡ self.now.ended }
    {
        self.end
    }

    // ---- what was printed

    /// The texts printed that nobody has taken yet.
    pub fn printed(&self) -> &[Units]
        ensures { result.now ≡ self.now.context.printed }
    {
        self.context.printed()
    }

    /// Takes the texts printed.
    pub fn take_printed(&mut self) -> Vec<Units>
        ensures texts { result.items ≡ self.old.context.printed }
        ensures rest { self.new ≡ record self.old { context = record self.old.context { printed = [] } } }
    {
        self.context.take_printed()
    }

    // ---- its parts

    /// The names of its code.
    pub fn names(&self) -> &NameTable
        ensures { result.now ≡ self.now.names }
    {
        &self.names
    }

    /// Its code, which is in order, and that of scripts however the names go on. Other tables may have it in front.
    pub fn table(&self) -> &NodeTable
        ensures table { result.now ≡ self.now.table }
        ensures in_order { IsTable result.now }
        ensures places { HasPlaces result.now }
        ensures functions { HasFunctions result.now }
        ensures scripts { IsOfScripts self.now.names result.now }
    {
        &self.table
    }

    /// What a step threads beside the world, the active calls among it.
    pub fn context(&self) -> &Context
        ensures { result.now ≡ self.now.context }
    {
        &self.context
    }

    /// The tasks. Until the run has ended they stand in the code, each in its scope.
    pub fn stack(&self) -> &Stack
        ensures tasks { result.now ≡ self.now.tasks }
        ensures standing { self.now.ended ≡ None → StandsIn self.now.table script_scope result.now self.now.point }
    {
        &self.stack
    }

    /// Where it stands in the innermost task.
    pub fn point(&self) -> Point
        ensures { result ≡ self.now.point }
    {
        self.point
    }
}
