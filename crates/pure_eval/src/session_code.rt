//! The code that a session's evaluations run.

ghost use Rattle.std.specs.Prelude.{◌≡◌, ◌⊎◌, [], length, take};
ghost use Rattle.std.specs.Prelude.Option.{None};
ghost use Rattle.js_machine_nodes.specs.Trees.{program_of};
ghost use Rattle.pure_eval.specs.Held.{marked_names};
ghost use Rattle.pure_eval.specs.Holding.{sources_held};
ghost use Rattle.pure_eval.specs.Returning.{IsCode, IsCodeOf, IsMarked};
ghost use Rattle.pure_eval.specs.Working.{IsHeld};

use crate::evaluator::{Evaluator, EvaluatorMark};
use crate::holding::HeldCodes;
use js_heap_memory::names::NameTable;
use js_machine_nodes::table::NodeTable;
use std::alloc::Global;

/// An evaluator, what it began with, and the code that is held behind all its sources.
#[derive(Drop)]
pub struct SessionCode {
    /// The evaluator.
    pub evaluator: Evaluator,
    /// So many of its sources are scripts.
    pub scripts: usize,
    /// Where their code and their names end.
    pub start: EvaluatorMark,
    /// Code that no source has, behind all others.
    pub held: Option<HeldCodes>,
}

impl SessionCode {
    /// That of an evaluator which has no sources but scripts. It takes no memory.
    pub fn begun(evaluator: Evaluator) -> SessionCode
        ensures evaluator { result.evaluator ≡ evaluator }
        ensures marked { IsMarked evaluator result.start }
        ensures count { result.scripts ≡ length evaluator.table.sources.items }
        ensures held { result.held ≡ None }
        ensures holds { IsCode evaluator → IsHeld result.evaluator result.scripts result.start result.held }
    {
        let start = evaluator.mark();
        SessionCode {
            evaluator,
            scripts: start.table.sources,
            start,
            held: None,
        }
    }

    /// Gives up the sources that evaluations kept. Code that is held stays where there are none, and is given up otherwise.
    /// It takes no memory.
    pub fn forget_kept(&mut self)
        requires { IsHeld self.old.evaluator self.old.scripts self.old.start self.old.held }
        ensures holds { IsHeld self.new.evaluator self.new.scripts self.new.start self.new.held }
        ensures scripts { self.new.scripts ≡ self.old.scripts }
        ensures program { program_of self.new.evaluator.names self.new.evaluator.table
            ≡ take self.old.scripts (program_of self.old.evaluator.names self.old.evaluator.table) }
        ensures names { marked_names self.new.evaluator self.new.start
            ≡ marked_names self.old.evaluator self.old.start }
        ensures held { (sources_held self.new.evaluator.names self.new.evaluator.table self.new.held
            ≡ sources_held self.old.evaluator.names self.old.evaluator.table self.old.held)
            ⊎ (sources_held self.new.evaluator.names self.new.evaluator.table self.new.held ≡ []) }
    {
        if self.evaluator.table.sources.len() == self.scripts {
            return;
        }
        let start = self.start;
        self.evaluator.cut(start);
        self.held = None;
    }

    /// Gives up all sources, whatever is left of them. It takes no memory.
    pub fn give_up(&mut self, alloc: Global)
        ensures { IsHeld self.new.evaluator self.new.scripts self.new.start self.new.held }
    {
        *self = SessionCode::begun(no_sources(alloc));
    }
}

/// The evaluator of no sources. It takes no memory.
#[tactic(auto, using(crate::proofs::EmptyLemmas::empty_code))]
fn no_sources(alloc: Global) -> Evaluator
    ensures { IsCodeOf result [] }
{
    Evaluator {
        names: NameTable::new(alloc),
        table: NodeTable::new(alloc),
        next: 0,
        call: 0,
    }
}
