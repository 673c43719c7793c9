//! A session's evaluator.

ghost use Rattle.std.specs.Prelude.{◌≡◌, ◌≤◌, ℕ, List, true, false, length, IfOk, IfSome};
ghost use Rattle.js_tree.specs.declared.tree.Expr.{Expr};
ghost use Rattle.js_semantics.specs.Evaluation.{answered, next_kept, with_source};
ghost use Rattle.js_semantics.specs.Functions.{Program};
ghost use Rattle.js_semantics.specs.Literals.{source_literals};
ghost use Rattle.js_semantics.specs.Sources.{expression_source};
ghost use Rattle.js_semantics.specs.Terms.{settle};
ghost use Rattle.js_heap_memory.specs.Heaps.{heap_world};
ghost use Rattle.js_heap_memory.specs.Names.{GoesOn};
ghost use Rattle.js_heap_memory.specs.Overlays.{space_of, next_of};
ghost use Rattle.js_machine_nodes.specs.declared.node.SourceEntry.{SourceEntry as AnyEntry};
ghost use Rattle.js_machine_nodes.specs.declared.table.NodeTable.{NodeTable as AnyTable};
ghost use Rattle.js_machine_nodes.specs.Codes.{HasFunctions};
ghost use Rattle.js_machine_nodes.specs.Trees.{tree, program_of, IsTable};
ghost use Rattle.js_machine_terms.specs.Views.{term_view};
ghost use Rattle.pure_eval.specs.Adding.{GoesOnWith, kept_tree_at};
ghost use Rattle.pure_eval.specs.Calling.{worked, work_of, HasCall};
ghost use Rattle.pure_eval.specs.Cutting.{IsMarkOf, IsBack};
ghost use Rattle.pure_eval.specs.Whole.{IsWhole};
ghost use Rattle.pure_eval.specs.Evaluators.{Runs, IsBehind, is_kept, RunsAfter};
ghost use Rattle.pure_eval.specs.Holding.{IsHeldAt, code_term};
ghost use Rattle.pure_eval.specs.Leaving.{Leaves};
ghost use Rattle.pure_eval.specs.Orders.{AreSameLiterals, ready_in_order};
ghost use Rattle.pure_eval.specs.Preparing.{IsReady};
ghost use Rattle.pure_eval.specs.Returning.{WentOn, WentOnAfter, IsMarked, IsAgain, CameFrom, CameAfter, HasAdded, IsCode, CodeAfter};

use crate::adding::add_source;
use crate::calling::is_call;
use crate::cutting::{TableMark, cut, mark};
use crate::evaluated::Evaluated;
use crate::orders::evaluate_in_order;
use crate::prepared::PreparedSource;
use crate::session::Outcome;
use crate::work::Work;
use cdp_text::units::Units;
use js_heap::value::Addr;
use js_heap_memory::heap::BaseHeap;
use js_heap_memory::names::NameTable;
use js_heap_memory::overlay::Scratch;
use js_heap_memory::world::World;
use js_machine_engine::rows::Rows;
use js_machine_nodes::node::SourceEntry;
use js_machine_nodes::table::NodeTable;
use js_machine_terms::term::Term;
use std::alloc::{AllocError, Global};

/// The code of a program, and of the sources that a session's evaluations keep, with its names.
#[derive(Drop)]
pub struct Evaluator {
    /// The names.
    pub names: NameTable,
    /// The code.
    pub table: NodeTable,
    /// The sources that are kept stand at addresses below this number.
    pub next: u32,
    /// The entry of this number is that of a call which stands in no statement.
    pub call: u32,
}

/// Where an evaluator's code ended, below which number its kept sources stood, and how many names it had.
#[derive(Clone, Copy)]
pub struct EvaluatorMark {
    /// Where its code ended.
    pub table: TableMark,
    /// Its kept sources stood below this number.
    pub next: u32,
    /// How many names it had.
    pub names: usize,
}

/// A source that was added: its node, where the table ended before it, and the number behind its address.
#[derive(Clone, Copy)]
pub struct Added {
    /// Where the table ended before it.
    pub mark: TableMark,
    /// The number behind its address.
    pub next: u32,
    /// Its node.
    pub node: u32,
}

/// Whether a table of names has all that a program's cells and a session's need.
fn are_known(names: &NameTable, base: &BaseHeap, scratch: &Scratch) -> bool
    ensures base { result ≡ true → base.now.ends ≤ length names.now }
    ensures scratch { result ≡ true → scratch.now.ends ≤ length names.now }
{
    let count = names.len();
    if base.known() > count {
        return false;
    }
    if scratch.known() > count {
        return false;
    }
    true
}

/// The number behind an address of a session's cells that is no lower than a number.
fn number_behind(at: Addr, from: u32) -> Option<u32>
    ensures { IfSome result (λ n. IsBehind at from n) }
{
    match at {
        Addr::Base(_) => None,
        Addr::Scratch(number) => {
            if number < from {
                return None;
            }
            match number.checked_add(1) {
                Some(next) => Some(next),
                None => None,
            }
        }
    }
}

/// Whether an evaluation keeps its source.
fn is_kept(end: Evaluated) -> bool
    ensures { result ≡ is_kept end }
{
    match end {
        Evaluated::Value(_) => true,
        Evaluated::Thrown(_) => true,
        _ => false,
    }
}

/// What becomes of a source whose code a table has, with names that went on from those that the cells need.
fn evaluate_known<T: Rows>(
    alloc: Global,
    table: &NodeTable,
    names: &NameTable,
    base: &BaseHeap,
    scratch: Scratch,
    call: u32,
    work: Work<'_>,
    source: &Units,
    order: &[Units],
    literals: &[Units],
    node: u32,
) -> Outcome
    requires table { IsTable table.now }
    requires functions { HasFunctions table.now }
    requires call { HasCall table.now call }
    ensures { (before : List (List ℕ)) → GoesOn before names.now → base.now.ends ≤ length before → scratch.ends ≤ length before → AreSameLiterals order.now literals.now → Leaves (answered (ready_in_order (heap_world before base.now) (space_of before scratch) source.now order.now literals.now (settle (tree names.now table.now node))) (worked (program_of names.now table.now) work.entry)) result.end (space_of before scratch) (space_of names.now result.scratch) }
{
    base.goes_on();
    scratch.goes_on();
    let mut known = scratch;
    known.know(names);
    evaluate_in_order::<T>(
        alloc, table, names, base, known, call, work, source, order, literals, node,
    )
}

impl Evaluator {
    /// Where the code ends now, and how many names there are. It takes no memory.
    pub fn mark(&self) -> EvaluatorMark
        ensures marked { IsMarked self.now result }
        ensures came { (p : Program) → Runs self.now p → CameFrom result p self.now }
    {
        EvaluatorMark {
            table: mark(&self.table),
            next: self.next,
            names: self.names.len(),
        }
    }

    /// Forgets the sources that were kept since a mark; its names stay. The session's cells are to be cut to where they
    /// ended then. It takes no memory.
    pub fn cut(&mut self, mark: EvaluatorMark)
        ensures names { self.new.names ≡ self.old.names }
        ensures back { (e : Evaluator) → IsWhole e.table → IsMarked e mark → WentOn e self.old → IsAgain e self.new }
        ensures runs { (p : Program) → CameFrom mark p self.old → Runs self.new p × CameFrom mark p self.new }
    {
        cut(&mut self.table, mark.table);
        self.next = mark.next;
    }

    /// Adds a source at the next address of a session's cells: that of a term, or of code that is held.
    ///
    /// # Errors
    ///
    /// There is no memory for it; a kept source stands at that address or behind it; or a name of the cells isn't known.
    fn add(
        &mut self,
        alloc: Global,
        base: &BaseHeap,
        scratch: &Scratch,
        term: &Term,
        held: Option<SourceEntry>,
    ) -> Result<Added, AllocError>
        requires whole { IsWhole self.old.table }
        requires held { IsHeldAt self.old.names self.old.table (next_of scratch.now) held }
        ensures { IfOk result (λ a. HasAdded self.old self.new base.now scratch.now
            (code_term self.old.names self.old.table (term_view term.now) held) a) }
    {
        let at = scratch.next_address();
        let Some(next) = number_behind(at, self.next) else {
            return Err(AllocError);
        };
        if !are_known(&self.names, base, scratch) {
            return Err(AllocError);
        }
        let mark = mark(&self.table);
        let node = add_source(alloc, &mut self.names, &mut self.table, at, term, held)?;
        Ok(Added { mark, next, node })
    }

    /// Keeps the source that was added behind a mark, or cuts it again.
    fn keep(&mut self, mark: TableMark, next: u32, end: Evaluated)
        ensures names { self.new.names ≡ self.old.names }
        ensures kept { is_kept end ≡ true → (self.new.table ≡ self.old.table) × (self.new.next ≡ next) }
        ensures cut { is_kept end ≡ false → (self.new.next ≡ self.old.next) × ((t : AnyTable) (es : List AnyEntry) → IsWhole t → IsMarkOf t mark → GoesOnWith t self.old.table es → IsBack t self.new.table) }
    {
        if is_kept(end) {
            self.next = next;
            return;
        }
        cut(&mut self.table, mark);
    }

    /// What becomes of a source that is ready at the next address of a session's cells, over a program's cells and behind
    /// those of the session: the answer is the definition's, with the cells that it made, or with those of before. Code that
    /// is held of it is taken in place of its term. Behind a value or a throw the evaluator has the source. After want of
    /// memory it is given up, and so are the session's cells.
    pub fn evaluate_ready<T: Rows>(
        &mut self,
        alloc: Global,
        base: &BaseHeap,
        scratch: Scratch,
        work: Work<'_>,
        prepared: &PreparedSource,
        held: Option<SourceEntry>,
    ) -> Outcome
        requires whole { IsWhole self.old.table }
        requires held { IsHeldAt self.old.names self.old.table (next_of scratch) held }
        ensures answer { (p : Program) (source : List ℕ) (tree : Expr) → Runs self.old p
            → IsReady (next_kept (space_of self.old.names scratch)) source tree prepared.now
            → code_term self.old.names self.old.table (term_view prepared.now.term) held ≡ term_view prepared.now.term
            → Leaves (work_of p (heap_world self.old.names base.now) (space_of self.old.names scratch) source
            (source_literals tree) (expression_source tree) work.entry) result.end (space_of self.old.names scratch)
            (space_of self.new.names result.scratch) }
        ensures program { (p : Program) (source : List ℕ) (tree : Expr) → Runs self.old p
            → IsReady (next_kept (space_of self.old.names scratch)) source tree prepared.now
            → code_term self.old.names self.old.table (term_view prepared.now.term) held ≡ term_view prepared.now.term
            → RunsAfter result.end self.new p
            (with_source p (space_of self.old.names scratch) (expression_source tree)) }
        ensures goes_on { WentOnAfter result.end self.old self.new }
        ensures came { (m : EvaluatorMark) (p : Program) → CameFrom m p self.old → CameAfter result.end m p self.new }
        ensures code { IsCode self.old → CodeAfter result.end self.new (program_of self.old.names self.old.table)
            (kept_tree_at (next_of scratch)
            (code_term self.old.names self.old.table (term_view prepared.now.term) held)) }
    {
        let Ok(added) = self.add(alloc, base, &scratch, &prepared.term, held) else {
            return Outcome {
                end: Evaluated::Memory,
                scratch,
            };
        };
        // every evaluator that was started has the entry; that it has is tested here rather than carried on
        if !is_call(&self.table, self.call) {
            return Outcome {
                end: Evaluated::Memory,
                scratch,
            };
        }
        let outcome = evaluate_known::<T>(
            alloc,
            &self.table,
            &self.names,
            base,
            scratch,
            self.call,
            work,
            &prepared.source,
            prepared.order.as_slice(),
            prepared.literals.as_slice(),
            added.node,
        );
        self.keep(added.mark, added.next, outcome.end);
        outcome
    }
}
