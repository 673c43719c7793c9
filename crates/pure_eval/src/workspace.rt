//! What a session's evaluations go on from.

ghost use Rattle.std.specs.Prelude.{◌≡◌, ◌⊎◌, ◌++◌, ◌∷◌, ℕ, List, [], true, false, IfOk, take};
ghost use Rattle.js_heap.specs.declared.value.Addr.TheVariants.{Scratch as scratch_place};
ghost use Rattle.js_heap.specs.ScratchSpaces.{copied_world};
ghost use Rattle.js_semantics.specs.Evaluation.{evaluate_expression, evaluate_function, next_kept};
ghost use Rattle.js_semantics.specs.Literals.{source_literals};
ghost use Rattle.js_semantics.specs.Sources.{expression_source};
ghost use Rattle.js_tree.specs.declared.script.Expression.{Expression};
ghost use Rattle.js_tree.specs.declared.script.FunctionCode.{FunctionCode};
ghost use Rattle.js_tree.specs.declared.tree.Expr.{Expr};
ghost use Rattle.js_heap_memory.specs.Heaps.{heap_world};
ghost use Rattle.js_heap_memory.specs.Overlays.{over_world};
ghost use Rattle.pure_eval.specs.Answering.{is_memory};
ghost use Rattle.pure_eval.specs.Arguments.{arguments_of};
ghost use Rattle.pure_eval.specs.Calling.{work_of};
ghost use Rattle.pure_eval.specs.Holding.{AreOf, AreOfChoice, HoldsToo, source_for};
ghost use Rattle.pure_eval.specs.Preparing.{IsReady, IsPrepared, IsPreparedFunction};
ghost use Rattle.pure_eval.specs.Working.{IsKnown};
ghost use Rattle.pure_eval.specs.Workspaces.{begun, emptied_workspace, opened, EvaluatesTo};

use crate::arguments::Argument;
use crate::evaluated::{Evaluated, is_memory};
use crate::evaluator::EvaluatorMark;
use crate::holding::{CodeChoice, MOST_HELD, chosen_entry, count_held, hold_code, place_held};
use crate::prepared::PreparedSource;
use crate::scripts_code::ScriptsCode;
use crate::session::Outcome;
use crate::session_code::SessionCode;
use crate::work::Work;
use js_heap::value::{Addr, Value};
use js_heap_memory::heap::BaseHeap;
use js_heap_memory::names::NameTable;
use js_heap_memory::overlay::{Overlay, OverlayMark, Scratch};
use js_heap_memory::world::World;
use js_machine_engine::rows::Rows;
use std::alloc::{AllocError, Global};
use std::marker::Model;

/// The code that a session's evaluations run, and the cells that they made. Contracts see beside them the names with
/// which it began, and the sources of which the code is held.
#[derive(Drop)]
pub struct Workspace {
    code: Box<SessionCode>,
    scratch: Scratch,
}

impl Model for Workspace {
    ghost use Rattle.std.specs.Coded.{codes};
    ghost use Rattle.pure_eval.specs.TermCodes.{term_coded};
    ghost use Rattle.pure_eval.specs.Held as kept;
    ghost use Rattle.pure_eval.specs.Working.{IsHeld};

    ghost Value = { kept.HeldWorkspace };

    ghost coded = { Prim.hlevel (codes, term_coded) };

    ghost view = { λ w. kept.held_of w.code.value.evaluator w.code.value.scripts w.code.value.start w.code.value.held
        w.scratch };

    ghost invariant = { λ w. IsHeld w.code.value.evaluator w.code.value.scripts w.code.value.start
        w.code.value.held };
}

/// The cells of a program with those of a session, and the names of both.
#[derive(Clone, Copy)]
pub struct OverlaidCells<'o, 'b> {
    /// The cells.
    pub world: &'o Overlay<'b>,
    /// The names.
    pub names: &'o NameTable,
}

/// A workspace that is open over the cells of a program.
#[derive(Drop)]
pub struct OpenWorkspace<'b> {
    // the code that is held stands behind all other that there was when it was opened
    code: Box<SessionCode>,
    base: &'b BaseHeap,
    world: Overlay<'b>,
    // where the code, and how many cells there were, when it was opened
    mark: EvaluatorMark,
    cells: OverlayMark,
    count: u32,
    // where the next cell will stand
    next: Addr,
}

impl<'b> Model for OpenWorkspace<'b> {
    ghost use Rattle.std.specs.Coded.{codes};
    ghost use Rattle.pure_eval.specs.TermCodes.{term_coded};
    ghost use Rattle.pure_eval.specs.Held as kept;
    ghost use Rattle.pure_eval.specs.Working.{IsOpen};

    ghost Value = { kept.HeldOpenWorkspace };

    ghost coded = { Prim.hlevel (codes, term_coded) };

    ghost view = { λ o. kept.held_open_of o.code.value.evaluator o.code.value.scripts o.code.value.start
        o.code.value.held o.mark o.base.now o.world o.cells };

    ghost invariant = { λ o. IsOpen o.code.value.evaluator o.code.value.scripts o.code.value.start o.mark o.base.now
        o.world o.cells o.count o.next o.code.value.held };
}

/// Whether a program's names are all that its cells need, and the first of those with which a workspace began: of so
/// many of its own.
fn is_known(base: &BaseHeap, names: &NameTable, own: &NameTable, began: usize) -> bool
    ensures known { result ≡ true → IsKnown base.now names.now (take began own.now) }
    ensures only { IsKnown base.now names.now (take began own.now) → result ≡ true }
{
    let count = names.len();
    if base.known() > count {
        return false;
    }
    if count > began {
        return false;
    }
    own.goes_on_from(names)
}

/// The number of an address of a session's cells.
fn number_of(at: Addr) -> u32
    ensures { (n : _) → at ≡ scratch_place n → result ≡ n }
{
    match at {
        Addr::Scratch(number) => number,
        Addr::Base(_) => 0,
    }
}

impl Workspace {
    /// What the evaluations of a session begin with: the code of a program's scripts, with the names with which it
    /// begins.
    ///
    /// # Errors
    ///
    /// There is no memory for it.
    pub fn start(alloc: Global, code: &ScriptsCode) -> Result<Workspace, AllocError>
        ensures workspace { IfOk result (λ w. w.workspace ≡ begun code.now.program) }
        ensures names { IfOk result (λ w. w.names ≡ code.now.names) }
        ensures held { IfOk result (λ w. w.held ≡ []) }
    {
        let evaluator = code.evaluator()?;
        let code = Box::new(alloc, SessionCode::begun(evaluator))?;
        let scratch = Scratch::new(alloc);
        Ok(Workspace { code, scratch })
    }

    /// Gives up all that evaluations made and kept. Code that is held stays where no source was kept, and is given up
    /// otherwise. It takes no memory.
    pub fn empty(&mut self)
        ensures workspace { self.new.workspace ≡ emptied_workspace self.old.workspace }
        ensures names { self.new.names ≡ self.old.names }
        ensures held { (self.new.held ≡ self.old.held) ⊎ (self.new.held ≡ []) }
    {
        let code = &mut *self.code;
        let scratch = Scratch::new(code.evaluator.table.sources.allocator());
        code.forget_kept();
        self.scratch = scratch;
    }

    /// Gives up the code that is held. It takes no memory.
    pub fn drop_held(&mut self)
        ensures workspace { self.new.workspace ≡ self.old.workspace }
        ensures names { self.new.names ≡ self.old.names }
        ensures held { self.new.held ≡ [] }
    {
        let code = &mut *self.code;
        let Some(held) = code.held.take() else {
            return;
        };
        code.evaluator.cut(held.mark);
    }

    /// The address at which the source of the next evaluation would be kept.
    pub fn next_address(&self) -> Addr
        ensures { result ≡ next_kept self.now.workspace.scratch }
    {
        self.scratch.next_address()
    }

    /// The workspace with room to hold one code more: where there is none, all that is held is given up.
    fn with_room(self) -> Workspace
        ensures workspace { result.workspace ≡ self.workspace }
        ensures names { result.names ≡ self.names }
        ensures held { (result.held ≡ self.held) ⊎ (result.held ≡ []) }
    {
        if count_held(&self.code.held) < MOST_HELD {
            return self;
        }
        let mut workspace = self;
        workspace.drop_held();
        workspace
    }

    /// Holds the code of a source which was prepared for the next address, behind what is held.
    fn hold_more(self, alloc: Global, prepared: &PreparedSource) -> Result<Workspace, AllocError>
        ensures workspace { IfOk result (λ w. w.workspace ≡ self.workspace) }
        ensures names { IfOk result (λ w. w.names ≡ self.names) }
        ensures held { IfOk result (λ w.
            w.held ≡ self.held ++ source_for (next_kept self.workspace.scratch) prepared.now ∷ []) }
    {
        let Workspace { code, scratch } = self;
        let mut code = code;
        let there = &mut *code;
        // this doesn't come up; that it doesn't is tested here rather than carried on
        if scratch.known() > there.evaluator.names.len() {
            return Err(AllocError);
        }
        scratch.goes_on();
        let at = scratch.next_address();
        let held = there.held.take();
        let codes = hold_code(alloc, &mut there.evaluator, held, at, prepared)?;
        there.held = Some(codes);
        Ok(Workspace { code, scratch })
    }

    /// Holds the code of a source which was prepared for the next address, so that evaluations of its text there need not
    /// add it. At most [`MOST_HELD`] are held; before one more all others are given up.
    ///
    /// # Errors
    ///
    /// There is no memory for it, or something in the source comes up in a run alone.
    pub fn hold(self, alloc: Global, prepared: &PreparedSource) -> Result<Workspace, AllocError>
        ensures workspace { IfOk result (λ w. w.workspace ≡ self.workspace) }
        ensures names { IfOk result (λ w. w.names ≡ self.names) }
        ensures held { IfOk result (λ w.
            HoldsToo (source_for (next_kept self.workspace.scratch) prepared.now) self.held w.held) }
    {
        let at = self.next_address();
        if place_held(&self.code.held, at, &prepared.source).is_some() {
            return Ok(self);
        }
        self.with_room().hold_more(alloc, prepared)
    }

    /// Whether a program's names are the first of those with which it began, and all that the program's cells need. Each
    /// name is compared. It takes no memory.
    pub fn has_names_of(&self, base: &BaseHeap, names: &NameTable) -> bool
        ensures known { result ≡ true → IsKnown base.now names.now self.now.names }
        ensures only { IsKnown base.now names.now self.now.names → result ≡ true }
    {
        let code = &*self.code;
        is_known(base, names, &code.evaluator.names, code.start.names)
    }

    /// Opens it over the cells of a program, seen with the names of that program where it has them. No name is compared.
    /// It takes no memory.
    pub fn open<'b>(self, base: &'b BaseHeap) -> OpenWorkspace<'b>
        ensures opened { (names : List (List ℕ)) → IsKnown base.now names self.names
            → result.workspace ≡ opened (heap_world names base.now) self.workspace }
        ensures names { result.names ≡ self.names }
        ensures held { result.held ≡ self.held }
    {
        base.goes_on();
        let Workspace { code, scratch } = self;
        let there = &*code;
        let mark = there.evaluator.mark();
        let cells = scratch.mark();
        let next = scratch.next_address();
        let count = number_of(next);
        let world = Overlay::over(base, scratch);
        OpenWorkspace {
            code,
            base,
            world,
            mark,
            cells,
            count,
            next,
        }
    }
}

impl<'b> OpenWorkspace<'b> {
    /// The address at which the source of the next evaluation is kept.
    pub fn next_address(&self) -> Addr
        ensures { result ≡ next_kept self.now.workspace.behind.scratch }
    {
        self.next
    }

    /// What becomes of a source that is ready at the next address.
    fn evaluate_ready<T: Rows>(
        &mut self,
        alloc: Global,
        work: Work<'_>,
        prepared: &PreparedSource,
        choice: CodeChoice,
    ) -> Evaluated
        ensures answer { (source : List ℕ) (tree : Expr)
            → IsReady (next_kept self.old.workspace.behind.scratch) source tree prepared.now
            → AreOfChoice choice (next_kept self.old.workspace.behind.scratch) prepared.now self.old.held
            → EvaluatesTo (work_of self.old.workspace.behind.program self.old.workspace.world self.old.workspace.behind.scratch
            source (source_literals tree) (expression_source tree) work.entry)
            (expression_source tree) result self.old.workspace self.new.workspace }
        ensures names { is_memory result ≡ false → self.new.names ≡ self.old.names }
        ensures held { is_memory result ≡ false → self.new.held ≡ self.old.held }
    {
        let base = self.base;
        let code = &mut *self.code;
        // neither of these comes up in a workspace that was opened; that they don't is tested here rather than carried on
        if base.known() > code.evaluator.names.len() {
            return Evaluated::Memory;
        }
        if number_of(self.next) < self.count {
            return Evaluated::Memory;
        }
        let Ok(entry) = chosen_entry(choice, &code.held, self.next, &prepared.source) else {
            return Evaluated::Memory;
        };
        base.goes_on();
        let empty = Overlay::over(base, Scratch::new(alloc));
        let world = std::mem::replace(&mut self.world, empty);
        let scratch = world.into_scratch();
        let outcome = code
            .evaluator
            .evaluate_ready::<T>(alloc, base, scratch, work, prepared, entry);
        if is_memory(outcome.end) {
            // nothing is known of the code that is left
            let none = Scratch::new(alloc);
            code.give_up(alloc);
            self.mark = code.evaluator.mark();
            self.cells = none.mark();
            self.next = none.next_address();
            self.count = number_of(self.next);
            self.world = Overlay::over(base, none);
            return Evaluated::Memory;
        }
        let Outcome { end, scratch } = outcome;
        self.next = scratch.next_address();
        self.world = Overlay::over(base, scratch);
        end
    }

    /// Evaluates an expression, which was prepared for the next address, in a scope with a `this`. Behind a value or a throw its
    /// source is kept, and so are the cells that it made. After want of memory nothing is known of the workspace, which is to
    /// be given up.
    pub fn evaluate<T: Rows>(
        &mut self,
        alloc: Global,
        scope: Addr,
        receiver: Value,
        prepared: &PreparedSource,
    ) -> Evaluated
        ensures answer { (e : Expression)
            → IsPrepared (next_kept self.old.workspace.behind.scratch) e prepared.now
            → EvaluatesTo (evaluate_expression self.old.workspace.behind.program self.old.workspace.world
            self.old.workspace.behind.scratch scope receiver e)
            (expression_source e.tree) result self.old.workspace self.new.workspace }
        ensures names { is_memory result ≡ false → self.new.names ≡ self.old.names }
    {
        self.evaluate_ready::<T>(
            alloc,
            Work::Expression { scope, receiver },
            prepared,
            CodeChoice::New,
        )
    }

    /// Evaluates an expression as [`OpenWorkspace::evaluate`] does, by the code that is held of its text at the next
    /// address, where there is some.
    pub fn evaluate_held<T: Rows>(
        &mut self,
        alloc: Global,
        scope: Addr,
        receiver: Value,
        prepared: &PreparedSource,
    ) -> Evaluated
        ensures answer { (e : Expression)
            → IsPrepared (next_kept self.old.workspace.behind.scratch) e prepared.now
            → AreOf (next_kept self.old.workspace.behind.scratch) prepared.now self.old.held
            → EvaluatesTo (evaluate_expression self.old.workspace.behind.program self.old.workspace.world
            self.old.workspace.behind.scratch scope receiver e)
            (expression_source e.tree) result self.old.workspace self.new.workspace }
        ensures names { is_memory result ≡ false → self.new.names ≡ self.old.names }
        ensures held { is_memory result ≡ false → self.new.held ≡ self.old.held }
    {
        self.evaluate_ready::<T>(
            alloc,
            Work::Expression { scope, receiver },
            prepared,
            CodeChoice::Held,
        )
    }

    /// Calls a function, which was prepared for the next address, in the script scope with a `this` and arguments. The cells of
    /// the arguments are made before it, from left to right, and the step that makes the function counts. Behind a value or a
    /// throw its source is kept, and so are the cells that were made. After want of memory nothing is known of the workspace,
    /// which is to be given up.
    pub fn call<T: Rows>(
        &mut self,
        alloc: Global,
        receiver: Value,
        arguments: &[Argument],
        prepared: &PreparedSource,
    ) -> Evaluated
        ensures answer { (f : FunctionCode)
            → IsPreparedFunction (next_kept self.old.workspace.behind.scratch) f prepared.now
            → EvaluatesTo (evaluate_function self.old.workspace.behind.program self.old.workspace.world
            self.old.workspace.behind.scratch f receiver (arguments_of arguments.now))
            (expression_source f.tree) result self.old.workspace self.new.workspace }
        ensures names { is_memory result ≡ false → self.new.names ≡ self.old.names }
    {
        self.evaluate_ready::<T>(
            alloc,
            Work::Call {
                receiver,
                arguments,
            },
            prepared,
            CodeChoice::New,
        )
    }

    /// The cells of the program with those of the session.
    pub fn seen(&self) -> OverlaidCells<'_, 'b>
        ensures { over_world result.names.now result.world.now ≡ copied_world self.now.workspace.world
            self.now.workspace.behind.scratch }
    {
        OverlaidCells {
            world: &self.world,
            names: &self.code.evaluator.names,
        }
    }

    /// The workspace with all that evaluations made since it was opened; no code is held any more. It takes no memory.
    pub fn keep(self) -> Workspace
        ensures workspace { result.workspace ≡ self.entry.workspace.behind }
        ensures names { result.names ≡ self.entry.names }
        ensures held { result.held ≡ [] }
    {
        let OpenWorkspace { code, world, .. } = self;
        let mut code = code;
        code.held = None;
        let scratch = world.into_scratch();
        Workspace { code, scratch }
    }

    /// The workspace as it was opened. It takes no memory.
    pub fn forget(self) -> Workspace
        ensures workspace { result.workspace ≡ self.entry.workspace.before }
        ensures names { result.names ≡ self.entry.names }
        ensures held { result.held ≡ self.entry.held }
    {
        let OpenWorkspace {
            code,
            world,
            mark,
            cells,
            ..
        } = self;
        let mut code = code;
        let there = &mut *code;
        there.evaluator.cut(mark);
        let mut scratch = world.into_scratch();
        scratch.cut(cells);
        Workspace { code, scratch }
    }
}
