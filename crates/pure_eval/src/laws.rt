//! Laws of programs. Each function does nothing: its contract is the law.

ghost use Rattle.std.specs.Prelude.{◌≡◌, ◌∷◌, ◌++◌, [], ℕ, List};
ghost use Rattle.js_heap.specs.declared.value.Addr.{Addr};
ghost use Rattle.js_heap.specs.declared.value.Value.{Value};
ghost use Rattle.js_heap.specs.ScratchSpaces.{ScratchSpace};
ghost use Rattle.js_heap.specs.World.{World};
ghost use Rattle.js_semantics.specs.Evaluation.{evaluate, kept_term, kept_tree};
ghost use Rattle.js_semantics.specs.Functions.{Program, SourceTree};
ghost use Rattle.js_semantics.specs.Makers.{MadeExpression};
ghost use Rattle.js_semantics.specs.Literals.{source_literals};
ghost use Rattle.js_semantics.specs.Run.{Run, literals, steps_in};
ghost use Rattle.js_semantics.specs.Sources.{expression_source};
ghost use Rattle.js_semantics.specs.Terms.{settle};
ghost use Rattle.js_tree.specs.declared.tree.Expr.{Expr};
ghost use Rattle.js_heap_memory.specs.Heaps.{Heap};
ghost use Rattle.js_heap_memory.specs.Overlays.{mark_of, space_of};
ghost use Rattle.pure_eval.specs.declared.evaluated.Evaluated.{Evaluated};
ghost use Rattle.pure_eval.specs.Evaluators.{IsMadeOf};
ghost use Rattle.pure_eval.specs.Leaving.{Leaves, ComesBack};
ghost use Rattle.pure_eval.specs.Programs.{HasSameFunctions, IsNewSource};

/// Runs of programs in which the same functions are found are the same.
#[tactic(auto, using(crate::proofs::ProgramLemmas::step_rules))]
pub fn functions_decide_the_steps()
    ensures { (k : ℕ) (p q : Program) (scope : Addr) (r : Run) → HasSameFunctions p q → steps_in k p scope r ≡ steps_in k q scope r }
{}

/// In a program with one more source behind the others, or in front of them, the same functions are found.
#[tactic(auto, using(crate::proofs::ProgramLemmas::order_rules))]
pub fn a_new_source_may_stand_behind()
    ensures { (p : Program) (t : SourceTree) → IsNewSource t.source p → HasSameFunctions (p ++ t ∷ []) (t ∷ p) }
{}

/// The term of an expression waits for its first step as it stands.
pub fn terms_of_expressions_are_settled()
    ensures { (at : Addr) (e : Expr) → settle (kept_tree at (expression_source e)) ≡ kept_tree at (expression_source e) }
{}

/// The term of an expression is made of its source: it has the literals of the source, though in an order of its own.
pub fn terms_of_expressions_are_made_of_their_sources()
    ensures { (at : Addr) (e : Expr) → IsMadeOf at (expression_source e) (source_literals e) (literals (kept_term at (expression_source e))) (kept_tree at (expression_source e)) }
{}

/// A session's cells after an evaluation, cut to a mark of before it, are those of before it.
pub fn what_an_evaluation_made_is_cut_again()
    ensures { (p : Program) (w : World) (names : List (List ℕ)) (scratch : Heap) (after : ScratchSpace) (scope : Addr) (receiver : Value) (source : List ℕ) (order : List (List ℕ)) (e : MadeExpression) (end : Evaluated) → Leaves (evaluate p w (space_of names scratch) scope receiver source order e) end (space_of names scratch) after → ComesBack end after (mark_of scratch) (space_of names scratch) }
{}
