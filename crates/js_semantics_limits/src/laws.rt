//! The laws of what is counted. The functions do nothing: the contract of each is the law.

ghost use Rattle.std.specs.Prelude.{◌≡◌, ◌+◌, ◌<◌, ◌≤◌, ℕ, List, Some, codes, length};
ghost use Rattle.js_heap.specs.BuiltIns.{script_scope};
ghost use Rattle.js_heap.specs.ScratchSpaces.{ScratchSpace};
ghost use Rattle.js_heap.specs.World.{World};
ghost use Rattle.js_heap.specs.declared.built_in.ErrorClass.TheVariants.{RangeError};
ghost use Rattle.js_heap.specs.declared.value.Addr.{Addr};
ghost use Rattle.js_heap.specs.declared.value.Value.{Value};
ghost use Rattle.js_heap.specs.declared.value.Value.TheVariants as values;
ghost use Rattle.js_semantics.specs.Evaluation.{Argument, evaluate, evaluate_call, kept_tree, next_kept, prepared, with_arguments, with_source};
ghost use Rattle.js_semantics.specs.Functions.{FunctionCode as FoundCode, Program, call_code, called_this, entered};
ghost use Rattle.js_semantics.specs.Literals.{source_literals};
ghost use Rattle.js_semantics.specs.Makers.{MadeExpression};
ghost use Rattle.js_semantics.specs.Run.{Run, literals_of, plain, program_of, state_of, steps_in};
ghost use Rattle.js_semantics.specs.Sources.{expression_source, terms_of_scripts};
ghost use Rattle.js_semantics.specs.State.{State, fail};
ghost use Rattle.js_semantics.specs.Terms.{Terms};
ghost use Rattle.js_semantics.specs.declared.form.Source.{Source};
ghost use Rattle.js_semantics_limits.specs.ActiveCalls.{IsAtRest, ProgramIsAtRest, calls_in, calls_while, evaluation_after};
ghost use Rattle.js_semantics_limits.specs.Balances.{AnswerBalances, IsWithinRoom, RunBalances};
ghost use Rattle.js_tree.specs.declared.script.Expression.{Expression};
ghost use Rattle.js_tree.specs.declared.script.FunctionCode.{FunctionCode};
ghost use Rattle.js_tree.specs.declared.script.Script.{Script};
ghost use Rattle.js_tree.specs.declared.tree.Expr.{Expr};

/// Any number of steps leave as many cells and units as before, those that are held and those that may still be made taken
/// together.
pub fn steps_balance()
    ensures { (k : ℕ) (p : Program) (scope : Addr) (r : Run) → RunBalances r (steps_in k p scope r) }
{}

/// A program never has more than 1,048,576 cells beside those before its first step, or more than 67,108,864 units beside
/// theirs; what it may still make is what is left of these.
pub fn a_program_stays_within_its_room()
    ensures { (k : ℕ) (scripts : Terms) (input : List (List ℕ))
        → IsWithinRoom (literals_of scripts) (plain k scripts input) }
{}

/// An evaluation leaves as many cells and units as before, those that its session has and those that may still be made
/// taken together, and one cell more, in which its source is kept. So does a call of a function.
pub fn an_evaluation_balances()
    ensures evaluated { (p : Program) (w : World) (x : ScratchSpace) (scope : Addr) (receiver : Value) (source : List ℕ)
        (order : List (List ℕ)) (e : MadeExpression)
        → AnswerBalances w x (evaluate p w x scope receiver source order e) }
    ensures called { (p : Program) (w : World) (x : ScratchSpace) (source : List ℕ) (order : List (List ℕ))
        (callee : MadeExpression) (receiver : Value) (arguments : List Argument)
        → AnswerBalances w x (evaluate_call p w x source order callee receiver arguments) }
{}

/// No run has more than 1,000 frames after any number of steps, where it had no more before them, whatever is run. A
/// program begins with the one of its script, an evaluation with none.
pub fn few_frames_are_active()
    ensures { (k : ℕ) (p : Program) (scope : Addr) (r : Run) → length (state_of r).frames ≤ 1000
        → length (state_of (steps_in k p scope r)).frames ≤ 1000 }
{}

/// At most 1,000 calls are active at a time, the script's own among them, after any steps of any scripts.
pub fn few_calls_of_a_program_are_active()
    ensures { (k : ℕ) (scripts : List Script) (input : List (List ℕ))
        → calls_in (plain k (terms_of_scripts scripts) input) + 1 ≤ 1000 }
{}

/// At most 1,000 calls are active at a time in an evaluation of an expression, and in a call of a function, those of
/// the program aside, after any of its steps.
pub fn few_calls_of_an_evaluation_are_active()
    ensures evaluated { (k : ℕ) (p : Program) (w : World) (x : ScratchSpace) (scope : Addr) (receiver : Value)
        (e : Expression) → ProgramIsAtRest p
        → calls_while (prepared w x e.source (source_literals e.tree) (expression_source e.tree))
        (evaluation_after k (with_source p x (expression_source e.tree)) scope receiver) ≤ 1000 }
    ensures called { (k : ℕ) (p : Program) (w : World) (x : ScratchSpace) (f : FunctionCode) (receiver : Value)
        (arguments : List Argument) → ProgramIsAtRest p
        → calls_while (with_arguments receiver arguments
        (prepared w x f.source (source_literals f.tree) (expression_source f.tree)))
        (evaluation_after k (with_source p x (expression_source f.tree)) script_scope values.Undefined) ≤ 1000 }
{}

/// No call is active in a source before its first step: not in scripts, nor in the source that an evaluation keeps.
pub fn sources_are_at_rest()
    ensures scripts { (scripts : List Script) → ProgramIsAtRest (program_of (terms_of_scripts scripts)) }
    ensures kept { (x : ScratchSpace) (e : Expr) → IsAtRest (kept_tree (next_kept x) (expression_source e)) }
{}

/// A call of a function is entered where fewer than 1,000 frames are active, and where as many are it raises the
/// RangeError `Maximum call stack size exceeded`.
pub fn a_call_is_refused_where_a_thousand_are_active()
    ensures entered { (s : State) (c : FoundCode) (source : Source) (a : Addr) (name : List ℕ) (outer : Addr)
        (made given : Value) (arguments : List Value) → length s.frames < 1000
        → call_code s (Some c) source a name (Some outer) made given arguments
        ≡ entered c source a name outer (called_this c.form.is_arrow made given) arguments }
    ensures refused { (s : State) (c : FoundCode) (source : Source) (a : Addr) (name : List ℕ) (outer : Addr)
        (made given : Value) (arguments : List Value) → 1000 ≤ length s.frames
        → call_code s (Some c) source a name (Some outer) made given arguments
        ≡ fail RangeError (codes "Maximum call stack size exceeded") }
{}
