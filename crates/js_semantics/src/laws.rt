//! The laws of steps and runs. Each function does nothing: its contract is the law, for every configuration.

ghost use Rattle.std.specs.Prelude.{◌≡◌, ℕ, suc, ◌+◌, ◌≤◌, true, List, Some, sum_by};
ghost use Rattle.js_tree.specs.declared.script.Script.{Script};
ghost use Rattle.js_tree.specs.declared.tree.Expr.{Expr};
ghost use Rattle.js_semantics.specs.Sources.{expression_source, terms_of_scripts};
ghost use Rattle.js_semantics.specs.Literals.{source_literals};
ghost use Rattle.js_heap.specs.declared.value.Addr.{Addr};
ghost use Rattle.js_semantics.specs.Terms.{Mark, Term, Terms, script_source, kept_source, all_done};
ghost use Rattle.js_semantics.specs.State.{State};
ghost use Rattle.js_semantics.specs.Functions.{Program, function_in, function_at};
ghost use Rattle.js_semantics.specs.Makers.{MadeExpression};
ghost use Rattle.js_semantics.specs.Next.{next};
ghost use Rattle.js_semantics.specs.Run.{literals, Run, Finish, over, program_of, state_of, steps_in, plain, out};
ghost use Rattle.js_heap.specs.declared.value.Value.{Value};
ghost use Rattle.js_heap.specs.declared.change.Counted.{Counted};
ghost use Rattle.js_heap.specs.World.{World, full};
ghost use Rattle.js_heap.specs.Operators.{binary_result, unary_result, update_result};
ghost use Rattle.js_tree_operators.specs.declared.operator.BinaryOperator.{BinaryOperator};
ghost use Rattle.js_tree_operators.specs.declared.operator.UnaryOperator.{UnaryOperator};
ghost use Rattle.js_tree_operators.specs.declared.operator.UpdateOperator.{UpdateOperator};
ghost use Rattle.js_heap.specs.Safe.{IsSafe};
ghost use Rattle.js_semantics.specs.Safe.{AnswersSafe};
ghost use Rattle.js_tree.specs.declared.node.Span.{Span};
ghost use Rattle.js_semantics.specs.Frames.{active, at, is_debugger};
ghost use Rattle.js_semantics.specs.Depths.{ProgramHasNoFrame, Agrees, MoveAgrees, RunListsFrames};
ghost use Rattle.js_semantics.specs.Waiting.{Waits, ProgramWaits, MoveWaits, RunWaits};
ghost use Rattle.js_semantics.specs.Shapes.{IsShaped, ShapedProgram, ShapedMove, ShapedRun};
ghost use Rattle.js_semantics.specs.Untouched.{AreUntouched};
ghost use Rattle.js_tree.specs.declared.script.Expression.{Expression};
ghost use Rattle.js_tree.specs.declared.script.FunctionCode.{FunctionCode};
ghost use Rattle.js_heap.specs.BuiltIns.{script_scope};
ghost use Rattle.js_semantics.specs.Evaluation.{ScratchSpace, Argument, copied_world, make_literals, place_literals, next_kept, kept_term, kept_tree, with_source, evaluate, evaluate_call, evaluate_expression, evaluate_function};
ghost use Rattle.js_heap.specs.Worlds.{SoundScope};
ghost use Rattle.js_semantics.specs.Sound.{SoundState, SoundTerm, SoundMove, SoundRun, SoundArguments, IsReady, SoundAnswer};
ghost use Rattle.js_semantics.specs.Laws.{IsPrefix, MoveFollows, RunFollows, AnswerKeeps, SameOutcome};

/// A step leaves what was printed, and each cell with its kind; in an evaluation it leaves all cells that aren't its own.
pub fn a_step_keeps()
    ensures { (p : Program) (scope : Addr) (t : Term) (s : State) → MoveFollows s (next p scope t s) }
{}

/// Any number of steps of a run leave what was printed, and the cells, as one step leaves them.
pub fn steps_keep()
    ensures { (k : ℕ) (p : Program) (scope : Addr) (r : Run) → RunFollows r (steps_in k p scope r) }
{}

/// What `k` steps print is a prefix of what one step more prints.
pub fn output_grows()
    ensures { (k : ℕ) (scripts : Terms) (input : List (List ℕ)) → IsPrefix (out k scripts input) (out (suc k) scripts input) }
{}

/// A run that has ended stays as it is.
pub fn an_ended_run_stays()
    ensures { (k : ℕ) (p : Program) (scope : Addr) (f : Finish) (s : State) → steps_in k p scope (over f s) ≡ over f s }
{}

/// A run is determined: `j + k` steps are `k` steps from where `j` steps lead.
pub fn steps_are_determined()
    ensures { (j k : ℕ) (p : Program) (scope : Addr) (r : Run) → steps_in (j + k) p scope r ≡ steps_in k p scope (steps_in j p scope r) }
{}

/// A step keeps a configuration sound.
pub fn a_step_keeps_sound()
    ensures { (p : Program) (scope : Addr) (t : Term) (s : State) → SoundState p s → SoundScope s.world (Some scope) → SoundTerm s.world t → SoundMove p (next p scope t s) }
{}

/// Any number of steps keep a run sound.
pub fn steps_keep_sound()
    ensures { (k : ℕ) (p : Program) (scope : Addr) (r : Run) → SoundScope (state_of r).world (Some scope) → SoundRun p r → SoundRun p (steps_in k p scope r) }
{}

/// An evaluation leaves the program's cells as they are, and those that its session made before.
pub fn an_evaluation_disturbs_nothing()
    ensures { (p : Program) (w : World) (x : ScratchSpace) (scope : Addr) (receiver : Value) (source : List ℕ) (order : List (List ℕ)) (e : MadeExpression) → AnswerKeeps w x (evaluate p w x scope receiver source order e) }
{}

/// A call of a function leaves the program's cells as they are, and those that its session made before.
pub fn an_evaluated_call_disturbs_nothing()
    ensures { (p : Program) (w : World) (x : ScratchSpace) (source : List ℕ) (order : List (List ℕ)) (callee : MadeExpression) (receiver : Value) (arguments : List Argument) → AnswerKeeps w x (evaluate_call p w x source order callee receiver arguments) }
{}

/// An evaluation that begins in a sound world, in a live scope and with a live `this`, answers a live value in a sound
/// world. The program of later evaluations, with the source that was kept, is sound there.
pub fn an_evaluation_keeps_sound()
    ensures { (p : Program) (w : World) (x : ScratchSpace) (scope : Addr) (receiver : Value) (e : Expression) → IsReady p (copied_world w x) scope receiver → SoundAnswer (with_source p x (expression_source e.tree)) (evaluate_expression p w x scope receiver e) }
{}

/// A call of a function in such a world, whose arguments are live or are made of JSON values, answers a live value in a
/// sound world.
pub fn an_evaluated_call_keeps_sound()
    ensures { (p : Program) (w : World) (x : ScratchSpace) (f : FunctionCode) (receiver : Value) (arguments : List Argument) → IsReady p (copied_world w x) script_scope receiver → SoundArguments (copied_world w x) arguments → SoundAnswer (with_source p x (expression_source f.tree)) (evaluate_function p w x f receiver arguments) }
{}

/// The code of a function that an evaluation makes is found in its source, and that of a script's function where it was.
pub fn an_evaluation_finds_its_functions()
    ensures own { (p : Program) (x : ScratchSpace) (e : MadeExpression) (node : ℕ) → function_at (with_source p x e) (kept_source (next_kept x)) node ≡ function_in node (kept_tree (next_kept x) e) }
    ensures others { (p : Program) (x : ScratchSpace) (e : MadeExpression) (number node : ℕ) → function_at (with_source p x e) (script_source number) node ≡ function_at p (script_source number) node }
{}

/// The term of an evaluation's tree has the string literals of its source, though in an order of its own: each measure of
/// literals has the same sum over both. So where the cells of the one order can be made, so can those of the other, and
/// leave the same room; and where the cells can't be placed, the count that is named is that of the order of the source.
pub fn a_term_has_the_literals_of_its_source()
    ensures same { (measure : List ℕ → ℕ) (at : Addr) (e : Expr) → sum_by measure (literals (kept_term at (expression_source e))) ≡ sum_by measure (source_literals e) }
    ensures outcome { (w : World) (at : Addr) (e : Expr) → SameOutcome (make_literals w (literals (kept_term at (expression_source e)))) (make_literals w (source_literals e)) }
    ensures named { (w : World) (at : Addr) (e : Expr) (what : Counted) → place_literals w (source_literals e) (literals (kept_term at (expression_source e))) ≡ full what → make_literals w (source_literals e) ≡ full what }
{}

/// Each configuration of a plain run is sound: its scripts hold no address before the first step.
pub fn a_plain_run_is_sound()
    ensures { (k : ℕ) (scripts : Terms) (input : List (List ℕ)) → AreUntouched scripts → SoundRun (program_of scripts) (plain k scripts input) }
{}

/// Each configuration of the run of the parser's scripts is sound.
pub fn a_run_of_trees_is_sound()
    ensures { (k : ℕ) (scripts : List Script) (input : List (List ℕ)) → SoundRun (program_of (terms_of_scripts scripts)) (plain k (terms_of_scripts scripts) input) }
{}

/// Operators answer safe integers, as their definitions test; `+` and `-` of one operand do of an operand that is one.
pub fn operators_answer_safe_integers()
    ensures binary { (w : World) (o : BinaryOperator) (v u : Value) → AnswersSafe (binary_result w o v u) }
    ensures unary { (w : World) (o : UnaryOperator) (v : Value) → IsSafe v → AnswersSafe (unary_result w o v) }
    ensures update { (o : UpdateOperator) (v : Value) → AnswersSafe (update_result o v) }
{}

/// A step keeps a term well-shaped: each form in it has the parts that its row takes.
pub fn a_step_keeps_shape()
    ensures { (p : Program) (scope : Addr) (t : Term) (s : State) → ShapedProgram p → IsShaped t → ShapedMove (next p scope t s) }
{}

/// Any number of steps keep the term of a run well-shaped.
pub fn steps_keep_shape()
    ensures { (k : ℕ) (p : Program) (scope : Addr) (r : Run) → ShapedProgram p → ShapedRun r → ShapedRun (steps_in k p scope r) }
{}

/// Each configuration of the run of the parser's scripts is well-shaped.
pub fn a_run_of_trees_is_well_shaped()
    ensures { (k : ℕ) (scripts : List Script) (input : List (List ℕ)) → ShapedRun (plain k (terms_of_scripts scripts) input) }
{}

/// A step leads to a term in which every form waits for its step: none is left that is finished without one.
pub fn a_step_leaves_nothing_to_finish()
    ensures { (p : Program) (scope : Addr) (t : Term) (s : State) → ProgramWaits p → Waits all_done t → MoveWaits (next p scope t s) }
{}

/// In each configuration of the run of the parser's scripts every form waits for its step.
pub fn a_run_of_trees_waits_for_its_steps()
    ensures { (k : ℕ) (scripts : List Script) (input : List (List ℕ)) → RunWaits (plain k (terms_of_scripts scripts) input) }
{}

/// A step keeps the state's frames those of the term, one for each `frame` around the part about to be reduced, above
/// the same others. What has no `frame` itself is uncovered, and a completion that passes takes the frames away.
pub fn a_step_keeps_its_frames()
    ensures { (b : ℕ) (p : Program) (scope : Addr) (t : Term) (s : State) → 1 ≤ b → ProgramHasNoFrame p → Agrees b t s → MoveAgrees b (next p scope t s) }
{}

/// In each configuration of the run of the parser's scripts each active frame has one scope, and there is a frame at
/// each depth from the top.
pub fn active_frames_are_listed()
    ensures { (k : ℕ) (scripts : List Script) (input : List (List ℕ)) → RunListsFrames (plain k (terms_of_scripts scripts) input) }
{}

/// A configuration at a `debugger` statement is an arrival.
pub fn a_debugger_statement_is_an_arrival()
    ensures { (spans : List Span) (t : Term) → is_debugger (active t) ≡ true → (m : Mark) × (at spans t ≡ Some m) }
{}
