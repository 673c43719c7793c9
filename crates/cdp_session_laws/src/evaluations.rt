//! The laws of evaluations: what they leave of their session.

ghost use Rattle.cdp_json.specs.declared.params.Evaluation.{Evaluation};
ghost use Rattle.cdp_json.specs.declared.params.FunctionCall.{FunctionCall};
ghost use Rattle.cdp_json.specs.declared.params.Params.TheVariants.{CallFunctionOn, Evaluate, EvaluateOnCallFrame};
ghost use Rattle.js_heap.specs.BuiltIns.{script_scope};
ghost use Rattle.js_heap.specs.World.{is_evaluation};
ghost use Rattle.js_heap.specs.declared.value.Addr.{Addr};
ghost use Rattle.js_heap.specs.declared.value.Value.{Value};
ghost use Rattle.js_heap.specs.declared.value.Value.TheVariants as values;
ghost use Rattle.js_parser.specs.Expressions.{expression_of};
ghost use Rattle.js_semantics.specs.Evaluation.{an_effect, answer_of, budget};
ghost use Rattle.js_semantics.specs.Functions.{Program};
ghost use Rattle.js_semantics.specs.Next.{next};
ghost use Rattle.js_semantics.specs.Run.{Run, running, steps_in};
ghost use Rattle.js_semantics.specs.State.{Action, State, has_effect, perform, print, take_line};
ghost use Rattle.js_semantics.specs.Terms.{Term};
ghost use Rattle.js_tree.specs.Trees.{Expression};
ghost use Rattle.std.specs.Prelude.{◌≡◌, ◌<◌, ℕ, List, Option, Some, true};
ghost use Rattle.cdp_session.specs.Evaluations.{answer_in};
ghost use Rattle.cdp_session.specs.Replies.{comes_to};
ghost use Rattle.cdp_session.specs.Sessions.{Session};
ghost use Rattle.cdp_session.specs.Situations.{Situation};
ghost use Rattle.cdp_session_laws.specs.Effects.{IsOnlyEvaluation, RepliesEffect};

/// An evaluation, in the scope of the scripts, in a frame or as a call of a function, leaves the rules, the breakpoints
/// and the handles of its session as they were, asks nothing of the program, and sends nothing but its reply. Where it
/// makes no handle, it leaves what the session's evaluations made and kept as it was; else it leaves all cells of
/// before.
pub fn an_evaluation_leaves_its_session()
    ensures in_scripts { (s : Situation) (x : Session) (evaluation : Evaluation)
        → IsOnlyEvaluation x (comes_to s x (Evaluate evaluation)) }
    ensures in_frames { (s : Situation) (x : Session) (id : List ℕ) (evaluation : Evaluation)
        → IsOnlyEvaluation x (comes_to s x (EvaluateOnCallFrame id evaluation)) }
    ensures calls { (s : Situation) (x : Session) (call : FunctionCall)
        → IsOnlyEvaluation x (comes_to s x (CallFunctionOn call)) }
{}

/// To print and to read a line of the input have an effect in an evaluation, and a run that comes within its bound to a
/// step with an effect ends there. The reply is the error that says so.
pub fn an_effect_ends_an_evaluation()
    ensures prints { (printed : List Value) (text : List ℕ) (s : State) → is_evaluation s.world ≡ true
        → perform (print printed text) s ≡ has_effect s }
    ensures reads { (k : Option (List ℕ) → Action) (s : State) → is_evaluation s.world ≡ true
        → perform (take_line k) s ≡ has_effect s }
    ensures ends { (k : ℕ) (p : Program) (scope : Addr) (r : Run) (t : Term) (s u : State) → k < budget
        → steps_in k p scope r ≡ running t s → next p scope t s ≡ has_effect u
        → answer_of (steps_in budget p scope r) ≡ an_effect }
    ensures replies { (s : Situation) (x : Session) (evaluation : Evaluation) (tree : Expression)
        → evaluation.throw_on_side_effect ≡ true → expression_of evaluation.expression ≡ Some tree
        → answer_in s x script_scope values.Undefined evaluation.expression tree ≡ an_effect
        → RepliesEffect (comes_to s x (Evaluate evaluation)) }
{}
