//! The laws of stops: which frames a client is told of, and when a condition holds.

ghost use Rattle.std.specs.Prelude.{◌≡◌, ◌<◌, ◌^◌, ℕ, List, ◌∷◌, slice_get, true, false, Option, Some};
ghost use Rattle.cdp_json.specs.declared.params.Evaluation.{Evaluation};
ghost use Rattle.cdp_json.specs.declared.params.Params.TheVariants.{EvaluateOnCallFrame};
ghost use Rattle.frames_scopes_types.specs.Frames.{ShownFrame};
ghost use Rattle.js_parser.specs.Expressions.{expression_of};
ghost use Rattle.js_tree.specs.Trees.{this};
ghost use Rattle.remote_objects.specs.Ids.{frame_id};
ghost use Rattle.stepping.specs.declared.arrival.Arrival.{Arrival};
ghost use Rattle.stepping.specs.declared.cause.Cause.{Cause};
ghost use Rattle.cdp_session.specs.Conditions.{condition_holds};
ghost use Rattle.cdp_session.specs.Pauses.{pause_told};
ghost use Rattle.cdp_session.specs.Replies.{comes_to};
ghost use Rattle.cdp_session.specs.Sessions.{Session};
ghost use Rattle.cdp_session.specs.Situations.{Situation};
ghost use Rattle.cdp_session.specs.Stops.{stop_texts};
ghost use Rattle.cdp_session.specs.declared.situation.Pause.{Pause};
ghost use Rattle.cdp_session_laws.specs.Listing.{TellsFrames, TellsStop};
ghost use Rattle.cdp_session_laws.specs.Replying.{RepliesValue};
ghost use Rattle.cdp_session_laws.specs.Truth.{asked, reply_is_true};

/// The event of a stop lists all frames from the top one outward: the n-th has the id by which the n-th frame is found,
/// and its name, its place, its scopes and its `this`. So the first place is that of the top frame.
pub fn a_stop_lists_the_frames_from_the_top()
    ensures stops { (s : Situation) (number : ℕ) (a : Arrival) (x : Session) → x.rules.enabled ≡ true
        → TellsStop s number x (stop_texts s number a x) }
    ensures events { (s : Situation) (number : ℕ) (hits : List (List ℕ)) (cause : Option Cause) (x : Session)
        → TellsFrames s number x (pause_told s number hits cause x).made }
{}

/// The condition of a breakpoint holds exactly where `Debugger.evaluateOnCallFrame` of its text, in the frame that the
/// event lists first, replies with a value that is true. A throw, an effect, a refusal and a text that is no expression
/// are none.
pub fn a_condition_holds_where_its_evaluation_in_the_top_frame_is_true()
    ensures { (s : Situation) (x : Session) (stop : Pause) (source : List ℕ) (group : Option (List ℕ))
        (top : ShownFrame) (others : List ShownFrame)
        → x.rules.enabled ≡ true → s.paused ≡ Some stop → s.standing.frames ≡ top ∷ others
        → condition_holds s.standing x.workspace (Some source)
        ≡ reply_is_true (comes_to s x (EvaluateOnCallFrame (frame_id x.number stop.number 0) (asked source group))) }
{}

/// `Debugger.evaluateOnCallFrame` of the term `this` in the n-th frame from the top describes the `this` of that frame.
/// It is refused only where there is no room to keep its text.
pub fn this_is_that_of_the_frame()
    ensures { (s : Situation) (x : Session) (stop : Pause) (n : ℕ) (frame : ShownFrame) (evaluation : Evaluation)
        → x.rules.enabled ≡ true → s.paused ≡ Some stop → n < 2 ^ 64 → slice_get s.standing.frames n ≡ Some frame
        → evaluation.throw_on_side_effect ≡ true → evaluation.return_by_value ≡ false
        → expression_of evaluation.expression ≡ Some this
        → RepliesValue s x frame.receiver evaluation
        (comes_to s x (EvaluateOnCallFrame (frame_id x.number stop.number n) evaluation)) }
{}
