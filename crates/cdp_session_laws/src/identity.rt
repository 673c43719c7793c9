//! The laws of ids: an id names one object until that is released, and nothing after that.

ghost use Rattle.std.specs.Prelude.{◌≡◌, ◌<◌, ◌^◌, ℕ, List, ◌∷◌, ◌++◌, slice_get, true, Option, Some, None};
ghost use Rattle.serde_json.specs.Read.{read};
ghost use Rattle.cdp_json.specs.Commands.{reading_of};
ghost use Rattle.cdp_json.specs.declared.command.Reading.TheVariants.{Command};
ghost use Rattle.cdp_json.specs.declared.method.Method.{Method};
ghost use Rattle.cdp_json.specs.declared.params.Evaluation.{Evaluation};
ghost use Rattle.cdp_json.specs.declared.params.Params.TheVariants.{Evaluate, EvaluateOnCallFrame, ReleaseObject, ReleaseObjectGroup};
ghost use Rattle.frames_scopes_types.specs.Frames.{ShownFrame};
ghost use Rattle.js_heap.specs.BuiltIns.{script_scope};
ghost use Rattle.js_heap.specs.World.{World};
ghost use Rattle.js_heap.specs.declared.cell.Cell.{Cell};
ghost use Rattle.js_heap.specs.declared.value.Addr.{Addr};
ghost use Rattle.js_heap.specs.declared.value.Value.TheVariants as values;
ghost use Rattle.object_groups.specs.Handles.{HeldHandles, fault_of};
ghost use Rattle.object_groups.specs.declared.fault.HandleFault.{HandleFault};
ghost use Rattle.object_groups.specs.declared.handle.Handle.{Handle};
ghost use Rattle.object_groups.specs.declared.handle.Target.TheVariants.{Object, Scope};
ghost use Rattle.pure_eval.specs.Workspaces.{Workspace};
ghost use Rattle.remote_objects.specs.Ids.{frame_id, object_id};
ghost use Rattle.remote_objects.specs.Remote.{remote_scope, remote_with};
ghost use Rattle.remote_objects.specs.Sights.{Sight};
ghost use Rattle.remote_objects.specs.declared.detail.Detail.{Detail};
ghost use Rattle.remote_objects.specs.declared.detail.Detail.TheVariants.{Plain};
ghost use Rattle.stepping.specs.declared.arrival.Arrival.{Arrival};
ghost use Rattle.cdp_session.specs.Evaluations.{frame_of, innermost};
ghost use Rattle.cdp_session.specs.Objects.{handle_of, numbered};
ghost use Rattle.cdp_session.specs.Replies.{comes_to};
ghost use Rattle.cdp_session.specs.Sessions.{Session};
ghost use Rattle.cdp_session.specs.Situations.{Situation};
ghost use Rattle.cdp_session.specs.declared.situation.Pause.{Pause};
ghost use Rattle.cdp_session_laws.specs.Cells.{cell_of};
ghost use Rattle.cdp_session_laws.specs.Events.{Event, Resumed, Stopped, Texted, after_event, lived};
ghost use Rattle.cdp_session_laws.specs.Handles.{IsOrdered, KeepsNumbers, LeavesHandles, NoneEnds, ends};
ghost use Rattle.cdp_session_laws.specs.Naming.{ComesToObject, IsNamed, IsNameless, RepliesObject};
ghost use Rattle.cdp_session_laws.specs.Unknown.{IsElsewhere, IsUnknownFrame, IsUnknownObject};

/// A handle that a session holds stays just what it is until it is released: by a command that names it or its group,
/// or, where it was made for a stop, by the end of that stop. Nothing else ends one, no number is given to another, and
/// the count of those that were made never falls.
pub fn a_handle_stays_until_it_is_released()
    ensures { (number : ℕ) (workspace : Workspace) (before : List Event) (e : Event)
        → LeavesHandles e (lived number workspace before) }
{}

/// Whatever happens to a session, no number of a handle is used again: what is held by it is what was held by it
/// before, or nothing is.
pub fn no_number_is_used_again()
    ensures { (number : ℕ) (workspace : Workspace) (before after : List Event)
        → KeepsNumbers (lived number workspace before).handles (lived number workspace (before ++ after)).handles }
{}

/// An id by which a session finds a handle names just that handle until something releases it.
pub fn an_id_names_one_object_until_it_is_released()
    ensures { (number : ℕ) (workspace : Workspace) (before after : List Event) (id : List ℕ) (handle : Handle)
        → handle_of (lived number workspace before) id ≡ Some handle
        → NoneEnds after (lived number workspace before) handle
        → handle_of (lived number workspace (before ++ after)) id ≡ Some handle }
{}

/// Once a handle was released, its id is unknown for ever: each command that names it is refused, whatever happens
/// in between. `Runtime.releaseObject` of the id releases it, and so does `Runtime.releaseObjectGroup` of its group.
pub fn a_released_id_is_unknown_for_ever()
    ensures always { (number : ℕ) (workspace : Workspace) (before : List Event) (e : Event) (after : List Event)
        (s : Situation) (id : List ℕ) (handle : Handle)
        → handle_of (lived number workspace before) id ≡ Some handle
        → ends e (lived number workspace before) handle ≡ true
        → IsUnknownObject s (lived number workspace (before ++ e ∷ after)) id }
    ensures by_its_id { (number : ℕ) (workspace : Workspace) (before after : List Event) (s later : Situation)
        (text : List ℕ) (command : ℕ) (method : Method) (id : List ℕ) (handle : Handle)
        → reading_of (read text) ≡ Command command method (ReleaseObject id)
        → handle_of (lived number workspace before) id ≡ Some handle
        → IsUnknownObject later (lived number workspace (before ++ Texted s text ∷ after)) id }
    ensures by_its_group { (number : ℕ) (workspace : Workspace) (before after : List Event) (s later : Situation)
        (text : List ℕ) (command : ℕ) (method : Method) (group id : List ℕ) (handle : Handle)
        → reading_of (read text) ≡ Command command method (ReleaseObjectGroup group)
        → handle_of (lived number workspace before) id ≡ Some handle → handle.group ≡ Some group
        → IsUnknownObject later (lived number workspace (before ++ Texted s text ∷ after)) id }
{}

/// Each handle that a stop makes, for a scope, a `this` or a value that was thrown, ends when the program goes on.
pub fn what_a_stop_names_ends_with_it()
    ensures { (number : ℕ) (workspace : Workspace) (before : List Event) (s : Situation) (stop : ℕ) (a : Arrival)
        (id : List ℕ) (handle : Handle)
        → handle_of (after_event (Stopped s stop a) (lived number workspace before)) id ≡ Some handle
        → (lived number workspace before).handles.made < handle.number
        → ends Resumed (after_event (Stopped s stop a) (lived number workspace before)) handle ≡ true }
{}

/// The id of the n-th frame from the top of the present stop names the n-th frame of how the program stands.
pub fn the_id_of_a_frame_is_read_back()
    ensures { (s : Situation) (x : Session) (stop : Pause) (n : ℕ) → n < 2 ^ 64
        → frame_of s x (Some stop) (frame_id x.number stop.number n) ≡ slice_get s.standing.frames n }
{}

/// The id of a frame of another stop is refused, and so is each id of a frame while the program runs.
pub fn the_id_of_a_frame_of_another_stop_is_unknown()
    ensures { (s : Situation) (x : Session) (stop depth : ℕ) → stop < 2 ^ 64 → IsElsewhere stop s.paused
        → IsUnknownFrame s x (frame_id x.number stop depth) }
{}

/// While a handle is held, the cell on which it stands, if an evaluation of its session made that, stays there with
/// what it has: an id never comes to name a cell that a later evaluation makes.
pub fn the_cell_of_an_id_stays()
    ensures { (number : ℕ) (workspace : Workspace) (before after : List Event) (id : List ℕ)
        (handle : Handle) (cell : Cell)
        → handle_of (lived number workspace before) id ≡ Some handle
        → NoneEnds after (lived number workspace before) handle
        → cell_of (lived number workspace before) handle ≡ Some cell
        → cell_of (lived number workspace (before ++ after)) handle ≡ Some cell }
{}

/// The id in a description of an object or of a scope is that of a handle which stands for just that, in the group that
/// was asked for; such an id is read back as the handle. Where as many handles are held or were made as may be, the
/// description has none.
pub fn a_description_names_what_it_describes()
    ensures ordered { (number : ℕ) (workspace : Workspace) (before : List Event)
        → IsOrdered (lived number workspace before).handles }
    ensures objects { (s : Sight) (detail : Detail) (group : Option (List ℕ)) (at : Addr) (held : HeldHandles)
        → IsOrdered held → fault_of held ≡ None
        → IsNamed s.session (Object at) group (remote_with s detail group (values.Object at) held) }
    ensures scopes { (session : ℕ) (group : Option (List ℕ)) (at : Addr) (held : HeldHandles)
        → IsOrdered held → fault_of held ≡ None
        → IsNamed session (Scope at) group (remote_scope session group at held) }
    ensures nameless { (s : Sight) (group : Option (List ℕ)) (at : Addr) (held : HeldHandles) (fault : HandleFault)
        → fault_of held ≡ Some fault → IsNameless held (remote_with s Plain group (values.Object at) held) }
    ensures ids { (x : Session) (n : ℕ) → x.number < 2 ^ 64 → n < 2 ^ 64
        → handle_of x (object_id x.number n) ≡ numbered x.handles.held n }
{}

/// Where an evaluation comes to an object, its reply has an id by which the session then finds that object, and the
/// cell on which it stands is as the evaluation left it.
pub fn a_reply_names_the_object_of_its_value()
    ensures in_scripts { (s : Situation) (x : Session) (evaluation : Evaluation) (at : Addr) (w : World)
        → IsOrdered x.handles → fault_of x.handles ≡ None
        → ComesToObject s x script_scope values.Undefined evaluation at w
        → RepliesObject s x evaluation.object_group at w (comes_to s x (Evaluate evaluation)) }
    ensures in_frames { (s : Situation) (x : Session) (stop : Pause) (n : ℕ) (frame : ShownFrame)
        (evaluation : Evaluation) (at : Addr) (w : World)
        → IsOrdered x.handles → fault_of x.handles ≡ None
        → x.rules.enabled ≡ true → s.paused ≡ Some stop → n < 2 ^ 64 → slice_get s.standing.frames n ≡ Some frame
        → ComesToObject s x (innermost frame.scopes) frame.receiver evaluation at w
        → RepliesObject s x evaluation.object_group at w
        (comes_to s x (EvaluateOnCallFrame (frame_id x.number stop.number n) evaluation)) }
{}
