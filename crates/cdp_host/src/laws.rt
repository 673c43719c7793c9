//! The laws of histories. Each function does nothing: its contract is the law, for every history of any scripts.

ghost use Rattle.std.specs.Prelude.{◌≡◌, ℕ, List, Bool, true, false};
ghost use Rattle.cdp_host_record.specs.Records.{has_ended, recorded_from};
ghost use Rattle.cdp_host_record.specs.Replays.{PlaysFirst};
ghost use Rattle.locations_arrivals.specs.Arrivals.{ScriptsAreNumbered};
ghost use Rattle.cdp_host_isolation.specs.Histories.{Entry, FitsEntry, Ran, steps_made};
ghost use Rattle.cdp_host_isolation.specs.Meanings.{is_first, is_paused, longest, after_steps, is_enabled_seat};
ghost use Rattle.cdp_host_isolation.specs.Runs.{IsLongest};
ghost use Rattle.cdp_host_isolation.specs.Seats.{seat_of, some};
ghost use Rattle.cdp_host_isolation.specs.Stops.{AllStopExactly};
ghost use Rattle.cdp_host_isolation.specs.Texts.{Fits, Keeps, made_of};
ghost use Rattle.cdp_host_isolation.specs.Alone.{unborn};
ghost use Rattle.cdp_host_isolation.specs.declared.seat.Seat.TheVariants.{Attached};
ghost use Rattle.js_tree.specs.declared.script.Script.{Script};
ghost use Rattle.remote_objects.specs.Ids.{frame_id, object_id};
ghost use Rattle.stepping.specs.declared.rules.StepKind.{StepKind};
ghost use Rattle.cdp_session.specs.Sessions.{Session};
ghost use Rattle.cdp_session.specs.Situations.{Situation};
ghost use Rattle.cdp_host.specs.Foreign.{IsOfAnother, RefusesFrame, RefusesObject};
ghost use Rattle.cdp_host.specs.Histories.{IsHistory, Meaning, begin, sent_alone, sent_to, view, whole};
ghost use Rattle.cdp_host.specs.Places.{ArrivesAtLocations};
ghost use Rattle.cdp_host.specs.Programs.{plain, start};
ghost use Rattle.cdp_host.specs.Protocols.{protocol, texts};
ghost use Rattle.cdp_host.specs.Rules.{IsPausedThere, NoOtherEnabled, PrintsAsPlain, StepsAlone, StopsAtFirst};
ghost use Rattle.js_semantics.specs.Run.{Run};

/// Where a program whose scripts have the numbers 1, 2 and so on has arrived, the place by which the rules of stopping go is a
/// break location of one of its scripts.
pub fn a_program_arrives_at_break_locations()
    ensures { (k : ℕ) (scripts : List Script) (input : List (List ℕ)) → ScriptsAreNumbered 1 scripts → ArrivesAtLocations scripts (plain k scripts input) }
{}

/// Each session of a history is sent exactly what it would be sent over its view by a host that has no other session.
pub fn each_session_is_alone()
    ensures { (scripts : List Script) (input : List (List ℕ)) (wait : Bool) (s : ℕ) (history : List Entry) → IsHistory scripts input wait history
        → sent_to scripts input wait s history ≡ sent_alone scripts input wait s (view scripts input wait s history) }
{}

/// Two histories of which a session sees the same send it the same texts.
pub fn same_views_are_sent_the_same()
    ensures { (scripts : List Script) (input : List (List ℕ)) (wait : Bool) (s : ℕ) (history other : List Entry) → IsHistory scripts input wait history → IsHistory scripts input wait other
        → view scripts input wait s history ≡ view scripts input wait s other → sent_to scripts input wait s history ≡ sent_to scripts input wait s other }
{}

/// Behind a history the program is where as many steps lead that nobody watches.
pub fn a_history_goes_the_plain_way()
    ensures { (scripts : List Script) (input : List (List ℕ)) (wait : Bool) (history : List Entry) → (whole scripts input wait history).program ≡ plain (steps_made history) scripts input }
{}

/// What it has printed is a prefix of what the run without a debugger prints in any further steps, and all of it once the
/// program is over.
pub fn a_history_prints_as_the_plain_run()
    ensures { (scripts : List Script) (input : List (List ℕ)) (wait : Bool) (history : List Entry) → PrintsAsPlain scripts input (steps_made history) (whole scripts input wait history).program }
{}

/// Each run of a history stops exactly at the steps that a session, or the start rule for it, names and that doesn't lose it.
pub fn runs_stop_exactly_where_named()
    ensures { (scripts : List Script) (input : List (List ℕ)) (wait : Bool) (history : List Entry) → IsHistory scripts input wait history
        → AllStopExactly (protocol scripts) (start scripts input) 0 (begin scripts input wait) history }
{}

/// Where one session asks for one step and for nothing else, no other session has the debugger enabled, and the next step isn't
/// the first of a program that waited, a run from there, each step of which is made where the program is ready, stops at the
/// first arrival that ends the step, or at none; nor does it stop at a step at which that session is lost.
pub fn a_step_alone_stops_where_it_ends()
    ensures { (kind : StepKind) (depth : ℕ) (scripts : List Script) (input : List (List ℕ)) (made moment : ℕ) (gone : List ℕ) (s : ℕ) (x : Session) (m : Meaning Run) (n : ℕ)
        → m.program ≡ plain made scripts input → is_first m.phase ≡ false → seat_of s m.seats ≡ Attached x → StepsAlone x kind depth → NoOtherEnabled s m
        → FitsEntry (protocol scripts) m (Ran n moment gone) → StopsAtFirst kind depth scripts input made moment gone s m n }
{}

/// Where the program is paused behind a history, a session has the debugger enabled.
pub fn a_paused_program_has_an_enabled_session()
    ensures { (scripts : List Script) (input : List (List ℕ)) (wait : Bool) (history : List Entry) → is_paused (whole scripts input wait history) ≡ true
        → some (is_enabled_seat (protocol scripts)) (whole scripts input wait history).seats ≡ true }
{}

/// Where the program is paused behind a history, the depth that is kept of the pause, from which steps are asked for, is the
/// one at which it stands.
pub fn a_pause_has_the_depth_of_its_program()
    ensures { (scripts : List Script) (input : List (List ℕ)) (wait : Bool) (history : List Entry) → IsPausedThere scripts (whole scripts input wait history) }
{}

/// Of the texts that a history makes for a session that is still attached, in order, the first were handed out, and the others
/// wait; of one that isn't, those that were handed out are the first.
pub fn texts_are_handed_out_in_order()
    ensures { (scripts : List Script) (input : List (List ℕ)) (wait : Bool) (s : ℕ) (history : List Entry) → IsHistory scripts input wait history
        → Keeps (protocol scripts) (sent_to scripts input wait s history) (seat_of s (whole scripts input wait history).seats)
        (made_of (protocol scripts) (texts scripts) s (unborn (start scripts input) wait) (view scripts input wait s history)) }
{}

/// Behind any history the texts that wait for a session are at most 65,536, of at most 67,108,864 bytes.
pub fn texts_that_wait_fit()
    ensures { (scripts : List Script) (input : List (List ℕ)) (wait : Bool) (s : ℕ) (history : List Entry) → Fits (protocol scripts) (seat_of s (whole scripts input wait history).seats) }
{}

/// The longest run of at most so many steps, with memory for all sessions, is the one that nothing but that number or where it
/// leads ends.
pub fn the_longest_run_is_the_longest()
    ensures { (scripts : List Script) (moment most : ℕ) (m : Meaning Run)
        → IsLongest (protocol scripts) moment most m (after_steps (protocol scripts) moment (longest (protocol scripts) moment most m) m) (longest (protocol scripts) moment most m) }
{}

/// An id of another session is refused in each command that takes one, whatever the session holds: that of an object as one that
/// is unknown, that of a call frame as one that isn't of the present stop.
pub fn an_id_of_another_session_is_unknown()
    ensures objects { (s : Situation) (x : Session) (r n : ℕ) → IsOfAnother r x → RefusesObject s x (object_id r n) }
    ensures frames { (s : Situation) (x : Session) (r stop depth : ℕ) → IsOfAnother r x → RefusesFrame s x (frame_id r stop depth) }
{}

/// The record of any history, when it is played over the same scripts and input, does what the history did: no line is
/// refused, the program and its sessions come to the same, and each session is handed the same texts, in order. Where an
/// entry ends the record, so that its last line is `memory`, it does what a first part of the history did.
pub fn a_record_plays_again()
    ensures { (scripts : List Script) (input : List (List ℕ)) (wait : Bool) (history : List Entry)
        → IsHistory scripts input wait history
        → PlaysFirst (protocol scripts) (begin scripts input wait) history
        (has_ended (protocol scripts) (begin scripts input wait) history)
        (recorded_from (protocol scripts) (begin scripts input wait) history) }
{}
