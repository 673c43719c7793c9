//! The law of stored journals. The function does nothing: its contract is the law.

ghost use Rattle.std.specs.Prelude.{ℕ, List, Bool, Option};
ghost use Rattle.cdp_host_isolation.specs.Histories.{Entry};
ghost use Rattle.cdp_host_isolation.specs.Makers.{entries_of};
ghost use Rattle.js_tree.specs.declared.script.Script.{Script};
ghost use Rattle.cdp_host_record.specs.Records.{recorded};
ghost use Rattle.cdp_host.specs.Debugged.{debugging};
ghost use Rattle.cdp_host.specs.Histories.{IsHistory};
ghost use Rattle.debug_host_commands.specs.Again.{ReplaysAgain};
ghost use Rattle.debug_host_commands.specs.Replays.{IsReplay};

/// A replay of the record of any history, over the same scripts and input, plays the history again: no line is refused, the
/// program prints the same, and each session is sent the same texts; a first part of each where the record ends with the
/// line `memory`. `serve_journal` of `debug_main` says that a server stores just this record.
pub fn stored_journals_play_again()
    ensures { (scripts : List Script) (input : List (List ℕ)) (wait : Bool) (history : List (ℕ × Entry)) (line : Option ℕ)
        (output : List ℕ)
        → IsHistory scripts input wait (entries_of history)
        → IsReplay scripts input wait (recorded (debugging scripts input wait) history) line output
        → ReplaysAgain scripts input wait (entries_of history) line output }
{}
