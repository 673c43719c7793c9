//! The laws of listed frames.

ghost use Rattle.std.specs.Prelude.{ℕ, List};
ghost use Rattle.js_tree.specs.declared.script.Script.{Script};
ghost use Rattle.locations_arrivals.specs.Arrivals.{ScriptsAreNumbered};
ghost use Rattle.cdp_host.specs.Programs.{plain};
ghost use Rattle.cdp_host_laws.specs.Tops.{StandsAtTop};

/// After any steps of a program whose scripts have the numbers 1, 2 and so on, the frames that sessions are told of are
/// one more than calls are active: depths fall by one from frame to frame, down to 0. Where the program arrived at a
/// place, the first frame stands there.
pub fn the_first_frame_stands_where_the_program_arrived()
    ensures { (k : ℕ) (scripts : List Script) (input : List (List ℕ)) → ScriptsAreNumbered 1 scripts
        → StandsAtTop scripts (plain k scripts input) }
{}
