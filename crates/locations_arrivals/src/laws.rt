//! The laws of arrivals and of raises. The functions do nothing: the contract of each is the law, for every run.

ghost use Rattle.std.specs.Prelude.{ℕ, List};
ghost use Rattle.js_tree.specs.declared.script.Script.{Script};
ghost use Rattle.js_semantics.specs.Sources.{terms_of_scripts};
ghost use Rattle.js_semantics.specs.Run.{plain};
ghost use Rattle.locations_arrivals.specs.Arrivals.{ScriptsAreNumbered, RunArrives};
ghost use Rattle.locations_arrivals.specs.Raises.{StandsWhereRaised};

/// In each configuration of the run of the parser's scripts each active frame is of one of the scripts. Where it is an
/// arrival, it stands at one of the marks of the top frame's script, so at one of its break locations; at a `debugger`
/// statement, at a mark of that kind, and at a location of that kind or a stronger one.
pub fn arrivals_are_break_locations()
    ensures { (k : ℕ) (scripts : List Script) (input : List (List ℕ)) → ScriptsAreNumbered 1 scripts → RunArrives scripts (plain k (terms_of_scripts scripts) input) }
{}

/// In the run of the parser's scripts a throw stands exactly behind a step that raised it: none stands before the first
/// step, and a throw that travels, also on behind a `finally`, doesn't stand.
pub fn a_throw_stands_where_it_is_raised()
    ensures { (k : ℕ) (scripts : List Script) (input : List (List ℕ)) → StandsWhereRaised k (terms_of_scripts scripts) input }
{}
