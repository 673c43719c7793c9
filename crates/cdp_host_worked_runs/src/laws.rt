//! Debugged runs that were worked out by hand from the Chrome DevTools Protocol and ECMA-262. Each function does
//! nothing: its contract says what the definitions of the protocol come to for one journal.

ghost use Rattle.std.specs.Prelude.{true, false};
ghost use Rattle.js_tree.specs.declared.script.Script.{Script};
ghost use Rattle.cdp_host_worked_runs.specs.Worked.{ComesTo, IsWorked};
ghost use Rattle.cdp_host_worked_runs.specs.Scripts.{nothing, printing, returning, throwing_caught, throwing, counting};
ghost use Rattle.cdp_host_worked_runs.specs.Scripts.{nesting, adding, falling, smiling};
ghost use Rattle.cdp_host_worked_runs.specs.Print.{print, print_outcome};
ghost use Rattle.cdp_host_worked_runs.specs.Breakpoint.{breakpoint, breakpoint_outcome};
ghost use Rattle.cdp_host_worked_runs.specs.TwoHits.{two_hits, two_hits_outcome};
ghost use Rattle.cdp_host_worked_runs.specs.StepOver.{step_over, step_over_outcome};
ghost use Rattle.cdp_host_worked_runs.specs.Caught.{caught, caught_outcome};
ghost use Rattle.cdp_host_worked_runs.specs.CaughtPassed.{caught_passed, caught_passed_outcome};
ghost use Rattle.cdp_host_worked_runs.specs.Uncaught.{uncaught, uncaught_outcome};
ghost use Rattle.cdp_host_worked_runs.specs.Effect.{effect, effect_outcome};
ghost use Rattle.cdp_host_worked_runs.specs.FirstOfTwo.{first_of_two, first_of_two_outcome};
ghost use Rattle.cdp_host_worked_runs.specs.SecondOfTwo.{second_of_two, second_of_two_outcome};
ghost use Rattle.cdp_host_worked_runs.specs.Groups.{groups, groups_outcome};
ghost use Rattle.cdp_host_worked_runs.specs.Evaluations.{evaluations, evaluations_outcome};
ghost use Rattle.cdp_host_worked_runs.specs.Scopes.{scopes, scopes_outcome};
ghost use Rattle.cdp_host_worked_runs.specs.Order.{order, order_outcome};
ghost use Rattle.cdp_host_worked_runs.specs.Refused.{refused, refused_outcome};
ghost use Rattle.cdp_host_worked_runs.specs.Client.{client, client_outcome};
ghost use Rattle.cdp_host_worked_runs.specs.Places.{places, places_outcome};
ghost use Rattle.cdp_host_worked_runs.specs.Smile.{smile, smile_outcome};

/// Without a session four steps of a print leave the program ready; the fifth prints and ends it, and then it makes
/// none.
pub fn a_print_is_one_step_of_five()
    ensures { ComesTo printing false 1 print print_outcome }
{}

/// A breakpoint by URL, without a column, stops the program at the first statement of its line, before it prints.
pub fn a_breakpoint_stops_before_its_statement()
    ensures { ComesTo printing false 1 breakpoint breakpoint_outcome }
{}

/// Two breakpoints at one place stop the program there once, and are told in the order in which they were set.
pub fn two_breakpoints_at_one_place_are_told_in_order()
    ensures { ComesTo returning false 1 two_hits two_hits_outcome }
{}

/// A step over a call ends at a breakpoint in the function, and the step is forgotten then: a resume runs to the end.
pub fn a_breakpoint_ends_a_step_over_a_call()
    ensures { ComesTo returning false 1 step_over step_over_outcome }
{}

/// A session that stops at all throws is told of one that will be caught, with its value.
pub fn a_throw_that_is_caught_stops_where_all_do()
    ensures { ComesTo throwing_caught false 1 caught caught_outcome }
{}

/// A session that stops at uncaught throws alone passes one that a `catch` of a caller takes.
pub fn a_throw_that_is_caught_is_passed()
    ensures { ComesTo throwing_caught false 1 caught_passed caught_passed_outcome }
{}

/// A session that stops at uncaught throws is stopped at one that nothing catches, though a `finally` stands around it;
/// a resume then ends the run by the throw.
pub fn a_throw_that_nothing_catches_stops()
    ensures { ComesTo throwing false 1 uncaught uncaught_outcome }
{}

/// An evaluation that would change a name of the program is answered with an `EvalError`, and the name has its value
/// after it.
pub fn an_evaluation_with_an_effect_changes_nothing()
    ensures { ComesTo counting false 1 effect effect_outcome }
{}

/// A second session that is told of the first one's stop changes nothing that the first is sent.
pub fn a_second_session_changes_nothing_for_the_first()
    ensures { ComesTo printing false 1 first_of_two first_of_two_outcome }
{}

/// A second session has ids of its own for a stop that the first one named, hits no breakpoint there, and knows no
/// object of the first.
pub fn a_second_session_has_ids_of_its_own()
    ensures { ComesTo printing false 2 second_of_two second_of_two_outcome }
{}

/// A group ends the objects that were made in it, and no others.
pub fn a_group_ends_its_own_objects()
    ensures { ComesTo nothing false 1 groups groups_outcome }
{}

/// An object is answered by a handle, which a call takes as its `this`, or by value; a text that is no expression, and
/// an evaluation that may have effects, get none.
pub fn evaluations_answer_values_or_say_why_not()
    ensures { ComesTo nothing false 1 evaluations evaluations_outcome }
{}

/// The scopes of each frame are listed from the innermost outward, and a closure has its parameters and functions.
pub fn scopes_are_listed_from_the_innermost()
    ensures { ComesTo nesting false 1 scopes scopes_outcome }
{}

/// Properties come with the integer keys first, in ascending order, and then the others as they were made; a preview
/// shows the first five.
pub fn properties_come_in_order()
    ensures { ComesTo nothing false 1 order order_outcome }
{}

/// Of what is wrong with a text the first is told: no JSON, no object, no id, no method, an unknown method.
pub fn texts_that_are_no_commands_are_refused()
    ensures { ComesTo nothing false 1 refused refused_outcome }
{}

/// A client starts a program that waits, stops at its first step and at a breakpoint, evaluates, lists, steps over and
/// resumes.
pub fn a_client_debugs_a_program_from_its_start()
    ensures { ComesTo adding true 1 client client_outcome }
{}

/// The break locations of an empty function are its closing brace and a call of it; a place resolves to the first that
/// is not before it.
pub fn places_resolve_to_break_locations()
    ensures { ComesTo falling false 1 places places_outcome }
{}

/// Columns count UTF-16 code units.
pub fn columns_count_code_units()
    ensures { ComesTo smiling false 1 smile smile_outcome }
{}

/// There is a script in memory with a text that was worked out.
pub fn there_is_a_script_that_prints()
    ensures { (script : Script) × IsWorked printing script }
{}
