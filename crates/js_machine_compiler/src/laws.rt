//! The laws of code. Each function does nothing: its contract is the law.

ghost use Rattle.std.specs.Prelude.{◌≡◌, true, List};
ghost use Rattle.js_tree.specs.declared.script.Script.{Script};
ghost use Rattle.js_semantics.specs.Sources.{terms_of_scripts};
ghost use Rattle.js_semantics.specs.Run.{placed_scripts};
ghost use Rattle.js_machine_compiler.specs.Plain.{are_plain};

/// No script of a source is without code: once its literals have their cells, its terms have nodes.
pub fn scripts_of_sources_have_code()
    ensures { (ss : List Script) → are_plain (placed_scripts (terms_of_scripts ss)) ≡ true }
{}
