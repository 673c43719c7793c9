//! Laws of a shelf that tells its files. Each function does nothing: its contract is the law.

ghost use Rattle.std.specs.Prelude.{ℕ, List, []};
ghost use Rattle.cdp_edge.specs.Outside.{AreOf, NamedFile};
ghost use Rattle.js_tree.specs.declared.script.Script.{Script as AnyScript};
ghost use Rattle.debug_host_script_files.specs.Input.{HoldsInput};
ghost use Rattle.debug_host_script_files.specs.Scripts.{AreScripts};
ghost use Rattle.debug_host_script_files.specs.Told.{KeepScripts, KeepsInput};

/// The scripts that such a shelf hands in are those that its files hold under these names.
pub fn scripts_are_those_of_the_files()
    ensures { (files given : List NamedFile) (names : List (List ℕ)) (ss : List AnyScript) → AreOf files given → AreScripts given names ss
        → KeepScripts files [] names ss }
{}

/// The lines of input that it hands in are those of its file of this name.
pub fn lines_are_those_of_the_file()
    ensures { (files given : List NamedFile) (name : List ℕ) (lines : List (List ℕ)) → AreOf files given → HoldsInput given name lines
        → KeepsInput files name lines }
{}
