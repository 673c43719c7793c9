//! The laws of frames and of chains of scopes. Each function does nothing: its contract is the law, for every world and every run.
//!
//! The scopes of a frame are listed up to the number of cells. That number is never what ends the list: the scope around a
//! scope was made before it, so a chain comes to a scope that has none around it.

ghost use Rattle.std.specs.Prelude.{◌≡◌, ℕ, List, Some, length};
ghost use Rattle.js_tree.specs.declared.script.Script.{Script};
ghost use Rattle.js_heap.specs.declared.cell.Cell.{Cell};
ghost use Rattle.js_heap.specs.declared.change.Change.{Change};
ghost use Rattle.js_heap.specs.declared.value.Addr.{Addr};
ghost use Rattle.js_heap.specs.World.{World, make_cell, write_cell};
ghost use Rattle.js_heap.specs.Worlds.{AfterFine, IsSound, SoundCell, SoundScope};
ghost use Rattle.js_semantics.specs.Frames.{scope_chain};
ghost use Rattle.js_semantics.specs.Functions.{Program};
ghost use Rattle.js_semantics.specs.Next.{next};
ghost use Rattle.js_semantics.specs.Run.{plain};
ghost use Rattle.js_semantics.specs.Sound.{SoundState, SoundTerm};
ghost use Rattle.js_semantics.specs.Sources.{terms_of_scripts};
ghost use Rattle.js_semantics.specs.State.{State};
ghost use Rattle.js_semantics.specs.Terms.{Term};
ghost use Rattle.frames_scopes.specs.Frames.{walk};
ghost use Rattle.frames_scopes.specs.Chains.{HasOneLocal, HasWholeChain, IsNested, MoveNested, RunHasWholeChains};

/// A new cell that names only live cells leaves the scope around each scope older than it.
pub fn making_keeps_nested()
    ensures { (w : World) (c : Cell) → IsNested w → SoundCell w c → AfterFine (make_cell w c) (λ a v. IsNested v) }
{}

/// Every change leaves the scope around each scope older than it.
pub fn writing_keeps_nested()
    ensures { (w : World) (a : Addr) (c : Change) → IsNested w → AfterFine (write_cell w a c) (λ u v. IsNested v) }
{}

/// Every step of a sound configuration leaves the scope around each scope older than it.
pub fn a_step_keeps_nested()
    ensures { (p : Program) (scope : Addr) (t : Term) (s : State) → SoundState p s → SoundScope s.world (Some scope) → SoundTerm s.world t → IsNested s.world → MoveNested (next p scope t s) }
{}

/// In such a world the scopes of a frame are all that are around its innermost one.
pub fn chains_end_by_themselves()
    ensures { (w : World) (a : Addr) → IsSound w → IsNested w → SoundScope w (Some a) → HasWholeChain w a }
{}

/// The scopes of each active frame are all that are around its innermost one, in each configuration of the run of the
/// parser's scripts.
pub fn frames_have_whole_chains()
    ensures { (k : ℕ) (scripts : List Script) (input : List (List ℕ)) → RunHasWholeChains (plain k (terms_of_scripts scripts) input) }
{}

/// At most one scope of a frame is listed as that of its call.
pub fn one_scope_is_local()
    ensures { (w : World) (a : Addr) → HasOneLocal (scope_chain w a) }
{}

/// As many frames are listed as are active.
pub fn each_active_frame_is_listed()
    ensures { (scripts : List Script) (root : Addr) (t : Term) (s : State) → length (walk scripts root t s) ≡ length s.frames }
{}
