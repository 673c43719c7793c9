//! The laws of worlds. Each function does nothing: its contract is the law, for every world.

ghost use Rattle.js_heap.specs.declared.cell.Cell.{Cell};
ghost use Rattle.js_heap.specs.declared.change.Change.{Change};
ghost use Rattle.js_heap.specs.declared.value.Addr.{Addr};
ghost use Rattle.js_heap.specs.World.{World, make_cell, write_cell};
ghost use Rattle.js_heap.specs.Worlds.{HasMadeCell, HasWritten, Keeps, AfterFine, IsSound, SoundCell, SoundChange};

/// A new cell is read at its address, where none was, and every other cell stays as it is.
pub fn making_makes_one_cell()
    ensures { (w : World) (c : Cell) → AfterFine (make_cell w c) (λ a v. HasMadeCell w c a v) }
{}

/// A change is read at its address, and every other cell stays as it is.
pub fn writing_changes_one_cell()
    ensures { (w : World) (a : Addr) (c : Change) → AfterFine (write_cell w a c) (λ u v. HasWritten w a c v) }
{}

/// A new cell leaves every other cell, with its kind; in an evaluation it touches no cell but the evaluation's.
pub fn making_keeps()
    ensures { (w : World) (c : Cell) → AfterFine (make_cell w c) (λ a v. Keeps w v) }
{}

/// A change leaves every cell with its kind; in an evaluation it touches no cell but the evaluation's.
pub fn writing_keeps()
    ensures { (w : World) (a : Addr) (c : Change) → AfterFine (write_cell w a c) (λ u v. Keeps w v) }
{}

/// A new cell that names only live cells of the right kinds keeps a world sound.
pub fn making_keeps_sound()
    ensures { (w : World) (c : Cell) → IsSound w → SoundCell w c → AfterFine (make_cell w c) (λ a v. IsSound v) }
{}

/// A change that names only live cells of the right kinds keeps a world sound.
pub fn writing_keeps_sound()
    ensures { (w : World) (a : Addr) (c : Change) → IsSound w → SoundChange w c → AfterFine (write_cell w a c) (λ u v. IsSound v) }
{}
