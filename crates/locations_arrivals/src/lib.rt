//! Each place where a run arrives is one of the break locations of the script that runs, and a throw stands exactly
//! behind the step that raised it.
//!
//! Words of its own, which stand in `specs/`:
//!
//! - `RunArrives`: while a run isn't over, each active frame is of one of the scripts, and an arrival is at a mark of the script of the
//!   top frame, and so at one of its break locations.
//! - `StandsWhereRaised`: behind so many steps a throw stands exactly where the last of them raised it.
//! - `ScriptsAreNumbered`: scripts with the numbers from a number on, in order.
#![tactic(auto)]

pub mod laws;
