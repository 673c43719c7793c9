//! The memory of a fast machine: names as numbers of a table, under contracts that see their texts.
//!
//! A heap takes no cell with a name whose number its table lacks; it answers want of memory, which no run meets.
//!
//! Words of its own, which stand in `specs/`:
//!
//! - A table of names is a list of texts, and a name is the number of its text (`name_of`). `GoesOn` says that names were
//!   added behind those of a table, `Differ` that no text stands twice, and `Within` that all names in a stored cell are below a number.
//! - `cell_of`: the cell of the definitions that a stored one stands for, with a table of names; `heap_world` and `over_world` are the
//!   worlds of a program's cells and of a session's over them.
//! - `Tries`: a call of the code comes to what the definition's call on the world answers; want of memory says nothing.
//! - `Weighed`: what the change of a part of a cell comes to: the part after it and the units then left, or a refusal.
//! - `GainsCells`: cells that are added to others, as those that each program begins with.
//! - `HasPlace`: a scope's name stands at a place.
//! - `IsPlaceIndex`: what a scope of many names keeps has the first place of each number.
#![tactic(auto)]

mod change;
pub mod heap;
mod joined;
pub mod lookup;
pub mod names;
pub mod overlay;
pub mod properties;
mod slot_list;
pub mod slots;
pub mod start;
pub mod stored;
mod weight;
mod wide;
pub mod world;
