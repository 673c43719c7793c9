//! Breakpoints: where a session asks the program to stop (Chrome DevTools Protocol 1.3, domain Debugger).
//!
//! A breakpoint is set at a position, of the scripts of a URL or of one script, and resolves to the first break location
//! that isn't before it.
//!
//! Its words in contracts:
//!
//! - *place*: a position in the script of a number; *resolved* is the place of the first break location at or behind the
//!   one asked for
//! - *hit*: an active breakpoint stands at the place
//! - *fault*: why no breakpoint is set: `fault_for`, `fault_at` say which one stands
//! - *spots*: the break locations of a script, in order
//! - *holds*: a session has a breakpoint at a place; *pairs* are all sessions with all places that they hold
#![tactic(auto)]

mod added;
mod ascending;
mod breakpoint;
mod breakpoints;
mod fault;
mod hits;
mod holding;
mod ids;
pub mod laws;
mod place_filter;
mod place_index;
mod place_set;
mod places;
mod resolving;
mod script_spots;

pub use crate::breakpoints::Breakpoints;
pub use added::{AddedAt, AddedByUrl};
pub use breakpoint::Breakpoint;
pub use fault::AddFault;
pub use hits::Hits;
pub use holding::Holding;
pub use place_index::PlaceIndex;
pub use places::Places;
pub use script_spots::ScriptSpots;
