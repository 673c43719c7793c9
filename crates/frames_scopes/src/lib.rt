//! The active frames of a machine from the top down, each with its scopes from the innermost one outward. They are lent from
//! where they are kept: nothing is copied, and walking takes no memory. Where they are wanted all at once,
//! `StandingMachine::call_frames` puts them into a list, which takes memory; their names are lent all the same.
//!
//! Its words in contracts:
//!
//! - *shown*: as a debugger lists it: `shown_frame`, `shown_place`, `shown_scopes`
//! - `walk`: the active frames of a configuration from the top down
//! - *whole chain*: all scopes from one outward, and no other
//! - *nested*: each scope is older than those within it
#![tactic(auto)]

mod cells;
mod frames;
pub mod laws;
mod listing;
mod name;
mod places;
mod scopes;
mod standing;

pub use frames::{FrameView, Frames};
pub use name::Name;
pub use scopes::{ScopeView, Scopes};
pub use standing::StandingMachine;
