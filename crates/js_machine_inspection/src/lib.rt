//! Where a machine stands: arrivals, throws, and the active frames with their scopes. Nothing here takes memory.
//!
//! Words of its own, which stand in `specs/`:
//!
//! - What is about to be reduced is `Reducing`; its `ActiveKind` is as much of its form as arrivals and frames ask for: a
//!   statement that is entered, the end of a call's body, a call, a script, a `try` with a `catch`.
//! - `frame_scopes`: the innermost scopes of the active frames, from the top.
//! - *walked*: so many tasks hold so many frames, and what is behind both is left of a walk over the frames.
//! - `standing_throw`: the throw that stands, and whether a `catch` takes it.
#![tactic(auto)]

pub mod arrivals;
pub mod frames;
mod reducing;
mod scopes;
pub mod spans;
pub mod standing;
pub mod throws;
pub mod walks;
