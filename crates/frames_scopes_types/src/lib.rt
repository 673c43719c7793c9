//! The active frames of a program that stands still, each with its scopes, as a debugger lists them (Chrome DevTools Protocol
//! 1.3, `Debugger.CallFrame` and `Debugger.Scope`). Names are lent from where they are kept.
//!
//! Its words in contracts:
//!
//! - `ShownFrame`, `ShownScope`: a frame and a scope with their names as texts; `frame_of`, `scope_of` are those for
//!   which one of the code stands
#![tactic(auto)]

mod frame;
mod kind;
mod scope;

pub use frame::CallFrame;
pub use kind::ListedKind;
pub use scope::Scope;
