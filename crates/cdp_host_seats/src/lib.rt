//! The seats of sessions of any kind: who is attached, who was lost and who is told of that, and what a host falls back to where
//! a run meets want of memory.
//!
//! Its words in contracts:
//!
//! - *loss*: a session that was lost, with its cause; a run tells of it once (`losses_from`), and so does a detach by its owner
//!   (`loss_told`)
//! - *fallback*: the seats and the losses of want of memory in a run, made before it
#![tactic(auto)]

mod fallback;
mod losses;
mod owners;
mod places;
mod reports;
mod seats;

pub use fallback::Fallback;
pub use losses::SessionLost;
pub use owners::tell_loss;
pub use places::{leave, seat_index};
pub use reports::{losses_of, report_all, some_wait_for_report};
pub use seats::{fell, is_attached};
