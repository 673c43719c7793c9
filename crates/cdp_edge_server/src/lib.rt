//! The edges of a server: links to clients, doors where they arrive, harbors that open doors, clocks and bells.
//!
//! Each object counts its faults, as a sink and a shelf do (`cdp_edge`), and may tell its content. Its words in
//! contracts:
//!
//! - *answers*, *sent*, *closed*: what a link has answered so far but want of memory, the texts it was sent, and the code
//!   of its last close; `adds` and `becomes` say how what is told grows or changes (an option: a socket tells nothing)
//! - *coming*: what is to come on a link; `Gives` says what an answer takes of it
//! - `IsUnused`: a link that has given no answer, was sent nothing, was not closed, and never failed; `IsNew` says the like
//!   of a door
//! - *served*, *kept*, *hung up*: what a door and a harbor took back, each as what it tells (`Spoken`, `Tended`)
//! - *out*: what was handed out and not taken back
//!
//! `MemLink`, `MemDoor`, `MemHarbor`, `FixedClock` and `MemBell` are objects in memory, for tests.
#![tactic(auto)]

mod answer_log;
mod bell;
mod clock;
mod door;
mod gate;
mod harbor;
mod link;
mod mem_door;
mod mem_harbor;
mod mem_link;
mod script;

pub use bell::{Bell, MemBell};
pub use clock::{Clock, FixedClock};
pub use door::{Door, DoorAnswer};
pub use gate::Gate;
pub use harbor::{Harbor, HarborFault};
pub use link::{Link, LinkFault, MOST_BYTES, Recv};
pub use mem_door::MemDoor;
pub use mem_harbor::MemHarbor;
pub use mem_link::MemLink;
pub use script::Incoming;
