//! The edges of a server over sockets: links, doors, a harbor and its bell, and the system's clock.
//!
//! A link is a WebSocket (RFC 6455) in text messages between two programs of one machine. Doors listen on 127.0.0.1 alone,
//! answer each request as `cdp_door` does, and let in who is upgraded. Who waits, at a door or for a link, waits at most a
//! second, sleeps until then, and looks again as soon as the peer has something or the bell is rung; a peer that is within
//! its request, or is to take something, is waited for up to five seconds.
//!
//! Each object counts its faults, as `cdp_edge_server` and `cdp_edge_wire` want it, and tells nothing of its content: no contract
//! can say what a socket gives or takes.
#![tactic(auto)]

mod bell;
mod clock;
mod deadline;
mod dialing;
mod door;
mod entrance;
mod harbor;
mod line;
mod link;
mod received;
mod streams;
mod waits;
mod wire;

pub use bell::SocketBell;
pub use clock::SystemClock;
pub use door::SocketDoor;
pub use harbor::SocketHarbor;
pub use link::SocketLink;
