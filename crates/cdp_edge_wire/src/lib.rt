//! A wire is a connection in bytes: it is asked for one byte at a time, and takes bytes as a sink does.
//!
//! It is no kind of sink: a write must leave what it answered as it was, which no clause of a sink can say. It counts its
//! faults, and may tell its content. Its words in contracts:
//!
//! - *answers*: what a wire has answered so far but its failures, in order (`Arrived`), where that is told (an option: a
//!   socket tells nothing); `adds` says how they grow
//! - *content*: the bytes that it took, where they are told (`gains`)
//! - *faults*: how often a call has failed; `Rose` says that the count rose, or stands at the greatest `u64`
//!
//! `MemWire` is a wire in memory, for tests.
#![tactic(auto)]

mod mem_wire;
mod wire;

pub use mem_wire::MemWire;
pub use wire::{Taken, Wire, put_all};
