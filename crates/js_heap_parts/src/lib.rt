//! The parts of what a heap keeps at an address, lent one after another: the own properties of an object with their
//! flags, or the names of a scope that have a value.
//!
//! Its words in contracts:
//!
//! - *part*: an own property, or a name that has a value: its key, its value and its flags (`CellPart`)
//! - `object_parts`, `scope_parts`: those of an object and of a scope, in the order of own keys
//! - `parts_left`: those that are still to come
#![tactic(auto)]

mod enumerable;
mod key;
pub mod laws;
mod left;
mod part;
mod parts;

pub use enumerable::EnumerableParts;
pub use key::{Key, KnownName};
pub use part::Part;
pub use parts::Parts;
