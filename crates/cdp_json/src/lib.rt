//! The texts of the debug protocol (JSON-RPC 2.0 over JSON, RFC 8259): JSON values, the texts that are sent, and commands as they are read.
//!
//! Its words in contracts:
//!
//! - *view*: the JSON value of the definitions for which a value of the code stands (`json_view`)
//! - *safe*: an integer from -(2^53-1) to 2^53-1; `safe_value_of` is a value whose numbers are all such
//! - *command*: an `id`, a method and its parameters; `IsCommand` says which JSON values are one, and `read_command`
//!   reads just those
//! - *refusal*: why a text gets no result: a code and a message, with the `id` where that was read
//! - *compact*: written without blanks, the keys of each object in the order of their units
//! - *pen*: a text that is written piece by piece; contracts see its bytes
//! - *room*: what reading takes, kept from one text to the next; no contract sees it
#![tactic(auto)]

pub mod arguments;
mod calls;
pub mod command;
mod compact;
mod copies;
mod envelope;
mod flags;
mod key_order;
pub mod laws;
mod members;
mod message;
pub mod method;
mod numbers;
mod parameters;
pub mod params;
pub mod parts;
pub mod pen;
mod place_text;
mod plain;
pub mod refusal;
mod room;
mod safe_values;
mod trees;
pub mod value;

pub use command::read_command;
pub use copies::copied;
pub use envelope::{begin_event, begin_result, end_message};
pub use message::{event_text, refusal_text, result_text};
pub use place_text::write_location;
pub use room::ReadingRoom;
