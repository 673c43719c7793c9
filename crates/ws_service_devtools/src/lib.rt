//! What lets DevTools and `node inspect` in: a link over a link, and a door over a door.
//!
//! Those clients ask for methods that the host doesn't have, and evaluate with `throwOnSideEffect` false. Each text of a
//! client is handed in as it came, but for that parameter; a command whose method is in a table is answered with an empty
//! result instead, at once, so in its order among the replies. Each text that the host sends is sent as it is.
//!
//! Its words in contracts:
//!
//! - *answered*: a command whose method is in the table (`answered_id`), or which sets no blackbox pattern
//! - *flag*: the parameter `throwOnSideEffect`; a command *clears* it that has it as false
//! - *below*: the link under this one, with a text that was heard there and not yet handed in (`Below`)
#![tactic(auto)]

mod door;
mod flag;
pub mod laws;
mod link;
mod methods;
mod text;
mod unread;

pub use door::DevtoolsDoor;
pub use link::DevtoolsLink;
