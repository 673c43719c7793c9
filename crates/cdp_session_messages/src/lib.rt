//! What a client is sent of a session of the Chrome DevTools Protocol: the results of its commands as JSON values, the events as
//! texts, and the texts that wait for it.
//!
//! Its words in contracts:
//!
//! - *outbox*: the texts that wait for the client; it *fits* while there are no more than may be
#![tactic(auto)]

mod ends;
mod events;
mod exceptions;
mod members;
mod outbox;
mod prints;
mod results;
mod scripts;
mod session_end;

pub use ends::{context_destroyed_text, throw_details, throw_text, url_at};
pub use events::{RESUMED_SIZE, context_created_text, resumed_text};
pub use exceptions::{effect_object, syntax_result, thrown_result};
pub use outbox::Outbox;
pub use prints::print_text;
pub use results::{debugger_id, declared_names, script_source, set_at, set_by_url, spot_locations};
pub use scripts::scripts_told;
pub use session_end::SessionEnd;
