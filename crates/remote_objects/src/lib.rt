//! Values as remote objects (Chrome DevTools Protocol 1.3, `Runtime.RemoteObject`), with handles where they are objects: of a
//! value, of the own properties of what a handle stands for, and of the active frames with their scopes.
//!
//! Its words in contracts:
//!
//! - *sight*: what values are described by: the world, the scripts, the sources of nodes, the number of the session
//! - *made*: what something is described as, with the handles behind it (`Made`)
//! - *slot*: a property as it is described: its name, its value or text, its flags
//! - *given*: what is given for a value by value, how deep it is, and how many values were met (`Given`)
//! - *preview*: the first properties of an object, in short
#![tactic(auto)]

mod by_value;
mod describer;
mod descriptor_text;
mod detail;
mod frame_text;
mod frames;
mod function_sources;
mod functions;
mod ids;
pub mod laws;
mod members;
mod preview_text;
mod previews;
mod remote;
mod remote_text;
mod scope_names;
mod slots;
mod values;

pub use by_value::ByValueFault;
pub use describer::Describer;
pub use detail::Detail;
pub use frames::{backtrace, url_of};
pub use function_sources::FunctionSources;
pub use ids::{read_frame_id, read_object_id};
