//! What the words of a command line ask for.
//!
//! Its words in contracts:
//!
//! - *operand*: a word that names a file or says a number; *option*: one that begins with `--`, with its value
//! - *part*: an operand, or an option; `parts_of` reads the parts of words, `AreParts` says how parts are written
//! - *form*: what words ask for; `AsksFor` says it by what is written
//! - `.._held`: a part or a request as the code holds it
#![tactic(auto)]

mod command;
mod explain;
mod given;
mod help;
mod part;
mod request;
mod session_count;
mod words;

pub use command::{OptionName, Subcommand, command_named, has_option, has_value, option_named};
pub use explain::names_explain;
pub use help::{VERSION, help_text};
pub use request::{ReplayWords, Request, RunWords, SendWords, ServeWords, Sources};
pub use session_count::SessionCount;
pub use words::read_words;
