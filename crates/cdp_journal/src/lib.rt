//! The text of journals: their lines, the texts of one line that these hold, and the drill.
//!
//! Its words in contracts:
//!
//! - *line*: what one line of a journal asks for; `line_text` writes it, `line_of` reads it, `IsLine` says that a text
//!   is a line's; `memory_text` is that of the line that ends a journal which tells no more, and is none of these
//! - *escaped*: a text as it stands in one line: `%`, LF and CR are `%25`, `%0A` and `%0D`
//! - *front*: the first word of a line of output; `behind_each` is what stands behind one, line by line
//! - *drill*: the script and the journal of a number, `drill_source` and `drill_journal`
//! - *tally*, *summary*: what lines of output come to, and the text that tells it
#![tactic(auto)]

mod drill;
mod escapes;
pub mod laws;
mod line;
mod parts;
mod summaries;
mod writing;

pub use drill::{drill_journal, drill_source};
pub use escapes::{push_escaped, unescape};
pub use line::{Line, is_memory, read_line, tells_run, tells_text};
pub use summaries::summary;
pub use writing::{
    attach_line, detach_line, memory_line, run_line, shut_line, take_line, tell_line,
};
