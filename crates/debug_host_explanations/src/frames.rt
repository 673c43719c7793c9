//! Where an uncaught throw came from.

use crate::shown::Cut;
use cdp_text::position::Pos;
use std::alloc::{AllocError, Global};

/// The most calls that have a line.
const MOST_FRAMES: usize = 10;

/// A call that was active when a value was thrown.
#[derive(Drop)]
pub struct Frame {
    /// The function's name; empty where it has none, and of a script.
    pub function: String,
    /// The script's URL, which is the name of its file.
    pub url: String,
    /// Where it was.
    pub position: Pos,
}

/// Where a throw came from, by the calls that were active, the innermost first: a line for each of the first ten, and
/// how many more there are.
///
/// # Errors
///
/// There is no memory for the lines.
pub fn frame_lines(alloc: Global, frames: &[Frame]) -> Result<String, AllocError> {
    let mut lines = String::new(alloc);
    for frame in frames.iter().take(MOST_FRAMES) {
        push_frame(&mut lines, frame)?;
    }
    let more = frames.len().saturating_sub(MOST_FRAMES);
    if more > 0 {
        write!(lines, "  and {more} more\n")?;
    }
    Ok(lines)
}

/// Adds the line of a call.
fn push_frame(lines: &mut String, frame: &Frame) -> Result<(), AllocError> {
    let url = Cut::none(&frame.url);
    let line = frame.position.line.saturating_add(1);
    let column = frame.position.col.saturating_add(1);
    let function = Cut::none(&frame.function);
    if frame.function.is_empty() {
        write!(lines, "  at {url}:{line}:{column}\n")
    } else {
        write!(lines, "  at {url}:{line}:{column} in {function}\n")
    }
}
