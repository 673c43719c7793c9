//! Why a script or the input is refused.

use crate::faulty_place::place_lines;
use crate::file_lines::{first_bad, line_number};
use crate::files::KeptFile;
use crate::shown::Cut;
use cdp_text::position::Pos;
use std::alloc::{AllocError, Global};

/// The most UTF-16 units of a script.
const MOST_UNITS: usize = 1_048_576;

/// The most tokens of a script.
const MOST_TOKENS: usize = 200_000;

/// How deep a script's tree is at most.
const MOST_DEPTH: usize = 200;

/// How a file was refused, as a script or as input.
#[derive(Clone, Copy)]
pub enum FileRefusal {
    /// Its bytes aren't UTF-8.
    NotUtf8,
    /// What stands at this position doesn't go on with a script.
    UnexpectedToken(Pos),
    /// It has too many code units.
    TooLong,
    /// Its tree would be too deep.
    TooDeep,
    /// It has more tokens than a script may have.
    TooManyTokens,
}

/// Why the last of these files is refused. So many of the first ones are no scripts (a journal, the input); those
/// between are the scripts that were read before it.
///
/// # Errors
///
/// There is no memory for the lines.
pub fn refusal_lines(
    alloc: Global,
    files: &[KeptFile],
    others: usize,
    refused: FileRefusal,
) -> Result<String, AllocError> {
    let Some((file, before)) = files.split_last() else {
        return Ok(String::new(alloc));
    };
    let name = Cut::none(&file.name);
    match refused {
        FileRefusal::NotUtf8 => byte_line(alloc, file),
        FileRefusal::UnexpectedToken(at) => {
            place_lines(alloc, file, before.get(others..).unwrap_or(&[]), at)
        }
        FileRefusal::TooLong => {
            format!(in alloc; "  {name}: a script has at most {MOST_UNITS} UTF-16 units\n")
        }
        FileRefusal::TooDeep => format!(in alloc;
            "  {name}: statements, expressions and methods stand at most {MOST_DEPTH} deep in one another\n"
        ),
        FileRefusal::TooManyTokens => {
            format!(in alloc; "  {name}: a script has at most {MOST_TOKENS} tokens\n")
        }
    }
}

/// The line of a file that isn't UTF-8.
fn byte_line(alloc: Global, file: &KeptFile) -> Result<String, AllocError> {
    let Some(bad) = first_bad(&file.bytes) else {
        return Ok(String::new(alloc));
    };
    let name = Cut::none(&file.name);
    let line = line_number(&file.bytes, bad.offset);
    let offset = bad.offset;
    let byte = bad.byte;
    let more = if has_utf16_mark(&file.bytes) {
        "; UTF-16 begins so, and a file is to be UTF-8"
    } else {
        ""
    };
    format!(in alloc;
        "  {name}:{line}: the byte 0x{byte:02X} at offset {offset} isn't UTF-8{more}\n"
    )
}

/// Whether bytes begin with the byte order mark of UTF-16.
fn has_utf16_mark(bytes: &[u8]) -> bool {
    bytes.starts_with(&[0xFF, 0xFE]) || bytes.starts_with(&[0xFE, 0xFF])
}
