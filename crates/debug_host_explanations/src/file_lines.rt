//! Lines of files, and bytes of them that are no text.

use cdp_text::lines::cut_line;
use std::alloc::{AllocError, Global};

/// A byte that isn't part of a text.
#[derive(Clone, Copy)]
pub(crate) struct BadByte {
    /// How many bytes stand before it.
    pub(crate) offset: usize,
    /// The byte.
    pub(crate) byte: u8,
}

/// The first byte that isn't part of UTF-8.
pub(crate) fn first_bad(bytes: &[u8]) -> Option<BadByte> {
    match str::from_utf8(bytes) {
        Ok(_) => None,
        Err(fault) => {
            let offset = fault.valid_up_to();
            let byte = *bytes.get(offset)?;
            Some(BadByte { offset, byte })
        }
    }
}

/// The line of this number, from 1, without its LF.
pub(crate) fn line_at(bytes: &[u8], number: u64) -> Option<&[u8]> {
    let mut rest = bytes;
    for _ in 1..number {
        let (_, after) = cut_line(rest)?;
        rest = after;
    }
    let (line, _) = cut_line(rest)?;
    Some(line)
}

/// The number, from 1, of the line in which the byte behind so many stands.
pub(crate) fn line_number(bytes: &[u8], offset: usize) -> usize {
    let ended = bytes
        .iter()
        .take(offset)
        .filter(|byte| **byte == b'\n')
        .count();
    ended.saturating_add(1)
}

/// The line of a line that is no text.
pub(crate) fn bad_line(alloc: Global, number: u64, line: &[u8]) -> Result<String, AllocError> {
    match first_bad(line) {
        None => Ok(String::new(alloc)),
        Some(bad) => {
            let byte = bad.byte;
            let offset = bad.offset;
            format!(in alloc;
                "  line {number}: its byte 0x{byte:02X} at offset {offset} isn't UTF-8\n"
            )
        }
    }
}
