//! A head, and what is to be answered to it.

use std::alloc::{AllocError, Global};

/// A head with its answer.
#[derive(Drop)]
pub(crate) struct Case {
    /// How many of its last bytes aren't to be read.
    pub(crate) left: usize,
    /// The bytes that the peer sends.
    pub(crate) head: Vec<u8>,
    /// The bytes of the answer.
    pub(crate) answer: Vec<u8>,
}

/// The value of a hexadecimal digit.
fn digit(byte: u8) -> Option<u8> {
    match byte {
        b'0'..=b'9' => Some(byte.saturating_sub(b'0')),
        b'A'..=b'F' => Some(byte.saturating_sub(b'A').saturating_add(10)),
        _ => None,
    }
}

/// The byte that two digits are, and what follows them.
fn marked(part: &[u8]) -> Option<(u8, &[u8])> {
    let [high, low, rest @ ..] = part else {
        return None;
    };
    let byte = digit(*high)?
        .saturating_mul(16)
        .saturating_add(digit(*low)?);
    Some((byte, rest))
}

/// The bytes of a word, in which `%0A` is the byte of these two hexadecimal digits.
fn bytes_of(alloc: Global, word: &str) -> Result<Vec<u8>, AllocError> {
    let mut bytes = Vec::new(alloc);
    let mut parts = word.split('%');
    if let Some(first) = parts.next() {
        bytes.extend_from_slice(first.as_bytes())?;
    }
    for part in parts {
        if let Some((byte, rest)) = marked(part.as_bytes()) {
            bytes.push(byte)?;
            bytes.extend_from_slice(rest)?;
        }
    }
    Ok(bytes)
}

/// The case of a line: the number of bytes that are left, the head and the answer, with a space between two.
pub(crate) fn case_in(alloc: Global, line: &str) -> Result<Option<Case>, AllocError> {
    let Some((left, rest)) = line.split_once(' ') else {
        return Ok(None);
    };
    let Some((head, answer)) = rest.split_once(' ') else {
        return Ok(None);
    };
    let Ok(left) = left.parse() else {
        return Ok(None);
    };
    Ok(Some(Case {
        left,
        head: bytes_of(alloc, head)?,
        answer: bytes_of(alloc, answer)?,
    }))
}
