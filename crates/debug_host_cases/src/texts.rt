//! The texts of a list of calls. In them `<0A>` is the byte of these two hexadecimal digits.

use cdp_text::decimal::read_decimal;
use cdp_text::lines::cut_line;
use std::alloc::{AllocError, Global};

/// The value of a hexadecimal digit.
fn digit(byte: u8) -> Option<u8> {
    match byte {
        b'0'..=b'9' => Some(byte.saturating_sub(b'0')),
        b'A'..=b'F' => Some(byte.saturating_sub(b'A').saturating_add(10)),
        _ => None,
    }
}

/// The byte that two digits and a `>` are, and what follows them.
fn marked(part: &[u8]) -> Option<(u8, &[u8])> {
    let [high, low, b'>', rest @ ..] = part else {
        return None;
    };
    let byte = digit(*high)?
        .saturating_mul(16)
        .saturating_add(digit(*low)?);
    Some((byte, rest))
}

/// Appends what follows a `<`.
fn append_behind(bytes: &mut Vec<u8>, part: &[u8]) -> Result<(), AllocError> {
    if let Some((byte, rest)) = marked(part) {
        bytes.push(byte)?;
        bytes.extend_from_slice(rest)
    } else {
        bytes.push(b'<')?;
        bytes.extend_from_slice(part)
    }
}

/// The bytes of a text.
pub(crate) fn bytes_of(alloc: Global, text: &str) -> Result<Vec<u8>, AllocError> {
    let mut bytes = Vec::new(alloc);
    let mut parts = text.split('<');
    if let Some(first) = parts.next() {
        bytes.extend_from_slice(first.as_bytes())?;
    }
    for part in parts {
        append_behind(&mut bytes, part.as_bytes())?;
    }
    Ok(bytes)
}

/// Appends a text so many times, each time with these bytes behind it.
pub(crate) fn append(
    alloc: Global,
    bytes: &mut Vec<u8>,
    text: &str,
    end: &[u8],
    times: u64,
) -> Result<(), AllocError> {
    let mut piece = bytes_of(alloc, text)?;
    piece.extend_from_slice(end)?;
    for _ in 0..times {
        bytes.extend_from_slice(&piece)?;
    }
    Ok(())
}

/// The words of a call, with a space between two. A word `""` is empty.
pub(crate) fn words_of(alloc: Global, text: &str) -> Result<Vec<String>, AllocError> {
    let mut words = Vec::new(alloc);
    if text.is_empty() {
        return Ok(words);
    }
    for word in text.split(' ') {
        let word = if word == "\"\"" { "" } else { word };
        words.push(String::from_str(alloc, word)?)?;
    }
    Ok(words)
}

/// The first lines of a text, so many of them.
pub(crate) fn first_lines(bytes: &[u8], count: u64) -> &[u8] {
    let mut rest = bytes;
    for _ in 0..count {
        match cut_line(rest) {
            Some((_, behind)) => rest = behind,
            None => return bytes,
        }
    }
    match bytes.strip_suffix(rest) {
        Some(first) => first,
        None => bytes,
    }
}

/// Takes numbers with a space between two, or none, and answers whether they are numbers.
pub(crate) fn take_numbers(numbers: &mut Vec<u64>, text: &str) -> Result<bool, AllocError> {
    if text.is_empty() {
        return Ok(true);
    }
    for word in text.split(' ') {
        match read_decimal(word) {
            Some(number) => numbers.push(number)?,
            None => return Ok(false),
        }
    }
    Ok(true)
}

/// The parts that aren't empty, sorted, each behind a line `entrance`.
pub(crate) fn sorted_parts(alloc: Global, mut parts: Vec<String>) -> Result<String, AllocError> {
    parts.sort()?;
    let mut text = String::new(alloc);
    for part in &parts {
        if !part.is_empty() {
            text.push_str("entrance\n")?;
            text.push_str(part)?;
        }
    }
    Ok(text)
}
