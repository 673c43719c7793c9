//! Tells calls that came to another end than is written.

use crate::block::{Block, Case};
use crate::clients::told_at;
use crate::play::Came;
use std::{io, str};

/// Tells of the first line in which two texts differ.
fn tell_line<R: Print>(rt: &R, what: &str, wanted: &str, came: &str) -> io::Result<()> {
    let mut number: u64 = 1;
    let mut came_lines = came.split('\n');
    for line in wanted.split('\n') {
        let came_line = came_lines.next();
        if came_line != Some(line) {
            let came_line = came_line.unwrap_or("(nothing)");
            return println!(rt;
                "  {what}, line {number}\n    wanted {line}\n    came   {came_line}"
            );
        }
        number = number.saturating_add(1);
    }
    Ok(())
}

/// Tells of texts that differ.
fn tell_text<R: Print>(rt: &R, what: &str, wanted: &str, came: &str) -> io::Result<()> {
    if wanted == came {
        return Ok(());
    }
    tell_line(rt, what, wanted, came)
}

/// Tells of bytes that differ.
fn tell_bytes<R: Print>(rt: &R, what: &str, wanted: &[u8], came: &[u8]) -> io::Result<()> {
    if wanted == came {
        return Ok(());
    }
    match (str::from_utf8(wanted), str::from_utf8(came)) {
        (Ok(wanted), Ok(came)) => tell_line(rt, what, wanted, came),
        _ => println!(rt; "  {what}: not UTF-8"),
    }
}

/// Tells of a call by its list, the files of its block and its words.
fn tell_call<R: Print>(rt: &R, list: &str, block: &Block, case: &Case) -> io::Result<()> {
    print!(rt; "{list}:")?;
    for word in &case.words {
        print!(rt; " {word}")?;
    }
    println!(rt; "")?;
    for (name, bytes) in &block.files {
        if bytes.len() < 1000 {
            println!(rt;
                "  {name}: {}",
                str::from_utf8(bytes).unwrap_or("(not UTF-8)")
            )?;
        }
    }
    Ok(())
}

/// Tells of a call that came to another end, with what was wanted and what came.
///
/// # Errors
///
/// Those of the output.
pub(crate) fn tell_differences<R: Print + AllocGlobal>(
    rt: &R,
    list: &str,
    block: &Block,
    case: &Case,
    came: &Came,
) -> io::Result<()> {
    let is_status = case.status == came.status;
    let is_output = case.output.as_slice() == came.output.taken();
    let told = told_at(rt.alloc(), &case.dialled, &case.doors)?;
    let is_told = told.as_str() == came.told.as_str();
    if is_status && is_output && is_told && case.errors.as_slice() == came.errors.taken() {
        return Ok(());
    }
    tell_call(rt, list, block, case)?;
    if !is_status {
        println!(rt; "  status: wanted {}, came {}", case.status, came.status)?;
    }
    tell_bytes(rt, "output", &case.output, came.output.taken())?;
    tell_bytes(rt, "errors", &case.errors, came.errors.taken())?;
    tell_text(rt, "clients", &told, &came.told)
}
