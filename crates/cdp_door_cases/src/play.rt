//! Plays a head: at once with more bytes after it, slowly, and cut at each of its bytes.

use crate::case::{Case, case_in};
use cdp_door::{Greeted, greet};
use cdp_edge_wire::{MemWire, Taken, Wire};
use std::alloc::{AllocError, Global};
use std::sync::Wait;

/// The port and the url that the door is given.
const PORT: u16 = 9_229;

const URL: &str = "a \"b\".js";

/// Heads of more bytes aren't cut at each of them.
const MOST_CUT: usize = 300;

/// A wire that gives these bytes, each after a quiet answer if it is slow.
fn wire_of(alloc: Global, bytes: &[u8], is_slow: bool) -> Result<MemWire, AllocError> {
    let mut answers = Vec::new(alloc);
    for byte in bytes {
        if is_slow {
            answers.push(Taken::Quiet)?;
        }
        answers.push(Taken::Byte(*byte))?;
    }
    Ok(MemWire::new(answers, Vec::new(alloc)))
}

/// How many bytes a wire has left.
fn left_on(wire: &mut MemWire) -> usize {
    let mut count: usize = 0;
    for _ in 0..1_000_000 {
        match wire.take() {
            Taken::Byte(_) => count = count.saturating_add(1),
            Taken::Quiet => {}
            Taken::End | Taken::Failed => return count,
        }
    }
    count
}

/// Whether a head is answered so, and nothing after it is taken.
fn is_answered(
    rt: &impl Wait,
    alloc: Global,
    case: &Case,
    is_slow: bool,
) -> Result<bool, AllocError> {
    let mut bytes = Vec::from_slice(alloc, &case.head)?;
    bytes.extend_from_slice(b"more")?;
    let mut wire = wire_of(alloc, &bytes, is_slow)?;
    let greeted = greet(rt, alloc, &mut wire, PORT, URL);
    let is_upgrade = case.answer.starts_with(b"HTTP/1.1 101");
    let ends = match greeted {
        Greeted::Upgraded => is_upgrade,
        Greeted::Answered { .. } => !is_upgrade,
        _ => false,
    };
    let left = left_on(&mut wire);
    Ok(ends && left == case.left.saturating_add(4) && wire.written() == case.answer.as_slice())
}

/// Whether the peer that goes away after so many bytes of a head is answered nothing.
fn is_closed(rt: &impl Wait, alloc: Global, case: &Case, count: usize) -> Result<bool, AllocError> {
    let front = case.head.get(..count).unwrap_or(&[]);
    let mut wire = wire_of(alloc, front, false)?;
    let Greeted::Closed { taken } = greet(rt, alloc, &mut wire, PORT, URL) else {
        return Ok(false);
    };
    Ok(taken == count && wire.written().is_empty())
}

/// Whether a head is answered as its line says: at once, slowly, and cut.
pub(crate) fn passes(rt: &(impl Wait + AllocGlobal), line: &str) -> Result<bool, AllocError> {
    let alloc = rt.alloc();
    let Some(case) = case_in(alloc, line)? else {
        return Ok(false);
    };
    if !is_answered(rt, alloc, &case, false)? || !is_answered(rt, alloc, &case, true)? {
        return Ok(false);
    }
    if case.head.len() <= MOST_CUT {
        for count in 0..case.head.len() {
            if !is_closed(rt, alloc, &case, count)? {
                return Ok(false);
            }
        }
    }
    Ok(true)
}
