//! The lines of a journal.

ghost use Rattle.std.specs.Prelude.{◌≡◌, ◌<◌, ◌^◌, ℕ, Some, IfOk, IfSome, string_bytes};
ghost use Rattle.std.specs.Option.{option_map};
ghost use Rattle.cdp_journal.specs.Lines.{Line as Meant, Run, Tell, IsLine, is_memory, is_tellable, line_of, line_of_text, line_of_words, tell_rest, take_rest, detach_rest, run_rest, tell_at, tell_text};
ghost use Rattle.cdp_journal.specs.LineRead.{line_held};

use crate::escapes::unescape;
use cdp_text::decimal::read_decimal;
use cdp_text::parts::{behind, halves};
use std::alloc::{AllocError, Global};

/// The first number of steps that a line doesn't hold.
const STEPS_LIMIT: u64 = 1 << 32;

/// The first moment that a line doesn't hold, in milliseconds since the epoch.
const MOMENT_LIMIT: u64 = 1 << 53;

/// The greatest number of bytes of a text that a line tells, once its `%` forms are replaced.
const MOST_TOLD: usize = 1 << 20;

/// What a line asks for.
#[derive(Drop)]
pub enum Line {
    /// Attach a session.
    Attach,
    /// Tell the session of this number this text.
    Tell(u64, String),
    /// Hand out the texts of the session of this number.
    Take(u64),
    /// Detach the session of this number.
    Detach(u64),
    /// Make at most so many steps, at this moment in milliseconds since the epoch.
    Run(u64, u64),
    /// Make no further step.
    Shut,
}

/// Whether a journal can tell that a session was told this text: it has at most 1,048,576 bytes.
pub fn tells_text(text: &str) -> bool
    ensures { (session : ℕ) → session < 2 ^ 64 → result ≡ is_tellable (Tell session text.now) }
{
    text.len() <= MOST_TOLD
}

/// Whether a journal can tell a run of so many steps at this moment, in milliseconds since the epoch: there are fewer than
/// 2^32 steps, and the moment is below 2^53.
#[tactic(auto, unfolding(crate::specs::Lines::is_tellable))]
pub fn tells_run(steps: u64, moment: u64) -> bool
    ensures { result ≡ is_tellable (Run steps moment) }
{
    steps < STEPS_LIMIT && moment < MOMENT_LIMIT
}

/// Whether these bytes are the line `memory`, without its LF. It ends a journal that tells no more: it asks for nothing, and
/// no line stands behind it.
#[tactic(auto, unfolding(crate::specs::Lines::is_memory))]
pub fn is_memory(bytes: &[u8]) -> bool
    ensures { result ≡ is_memory bytes.now }
{
    bytes == b"memory".as_slice()
}

/// The line of these bytes, without their LF: `attach`, `tell S TEXT`, `take S`, `detach S`, `run N MS` or `shut`. None for
/// all other bytes, also for `memory`.
///
/// # Errors
///
/// There is no memory for the text that is told.
#[tactic(auto, using(crate::proofs::LineLemmas::utf8))]
pub fn read_line(alloc: Global, bytes: &[u8]) -> Result<Option<Line>, AllocError>
    ensures value { IfOk result (λ line. option_map line_held line ≡ line_of bytes.now) }
    ensures is { IfOk result (λ read. IfSome read (λ line. IsLine bytes.now (line_held line))) }
    ensures one { IfOk result (λ read. (line : Meant) → IsLine bytes.now line → option_map line_held read ≡ Some line) }
{
    match str::from_utf8(bytes) {
        Ok(text) => read_text(alloc, text),
        Err(_) => Ok(None),
    }
}

/// The line of this text.
fn read_text(alloc: Global, text: &str) -> Result<Option<Line>, AllocError>
    ensures { IfOk result (λ line. option_map line_held line ≡ line_of_text text.now) }
{
    if text == "attach" {
        Ok(Some(Line::Attach))
    } else if text == "shut" {
        Ok(Some(Line::Shut))
    } else {
        read_words(alloc, text)
    }
}

/// The line whose text is a word and what stands behind it.
fn read_words(alloc: Global, text: &str) -> Result<Option<Line>, AllocError>
    ensures { IfOk result (λ line. option_map line_held line ≡ line_of_words text.now) }
{
    if let Some(rest) = behind(text, "tell ") {
        read_tell(alloc, rest)
    } else if let Some(rest) = behind(text, "take ") {
        Ok(read_take(rest))
    } else if let Some(rest) = behind(text, "detach ") {
        Ok(read_detach(rest))
    } else if let Some(rest) = behind(text, "run ") {
        Ok(read_run(rest))
    } else {
        Ok(None)
    }
}

/// The number of the session whose texts are handed out.
fn read_take(rest: &str) -> Option<Line>
    ensures { option_map line_held result ≡ take_rest rest.now }
{
    Some(Line::Take(read_decimal(rest)?))
}

/// The number of the session that is detached.
fn read_detach(rest: &str) -> Option<Line>
    ensures { option_map line_held result ≡ detach_rest rest.now }
{
    Some(Line::Detach(read_decimal(rest)?))
}

/// A session's number, a space and a text as it is written.
fn read_tell(alloc: Global, rest: &str) -> Result<Option<Line>, AllocError>
    ensures { IfOk result (λ line. option_map line_held line ≡ tell_rest rest.now) }
{
    let Some((number, written)) = halves(rest, ' ') else {
        return Ok(None);
    };
    match read_decimal(number) {
        Some(session) => read_told(alloc, session, written),
        None => Ok(None),
    }
}

/// A text for this session, as it is written.
fn read_told(alloc: Global, session: u64, written: &str) -> Result<Option<Line>, AllocError>
    ensures { IfOk result (λ line. option_map line_held line ≡ tell_at written.now session) }
{
    match unescape(alloc, written)? {
        Some(text) => Ok(tell_text(session, text)),
        None => Ok(None),
    }
}

/// A text for this session, where it isn't too long.
fn tell_text(session: u64, text: String) -> Option<Line>
    ensures { option_map line_held result ≡ tell_text session (string_bytes text) }
{
    if text.len() <= MOST_TOLD {
        Some(Line::Tell(session, text))
    } else {
        None
    }
}

/// A number of steps, a space and a moment.
fn read_run(rest: &str) -> Option<Line>
    ensures { option_map line_held result ≡ run_rest rest.now }
{
    let (most, moment) = halves(rest, ' ')?;
    let most = read_decimal(most)?;
    let moment = read_decimal(moment)?;
    if most < STEPS_LIMIT && moment < MOMENT_LIMIT {
        Some(Line::Run(most, moment))
    } else {
        None
    }
}
