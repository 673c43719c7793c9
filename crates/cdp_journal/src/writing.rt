//! The lines of a journal as they are written, each ended by LF.

ghost use Rattle.std.specs.Prelude.{◌≡◌, ◌∷◌, ◌++◌, [], length, IfOk, OnOk, string_bytes};
ghost use Rattle.cdp_text.specs.Lines.{ended};
ghost use Rattle.cdp_journal.specs.Lines.{Attach, Tell, Take, Detach, Run, Shut, line_text, memory_text};

use crate::escapes::push_escaped;
use std::alloc::{AllocError, Global};

/// The line that attaches a session.
pub fn attach_line() -> &'static str
    ensures { result.now ≡ ended (line_text Attach ∷ []) }
{
    "attach\n"
}

/// Puts the line that tells this session a text behind others.
pub(crate) fn push_tell(lines: &mut String, session: u64, text: &str) -> Result<(), AllocError>
    ensures { OnOk result
        (string_bytes lines.new ≡ string_bytes lines.old ++ ended (line_text (Tell session text.now) ∷ [])) }
{
    write!(lines, "tell {session} ")?;
    push_escaped(lines, text)?;
    lines.push('\n')
}

/// The line that tells this session a text, of any length.
pub fn tell_line(alloc: Global, session: u64, text: &str) -> Result<String, AllocError>
    ensures { IfOk result (λ line. string_bytes line ≡ ended (line_text (Tell session text.now) ∷ [])) }
{
    let mut line = String::new(alloc);
    push_tell(&mut line, session, text)?;
    Ok(line)
}

/// The line that hands out the texts of this session.
pub fn take_line(alloc: Global, session: u64) -> Result<String, AllocError>
    ensures { IfOk result (λ line. string_bytes line ≡ ended (line_text (Take session) ∷ [])) }
{
    format!(in alloc; "take {session}\n")
}

/// The line that detaches this session.
pub fn detach_line(alloc: Global, session: u64) -> Result<String, AllocError>
    ensures { IfOk result (λ line. string_bytes line ≡ ended (line_text (Detach session) ∷ [])) }
{
    format!(in alloc; "detach {session}\n")
}

/// Puts the line that makes at most so many steps, at this moment in milliseconds since the epoch, behind others.
fn push_run(lines: &mut String, most: u64, moment: u64) -> Result<(), AllocError>
    ensures { OnOk result
        (string_bytes lines.new ≡ string_bytes lines.old ++ ended (line_text (Run most moment) ∷ [])) }
{
    write!(lines, "run {most} {moment}\n")
}

/// The line that makes at most so many steps, at this moment in milliseconds since the epoch.
pub fn run_line(alloc: Global, most: u64, moment: u64) -> Result<String, AllocError>
    ensures { IfOk result (λ line. string_bytes line ≡ ended (line_text (Run most moment) ∷ [])) }
{
    let mut line = String::new(alloc);
    push_run(&mut line, most, moment)?;
    Ok(line)
}

/// The line after which no further step is made.
pub fn shut_line() -> &'static str
    ensures { result.now ≡ ended (line_text Shut ∷ []) }
{
    "shut\n"
}

/// The line that ends a journal which tells no more. It has seven bytes.
pub fn memory_line() -> &'static str
    ensures line { result.now ≡ ended (memory_text ∷ []) }
    ensures bytes { length result.now ≡ 7 }
{
    "memory\n"
}
