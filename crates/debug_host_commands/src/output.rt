//! The lines of output.

ghost use Rattle.std.specs.Prelude.{◌≡◌, ◌++◌, ◌∷◌, [], IfOk, OnOk, map, string_bytes};
ghost use Rattle.cdp_host_turns.specs.declared.state.State.{State};
ghost use Rattle.debug_host_commands.specs.Output.{Attached, To, Out, Overran, RanTo, output_text, overrun_in, state_name};

use cdp_host::{SessionLost, State};
use cdp_host_isolation::Loss;
use cdp_journal::push_escaped;
use cdp_text::units::{Units, text_of};
use std::alloc::{AllocError, Global};

/// The line of a session that was attached.
pub(crate) fn attached_line(alloc: Global, session: u64) -> Result<String, AllocError>
    ensures { IfOk result (λ line. string_bytes line ≡ output_text (Attached session)) }
{
    Ok(format!(in alloc; "attached {session}\n")?)
}

/// How many bytes a line of output has at most besides its text: `to `, a number, a blank and LF.
const LINE_FRAME: usize = 25;

/// The line of a text that a session is sent.
fn sent_line(alloc: Global, session: u64, text: &str) -> Result<String, AllocError>
    ensures { IfOk result (λ line. string_bytes line ≡ output_text (To session text.now)) }
{
    let mut line = String::with_capacity(alloc, text.len() + LINE_FRAME)?;
    write!(line, "to {session} ")?;
    push_escaped(&mut line, text)?;
    line.push('\n')?;
    Ok(line)
}

/// The line of a text that the program printed.
fn printed_line(alloc: Global, units: &[u16]) -> Result<String, AllocError>
    ensures { IfOk result (λ line. string_bytes line ≡ output_text (Out units.now)) }
{
    let text = text_of(alloc, units)?;
    let mut line = String::with_capacity(alloc, text.len() + LINE_FRAME)?;
    line.push_str("out ")?;
    push_escaped(&mut line, &text)?;
    line.push('\n')?;
    Ok(line)
}

/// The line of a session that was lost.
pub(crate) fn overrun_line(alloc: Global, session: u64) -> Result<String, AllocError>
    ensures { IfOk result (λ line. string_bytes line ≡ output_text (Overran session)) }
{
    Ok(format!(in alloc; "overrun {session}\n")?)
}

/// Puts the line of a session that was lost by too many texts behind others; one that was lost for want of memory has none.
fn push_overrun(alloc: Global, lines: &mut Vec<String>, lost: SessionLost) -> Result<(), AllocError>
    ensures { OnOk result (map string_bytes lines.new.items ≡ map string_bytes lines.old.items ++ map output_text (map Overran (overrun_in (lost ∷ [])))) }
{
    match lost.loss {
        Loss::Memory => Ok(()),
        Loss::Overrun => {
            lines.push(overrun_line(alloc, lost.session)?)?;
            Ok(())
        }
    }
}

/// Puts the lines of the sessions that were lost by too many texts behind others.
pub(crate) fn push_overruns(
    alloc: Global,
    lines: &mut Vec<String>,
    losses: &[SessionLost],
) -> Result<(), AllocError>
    ensures { OnOk result (map string_bytes lines.new.items ≡ map string_bytes lines.old.items ++ map output_text (map Overran (overrun_in losses.now))) }
{
    for lost in losses {
        push_overrun(alloc, lines, *lost)?;
    }
    Ok(())
}

/// The line of a run's steps and the state in which it ended.
pub(crate) fn ran_line(alloc: Global, steps: u64, state: State) -> Result<String, AllocError>
    ensures { IfOk result (λ line. string_bytes line ≡ output_text (RanTo steps state)) }
{
    let name = state_name(state);
    Ok(format!(in alloc; "ran {steps} {name}\n")?)
}

/// A state's name.
fn state_name(state: State) -> &'static str
    ensures { result.now ≡ state_name state }
{
    match state {
        State::Broken => "broken",
        State::Shut => "shut",
        State::Threw => "threw",
        State::Ended => "ended",
        State::Paused => "paused",
        State::Waiting => "waiting",
        State::Ready => "ready",
    }
}

/// The lines of the texts that a session is sent, in order.
pub(crate) fn sent_lines(
    alloc: Global,
    session: u64,
    texts: &[String],
) -> Result<Vec<String>, AllocError>
    ensures { IfOk result (λ lines. map string_bytes lines.items ≡ map output_text (map (To session) (map string_bytes texts.now))) }
{
    let mut lines = Vec::new(alloc);
    for text in texts {
        lines.push(sent_line(alloc, session, text.as_str())?)?;
    }
    Ok(lines)
}

/// The lines of the texts that the program printed, in order.
pub(crate) fn printed_lines(alloc: Global, texts: &[Units]) -> Result<Vec<String>, AllocError>
    ensures { IfOk result (λ lines. map string_bytes lines.items ≡ map output_text (map Out texts.now)) }
{
    let mut lines = Vec::new(alloc);
    for text in texts {
        lines.push(printed_line(alloc, text.as_slice())?)?;
    }
    Ok(lines)
}
