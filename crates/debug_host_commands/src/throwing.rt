//! Where an uncaught throw came from.

use crate::explaining::Remains;
use crate::outcome::CommandEnd;
use cdp_host::{Host, State};
use cdp_text::position::Pos;
use cdp_text::units::Units;
use debug_host_explanations::Frame;
use js_tree::script::Script;
use serde_json::Value;
use std::alloc::{AllocError, Global};
use std::collections::VecDeque;

/// What a session is told that stops at an uncaught throw.
const COMMANDS: [&str; 2] = [
    r#"{"id":1,"method":"Debugger.enable"}"#,
    r#"{"id":2,"method":"Debugger.setPauseOnExceptions","params":{"state":"uncaught"}}"#,
];

/// How the event of a stop begins.
const PAUSED: &str = r#"{"method":"Debugger.paused","#;

/// How many steps are run at once, so that no more of what they print is held.
const STEPS: u64 = 65_536;

/// A copy of lines of input, if it is wanted and there is memory for it.
pub(crate) fn copy_if(
    alloc: Global,
    wanted: bool,
    input: &VecDeque<Units>,
) -> Option<VecDeque<Units>> {
    if wanted {
        copy_of(alloc, input).ok()
    } else {
        None
    }
}

/// A copy of lines of input.
fn copy_of(alloc: Global, input: &VecDeque<Units>) -> Result<VecDeque<Units>, AllocError> {
    let mut copy = VecDeque::new(alloc);
    for line in input {
        copy.push_back(line.clone()?)?;
    }
    Ok(copy)
}

/// Notes where an uncaught throw came from, if a program with this kept input ended so, as far as memory allows.
pub(crate) fn note_throw(
    alloc: Global,
    end: &CommandEnd<'_>,
    scripts: &[Script],
    input: Option<VecDeque<Units>>,
    remains: &mut Remains,
) {
    let (CommandEnd::Threw(_), Some(input)) = (end, input) else {
        return;
    };
    if let Ok(calls) = calls_at_throw(alloc, scripts, input) {
        remains.calls = calls;
    }
}

/// The calls that were active where a program of these scripts with these lines of input throws at last, the innermost
/// first; none where it doesn't. The program is run once more, with a session that stops at an uncaught throw.
///
/// # Errors
///
/// There is no memory.
fn calls_at_throw(
    alloc: Global,
    scripts: &[Script],
    input: VecDeque<Units>,
) -> Result<Vec<Frame>, AllocError> {
    let mut host = Host::start(alloc, scripts, input, false)?;
    let session = host.attach()?;
    for command in COMMANDS {
        if host.attached(session) {
            host.tell(session, command);
        }
    }
    run_to_stop(&mut host)?;
    if !host.attached(session) {
        return Ok(Vec::new(alloc));
    }
    calls_in_texts(alloc, &host.take(session))
}

/// Runs a program until it stops or has ended.
fn run_to_stop(host: &mut Host<'_>) -> Result<(), AllocError> {
    for _ in 0..u64::MAX {
        match host.state() {
            State::Ready => {
                host.run(STEPS, 0)?;
            }
            State::Waiting
            | State::Paused
            | State::Ended
            | State::Threw
            | State::Shut
            | State::Broken => return Ok(()),
        }
    }
    Ok(())
}

/// The calls that the last stop among these texts shows.
fn calls_in_texts(alloc: Global, texts: &[String]) -> Result<Vec<Frame>, AllocError> {
    for text in texts.iter().rev() {
        if text.as_str().starts_with(PAUSED) {
            return calls_in_text(alloc, text.as_str());
        }
    }
    Ok(Vec::new(alloc))
}

/// The calls that the event of a stop shows.
fn calls_in_text(alloc: Global, text: &str) -> Result<Vec<Frame>, AllocError> {
    let mut calls = Vec::new(alloc);
    let Ok(event) = Value::from_str(alloc, text) else {
        return Ok(calls);
    };
    let Some(frames) = frames_of(&event) else {
        return Ok(calls);
    };
    for frame in frames {
        if let Some(call) = call_of(alloc, frame)? {
            calls.push(call)?;
        }
    }
    Ok(calls)
}

/// The call frames of the event of a stop.
fn frames_of(event: &Value) -> Option<&Vec<Value>> {
    event.get("params")?.get("callFrames")?.as_array()
}

/// A call frame as it is told.
fn call_of(alloc: Global, frame: &Value) -> Result<Option<Frame>, AllocError> {
    let Some((function, url, position)) = parts_of(frame) else {
        return Ok(None);
    };
    Ok(Some(Frame {
        function: String::from_str(alloc, function)?,
        url: String::from_str(alloc, url)?,
        position,
    }))
}

/// The name of a call frame's function, the URL of its script, and its place.
fn parts_of(frame: &Value) -> Option<(&str, &str, Pos)> {
    let function = frame.get("functionName")?.as_str()?;
    let url = frame.get("url")?.as_str()?;
    let location = frame.get("location")?;
    Some((
        function,
        url,
        Pos {
            line: number_of(location, "lineNumber")?,
            col: number_of(location, "columnNumber")?,
        },
    ))
}

/// The number that is the member of this name.
fn number_of(location: &Value, name: &str) -> Option<u32> {
    u32::try_from(location.get(name)?.as_u64()?).ok()
}
