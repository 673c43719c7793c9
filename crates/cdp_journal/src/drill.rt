//! The script and the journal of a drill, by which a host is tried at any size.

ghost use Rattle.std.specs.Prelude.{◌≡◌, ◌∷◌, ◌++◌, ◌+◌, ◌≤◌, ◌<◌, ◌^◌, [], map, OnOk, IfOk, string_bytes};
ghost use Rattle.cdp_text.specs.Lines.{ended};
ghost use Rattle.cdp_journal.specs.Lines.{Tell, line_text};
ghost use Rattle.cdp_journal.specs.Drills.{command_told, drill_journal, drill_opening, drill_source, drill_turn, evens};

use crate::writing::push_tell;
use std::alloc::{AllocError, Global};

/// The greatest number of steps of a run.
const MOST_STEPS: u64 = 1_000_000;

/// Stops the script where its function returns with an even argument.
const BREAKPOINT: &str =
    r#"{"id":2,"method":"Debugger.setBreakpointByUrl","params":{"condition":"i % 2 == 0","lineNumber":3,"url":"drill.js"}}"#;

/// The script `drill.js` of a drill: its function adds its argument to a sum, and a loop calls it with each number
/// below `count`. Nine lines, each ended by LF.
///
/// # Errors
///
/// There is no memory for the text.
pub fn drill_source(alloc: Global, count: u64) -> Result<String, AllocError>
    ensures { IfOk result (λ text. string_bytes text ≡ drill_source count) }
{
    format!(in alloc;
        "let t = 0;
function f(i) {{
  t = t + i;
  return t;
}}
for (let i = 0; i < {count}; i++) {{
  f(i);
}}
console.log(t);
"
    )
}

/// The journal of a drill: session 1 stops the script at each even number below `count`, session 2 sees what it
/// prints. For each stop, and once more for the end, there is a run and a command to go on; then both sessions' texts
/// are taken. Each line is ended by LF.
///
/// # Errors
///
/// There is no memory for the text.
pub fn drill_journal(alloc: Global, count: u64) -> Result<String, AllocError>
    ensures { IfOk result (λ text. string_bytes text ≡ drill_journal count) }
{
    let mut journal = opening(alloc)?;
    for moment in 1..evens(count) + 2 {
        push_turn(alloc, &mut journal, moment)?;
    }
    journal.push_str("take 1\ntake 2\n")?;
    Ok(journal)
}

/// How many even numbers are below this one.
fn evens(count: u64) -> u64
    ensures exact { result ≡ evens count }
    ensures small { result ≤ 2 ^ 63 }
{
    count.div_ceil(2)
}

/// The lines before the first run.
fn opening(alloc: Global) -> Result<String, AllocError>
    ensures { IfOk result (λ text. string_bytes text ≡ ended (map line_text drill_opening)) }
{
    let mut journal = String::from_str(alloc, "attach\nattach\n")?;
    let enable = command(alloc, 1, "Debugger.enable")?;
    push_tell(&mut journal, 1, &enable)?;
    push_tell(&mut journal, 1, BREAKPOINT)?;
    let enable = command(alloc, 1, "Runtime.enable")?;
    push_tell(&mut journal, 2, &enable)?;
    Ok(journal)
}

/// Puts the lines of a run at this moment, and of the command to go on, behind others.
fn push_turn(alloc: Global, journal: &mut String, moment: u64) -> Result<(), AllocError>
    requires { moment + 2 < 2 ^ 64 }
    ensures { OnOk result
        (string_bytes journal.new ≡ string_bytes journal.old ++ ended (map line_text (drill_turn moment))) }
{
    write!(journal, "run {MOST_STEPS} {moment}\n")?;
    let resume = command(alloc, moment + 2, "Debugger.resume")?;
    push_tell(journal, 1, &resume)
}

/// A command without parameters.
fn command(alloc: Global, id: u64, method: &str) -> Result<String, AllocError>
    ensures { IfOk result (λ text. string_bytes text ≡ command_told id method.now) }
{
    format!(in alloc; r#"{{"id":{id},"method":"{method}"}}"#)
}
