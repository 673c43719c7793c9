//! `breakpoints_cases` plays changes of a file to the breakpoints of three sessions, and tells after which of them the
//! index of their places answers otherwise than the sessions' own breakpoints, and how many changes there were.
#![tactic(auto)]

mod change;
mod play;
mod table;

use cdp_text::units::units_of;
use js_parser::parse::parse_script;
use std::fs;

fn main(rt: HostRuntime) -> anyhow::Result<()> {
    let alloc = rt.alloc();
    let text = fs::read_to_string(&rt, "script.js")?;
    let source = units_of(alloc, text.as_str())?;
    let changes = fs::read_to_string(&rt, "changes.txt")?;
    let script = parse_script(alloc, source.as_slice(), "script.js", 1, &[])?;
    play::play(&rt, alloc, &script, changes.as_str())
}
