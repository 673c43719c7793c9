//! Where a machine stands behind each step of a run.

use cdp_text::units::units_of;
use js_heap_memory::heap::BaseHeap;
use js_machine::machine::Machine;
use js_machine::plain::Never;
use js_machine_inspection::spans::offset_in;
use js_parser::parse::parse_script;
use js_semantics::form::Source;
use js_tree::script::Script;
use std::alloc::{AllocError, Global};
use std::collections::VecDeque;
use std::process::Abort;
use std::test::Fail;

// A script, and where it stands behind each step: the offset of an arrival and how many calls are active, with `!` before a
// `debugger` statement; `c` or `u` where a throw stands that a `catch` will take or none; else `.`.
const ROWS: [(&str, &str); 7] = [
    ("1; 2;", "0/0 3/0 end"),
    ("console.log(1);", "0/0 . . 8/0 end"),
    ("f(); function f() { }", "0/0 . . 20/1 end"),
    ("debugger; (() => 1)();", "!0/0 10/0 . 19/0 17/1 . end"),
    (
        "try { throw 1; } catch { } throw 2;",
        "0/0 . 6/0 . c . 27/0 . u end",
    ),
    (
        "try { try { throw 1; } finally { } } catch (e) { }",
        "0/0 . 6/0 . 12/0 . c . . . end",
    ),
    (
        "function f(n) { if (n) f(n - 1); } f(1);",
        "35/0 . . 16/1 . . 23/1 . . . . 16/2 . . 33/2 33/1 end",
    ),
];

// What is told of where a machine stands.
fn told(alloc: Global, machine: &Machine, scripts: &[Script]) -> Result<String, AllocError> {
    if machine.finished().is_some() {
        return String::from_str(alloc, "end");
    }
    if let Some(thrown) = machine.thrown() {
        return String::from_str(alloc, if thrown.uncaught { "u " } else { "c " });
    }
    let Some(mark) = machine.at(scripts) else {
        return String::from_str(alloc, ". ");
    };
    let offset = offset_in(scripts, Source::Script(1), mark);
    let depth = machine.depth();
    if machine.at_debugger() {
        format!(in alloc; "!{offset}/{depth} ")
    } else {
        format!(in alloc; "{offset}/{depth} ")
    }
}

// What is told after each step of a machine, at most a hundred.
fn steps_told(
    alloc: Global,
    machine: &mut Machine,
    heap: &mut BaseHeap,
    scripts: &[Script],
) -> Result<String, AllocError> {
    let mut text = String::new(alloc);
    for _ in 0..100 {
        if machine.end().is_some() || machine.finished().is_some() {
            break;
        }
        let _ = machine.run_until(heap, 1, &Never);
        text.push_str(&told(alloc, machine, scripts)?)?;
    }
    Ok(text)
}

// What is told after each step of a script.
fn stands_of(alloc: Global, source: &str) -> Result<String, Fail> {
    let units = units_of(alloc, source)?;
    let Ok(script) = parse_script(alloc, units.as_slice(), "", 1, &[]) else {
        return Err("no script".into());
    };
    let scripts = [script];
    let mut started = Machine::start(alloc, &scripts, VecDeque::new(alloc))?;
    let told = steps_told(alloc, &mut started.machine, &mut started.heap, &scripts);
    Ok(told?)
}

// Each script's machine stands where its row says.
fn each_stands(rt: &(impl Abort + AllocGlobal), rows: &[(&str, &str)]) -> Result<(), Fail> {
    for (source, stands) in rows {
        assert_eq!(rt;
            stands_of(rt.alloc(), source)?.as_str(),
            *stands,
            "of {source}"
        );
    }
    Ok(())
}

#[test]
fn a_machine_tells_where_it_stands(rt: HostRuntime) -> Result<(), Fail> {
    each_stands(&rt, &ROWS)
}
