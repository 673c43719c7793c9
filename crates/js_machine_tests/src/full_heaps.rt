//! Scripts that fill the program's heap, by each kind of making.
//!
//! The room is counted by hand. A script first fills all of it but 1,023 cells, or but 1,000 units; then it does one
//! thing again and again until the heap is full, and prints how often that went well.

use crate::answers::{Question, answers};
use crate::state::lines_of;
use cdp_text::units::{text_of, units_of};
use js_machine::plain::{PlainRun, run_scripts};
use js_machine_actions::shown::shown;
use js_machine_engine::stepped::Finish;
use js_parser::parse::parse_script;
use js_tree::script::Script;
use std::alloc::{AllocError, Global};
use std::collections::VecDeque;
use std::test::Fail;

/// All cells but 1,023 of 1,048,576: an object, and 1,023 times its 1,023 keys with the array of them.
const CELLS: &str =
    "let o = {}; let i = 0; while (i < 1023) { o[i] = 0; i++; } i = 0; while (i < 1023) { Object.keys(o); i++; }";

/// All units but 1,000 of 67,108,864, three names among them: texts of 2, 4, .. to 16,777,216 units, one more of that
/// length, and one of 16,776,194.
const UNITS: &str =
    "let s = 'x'; let i = 0; while (i < 24) { s = s + s; i++; } s.slice(0); s.slice(0, 16776194);";

/// What is done again and again where 1,023 cells are left, behind what the script declares.
const CELLS_MADE: [(&str, &str); 30] = [
    // one cell each time
    ("#({});", "ended\n1023\n"),
    ("#[];", "ended\n1023\n"),
    ("#'a' + 'b';", "ended\n1023\n"),
    ("#(() => 1);", "ended\n1023\n"),
    ("#{ let x; }", "ended\n1023\n"),
    ("#Error('m');", "ended\n1023\n"),
    ("#typeof n;", "ended\n1023\n"),
    ("#'ab'[0];", "ended\n1023\n"),
    ("#String(n);", "ended\n1023\n"),
    ("#'ab'.slice(0, 1);", "ended\n1023\n"),
    ("#({ [n]: 1 });", "ended\n1023\n"),
    ("#for (const x = 1; false; ) ;", "ended\n1023\n"),
    // the catch's scope can't be made: the whole `try` raises
    ("#try { throw 1; } catch (e) { }", "ended\n1023\n"),
    // one each time, and one that the script declares
    ("function f() { }#f();", "ended\n1022\n"),
    ("function f() { }#f.name;", "ended\n1022\n"),
    ("let e = Error();#e.name;", "ended\n1022\n"),
    ("let e = Error();#e.message;", "ended\n1022\n"),
    // two each time
    ("#(function g() { });", "ended\n511\n"),
    ("#[1].slice(0);", "ended\n511\n"),
    ("#[1, 2].join('');", "ended\n511\n"),
    ("#({ m() { } });", "ended\n511\n"),
    ("#{ function g() { } }", "ended\n511\n"),
    ("function f() { function g() { } }#f();", "ended\n511\n"),
    ("let p = [1];#for (let x of p) ;", "ended\n511\n"),
    // three each time: a text, an error and a scope; two texts and an array; the scopes of a loop and of its turns
    ("#try { null.x; } catch (e) { }", "ended\n341\n"),
    ("#try { zz; } catch (e) { }", "ended\n341\n"),
    ("#for (let x = 0; x < 1; x++) ;", "ended\n341\n"),
    ("let p = { a: 1, b: 2 };#Object.keys(p);", "ended\n340\n"),
    // none
    (
        "let p = [];#p.push(0); if (n === 2000) throw 1;",
        "ended\n2000\n",
    ),
    (
        "let p = {};#p[n] = 0; if (n === 2000) throw 1;",
        "ended\n2000\n",
    ),
];

/// What is done again and again where 1,000 units are left, behind what the script declares; each name takes 8 more.
const UNITS_MADE: [(&str, &str); 24] = [
    // 8 units each time
    ("#'abcd' + 'efgh';", "ended\n125\n"),
    ("#{ let x; }", "ended\n125\n"),
    ("#(function g() { });", "ended\n125\n"),
    ("#for (const x = 1; false; ) ;", "ended\n125\n"),
    ("#try { throw 1; } catch (e) { }", "ended\n125\n"),
    ("let p = [];#p.push(0);", "ended\n124\n"),
    ("let p = [];#p[n] = 0;", "ended\n124\n"),
    // a key of one digit ten times, then of two; the hundred-first has three
    ("let p = {};#p[n] = 0;", "ended\n100\n"),
    // what is removed is given back
    (
        "let p = {};#p.ab = 1; delete p.ab; p[n] = 0;",
        "ended\n100\n",
    ),
    (
        "let p = [1];#p.pop(); p.push(1); if (n === 2000) throw 1;",
        "ended\n2000\n",
    ),
    // 10 each time: a property with its key, a text of two units and an element
    ("#({ ab: 1 });", "ended\n100\n"),
    ("let p = { ab: 1 };#Object.keys(p);", "ended\n98\n"),
    // a message: 8 and the 7 units of its key
    ("#Error('m');", "ended\n66\n"),
    // three elements, three names, the scopes of a loop with one turn
    ("#[0, 0, 0];", "ended\n41\n"),
    ("function f(a, b) { let c; }#f(1, 2);", "ended\n41\n"),
    ("#for (let x = 0; x < 1; x++) ;", "ended\n41\n"),
    // the head's scope and a turn's
    ("let p = [1];#for (let x of p) ;", "ended\n61\n"),
    // an array of two and one of two
    ("#[1, 2].slice(0);", "ended\n31\n"),
    // two elements, and a text of three
    ("#[1, 2].join('-');", "ended\n52\n"),
    // a text of 44 units, its error's message and a scope
    ("#try { null.x; } catch (e) { }", "ended\n14\n"),
    // a text of nine
    ("let u;#typeof u;", "ended\n110\n"),
    // one unit
    ("#'ab'[0];", "ended\n1000\n"),
    // none
    ("#({}); if (n === 2000) throw 1;", "ended\n2000\n"),
    ("#(() => 1); if (n === 2000) throw 1;", "ended\n2000\n"),
];

/// How a run ended, as a program tells it.
fn end_of(alloc: Global, outcome: &PlainRun) -> Result<String, AllocError> {
    let value = match outcome.machine.finished() {
        None => return String::from_str(alloc, "running"),
        Some(Finish::Ended(_)) => return String::from_str(alloc, "ended"),
        Some(Finish::Threw(value, _)) => value,
    };
    let units = shown(alloc, &outcome.heap, outcome.machine.names(), value)?;
    format!(in alloc; "Uncaught {}", text_of(alloc, units.as_slice())?)
}

/// How a run ended, and in further lines what it printed.
fn told_of_end(alloc: Global, outcome: &PlainRun) -> Result<String, AllocError> {
    let end = end_of(alloc, outcome)?;
    let printed = lines_of(alloc, outcome.machine.printed())?;
    format!(in alloc; "{end}\n{printed}")
}

/// The script of a source.
fn parsed(alloc: Global, source: &str) -> Result<Script, Fail> {
    let units = units_of(alloc, source)?;
    match parse_script(alloc, units.as_slice(), "", 1, &[]) {
        Ok(script) => Ok(script),
        Err(_) => Err("no script".into()),
    }
}

/// More steps than a script takes that fills the heap.
const MOST_OF_FULL: u64 = 200_000;

/// A run of a script that fills the heap so far and then does something again and again until it fails; behind what the
/// script declares.
fn run_full(alloc: Global, filling: &str, text: &str) -> Result<String, Fail> {
    let (declared, done) = text.split_once('#').unwrap_or(("", text));
    let source = format!(in alloc;
        "{declared} {filling} let n = 0; try {{ while (true) {{ {done} n++; }} }} catch {{ }} console.log(n);"
    )?;
    let script = parsed(alloc, &source)?;
    let outcome = run_scripts(alloc, &[script], VecDeque::new(alloc), MOST_OF_FULL)?;
    Ok(told_of_end(alloc, &outcome)?)
}

/// A run of a script where few cells are left, until it fails.
pub(crate) fn run_with_few_cells(alloc: Global, text: &str) -> Result<String, Fail> {
    run_full(alloc, CELLS, text)
}

/// A run of a script where few units are left, until it fails.
pub(crate) fn run_with_few_units(alloc: Global, text: &str) -> Result<String, Fail> {
    run_full(alloc, UNITS, text)
}

#[test]
fn counts_cells(rt: HostRuntime) -> Result<(), Fail> {
    answers(&rt, rt.alloc(), Question::FilledCells, &CELLS_MADE)
}

#[test]
fn counts_units(rt: HostRuntime) -> Result<(), Fail> {
    answers(&rt, rt.alloc(), Question::FilledUnits, &UNITS_MADE)
}
