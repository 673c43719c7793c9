//! Functions, and sources that are none.

use crate::answers::{Question, answers};
use std::test::Fail;

/// Functions.
const FUNCTIONS: [(&str, &str); 7] = [
    ("function () {}", "parsed"),
    ("function f(a, b,) { return a + b; }", "parsed"),
    ("() => {}", "parsed"),
    ("a => a", "parsed"),
    ("(a, b) => ({a, b})", "parsed"),
    ("a => b => a", "parsed"),
    ("() =>\n{ return; }", "parsed"),
];

/// Sources that are no functions, and the places of their syntax faults.
const FUNCTION_FAULTS: [(&str, &str); 12] = [
    ("", "a syntax error at 0"),
    ("a", "a syntax error at 1"),
    ("(a)", "a syntax error at 3"),
    ("(function () {})", "a syntax error at 1"),
    ("function () {}()", "a syntax error at 14"),
    ("() => {};", "a syntax error at 8"),
    ("() => a, b", "a syntax error at 7"),
    ("1", "a syntax error at 0"),
    ("a\n=> 1", "a syntax error at 2"),
    ("(a, a) => 1", "a syntax error at 4"),
    ("function f(a) { let a; }", "a syntax error at 20"),
    ("() => { break; }", "a syntax error at 8"),
];

#[test]
fn parses_functions(rt: HostRuntime) -> Result<(), Fail> {
    answers(&rt, rt.alloc(), Question::Function, &FUNCTIONS)?;
    answers(&rt, rt.alloc(), Question::Function, &FUNCTION_FAULTS)
}
