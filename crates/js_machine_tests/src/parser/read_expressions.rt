//! Expressions, and sources that are none.

use crate::answers::{Question, answers};
use std::test::Fail;

/// Expressions.
const EXPRESSIONS: [(&str, &str); 11] = [
    ("a + b * c", "parsed"),
    ("a.b[c](d, e,)", "parsed"),
    ("!x++ ? -y : typeof z", "parsed"),
    ("a = b += c", "parsed"),
    ("(a, b)", "parsed"),
    ("[a, [b], {c, 'd': e, [f]: 7, if: 0x10,},]", "parsed"),
    ("(x, y) => x => x + y", "parsed"),
    ("{a: 1}", "parsed"),
    ("{}.a", "parsed"),
    ("function () {}", "parsed"),
    ("a\n+ b", "parsed"),
];

/// Sources that are no expressions, and the places of their syntax faults.
const EXPRESSION_FAULTS: [(&str, &str); 11] = [
    ("", "a syntax error at 0"),
    ("a +", "a syntax error at 3"),
    ("1 = b", "a syntax error at 2"),
    ("a, b,", "a syntax error at 5"),
    ("(x, x) => y", "a syntax error at 7"),
    ("delete a;", "a syntax error at 8"),
    ("{a: 1 b}", "a syntax error at 6"),
    ("a;", "a syntax error at 1"),
    ("a b", "a syntax error at 2"),
    ("let", "a syntax error at 0"),
    ("(1", "a syntax error at 2"),
];

#[test]
fn parses_expressions(rt: HostRuntime) -> Result<(), Fail> {
    answers(&rt, rt.alloc(), Question::Expression, &EXPRESSIONS)?;
    answers(&rt, rt.alloc(), Question::Expression, &EXPRESSION_FAULTS)
}
