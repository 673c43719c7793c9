//! Scripts, and scripts behind others.

use crate::answers::{Question, answers};
use std::test::Fail;

/// Scripts, and how many items they have.
const SCRIPTS: [(&str, &str); 35] = [
    ("function f(a) { { let a; } }", "1 items"),
    ("let a; { let a; }", "2 items"),
    ("try {} catch (e) { { let e; } }", "1 items"),
    ("for (let a of a) { let a; }", "1 items"),
    ("for (let of of of) ;", "1 items"),
    ("(a) = 1;", "1 items"),
    ("a ? b : c = 1", "1 items"),
    ("++f().x;", "1 items"),
    ("delete a.b;", "1 items"),
    ("a++\n(b);", "2 items"),
    ("({a, b: 1, 'c': 2, [d]: 3, e() {}, });", "1 items"),
    ("({if: 1, function: 2});", "1 items"),
    ("f(a,);", "1 items"),
    ("a.if.new;", "1 items"),
    ("if (a) b\nelse c", "1 items"),
    ("do a\nwhile (b) c;", "2 items"),
    ("() => { return; };", "1 items"),
    ("(function () {});", "1 items"),
    ("x = function () {}\n(1);", "1 items"),
    ("a <!-- b", "1 items"),
    ("", "0 items"),
    ("// nothing", "0 items"),
    ("a\n++\nb", "2 items"),
    ("do ; while (0) 1", "2 items"),
    ("x = () => {}\n(1)", "2 items"),
    ("x = () => a\n(1)", "1 items"),
    ("let a = 1\n(2)", "1 items"),
    ("a /* one\nline */ b", "2 items"),
    ("return_", "1 items"),
    ("if (a) if (b) c; else d; else e", "1 items"),
    ("delete (a.b)", "1 items"),
    ("(a.b)++", "1 items"),
    ("({__proto__: 1, __proto__: 2})", "1 items"),
    ("x = {a: 1, a() {}, [b]: 2}", "1 items"),
    ("a\n/* c */ b", "2 items"),
];

/// Scripts behind others that declare `a` and `c`, and how many items they have.
const LATER: [(&str, &str); 3] = [
    ("let b, d;", "1 items"),
    ("a = c;", "1 items"),
    ("{ let a; }", "1 items"),
];

#[test]
fn parses_scripts(rt: HostRuntime) -> Result<(), Fail> {
    answers(&rt, rt.alloc(), Question::Script, &SCRIPTS)?;
    answers(&rt, rt.alloc(), Question::Later, &LATER)
}
