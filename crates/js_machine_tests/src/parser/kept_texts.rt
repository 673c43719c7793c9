//! What parsed sources keep.

use cdp_text::units::{text_of, units_of};
use js_parser::parse::{parse_expression, parse_script};
use js_parser_readers::fault::ParseFault;
use js_tree::script::Script;
use js_tree::tree::Expr;
use std::alloc::{AllocError, Global};
use std::test::Fail;

/// A script's number, address and source.
fn parts(alloc: Global, parsed: Result<Script, ParseFault>) -> Result<String, AllocError> {
    match parsed {
        Ok(script) => {
            let url = text_of(alloc, script.url.as_slice())?;
            let source = text_of(alloc, script.source.as_slice())?;
            format!(in alloc; "{} {url}{source}", script.number)
        }
        Err(fault) => format!(in alloc; "{fault}"),
    }
}

#[test]
fn keeps_what_it_is_given(rt: HostRuntime) -> Result<(), Fail> {
    let alloc = rt.alloc();
    let source = units_of(alloc, " a + b ")?;
    let parsed = parse_script(alloc, source.as_slice(), "file:///\u{e9}.js", 7, &[]);
    let parts = parts(alloc, parsed)?;
    assert_eq!(rt; parts.as_str(), "7 file:///\u{e9}.js a + b ");
    Ok(())
}

/// The source of an expression that is an operation, and where the operation begins and ends.
fn place(alloc: Global, source: &[u16]) -> Result<String, AllocError> {
    let Ok(expression) = parse_expression(alloc, source) else {
        return String::from_str(alloc, "no expression");
    };
    let text = text_of(alloc, expression.source.as_slice())?;
    let Expr::Binary { node, .. } = &expression.tree else {
        return String::from_str(alloc, "no operation");
    };
    let span = expression.spans.of(*node);
    format!(in alloc; "{text}{} {}", span.start, span.end)
}

#[test]
fn places_nodes(rt: HostRuntime) -> Result<(), Fail> {
    let source = units_of(rt.alloc(), " a + b ")?;
    let place = place(rt.alloc(), source.as_slice())?;
    assert_eq!(rt; place.as_str(), " a + b 1 6");
    Ok(())
}
