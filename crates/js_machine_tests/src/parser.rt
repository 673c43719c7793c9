//! The grammar, against ECMA-262 and this project's own rules.

mod kept_texts;
mod read_expressions;
mod read_functions;
mod read_scripts;

use cdp_text::units::{Units, units_of};
use js_parser::parse::{parse_expression, parse_function, parse_script};
use js_parser_readers::fault::ParseFault;
use js_tree::script::Script;
use std::alloc::{AllocError, Global};

/// What a source is parsed as: so many items, or a fault.
fn told(alloc: Global, parsed: Result<Script, ParseFault>) -> Result<String, AllocError> {
    match parsed {
        Ok(script) => format!(in alloc; "{} items", script.body.items.len()),
        Err(fault) => format!(in alloc; "{fault}"),
    }
}

/// What a script is parsed as.
pub(crate) fn script_of(alloc: Global, source: &[u16]) -> Result<String, AllocError> {
    told(alloc, parse_script(alloc, source, "", 1, &[]))
}

/// What a script is parsed as behind others that declare `a` and `c`.
pub(crate) fn later_of(alloc: Global, source: &[u16]) -> Result<String, AllocError> {
    let declared = [
        Units::from_slice(alloc, &[97])?,
        Units::from_slice(alloc, &[99])?,
    ];
    told(alloc, parse_script(alloc, source, "", 2, &declared))
}

/// Whether a source is parsed as an expression, or why it isn't.
pub(crate) fn expression_of(alloc: Global, source: &[u16]) -> Result<String, AllocError> {
    match parse_expression(alloc, source).err() {
        None => String::from_str(alloc, "parsed"),
        Some(fault) => format!(in alloc; "{fault}"),
    }
}

/// Whether a source is parsed as a function, or why it isn't.
pub(crate) fn function_of(alloc: Global, source: &[u16]) -> Result<String, AllocError> {
    match parse_function(alloc, source).err() {
        None => String::from_str(alloc, "parsed"),
        Some(fault) => format!(in alloc; "{fault}"),
    }
}
