//! That texts are answered as the rows of a table have it.

use crate::{full_heaps, lexer, parser};
use cdp_text::units::units_of;
use std::alloc::{AllocError, Global};
use std::process::Abort;
use std::test::Fail;

/// What a text is given to.
#[derive(Clone, Copy)]
pub(crate) enum Question {
    /// A source, and its tokens.
    Tokens,
    /// A number or a string, and its value.
    Value,
    /// A script, and what it is parsed as.
    Script,
    /// A script after others that declare `a` and `c`, and what it is parsed as.
    Later,
    /// An expression, and what it is parsed as.
    Expression,
    /// A function, and what it is parsed as.
    Function,
    /// What a script does again and again, and how often it can where few cells are left.
    FilledCells,
    /// What a script does again and again, and how often it can where few units are left.
    FilledUnits,
}

/// What a source is answered.
fn of_source(alloc: Global, question: Question, text: &str) -> Result<String, AllocError> {
    let units = units_of(alloc, text)?;
    let source = units.as_slice();
    match question {
        Question::Tokens => lexer::tokens_of(alloc, source),
        Question::Value => lexer::value_of(alloc, source),
        Question::Later => parser::later_of(alloc, source),
        Question::Expression => parser::expression_of(alloc, source),
        Question::Function => parser::function_of(alloc, source),
        _ => parser::script_of(alloc, source),
    }
}

/// What a text is answered.
fn answer(alloc: Global, question: Question, text: &str) -> Result<String, Fail> {
    match question {
        Question::FilledCells => full_heaps::run_with_few_cells(alloc, text),
        Question::FilledUnits => full_heaps::run_with_few_units(alloc, text),
        _ => Ok(of_source(alloc, question, text)?),
    }
}

/// That the rows' first texts are answered as their second ones have it.
pub(crate) fn answers(
    rt: &impl Abort,
    alloc: Global,
    question: Question,
    rows: &[(&str, &str)],
) -> Result<(), Fail> {
    for (text, want) in rows {
        let found = answer(alloc, question, text)?;
        assert_eq!(rt; found.as_str(), *want, "at {text:?}");
    }
    Ok(())
}
