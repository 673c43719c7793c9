//! Why a script can't go on, as a text.

use crate::shown::{Cut, Quoted};
use cdp_text::position::Pos;
use std::fmt;

/// Why a script can't go on.
#[derive(Clone, Copy)]
pub(crate) enum Reason<'t> {
    /// The language has no such form.
    NoForm(&'static str),
    /// The language has no form with this word.
    NoWord(&'t str),
    /// A name is to stand here, and this word is reserved.
    Reserved(&'t str),
    /// This name is declared at this position, of this file where it is another one.
    Declared {
        name: &'t str,
        file: Option<&'t str>,
        at: Pos,
    },
    /// `break` or `continue` outside a loop.
    OutsideLoop(&'t str),
    /// `return` outside a function.
    OutsideFunction,
    /// This constant has no value.
    NoValue(&'t str),
    /// A parameter has a default.
    Default,
    /// A declaration is the part of another statement.
    Braces,
    /// What stands before this token is no target.
    NoTarget(&'t str),
    /// This token stands behind a statement that may end there.
    Semicolon(&'t str),
    /// This token can't stand here.
    Unexpected(&'t str),
    /// A string isn't closed.
    OpenString,
    /// A string has an escape that the language hasn't.
    Escape,
    /// A comment isn't closed.
    OpenComment,
    /// This is no number.
    NoNumber(&'t str),
    /// This character begins no token.
    NoToken(&'t str),
    /// The script ends in this bracket, which is at this position.
    OpenBracket {
        bracket: &'static str,
        at: Pos,
    },
    /// The script ends behind this token.
    EndBehind(&'t str),
    /// The script ends.
    End,
}

impl fmt::Display for Reason<'_> {
    fn fmt<W: fmt::Write>(&self, f: &mut fmt::Formatter<W>) -> fmt::Result {
        match *self {
            Reason::NoForm(form) => write!(f, "the language has no {form}"),
            Reason::NoWord(word) => write_absent(f, word),
            Reason::Reserved(word) => write!(f, "'{word}' is a reserved word, and no name"),
            Reason::Declared { name, file, at } => write_declared(f, name, file, at),
            Reason::OutsideLoop(word) => write!(f, "{word} outside a loop"),
            Reason::OutsideFunction => f.write_str("return outside a function"),
            Reason::NoValue(name) => {
                let name = Quoted(name);
                write!(f, "the constant {name} needs a value")
            }
            Reason::Default => f.write_str("a parameter has no default in the language"),
            Reason::Braces => {
                f.write_str("a declaration can't stand here without braces around it")
            }
            Reason::NoTarget(token) => {
                write!(f, "what stands before '{token}' is no name and no property")
            }
            Reason::Semicolon(token) => {
                let token = Quoted(token);
                write!(
                    f,
                    "this token can't stand here: {token}; perhaps ';' is missing before it"
                )
            }
            Reason::Unexpected(token) => {
                let token = Quoted(token);
                write!(f, "this token can't stand here: {token}")
            }
            Reason::OpenString => f.write_str("a string isn't closed"),
            Reason::Escape => f.write_str("a string has an escape that the language hasn't"),
            Reason::OpenComment => f.write_str("a comment isn't closed"),
            Reason::NoNumber(text) => {
                let text = Quoted(text);
                write!(
                    f,
                    "{text} is no number of the language: numbers are whole, and at most 9007199254740991"
                )
            }
            Reason::NoToken(text) => write_no_token(f, text),
            Reason::OpenBracket { bracket, at } => {
                let line = at.line.saturating_add(1);
                let column = at.col.saturating_add(1);
                write!(
                    f,
                    "the script ends too early: '{bracket}' at {line}:{column} isn't closed"
                )
            }
            Reason::EndBehind(token) => {
                let token = Quoted(token);
                write!(f, "the script ends too early, after {token}")
            }
            Reason::End => f.write_str("the script ends too early"),
        }
    }
}

/// Writes that the language has no form with a word, and what serves in its place.
fn write_absent<W: fmt::Write>(f: &mut fmt::Formatter<W>, word: &str) -> fmt::Result {
    let place = match word {
        "class" => "; a function that makes an object serves in its place",
        "new" => "; a function that makes an object is called without it",
        "switch" => "; 'if' and 'else if' serve in its place",
        "var" => "; 'let' serves in its place",
        _ => "",
    };
    write!(f, "the language has no '{word}'{place}")
}

/// Writes where a name is declared.
fn write_declared<W: fmt::Write>(
    f: &mut fmt::Formatter<W>,
    name: &str,
    file: Option<&str>,
    at: Pos,
) -> fmt::Result {
    let name = Quoted(name);
    let line = at.line.saturating_add(1);
    let column = at.col.saturating_add(1);
    match file {
        Some(file) => {
            let file = Cut::none(file);
            write!(f, "{name} is already declared at {file}:{line}:{column}")
        }
        None => write!(f, "{name} is already declared at {line}:{column}"),
    }
}

/// Writes that a character begins no token.
fn write_no_token<W: fmt::Write>(f: &mut fmt::Formatter<W>, text: &str) -> fmt::Result {
    let quoted = Quoted(text);
    if text.is_ascii() {
        write!(f, "no token begins with {quoted}")
    } else {
        write!(
            f,
            "no token begins with {quoted}; names are made of the letters a to z and A to Z, digits, '$' and '_'"
        )
    }
}
