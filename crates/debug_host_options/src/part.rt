//! Which of the words after a command's name are options, and which are operands.

ghost use Rattle.std.specs.Prelude.{◌≡◌, ◌∷◌, ◌++◌, ◌≤◌, length, map, string_bytes, IfOk, OnOk};
ghost use Rattle.std.specs.Option.{option_map};
ghost use Rattle.debug_host_options.specs.Parts.{alone_kind, is_operand, kind_of, known, long_kind, named_kind, operands_alone, option_had, option_of, parts_of, valued_kind, valued_parts};
ghost use Rattle.debug_host_options.specs.Held.{IsWithin, first_held, parts_held, word_held};

use crate::command::{OptionName, Subcommand, has_option, has_value, option_named};
use cdp_text::parts::{behind, halves};
use std::alloc::{AllocError, Global};

/// A part of a command line.
#[derive(Clone, Copy)]
pub(crate) enum Part<'w> {
    /// A word that is no option.
    Operand(&'w str),
    /// An option with its value.
    Valued(OptionName, &'w str),
    /// An option that has no value.
    Flag(OptionName),
}

/// What a word before `--` is.
#[derive(Clone, Copy)]
enum Word<'w> {
    /// `--`: the words after it are operands.
    End,
    /// A part by itself.
    Whole(Part<'w>),
    /// An option whose value is the next word.
    Awaiting(OptionName),
    /// Neither an operand nor an option of the command.
    Unknown,
}

/// What some words begin with.
#[derive(Clone, Copy)]
enum First<'w> {
    /// A part, and the words after it.
    One(Part<'w>, &'w [String]),
    /// `--`, and after it these words, which are operands.
    Operands(&'w [String]),
    /// No part.
    Unknown,
}

/// The parts of the words after a command's name; None where a word before `--` is no operand, and no option of the
/// command with its value.
///
/// # Errors
///
/// There is no memory for the list of parts.
pub(crate) fn read_parts<'w>(
    alloc: Global,
    command: Subcommand,
    words: &'w [String],
) -> Result<Option<Vec<Part<'w>>>, AllocError>
    ensures { IfOk result (λ parts. option_map (λ list. parts_held list.items) parts ≡ parts_of command (map string_bytes words.now)) }
{
    let mut parts = Vec::new(alloc);
    let mut rest = words;
    while let [word, after @ ..] = rest {
        match first_part(command, word.as_str(), after) {
            First::One(part, others) => {
                parts.push(part)?;
                rest = others;
            }
            First::Operands(operands) => {
                add_operands(&mut parts, operands)?;
                return Ok(Some(parts));
            }
            First::Unknown => return Ok(None),
        }
    }
    Ok(Some(parts))
}

/// Adds these words as operands.
fn add_operands<'w>(parts: &mut Vec<Part<'w>>, words: &'w [String]) -> Result<(), AllocError>
    ensures { OnOk result (parts_held parts.new.items ≡ parts_held parts.old.items ++ operands_alone (map string_bytes words.now)) }
{
    for word in words {
        parts.push(Part::Operand(word.as_str()))?;
    }
    Ok(())
}

/// What words begin with, by the first of them and those after it.
fn first_part<'w>(command: Subcommand, word: &'w str, after: &'w [String]) -> First<'w>
    ensures value { first_held command result ≡ parts_of command (word.now ∷ map string_bytes after.now) }
    ensures within { IsWithin (length after.now) result }
{
    match word_of(command, word) {
        Word::End => First::Operands(after),
        Word::Whole(part) => First::One(part, after),
        Word::Awaiting(option) => first_value(option, after),
        Word::Unknown => First::Unknown,
    }
}

/// An option with its value, where words begin with that.
fn first_value(option: OptionName, words: &[String]) -> First<'_>
    ensures value { (command : _) → first_held command result ≡ valued_parts command (map string_bytes words.now) option }
    ensures within { IsWithin (length words.now) result }
{
    match words {
        [] => First::Unknown,
        [value, after @ ..] => {
            if is_operand(value.as_str()) {
                First::One(Part::Valued(option, value.as_str()), after)
            } else {
                First::Unknown
            }
        }
    }
}

/// What a word is.
fn word_of(command: Subcommand, word: &str) -> Word<'_>
    ensures { word_held result ≡ kind_of command word.now }
{
    if is_operand(word) {
        Word::Whole(Part::Operand(word))
    } else if word == "--" {
        Word::End
    } else {
        match behind(word, "--") {
            None => Word::Unknown,
            Some(text) => named_word(command, text),
        }
    }
}

/// Whether a word begins with no `-`, or is `-` alone.
fn is_operand(word: &str) -> bool
    ensures { result ≡ is_operand word.now }
{
    if word.starts_with("-") {
        word == "-"
    } else {
        true
    }
}

/// What a word is by what stands after its `--`: a name alone, or one before `=` and a value after it.
fn named_word(command: Subcommand, text: &str) -> Word<'_>
    ensures { word_held result ≡ long_kind command (Some text.now) }
{
    match halves(text, '=') {
        None => alone_word(command, text),
        Some((name, value)) => valued_word(command, name, value),
    }
}

/// What `--NAME` is.
fn alone_word(command: Subcommand, name: &str) -> Word<'static>
    ensures { word_held result ≡ known (option_map alone_kind (option_of command name.now)) }
{
    match option_of(command, name) {
        None => Word::Unknown,
        Some(option) => {
            if has_value(option) {
                Word::Awaiting(option)
            } else {
                Word::Whole(Part::Flag(option))
            }
        }
    }
}

/// What `--NAME=VALUE` is.
fn valued_word<'w>(command: Subcommand, name: &str, value: &'w str) -> Word<'w>
    ensures { word_held result ≡ known (option_map (valued_kind value.now) (option_of command name.now)) }
{
    match option_of(command, name) {
        None => Word::Unknown,
        Some(option) => {
            if has_value(option) {
                Word::Whole(Part::Valued(option, value))
            } else {
                Word::Unknown
            }
        }
    }
}

/// The option of this name, where the command has it.
fn option_of(command: Subcommand, name: &str) -> Option<OptionName>
    ensures { result ≡ option_of command name.now }
{
    let option = option_named(name)?;
    if has_option(command, option) {
        Some(option)
    } else {
        None
    }
}
