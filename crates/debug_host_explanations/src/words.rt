//! Why words ask for nothing.

use crate::options::{Read, name_of, read_word};
use crate::word_fault::WordFault;
use debug_host_options::{Subcommand, command_named, help_text};
use std::alloc::{AllocError, Global};

/// Whether `--explain` is one of these words, before `--`.
pub fn asks_explanation(words: &[String]) -> bool {
    for word in words {
        if word.as_str() == "--" {
            return false;
        }
        if word.as_str() == "--explain" {
            return true;
        }
    }
    false
}

/// Why words, of which the first is to be a command's name, ask for nothing: the first one that is wrong, and the form of
/// that command. Nothing where there is no word.
///
/// # Errors
///
/// There is no memory for the lines.
pub fn word_lines(alloc: Global, words: &[String]) -> Result<String, AllocError> {
    let [first, rest @ ..] = words else {
        return Ok(String::new(alloc));
    };
    match command_named(first.as_str()) {
        Some(command) => command_lines(alloc, command, rest),
        None => {
            let fault = first_fault(first.as_str());
            format!(in alloc; "  {fault}\n")
        }
    }
}

/// Why a first word is no command's name.
fn first_fault(word: &str) -> WordFault<'_> {
    if word == "--help" || word == "-h" {
        WordFault::Help(word)
    } else if word == "--version" {
        WordFault::Version
    } else if word.starts_with("-") {
        WordFault::OptionFirst(word)
    } else {
        WordFault::NoCommand(word)
    }
}

/// Why the words after a command's name ask for nothing, and the form of that command.
fn command_lines(
    alloc: Global,
    command: Subcommand,
    words: &[String],
) -> Result<String, AllocError> {
    let (form, _) = help_text(Some(command))
        .split_once('\n')
        .unwrap_or(("", ""));
    match fault_in(command, words) {
        Some(fault) => format!(in alloc; "  {fault}\n  usage: {form}\n"),
        None => format!(in alloc; "  usage: {form}\n"),
    }
}

/// The first fault of the words after a command's name.
fn fault_in(command: Subcommand, words: &[String]) -> Option<WordFault<'_>> {
    match read_all(command, words) {
        Ok(read) => end_fault(command, words, read),
        Err(fault) => Some(fault),
    }
}

/// What the words after a command's name were read as, or the first fault of them.
fn read_all(command: Subcommand, words: &[String]) -> Result<Read, WordFault<'_>> {
    let mut read = Read::start();
    for (index, word) in words.iter().enumerate() {
        read = read_word(command, first_words(words, index), read, word.as_str())?;
    }
    Ok(read)
}

/// The first of these words, so many of them.
fn first_words(words: &[String], count: usize) -> &[String] {
    words.get(..count).unwrap_or(words)
}

/// What is missing once all words are read, or is one too much.
fn end_fault(command: Subcommand, words: &[String], read: Read) -> Option<WordFault<'_>> {
    if let Some(option) = read.awaiting {
        return Some(WordFault::NeedsValue(name_of(option)));
    }
    match (command, read.operands) {
        (Subcommand::Run | Subcommand::Serve, 0) => Some(WordFault::NoScript(command)),
        (Subcommand::Replay, 0) => Some(WordFault::NoJournal),
        (Subcommand::Replay, 1) => Some(WordFault::NoScriptAfterJournal),
        (Subcommand::Send, 0) => Some(WordFault::NoCommands),
        (Subcommand::Send, _) => Some(WordFault::OneMore(words.get(read.second?)?.as_str())),
        _ => None,
    }
}
