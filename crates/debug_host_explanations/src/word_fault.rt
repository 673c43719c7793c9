//! Why a word is wrong, as a text.

use crate::shown::{Cut, Quoted};
use debug_host_options::Subcommand;
use std::fmt;

/// Why a word is wrong, or one is missing.
#[derive(Clone, Copy)]
pub(crate) enum WordFault<'w> {
    /// The first word is no command's name.
    NoCommand(&'w str),
    /// The first word is an option.
    OptionFirst(&'w str),
    /// `--help` or `-h` doesn't stand alone.
    Help(&'w str),
    /// `--version` doesn't stand alone.
    Version,
    /// The command has no such option.
    NoOption(Subcommand, &'w str),
    /// The word begins with one `-`.
    Short(Subcommand, &'w str),
    /// The option of this name has a value, and takes none.
    NoValue(&'w str),
    /// The option of this name is given twice.
    Twice(&'w str),
    /// The value of the option of this name is missing.
    NeedsValue(&'w str),
    /// The word after an option begins with `-`.
    DashedValue {
        name: &'w str,
        word: &'w str,
    },
    /// An option's value is no number from 1 to the greatest.
    OutOfRange {
        name: &'w str,
        most: u64,
        text: &'w str,
    },
    /// The command has no script.
    NoScript(Subcommand),
    /// `replay` has no journal.
    NoJournal,
    /// `replay` has a journal and no script.
    NoScriptAfterJournal,
    /// `send` has no file.
    NoCommands,
    /// `send` has this file too.
    OneMore(&'w str),
}

impl fmt::Display for WordFault<'_> {
    fn fmt<W: fmt::Write>(&self, f: &mut fmt::Formatter<W>) -> fmt::Result {
        match *self {
            WordFault::NoCommand(word) => {
                let word = Quoted(word);
                write!(
                    f,
                    "there is no command {word}; the commands are run, replay, serve, send and drill"
                )
            }
            WordFault::OptionFirst(word) => {
                let word = Quoted(word);
                write!(
                    f,
                    "the command's name comes first, and {word} is an option; the commands are run, replay, serve, send and drill"
                )
            }
            WordFault::Help(word) => {
                write!(f, "'{word}' stands alone, or alone after a command's name")
            }
            WordFault::Version => f.write_str("'--version' stands alone"),
            WordFault::NoOption(command, word) => {
                let word = Quoted(word);
                let command = name_of(command);
                write!(f, "{word} is no option of {command}")
            }
            WordFault::Short(command, word) => {
                let word = Quoted(word);
                let command = name_of(command);
                write!(
                    f,
                    "{word} is no option of {command}; after -- it names a file"
                )
            }
            WordFault::NoValue(name) => write!(f, "--{name} takes no value"),
            WordFault::Twice(name) => write!(f, "--{name} is given twice"),
            WordFault::NeedsValue(name) => write!(f, "--{name} needs a value"),
            WordFault::DashedValue { name, word } => write_dashed(f, name, word),
            WordFault::OutOfRange { name, most, text } => {
                let text = Quoted(text);
                write!(
                    f,
                    "--{name} needs a number from 1 to {most}, and {text} is none"
                )
            }
            WordFault::NoScript(command) => {
                let command = name_of(command);
                write!(f, "{command} needs at least one script")
            }
            WordFault::NoJournal => {
                f.write_str("replay needs a journal, and at least one script after it")
            }
            WordFault::NoScriptAfterJournal => {
                f.write_str("replay needs at least one script after the journal")
            }
            WordFault::NoCommands => f.write_str("send needs a file of commands"),
            WordFault::OneMore(word) => {
                let word = Quoted(word);
                write!(f, "send takes one file of commands, and {word} is one more")
            }
        }
    }
}

/// Writes that an option's value begins with `-`.
fn write_dashed<W: fmt::Write>(f: &mut fmt::Formatter<W>, name: &str, word: &str) -> fmt::Result {
    let quoted = Quoted(word);
    let word = Cut::none(word);
    write!(
        f,
        "--{name} needs a value, and {quoted} begins with '-'; such a value is written --{name}={word}"
    )
}

/// The name of a command.
fn name_of(command: Subcommand) -> &'static str {
    match command {
        Subcommand::Run => "run",
        Subcommand::Replay => "replay",
        Subcommand::Drill => "drill",
        Subcommand::Serve => "serve",
        Subcommand::Send => "send",
    }
}
