//! The words after a command's name, read one by one.

use crate::word_fault::WordFault;
use cdp_text::decimal::read_decimal;
use cdp_text::parts::{behind, halves};
use debug_host_options::{OptionName, Subcommand, has_option, has_value, option_named};

/// The greatest port.
const MOST_PORT: u64 = 65_535;

/// The most clients that a server may take at once.
const MOST_SESSIONS: u64 = 16;

/// What was read of words.
#[derive(Clone, Copy)]
pub(crate) struct Read {
    /// The option whose value is the next word.
    pub(crate) awaiting: Option<OptionName>,
    /// Whether `--` was there.
    ended: bool,
    /// How many operands there were.
    pub(crate) operands: usize,
    /// How many words stand before the second operand.
    pub(crate) second: Option<usize>,
}

impl Read {
    /// Of no words.
    pub(crate) fn start() -> Read {
        Read {
            awaiting: None,
            ended: false,
            operands: 0,
            second: None,
        }
    }

    /// With an operand more, after so many words.
    fn with_operand(self, before: usize) -> Read {
        let second = if self.operands == 1 {
            Some(before)
        } else {
            self.second
        };
        Read {
            awaiting: None,
            ended: self.ended,
            operands: self.operands.saturating_add(1),
            second,
        }
    }

    /// With an option, which may await its value.
    fn with_option(self, awaiting: Option<OptionName>) -> Read {
        Read {
            awaiting,
            ended: self.ended,
            operands: self.operands,
            second: self.second,
        }
    }

    /// With `--`.
    fn with_end(self) -> Read {
        Read {
            awaiting: None,
            ended: true,
            operands: self.operands,
            second: self.second,
        }
    }
}

/// The name of an option.
pub(crate) fn name_of(option: OptionName) -> &'static str {
    match option {
        OptionName::Port => "port",
        OptionName::Sessions => "sessions",
        OptionName::Input => "input",
        OptionName::Journal => "journal",
        OptionName::Wait => "wait",
        OptionName::Devtools => "devtools",
        OptionName::Explain => "explain",
    }
}

/// Reads a word behind these.
///
/// # Errors
///
/// Why it can't stand there.
pub(crate) fn read_word<'w>(
    command: Subcommand,
    before: &[String],
    read: Read,
    word: &'w str,
) -> Result<Read, WordFault<'w>> {
    if read.ended {
        return Ok(read.with_operand(before.len()));
    }
    if let Some(option) = read.awaiting {
        return match value_fault(name_of(option), option, word) {
            Some(fault) => Err(fault),
            None => Ok(read.with_option(None)),
        };
    }
    if !is_dashed(word) {
        Ok(read.with_operand(before.len()))
    } else if word == "--" {
        Ok(read.with_end())
    } else {
        read_option(command, before, read, word)
    }
}

/// Whether a word begins with `-` and is more than that.
fn is_dashed(word: &str) -> bool {
    word != "-" && word.starts_with("-")
}

/// Reads an option behind these words.
fn read_option<'w>(
    command: Subcommand,
    before: &[String],
    read: Read,
    word: &'w str,
) -> Result<Read, WordFault<'w>> {
    let Some(text) = behind(word, "--") else {
        return Err(short_fault(command, word));
    };
    let (name, value) = match halves(text, '=') {
        Some((name, value)) => (name, Some(value)),
        None => (text, None),
    };
    let Some(option) = option_of(command, name) else {
        return Err(unknown_fault(command, word));
    };
    if is_given(before, name) {
        return Err(WordFault::Twice(name));
    }
    match (value, has_value(option)) {
        (None, true) => Ok(read.with_option(Some(option))),
        (None, false) => Ok(read.with_option(None)),
        (Some(_), false) => Err(WordFault::NoValue(name)),
        (Some(value), true) => match number_fault(name, option, value) {
            Some(fault) => Err(fault),
            None => Ok(read.with_option(None)),
        },
    }
}

/// Why a word that begins with one `-` is no option.
fn short_fault(command: Subcommand, word: &str) -> WordFault<'_> {
    if word == "-h" {
        WordFault::Help(word)
    } else {
        WordFault::Short(command, word)
    }
}

/// Why a word that begins with `--` is no option.
fn unknown_fault(command: Subcommand, word: &str) -> WordFault<'_> {
    if word == "--help" {
        WordFault::Help(word)
    } else if word == "--version" {
        WordFault::Version
    } else {
        WordFault::NoOption(command, word)
    }
}

/// The option of this name, where the command has it.
fn option_of(command: Subcommand, name: &str) -> Option<OptionName> {
    let option = option_named(name)?;
    if has_option(command, option) {
        Some(option)
    } else {
        None
    }
}

/// Whether an option of this name is one of these words, which have no `--`.
fn is_given(words: &[String], name: &str) -> bool {
    for word in words {
        if let Some(text) = behind(word.as_str(), "--") {
            let (other, _) = halves(text, '=').unwrap_or((text, ""));
            if other == name {
                return true;
            }
        }
    }
    false
}

/// Why a word is no value of the option before it.
fn value_fault<'w>(name: &'w str, option: OptionName, word: &'w str) -> Option<WordFault<'w>> {
    if is_dashed(word) {
        Some(WordFault::DashedValue { name, word })
    } else {
        number_fault(name, option, word)
    }
}

/// Why a text is no value of an option, where that takes a number.
fn number_fault<'w>(name: &'w str, option: OptionName, text: &'w str) -> Option<WordFault<'w>> {
    match option {
        OptionName::Port => range_fault(name, MOST_PORT, text),
        OptionName::Sessions => range_fault(name, MOST_SESSIONS, text),
        OptionName::Input
        | OptionName::Journal
        | OptionName::Wait
        | OptionName::Devtools
        | OptionName::Explain => None,
    }
}

/// Why a text is no number from 1 to the greatest of an option.
fn range_fault<'w>(name: &'w str, most: u64, text: &'w str) -> Option<WordFault<'w>> {
    match read_decimal(text) {
        Some(number) if 1 <= number && number <= most => None,
        _ => Some(WordFault::OutOfRange { name, most, text }),
    }
}
