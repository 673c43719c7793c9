//! Texts as they are shown: without control characters, and cut where they are long.

use std::fmt;

/// The most characters of a text in quotes.
const MOST_QUOTED: usize = 60;

/// The most characters of a line.
const MOST_IN_LINE: usize = 100;

/// A character as it is shown: a control character other than a tab as U+FFFD.
pub(crate) fn shown(character: char) -> char {
    if character.is_control() && character != '\t' {
        char::REPLACEMENT_CHARACTER
    } else {
        character
    }
}

/// The first characters of a text, so many of them, and `...` where it has more.
#[derive(Clone, Copy)]
pub(crate) struct Cut<'t> {
    text: &'t str,
    most: usize,
}

impl<'t> Cut<'t> {
    /// A whole text.
    pub(crate) fn none(text: &'t str) -> Cut<'t> {
        Cut {
            text,
            most: usize::MAX,
        }
    }

    /// What stands in a line behind so many characters.
    pub(crate) fn line(text: &'t str, before: usize) -> Cut<'t> {
        Cut {
            text,
            most: MOST_IN_LINE.saturating_sub(before),
        }
    }
}

impl fmt::Display for Cut<'_> {
    fn fmt<W: fmt::Write>(&self, f: &mut fmt::Formatter<W>) -> fmt::Result {
        for (index, character) in self.text.chars().enumerate() {
            if index == self.most {
                return f.write_str("...");
            }
            f.write_char(shown(character))?;
        }
        Ok(())
    }
}

/// A text in quotes, cut where it is long.
#[derive(Clone, Copy)]
pub(crate) struct Quoted<'t>(pub(crate) &'t str);

impl fmt::Display for Quoted<'_> {
    fn fmt<W: fmt::Write>(&self, f: &mut fmt::Formatter<W>) -> fmt::Result {
        let text = Cut {
            text: self.0,
            most: MOST_QUOTED,
        };
        write!(f, "'{text}'")
    }
}
