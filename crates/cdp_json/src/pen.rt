//! Texts of JSON (RFC 8259) that are written piece by piece.

ghost use Rattle.std.specs.Prelude.{◌≡◌, [], decimal, OnErr, OnOk, string_bytes, IfOk};
ghost use Rattle.std.specs.Fmt.{signed_decimal};
ghost use Rattle.json.specs.Print as print;
ghost use Rattle.cdp_json.specs.Compact as spec;
ghost use Rattle.cdp_json.specs.Compact.{string_text};
ghost use Rattle.cdp_json.specs.Json as json;
ghost use Rattle.cdp_json.specs.Pieces.{Wrote, comma_if};
ghost use Rattle.cdp_json.specs.Views.{json_view};

use crate::compact::{put_json, put_quoted, put_string};
use crate::value::Json;
use itoa::Buffer;
use std::alloc::{AllocError, Global};
use std::marker::Model;

/// A text that is written piece by piece. Contracts see its bytes, which are UTF-8.
#[derive(Drop)]
pub struct Pen {
    text: String,
}

impl Model for Pen {
    ghost use Rattle.std.specs.Prelude.{List, ℕ, string_bytes};
    ghost use Rattle.std.specs.Coded.{coded_ℕ, coded_list};

    ghost Value = { List ℕ };

    ghost coded = { coded_list coded_ℕ };

    ghost view = { λ p. string_bytes p.text };
}

impl Pen {
    /// A pen that has written nothing. It takes no memory.
    pub fn new(alloc: Global) -> Pen
        ensures { result ≡ [] }
    {
        Pen {
            text: String::new(alloc),
        }
    }

    /// A pen that has written nothing, with room for so many bytes.
    ///
    /// # Errors
    ///
    /// There is no memory for them.
    pub fn with_room(alloc: Global, bytes: usize) -> Result<Pen, AllocError>
        ensures { IfOk result (λ pen. pen ≡ []) }
    {
        Ok(Pen {
            text: String::with_capacity(alloc, bytes)?,
        })
    }

    /// Writes a text as it is.
    ///
    /// # Errors
    ///
    /// There is no memory for it, and nothing is written.
    pub fn put(&mut self, text: &str) -> Result<(), AllocError>
        ensures put { OnOk result (Wrote self.old text.now self.new) }
        ensures kept { OnErr result (self.new ≡ self.old) }
    {
        self.text.push_str(text)
    }

    /// Writes the text that units spell, in quotes and with its escapes; a surrogate without a partner is U+FFFD.
    ///
    /// # Errors
    ///
    /// There is no memory for it, and nothing is written.
    pub fn quoted(&mut self, units: &[u16]) -> Result<(), AllocError>
        ensures put { OnOk result (Wrote self.old (string_text units.now) self.new) }
        ensures kept { OnErr result (self.new ≡ self.old) }
    {
        put_string(&mut self.text, units)
    }

    /// Writes a number as a decimal, with its sign where it is below 0.
    ///
    /// # Errors
    ///
    /// There is no memory for it, and nothing is written.
    pub fn number(&mut self, number: i64) -> Result<(), AllocError>
        ensures put { OnOk result (Wrote self.old (signed_decimal number) self.new) }
        ensures kept { OnErr result (self.new ≡ self.old) }
    {
        let mut digits = Buffer::new();
        self.text.push_str(digits.format(number))
    }

    /// Writes a number that isn't below 0 as a decimal.
    ///
    /// # Errors
    ///
    /// There is no memory for it, and nothing is written.
    pub fn natural(&mut self, number: u64) -> Result<(), AllocError>
        ensures put { OnOk result (Wrote self.old (decimal number) self.new) }
        ensures kept { OnErr result (self.new ≡ self.old) }
    {
        let mut digits = Buffer::new();
        self.text.push_str(digits.format(number))
    }

    /// Writes a number in quotes: its decimal, with its sign where it is below 0.
    ///
    /// # Errors
    ///
    /// There is no memory for it, and a part of it may have been written.
    pub fn quoted_number(&mut self, number: i64) -> Result<(), AllocError>
        ensures { OnOk result (Wrote self.old (string_text (signed_decimal number)) self.new) }
    {
        self.put("\"")?;
        self.number(number)?;
        self.put("\"")
    }

    /// Writes a number that isn't below 0 in quotes: its decimal.
    ///
    /// # Errors
    ///
    /// There is no memory for it, and a part of it may have been written.
    pub fn quoted_natural(&mut self, number: u64) -> Result<(), AllocError>
        ensures { OnOk result (Wrote self.old (string_text (decimal number)) self.new) }
    {
        self.put("\"")?;
        self.natural(number)?;
        self.put("\"")
    }

    /// Writes a text in quotes and with its escapes.
    ///
    /// # Errors
    ///
    /// There is no memory for it, and nothing is written.
    pub fn quoted_str(&mut self, text: &str) -> Result<(), AllocError>
        ensures put { OnOk result (Wrote self.old (print.quoted text.now) self.new) }
        ensures kept { OnErr result (self.new ≡ self.old) }
    {
        put_quoted(&mut self.text, text)
    }

    /// Writes a comma, if another value stands before what follows.
    ///
    /// # Errors
    ///
    /// There is no memory for it, and nothing is written.
    pub fn comma(&mut self, behind: bool) -> Result<(), AllocError>
        ensures put { OnOk result (Wrote self.old (comma_if behind) self.new) }
        ensures kept { OnErr result (self.new ≡ self.old) }
    {
        if behind { self.put(",") } else { Ok(()) }
    }

    /// Writes a truth value.
    ///
    /// # Errors
    ///
    /// There is no memory for it, and nothing is written.
    pub fn boolean(&mut self, value: bool) -> Result<(), AllocError>
        ensures put { OnOk result (Wrote self.old (spec.compact_text (json.boolean value)) self.new) }
        ensures kept { OnErr result (self.new ≡ self.old) }
    {
        if value {
            self.text.push_str("true")
        } else {
            self.text.push_str("false")
        }
    }

    /// Writes a value.
    ///
    /// # Errors
    ///
    /// There is no memory for it, and a part of it may have been written.
    pub fn json(&mut self, value: &Json) -> Result<(), AllocError>
        ensures { OnOk result (Wrote self.old (spec.compact_text (json_view value.now)) self.new) }
    {
        put_json(&mut self.text, value)
    }

    /// The text that was written. It takes no memory.
    pub fn finish(self) -> String
        ensures { string_bytes result ≡ self }
    {
        self.text
    }
}
