//! Texts: UTF-16 units with line and column positions, and texts as bytes with their decimals, lines and parts.
//!
//! Its words in contracts:
//!
//! - *units*: a text as UTF-16 code units; `utf16_of` and `utf8_of` go between units and bytes
//! - *code units*: what a text is a list of, bytes of UTF-8 or units of UTF-16; `C.code` is the number of one
//! - *position*: a line and a column, counted from 0, as a fold over the units before an offset; `IsOffset` says that
//!   an offset is a position's, and `IsPastLine` that there is none
//! - `line_starts`: the offsets at which lines begin, which is what a table of lines is seen as
//! - `decimal_value`: the number whose shortest decimal text this is
//! - `lines_of`, `behind`, `halves`: the lines of a text, what stands behind a front of it, and around its first such
//!   byte
#![tactic(auto)]

pub mod code_unit;
pub mod decimal;
pub mod line_table;
pub mod lines;
pub mod parts;
pub mod position;
pub mod units;
