//! A table of where the lines of a text begin, by which a position costs a search and no walk through the text.
ghost use Rattle.std.specs.Prelude.{◌≡◌, ℕ, ◌+◌, ◌-◌, ◌^◌, ◌<◌, ◌≤◌, ◌↔◌, false, length, slice_get, slice_index, unwrap_or, IfOk, IfSome, IsNone, Some};
ghost use Rattle.cdp_text.specs.Position.{is_inside_cr_lf, position, line_starts, IsOffset, IsPastLine};

use crate::position::{Pos, ends_line, is_inside_cr_lf};
use std::alloc::{AllocError, Global};
use std::marker::Model;

/// Where the lines of one text begin. Each call takes the text that the table was made of.
#[derive(Drop)]
pub struct LineTable {
    starts: Vec<usize>,
}

impl Model for LineTable {
    ghost use Rattle.std.specs.Prelude.{List, ℕ};
    ghost use Rattle.std.specs.Coded.{coded_ℕ, coded_list};

    ghost Value = { List ℕ };

    ghost coded = { coded_list coded_ℕ };

    ghost view = { λ table. table.starts.items };
}

impl LineTable {
    /// The table of a text, made in one pass. It holds one number for each line.
    #[tactic(auto, using(crate::proofs::LineTableLemmas::starting))]
    pub fn new(alloc: Global, u: &[u16]) -> Result<LineTable, AllocError>
        ensures { IfOk result (λ table. table ≡ line_starts u.now) }
    {
        let mut starts = Vec::new(alloc);
        starts.push(0)?;
        for i in 0..u.len() {
            if ends_line(u, i) {
                starts.push(i + 1)?;
            }
        }
        Ok(LineTable { starts })
    }

    /// The position of an offset, as `position::pos_at` gives it.
    pub fn pos_at(&self, u: &[u16], offset: usize) -> Pos
        requires of_text { self.now ≡ line_starts u.now }
        requires within { offset ≤ length u.now }
        requires short { length u.now < 2 ^ 32 }
        ensures exact { result ≡ position u.now offset }

        // Outside a CR LF `offset_at` undoes it.
        ensures undone { is_inside_cr_lf u.now offset ≡ false → IsOffset u.now result offset }
    {
        let line = self.line_at(u, offset);
        Pos {
            line: line as u32,
            col: (offset - self.starts[line]) as u32,
        }
    }

    /// The offset of a position, as `position::offset_at` gives it.
    pub fn offset_at(&self, u: &[u16], p: Pos) -> Option<usize>
        requires of_text { self.now ≡ line_starts u.now }
        ensures found { IfSome result (λ i. IsOffset u.now p i) }

        // It undoes `pos_at` outside a CR LF: each offset of the position is the one that is found.
        ensures undoes { (i : ℕ) → IsOffset u.now p i → result ≡ Some i }
        ensures none { IsNone result ↔ IsPastLine u.now p }
    {
        let line = p.line as usize;
        let start = self.start_of(line)?;
        let offset = start + p.col as usize;
        let next_start = self.start_or_end(u, line + 1);
        if offset < next_start && !is_inside_cr_lf(u, offset) {
            Some(offset)
        } else {
            None
        }
    }

    // The line of an offset.
    fn line_at(&self, u: &[u16], offset: usize) -> usize
        requires of_text { self.now ≡ line_starts u.now }
        requires within { offset ≤ length u.now }
        ensures in_table { result < length self.now }
        ensures from { slice_index self.now result ≤ offset }
        ensures placed { position u.now offset ≡ record { line = result; col = offset - slice_index self.now result } }
    {
        prove!(offset <= u.len());
        match self.starts.binary_search(&offset) {
            Ok(line) => line,
            Err(next) => next - 1,
        }
    }

    // Where a line begins, if it is there.
    fn start_of(&self, line: usize) -> Option<usize>
        ensures { result ≡ slice_get self.now line }
    {
        self.starts.get(line).copied()
    }

    // Where a line begins, or the first offset past the text if it isn't there.
    fn start_or_end(&self, u: &[u16], line: usize) -> usize
        ensures { result ≡ unwrap_or (slice_get self.now line) (length u.now + 1) }
    {
        self.start_of(line).unwrap_or(u.len() + 1)
    }
}
