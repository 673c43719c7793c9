//! Lines and columns of a text of UTF-16 units, by the line terminators of ECMA-262.
//!
//! Lines and columns count from 0, and a column counts units. A CR before an LF is one more unit of its line, and the
//! LF ends the line.
ghost use Rattle.std.specs.Prelude.{◌≡◌, ℕ, ◌+◌, ◌^◌, ◌<◌, ◌≤◌, ◌↔◌, false, length, IsTrue, IsNone, IfSome, MatchOption, Some};
ghost use Rattle.cdp_text.specs.Position.{is_line_terminator, is_inside_cr_lf, ends_line, position, line_from, IsBefore, IsPlaceBefore, IsOffset, IsPastLine};

const LINE_FEED: u16 = 0x000A;

const CARRIAGE_RETURN: u16 = 0x000D;

const LINE_SEPARATOR: u16 = 0x2028;

const PARAGRAPH_SEPARATOR: u16 = 0x2029;

/// A position in a text: a line and a column in UTF-16 units, both counted from 0. Ordered by line, then column.
#[derive(Clone, Copy, Debug, PartialEq, Eq, PartialOrd, Ord)]
pub struct Pos {
    /// The line, counted from 0.
    pub line: u32,
    /// The column in UTF-16 units, counted from 0.
    pub col: u32,
}

/// A position in one of several scripts. Ordered by script, then position.
#[derive(Clone, Copy, PartialEq, Eq, PartialOrd, Ord)]
pub struct Place {
    /// The number of the script.
    pub script: u32,
    /// The position in it.
    pub pos: Pos,
}

impl Pos {
    /// Whether this position is on an earlier line than the other, or before it on the same line.
    pub fn is_before(self, other: Pos) -> bool
        ensures { IsTrue result ↔ IsBefore self other }
    {
        self < other
    }
}

impl Place {
    /// Whether this place is in an earlier script than the other, or before it in the same script.
    pub fn is_before(self, other: Place) -> bool
        ensures { IsTrue result ↔ IsPlaceBefore self other }
    {
        self < other
    }
}

/// Whether a unit is a line terminator: LF, CR, U+2028 or U+2029 (ECMA-262, section 12.3).
pub fn is_line_terminator(unit: u16) -> bool
    ensures { result ≡ is_line_terminator unit }
{
    matches!(
        unit,
        LINE_FEED | CARRIAGE_RETURN | LINE_SEPARATOR | PARAGRAPH_SEPARATOR
    )
}

/// Whether an offset stands between a CR and its LF.
pub(crate) fn is_inside_cr_lf(u: &[u16], offset: usize) -> bool
    ensures { result ≡ is_inside_cr_lf u.now offset }
{
    0 < offset && offset < u.len() && u[offset - 1] == CARRIAGE_RETURN && u[offset] == LINE_FEED
}

// Whether the unit at `i` ends its line.
pub(crate) fn ends_line(u: &[u16], i: usize) -> bool
    requires { i < length u.now }
    ensures { result ≡ ends_line u.now i }
{
    is_line_terminator(u[i]) && !is_inside_cr_lf(u, i + 1)
}

/// The position of an offset in units, which may be the length of the text. One pass over the units before it.
#[tactic(auto, using(crate::proofs::PositionLemmas::steps))]
pub fn pos_at(u: &[u16], offset: usize) -> Pos
    requires within { offset ≤ length u.now }
    requires short { length u.now < 2 ^ 32 }
    ensures exact { result ≡ position u.now offset }

    // Outside a CR LF `offset_at` undoes it.
    ensures undone { is_inside_cr_lf u.now offset ≡ false → IsOffset u.now result offset }
{
    let mut pos = Pos { line: 0, col: 0 };
    for i in 0..offset {
        if ends_line(u, i) {
            pos.line += 1;
            pos.col = 0;
        } else {
            pos.col += 1;
        }
    }
    pos
}

/// The offset in units of a position, outside a CR LF. `None` where the line isn't there, or the column is
/// past the line's end without its terminator.
pub fn offset_at(u: &[u16], p: Pos) -> Option<usize>
    ensures found { IfSome result (λ i. IsOffset u.now p i) }

    // It undoes `pos_at` outside a CR LF: each offset of the position is the one that is found.
    ensures undoes { (i : ℕ) → IsOffset u.now p i → result ≡ Some i }
    ensures none { IsNone result ↔ IsPastLine u.now p }
{
    let start = line_start(u, p.line as usize)?;
    let offset = start + p.col as usize;
    if offset <= line_end(u, start) {
        Some(offset)
    } else {
        None
    }
}

// The offset at which a line begins, if it is there.
#[tactic(auto, using(crate::proofs::PositionLemmas::steps))]
fn line_start(u: &[u16], line: usize) -> Option<usize>
    ensures { MatchOption result ((position u.now (length u.now)).line < line) (λ start. (start ≤ length u.now) × (position u.now start ≡ record { line = line; col = 0 })) }
{
    if line == 0 {
        return Some(0);
    }
    let mut ended = 0;
    for i in 0..u.len() {
        if ends_line(u, i) {
            ended += 1;
            if ended == line {
                return Some(i + 1);
            }
        }
    }
    None
}

// The end of the line that begins at `start`, without its terminator.
fn line_end(u: &[u16], start: usize) -> usize
    requires { start ≤ length u.now }
    ensures { result ≡ start + length (line_from u.now start) }
{
    for i in start..u.len() {
        if is_line_terminator(u[i]) {
            return i;
        }
    }
    u.len()
}
