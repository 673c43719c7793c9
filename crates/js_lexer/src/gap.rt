//! The gap at the front: white space, line terminators and comments.

ghost use Rattle.std.specs.Prelude.{◌≡◌, ◌≤◌, ◌<◌, length};
ghost use Rattle.js_lexer.specs.Scanning.{line_len, before_close, gap_piece, gap_len};
ghost use Rattle.js_lexer.specs.Gaps as spec;

use crate::classes::is_blank;
use crate::spelling::begins_with;
use cdp_text::position::is_line_terminator;

/// How many units stand before the first line terminator or the end.
fn line_len(units: &[u16]) -> usize
    ensures value { result ≡ line_len units.now }
    ensures within { result ≤ length units.now }
{
    for (i, u) in units.iter().enumerate() {
        if is_line_terminator(*u) {
            return i;
        }
    }
    units.len()
}

/// How many units stand before the first `*/`, or all where there is none.
fn before_close(units: &[u16]) -> usize
    ensures value { result ≡ before_close units.now }
    ensures within { result ≤ length units.now }
{
    let mut rest = units;
    let mut len = 0;
    while let [_, after @ ..] = rest {
        if begins_with(rest, "*/") {
            return len;
        }
        len += 1;
        rest = after;
    }
    len
}

/// How long the white space, line terminator or comment at the front is; 0 where none is there.
#[tactic(auto, using(crate::proofs::GapLemmas::close_fits))]
fn piece(units: &[u16]) -> usize
    ensures value { result ≡ gap_piece units.now }
    ensures within { result ≤ length units.now }
{
    match units {
        [u, ..] if is_blank(*u) => 1,
        _ if begins_with(units, "//") => line_len(units),
        [_, _, body @ ..] if begins_with(units, "/*") => {
            let len = before_close(body);
            if len < body.len() { len + 4 } else { 0 }
        }
        _ => 0,
    }
}

/// How long the gap at the front is.
#[tactic(auto, using(crate::proofs::RunLemmas::run_steps), unfolding(crate::specs::Scanning::gap_len))]
pub fn gap_len(units: &[u16]) -> usize
    ensures value { result ≡ gap_len units.now }
    ensures within { result ≤ length units.now }
{
    let mut rest = units;
    let mut len = 0;
    loop {
        let here = piece(rest);
        if here == 0 {
            return len;
        }
        let (_, after) = rest.split_at(here);
        len += here;
        rest = after;
    }
}

/// Whether a gap holds a line terminator, also within a comment.
pub fn has_line_terminator(gap: &[u16]) -> bool
    ensures { result ≡ spec.has_line_terminator gap.now }
{
    gap.iter().any(|u| is_line_terminator(*u))
}
