//! The breakpoints at a place.

use crate::breakpoint::Breakpoint;
use cdp_text::position::Place;

/// The breakpoints at a place that are still to come, in the order in which they were set.
#[derive(Clone, Copy)]
pub struct Hits<'b> {
    pub(crate) left: &'b [Breakpoint],
    pub(crate) place: Place,
}

impl<'b> Iterator for Hits<'b> {
    ghost use Rattle.std.specs.Iterator.{YieldsFirstRef, item_count};
    ghost use Rattle.breakpoints.specs.Hits.{hits_in};

    type Item = &'b Breakpoint;

    ghost next_gives = { YieldsFirstRef (λ h. hits_in h.place h.left.now) };

    ghost remaining = { item_count (λ h. hits_in h.place h.left.now) };

    fn next(&mut self) -> Option<&'b Breakpoint> {
        while let Some((first, others)) = self.left.split_first() {
            self.left = others;
            if first.stands_at(self.place) {
                return Some(first);
            }
        }
        None
    }
}
