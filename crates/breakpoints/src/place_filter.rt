//! A quick answer to where no place stands.

ghost use Rattle.std.specs.Prelude.{◌≡◌, ◌<◌, [], true};
ghost use Rattle.breakpoints.specs.PlaceFilter.{AreBlank, AreMarked, KeepsMarks, group_of, is_marked};

use cdp_text::position::Place;
use std::alloc::Global;
use std::marker::Model;

/// How many groups places are put into.
const GROUPS: usize = 4096;

/// Groups of places. One that isn't marked has none of the places whose groups were marked. Where there was no memory
/// for the marks, each group counts as marked.
#[derive(Drop)]
pub(crate) struct PlaceFilter {
    alloc: Global,
    // 1 for a group that is marked, else 0; none until some are marked, or where there is no memory for them
    marks: Vec<u8>,
}

impl Model for PlaceFilter {
    ghost use Rattle.std.specs.Prelude.{List, ℕ};

    ghost Value = { List ℕ };

    ghost view = { λ f. f.marks.items };
}

/// The group of a place: that of its line and its column.
fn group_of(place: Place) -> usize
    ensures value { result ≡ group_of place }
    ensures within { result < 4096 }
{
    (place.pos.line as usize * 8 + place.pos.col as usize) % GROUPS
}

impl PlaceFilter {
    /// There are no marks, so that each group counts as marked. It takes no memory.
    pub(crate) fn new(alloc: Global) -> PlaceFilter
        ensures { result ≡ [] }
    {
        PlaceFilter {
            alloc,
            marks: Vec::new(alloc),
        }
    }

    /// Whether the group of a place is marked.
    pub(crate) fn is_marked(&self, place: Place) -> bool
        ensures { result ≡ is_marked self.now place }
    {
        match self.marks.get(group_of(place)) {
            Some(mark) => *mark == 1,
            None => true,
        }
    }

    /// Marks the groups of these places and no others, or all where there is no memory for the marks.
    pub(crate) fn mark_only(&mut self, places: &[Place])
        ensures { AreMarked places.now self.new }
    {
        self.clear();
        for place in places {
            self.mark(*place);
        }
    }

    /// Takes the marks away; where there are none, it takes the memory for them, if there is some.
    fn clear(&mut self)
        ensures { AreBlank self.new }
    {
        if !self.marks.is_empty() {
            self.marks.fill(0);
            return;
        }
        if let Ok(marks) = vec![in self.alloc; 0; GROUPS] {
            self.marks = marks;
        }
    }

    /// Marks the group of a place.
    fn mark(&mut self, place: Place)
        ensures kept { KeepsMarks self.old self.new }
        ensures marked { is_marked self.new place ≡ true }
    {
        let group = group_of(place);
        if group < self.marks.len() {
            self.marks[group] = 1;
        }
    }
}
