//! A door is where links arrive. It counts its faults and the calls that ask it, and may tell the links that it took
//! back.

ghost use Rattle.std.specs.Prelude.{◌≡◌, ◌≢◌, ◌≤◌, ◌+◌, ◌∷◌, [], ℕ, List, Option, Bool, true, false};
ghost use Rattle.cdp_edge.specs.Outside.{IfTold, Rose, one_more};
ghost use Rattle.cdp_edge_server.specs.Contents.{Spoken, adds, becomes};
ghost use Rattle.cdp_edge_server.specs.Doors.{AnswersOf, IsArrived, out_after};

use crate::Link;

/// What a door answers that is asked for a link.
#[derive(Drop)]
pub enum DoorAnswer<L> {
    /// A link that arrived.
    Arrived(L),
    /// Nobody had arrived.
    Quiet,
    /// The door failed, and its count rose.
    Failed,
    /// No memory was left for the call.
    Memory,
}

/// Where links arrive, one after another.
pub trait Door: Drop {
    /// The links that arrive here.
    type Link: Link;

    /// How often a call has failed; it stays at the greatest `u64`.
    ghost faults: { Self → ℕ };

    /// How often it was asked for a link; it stays at the greatest `u64`.
    ghost asked: { Self → ℕ };

    /// How many links have arrived and were not given, where that is told.
    ghost waiting: { Self → Option ℕ };

    /// The links that it took back, in order, where they are told.
    ghost served: { Self → Option (List Spoken) };

    /// Whether a link is out, where that is told.
    ghost is_out: { Self → Option Bool };

    /// The next link, if one has arrived.
    ///
    /// `Failed` comes only where the count rose, or stands at the greatest `u64`.
    fn next(&mut self) -> DoorAnswer<Self::Link>
        requires none_out { IfTold (is_out self.old) (λ out. out ≡ false) }
        ensures unused { IsArrived (λ link. record {
          faults = Self.Link.faults link;
          answers = Self.Link.answers link;
          sent = Self.Link.sent link;
          closed = Self.Link.closed link;
        }) result }
        ensures waiting { AnswersOf result (waiting self.old) (waiting self.new) }
        ensures out { is_out self.new ≡ out_after result (is_out self.old) }
        ensures asked { asked self.new ≡ one_more (asked self.old) }
        ensures served { served self.new ≡ served self.old }
        ensures count { faults self.old ≤ faults self.new }
        ensures quiet { result ≢ DoorAnswer.Failed → faults self.new ≡ faults self.old }
        ensures failed { result ≡ DoorAnswer.Failed → Rose (faults self.old) (faults self.new) };

    /// Takes back a link that was served. It takes no memory.
    fn back(&mut self, link: Self::Link)
        requires out { IfTold (is_out self.old) (λ out. out ≡ true) }
        ensures served { served self.new ≡ adds (served self.old) (record {
          faults = Self.Link.faults link;
          answers = Self.Link.answers link;
          sent = Self.Link.sent link;
          closed = Self.Link.closed link;
        } ∷ []) }
        ensures home { is_out self.new ≡ becomes (is_out self.old) false }
        ensures waiting { waiting self.new ≡ waiting self.old }
        ensures asked { asked self.new ≡ asked self.old }
        ensures count { faults self.new ≡ faults self.old };
}
