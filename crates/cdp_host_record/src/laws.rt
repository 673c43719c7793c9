//! The laws of records. Each function does nothing: its contract is the law, for every protocol and every history.
//! Programs, pauses, sessions and what steps tell are numbers here; the lemmas of `proofs/` say the same of any types.

ghost use Rattle.std.specs.Prelude.{◌≡◌, ℕ, List, [], ◌∷◌, ◌++◌, map, Bool, true, false, ◌||◌, not, Some};
ghost use Rattle.cdp_text.specs.Lines.{lines_of};
ghost use Rattle.cdp_journal.specs.Lines.{line_of, line_text, memory_text};
ghost use Rattle.cdp_host_isolation.specs.Histories.{Entry, FitsAll, whole};
ghost use Rattle.cdp_host_isolation.specs.Meanings.{Meaning, begin};
ghost use Rattle.cdp_host_isolation.specs.Protocols.{Protocol};
ghost use Rattle.cdp_host_isolation.specs.Seats.{is_attached, seat_of, some, waits_for_report};
ghost use Rattle.cdp_host_isolation.specs.Standing.{BrokenAs, StandsAs, fell};
ghost use Rattle.cdp_host_isolation.specs.declared.seat.Seat.{Seat};
ghost use Rattle.cdp_host_isolation.specs.Stops.{KeepsEnabled};
ghost use Rattle.cdp_host_record.specs.Records.{bytes_of, ends_record, has_ended, lines_at, lines_from, memory_line, recorded_from};
ghost use Rattle.cdp_host_record.specs.Recordings.{Holds, is_going};
ghost use Rattle.cdp_host_record.specs.Replays.{KeepsUntouched, PlaysFirst};
ghost use Rattle.cdp_host_record.specs.Standing.{still_waits};
ghost use Rattle.cdp_host_record.specs.declared.state.RecordState.{RecordState};

/// The record of a history that goes on by one entry has that entry's lines more. Where the entry ends it, it has the line
/// `memory` in their place, and nothing that follows is told.
pub fn records_grow_by_lines()
    ensures more { (P : Protocol ℕ ℕ ℕ ℕ) (c : ℕ) (wait : Bool) (history : List Entry) (entry : Entry)
        → has_ended P (begin c wait) history ≡ false
        → ends_record P (whole P c wait history) entry ≡ false
        → recorded_from P (begin c wait) (history ++ entry ∷ [])
        ≡ recorded_from P (begin c wait) history ++ bytes_of (lines_at P (whole P c wait history) entry) }
    ensures last { (P : Protocol ℕ ℕ ℕ ℕ) (c : ℕ) (wait : Bool) (history more : List Entry) (entry : Entry)
        → has_ended P (begin c wait) history ≡ false
        → ends_record P (whole P c wait history) entry ≡ true
        → recorded_from P (begin c wait) (history ++ entry ∷ more)
        ≡ recorded_from P (begin c wait) history ++ memory_line }
{}

/// A record is cut into the lines of its entries, and its last line is `memory` where an entry ends it. Each of the others
/// is read as the line that was written.
pub fn records_are_journals()
    ensures cut { (P : Protocol ℕ ℕ ℕ ℕ) (c : ℕ) (wait : Bool) (history : List Entry)
        → has_ended P (begin c wait) history ≡ false
        → lines_of (recorded_from P (begin c wait) history)
        ≡ map line_text (lines_from P (begin c wait) history) }
    ensures last { (P : Protocol ℕ ℕ ℕ ℕ) (c : ℕ) (wait : Bool) (history : List Entry)
        → has_ended P (begin c wait) history ≡ true
        → lines_of (recorded_from P (begin c wait) history)
        ≡ map line_text (lines_from P (begin c wait) history) ++ memory_text ∷ [] }
    ensures read { (P : Protocol ℕ ℕ ℕ ℕ) (c : ℕ) (wait : Bool) (history : List Entry)
        → map line_of (map line_text (lines_from P (begin c wait) history))
        ≡ map (λ line. Some line) (lines_from P (begin c wait) history) }
{}

/// The record of any history, when it is played, does what the history did, or what a first part of it did where an entry
/// ends the record: no line is refused, the program and its sessions come to the same, and each session is handed the same
/// texts, in order.
pub fn records_play_again()
    ensures { (P : Protocol ℕ ℕ ℕ ℕ) (c : ℕ) (wait : Bool) (history : List Entry)
        → KeepsEnabled P
        → KeepsUntouched P
        → FitsAll P (begin c wait) history
        → PlaysFirst P (begin c wait) history (has_ended P (begin c wait) history)
        (recorded_from P (begin c wait) history) }
{}

/// What a host holds as the record of a history does, when it is played, what a first part of the history did: all of
/// it, while the record goes on. No line of it is refused, and the line `memory` is the last.
pub fn held_records_play_again()
    ensures { (P : Protocol ℕ ℕ ℕ ℕ) (c : ℕ) (wait : Bool) (history : List Entry) (state : RecordState) (bytes : List ℕ)
        → KeepsEnabled P
        → KeepsUntouched P
        → FitsAll P (begin c wait) history
        → Holds P (begin c wait) history state bytes
        → PlaysFirst P (begin c wait) history (not (is_going state)) bytes }
{}

/// A host that stands for a history can tell what its record asks. A session is attached there where it is attached to
/// the host, or fell; and a run has to report somebody there where one of the host's losses waits for that which isn't
/// for want of memory.
pub fn standing_hosts_can_tell()
    ensures attached { (host m : Meaning ℕ ℕ ℕ) (s : ℕ) → StandsAs host m → some fell m.seats ≡ false
        → is_attached (seat_of s m.seats) ≡ (is_attached (seat_of s host.seats) || fell (seat_of s host.seats)) }
    ensures owed { (host m : Meaning ℕ ℕ ℕ) → StandsAs host m → some fell m.seats ≡ false
        → some waits_for_report m.seats ≡ some still_waits host.seats }
    // and behind want of memory in a run
    ensures broken_attached { (seats means : List (Seat ℕ)) (s : ℕ) → BrokenAs seats means
        → is_attached (seat_of s means) ≡ (is_attached (seat_of s seats) || fell (seat_of s seats)) }
    ensures broken_owed { (seats means : List (Seat ℕ)) → BrokenAs seats means
        → some waits_for_report means ≡ some still_waits seats }
{}
