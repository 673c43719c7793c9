//! The laws of journals. Each function does nothing: its contract is the law.

ghost use Rattle.std.specs.Prelude.{◌≡◌, ◌<◌, ◌^◌, ℕ, List, None, Some, All, codes, false, filter, map, nat_eq, true};
ghost use Rattle.std.specs.List.{starts_with};
ghost use Rattle.cdp_text.specs.Lines.{ended, lines_of};
ghost use Rattle.cdp_journal.specs.Drills.{drill_journal, drill_steps};
ghost use Rattle.cdp_journal.specs.Fronts.{behind_each};
ghost use Rattle.cdp_journal.specs.Lines.{IsLine, Line, is_memory, is_tellable, line_of, line_text};
ghost use Rattle.cdp_journal.specs.Summaries.{RunLine, printed_lines, ran_of, ran_text, runs_of};

/// A journal that is written line by line is cut into just these lines, and where each of them is in form, it is read
/// as what was written. What a journal can tell is in form; the line `memory` is none of these.
pub fn written_journals_are_read()
    ensures cut { (lines : List Line) → lines_of (ended (map line_text lines)) ≡ map line_text lines }
    ensures read { (lines : List Line) → All (λ line. IsLine (line_text line) line) lines
        → map line_of (lines_of (ended (map line_text lines))) ≡ map (λ line. Some line) lines }
    ensures told { (line : Line) → is_tellable line ≡ true → IsLine (line_text line) line }
    ensures memory { (text : List ℕ) → is_memory text ≡ true → line_of text ≡ None }
    ensures others { (line : Line) → IsLine (line_text line) line → is_memory (line_text line) ≡ false }
{}

/// The journal of a drill is cut into the lines of its steps. Each of them is in form, so the journal is read as these
/// steps.
pub fn drills_are_journals()
    ensures cut { (n : ℕ) → lines_of (drill_journal n) ≡ map line_text (drill_steps n) }
    ensures form { (n : ℕ) → n < 2 ^ 53 → All (λ line. IsLine (line_text line) line) (drill_steps n) }
    ensures read { (n : ℕ) → n < 2 ^ 53
        → map line_of (lines_of (drill_journal n)) ≡ map (λ line. Some line) (drill_steps n) }
{}

/// The lines that a summary repeats are those that begin with `out `. What a `ran ` line tells behind that word is read
/// as a run exactly where it is a number below 2^64, a space and a state; so the runs of lines that tell of runs are
/// these.
pub fn summaries_tell_lines()
    ensures printed { (lines : List (List ℕ))
        → printed_lines lines ≡ filter (λ line. starts_with nat_eq line (codes "out ")) lines }
    ensures is { (told : List ℕ) (run : RunLine) → ran_of told ≡ Some run → (told ≡ ran_text run) × (run.steps < 2 ^ 64) }
    ensures read { (run : RunLine) → run.steps < 2 ^ 64 → ran_of (ran_text run) ≡ Some run }
    ensures runs { (lines : List (List ℕ)) (runs : List RunLine) → All (λ run. run.steps < 2 ^ 64) runs
        → behind_each (codes "ran ") lines ≡ map ran_text runs → runs_of lines ≡ runs }
{}
