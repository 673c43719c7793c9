//! The laws of conversations. Each function does nothing: its contract is the law.

ghost use Rattle.std.specs.Prelude.{◌≡◌, ◌+◌, ◌-◌, ◌++◌, ℕ, List, Ok, is_some, length};
ghost use Rattle.cdp_edge_server.specs.Heard.{Heard};
ghost use Rattle.cdp_client.specs.Lines.{Line, file_read};
ghost use Rattle.cdp_client.specs.Numbers.{AreNumbered, replies_in, texts_of};
ghost use Rattle.cdp_client.specs.Talks.{Course, goes_on, silent, start, talk_from};
ghost use Rattle.cdp_client.specs.Waits.{events_of, one_if, waits_for};

/// Each event meets the first wait for its method that isn't met yet, and nothing else meets a wait. So the k-th wait for a
/// method is met when k events of it have arrived.
pub fn waits_are_met_by_events()
    ensures { (course : Course) (answers : List Heard) (method : List ℕ)
        → waits_for method (talk_from course answers).course.lines
        ≡ waits_for method course.lines - events_of method (goes_on (silent course)) answers }
{}

/// The commands of a file are numbered from 1, and what a conversation by it tells as the number of replies is how many
/// awaited replies it heard.
pub fn replies_are_counted()
    ensures numbered { (file : List ℕ) (lines : List Line) → file_read file ≡ Ok lines → AreNumbered 1 lines }
    ensures counted { (lines : List Line) (answers : List Heard) → AreNumbered 1 lines
        → (talk_from (start lines) answers).course.replies ≡ replies_in (goes_on (silent (start lines))) answers }
{}

/// The texts that are sent are those of the commands, in the order of the file, each after the reply to the one before it:
/// so many were sent as were answered, and one more where a reply is awaited.
pub fn commands_are_sent_in_order()
    ensures texts { (course : Course) (answers : List Heard)
        → (talk_from course answers).sent ++ texts_of (talk_from course answers).course.lines ≡ texts_of course.lines }
    ensures one_by_one { (lines : List Line) (answers : List Heard)
        → length (talk_from (start lines) answers).sent
        ≡ replies_in (goes_on (silent (start lines))) answers + one_if (is_some (talk_from (start lines) answers).course.awaited) }
{}
