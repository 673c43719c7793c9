//! What a record asks of a host.

ghost use Rattle.std.specs.Prelude.{◌≡◌, ℕ, List};
ghost use Rattle.cdp_host_isolation.specs.Histories.{Entry as AnyEntry};
ghost use Rattle.cdp_host_isolation.specs.Seats.{is_attached, seat_of, some, waits_for_report};
ghost use Rattle.cdp_host_turns.specs.Debuggings.{meaning};

use cdp_host_turns::Hosted;

/// A host whose history can be recorded. It tells before a call whether the call's entry has a line.
pub trait Recordable<B>: Hosted<B> {
    /// Whether its history means that this session is attached. A session that a resume lost for want of memory is,
    /// until a run tells of that or its owner detaches it, though it is no longer attached to the host.
    fn means_attached(&self, session: u64) -> bool
        ensures { (h : List (ℕ × AnyEntry)) → Self.stands self.now h
            → result ≡ is_attached (seat_of session (meaning Self.debugs h).seats) };

    /// Whether its history means that a run has to report a session that was lost.
    fn owes_report(&self) -> bool
        ensures { (h : List (ℕ × AnyEntry)) → Self.stands self.now h
            → result ≡ some waits_for_report (meaning Self.debugs h).seats };
}
