//! Where a record stands.

ghost use Rattle.std.specs.Prelude.{◌≡◌};
ghost use Rattle.cdp_host_record.specs.Recordings.{is_going, is_lost};

/// Where the record of a history stands.
#[derive(Clone, Copy)]
pub enum RecordState {
    /// It goes on with its history.
    Going,
    /// It has ended: an entry came that no line tells. Its last line is `memory`. It is the record of its history, however
    /// that goes on.
    Ended,
    /// It is lost: there was no memory for a line. Its last line is `memory`.
    Lost,
}

/// Whether a record goes on that stands so.
pub(crate) fn is_going(state: RecordState) -> bool
    ensures { result ≡ is_going state }
{
    match state {
        RecordState::Going => true,
        RecordState::Ended | RecordState::Lost => false,
    }
}

/// Whether it is lost.
pub(crate) fn is_lost(state: RecordState) -> bool
    ensures { result ≡ is_lost state }
{
    match state {
        RecordState::Going | RecordState::Ended => false,
        RecordState::Lost => true,
    }
}
