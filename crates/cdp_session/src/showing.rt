//! How the values of evaluations are described.

ghost use Rattle.std.specs.Prelude.{◌≡◌};
ghost use Rattle.cdp_session.specs.Evaluations.{detail_of};

use cdp_text::units::Units;
use remote_objects::Detail;

/// How the value to which an evaluation comes is to be described: by value, or else with a handle in this group or in
/// none, and with or without a preview.
#[derive(Drop)]
pub(crate) struct Showing {
    pub(crate) group: Option<Units>,
    pub(crate) by_value: bool,
    pub(crate) detail: Detail,
}

/// Whether objects are described with previews.
pub(crate) fn detail_of(preview: bool) -> Detail
    ensures { result ≡ detail_of preview }
{
    if preview {
        Detail::Previewed
    } else {
        Detail::Plain
    }
}
