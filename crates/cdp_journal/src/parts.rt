//! What stands behind a front of bytes that may be no text.

ghost use Rattle.std.specs.Prelude.{◌≡◌};
ghost use Rattle.std.specs.Option.{option_map};
ghost use Rattle.cdp_text.specs.Parts.{behind};

/// What stands behind this front; None where the bytes don't begin with it.
pub(crate) fn behind<'b>(bytes: &'b [u8], front: &[u8]) -> Option<&'b [u8]>
    ensures { option_map (λ rest. rest.now) result ≡ behind front.now bytes.now }
{
    bytes.strip_prefix(front)
}
