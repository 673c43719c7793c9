//! What all frames of a stop share: the group of what is described there, and the URLs of scripts.

ghost use Rattle.std.specs.Prelude.{◌≡◌, option_copied};
ghost use Rattle.remote_objects.specs.CallFrames as listing;

use js_tree::script::Script;

/// `backtrace`
static BACKTRACE: [u16; 9] = [98, 97, 99, 107, 116, 114, 97, 99, 101];

/// The group of what is described at a stop, which ends when the program goes on.
pub fn backtrace() -> &'static [u16]
    ensures { result.now ≡ listing.backtrace }
{
    &BACKTRACE
}

/// The URL of a script; that of none is empty.
pub fn url_of(script: Option<&Script>) -> &[u16]
    ensures { result.now ≡ listing.url_of (option_copied script.entry) }
{
    match script {
        None => &[],
        Some(script) => script.url.as_slice(),
    }
}
