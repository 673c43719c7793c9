//! Who may dial. Any page that a user has open in a browser may dial a port of this machine, and the browser says where
//! the page comes from (`Origin`) and which host it thinks that it speaks to (`Host`).

ghost use Rattle.std.specs.Prelude.{◌≡◌};
ghost use Rattle.std.specs.List.{list_all};
ghost use Rattle.std.specs.Char.{is_ascii_digit};
ghost use Rattle.cdp_door.specs.Callers.{is_port, is_host, is_own_host, has_foreign_host, is_own_origin, has_foreign_origin};

use crate::fields::{Fields, is_same};

/// Whether a host is named that isn't this machine.
pub fn has_foreign_host(fields: &Fields<'_, '_>) -> bool
    ensures { result ≡ has_foreign_host fields.now }
{
    match fields.first("host") {
        Some(host) => !is_own_host(host),
        None => false,
    }
}

/// Whether an origin is named that isn't a browser's own tools.
pub fn has_foreign_origin(fields: &Fields<'_, '_>) -> bool
    ensures { result ≡ has_foreign_origin fields.now }
{
    match fields.first("origin") {
        Some(origin) => !is_own_origin(origin),
        None => false,
    }
}

/// Whether a value of `Origin` is one of a browser's own tools.
fn is_own_origin(origin: &[u8]) -> bool
    ensures { result ≡ is_own_origin origin.now }
{
    origin.strip_prefix(b"devtools://").is_some()
}

/// Whether a value of `Host` names this machine.
fn is_own_host(host: &[u8]) -> bool
    ensures { result ≡ is_own_host host.now }
{
    is_host(host, "127.0.0.1") || is_host(host, "localhost") || is_host(host, "[::1]")
}

/// Whether a value of `Host` is this name and a port or none.
fn is_host(host: &[u8], name: &str) -> bool
    ensures { result ≡ is_host name.now host.now }
{
    match host.split_at_checked(name.len()) {
        Some((front, port)) => is_same(front, name) && is_port(port),
        None => false,
    }
}

/// Whether there is no port, or a colon and digits.
fn is_port(text: &[u8]) -> bool
    ensures { result ≡ is_port text.now }
{
    match text.split_first() {
        Some((first, digits)) => *first == b':' && are_digits(digits),
        None => true,
    }
}

/// Whether all bytes are digits.
fn are_digits(bytes: &[u8]) -> bool
    ensures { result ≡ list_all is_ascii_digit bytes.now }
{
    let mut rest = bytes;
    while let Some((first, others)) = rest.split_first() {
        if !first.is_ascii_digit() {
            return false;
        }
        rest = others;
    }
    true
}
