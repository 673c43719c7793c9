//! The answer to a request, by what it asks.

ghost use Rattle.std.specs.Prelude.{◌≡◌, IfOk, codes, bytes_eq};
ghost use Rattle.std.specs.Option.{option_map};
ghost use Rattle.cdp_door.specs.Answers.{is_query, is_at, page_of, asks_upgrade, answer_to_key, answer_to_session, answer_to_page, answer_of};
ghost use Rattle.cdp_door.specs.Fields.{is_there_and};

use crate::accept::{accept_of, is_key};
use crate::callers::{has_foreign_host, has_foreign_origin};
use crate::fields::Fields;
use std::alloc::{AllocError, Global};

/// A page of the door.
#[derive(Clone, Copy)]
pub enum Page {
    /// The name of the program and the version of the protocol.
    Version,
    /// The one target that can be debugged, with its address.
    Scripts,
}

/// Why a request is refused (RFC 9110, section 15).
#[derive(Clone, Copy)]
pub enum ErrorStatus {
    /// The head is longer than is read: 431.
    HeadTooLarge,
    /// It is no request of HTTP/1.1, or its key is none: 400.
    BadRequest,
    /// The method isn't `GET`: 405.
    MethodNotAllowed,
    /// There is nothing at the target: 404.
    NotFound,
    /// It comes from elsewhere: 403.
    Forbidden,
    /// It doesn't ask for the upgrade: 426.
    UpgradeRequired,
}

/// An answer.
#[derive(Clone, Copy)]
pub enum Response {
    /// A page: 200.
    Page(Page),
    /// The upgrade, with the accept value: 101.
    Upgrade([u8; 28]),
    /// A refusal.
    Refusal(ErrorStatus),
}

/// The answer to a request of this minor version, method, target and fields.
pub fn answer_of(
    alloc: Global,
    minor: u8,
    method: &[u8],
    target: &[u8],
    fields: &Fields<'_, '_>,
) -> Result<Response, AllocError>
    ensures { IfOk result (λ answer. answer
        ≡ answer_of record { minor = minor; method = method.now; target = target.now; fields = fields.now }) }
{
    if minor != 1 {
        return Ok(Response::Refusal(ErrorStatus::BadRequest));
    }
    if method != b"GET".as_slice() {
        return Ok(Response::Refusal(ErrorStatus::MethodNotAllowed));
    }
    match page_of(target) {
        Some(page) => Ok(answer_to_page(page, fields)),
        None if target == b"/session".as_slice() => answer_to_session(alloc, fields),
        None => Ok(Response::Refusal(ErrorStatus::NotFound)),
    }
}

/// The page that a target names.
fn page_of(target: &[u8]) -> Option<Page>
    ensures { result ≡ page_of target.now }
{
    if is_at(target, b"/json/version") {
        Some(Page::Version)
    } else if is_at(target, b"/json/list") || is_at(target, b"/json") {
        Some(Page::Scripts)
    } else {
        None
    }
}

/// Whether a target is this path, with a query or none.
fn is_at(target: &[u8], path: &[u8]) -> bool
    ensures { result ≡ is_at path.now target.now }
{
    match target.strip_prefix(path) {
        Some(rest) => is_query(rest),
        None => false,
    }
}

/// Whether a text is empty or a query.
fn is_query(text: &[u8]) -> bool
    ensures { result ≡ is_query text.now }
{
    match text.split_first() {
        Some((first, _)) => *first == b'?',
        None => true,
    }
}

/// The answer to a request for a page.
fn answer_to_page(page: Page, fields: &Fields<'_, '_>) -> Response
    ensures { result ≡ answer_to_page page fields.now }
{
    match page {
        Page::Scripts if has_foreign_host(fields) => Response::Refusal(ErrorStatus::Forbidden),
        page => Response::Page(page),
    }
}

/// The answer to a request for the session (RFC 6455, section 4.2.1).
fn answer_to_session(alloc: Global, fields: &Fields<'_, '_>) -> Result<Response, AllocError>
    ensures { IfOk result (λ answer. answer ≡ answer_to_session fields.now) }
{
    if has_foreign_host(fields) || has_foreign_origin(fields) {
        return Ok(Response::Refusal(ErrorStatus::Forbidden));
    }
    if !asks_upgrade(fields) {
        return Ok(Response::Refusal(ErrorStatus::UpgradeRequired));
    }
    answer_to_key(alloc, fields.first("sec-websocket-key"))
}

/// Whether the client asks to speak the WebSocket protocol of version 13.
fn asks_upgrade(fields: &Fields<'_, '_>) -> bool
    ensures { result ≡ asks_upgrade fields.now }
{
    fields.has_word("upgrade", "websocket")
        && fields.has_word("connection", "upgrade")
        && is_version_13(fields.first("sec-websocket-version"))
}

/// Whether there is a version, and it is 13.
fn is_version_13(version: Option<&[u8]>) -> bool
    ensures { result ≡ is_there_and (λ version. bytes_eq version (codes "13")) (option_map (λ v. v.now) version.entry) }
{
    match version {
        Some(version) => version == b"13".as_slice(),
        None => false,
    }
}

/// The answer to the key of a client that asks for the upgrade.
fn answer_to_key(alloc: Global, key: Option<&[u8]>) -> Result<Response, AllocError>
    ensures { IfOk result (λ answer. answer ≡ answer_to_key (option_map (λ key. key.now) key.entry)) }
{
    match key {
        Some(key) if is_key(alloc, key)? => Ok(Response::Upgrade(accept_of(key))),
        _ => Ok(Response::Refusal(ErrorStatus::BadRequest)),
    }
}
