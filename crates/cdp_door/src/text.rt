//! The bytes of an answer.

ghost use Rattle.std.specs.Prelude.{◌≡◌, IfOk, string_bytes};
ghost use Rattle.json.specs.Print.{quoted};
ghost use Rattle.cdp_door.specs.Texts.{list_text, body_of, page_text, upgrade_text, refusal_text, text_of, refusal_status, status_of};

use crate::answer::{ErrorStatus, Page, Response};
use std::alloc::{AllocError, Global};

/// The status of an answer.
pub fn status_of(answer: &Response) -> u16
    ensures { result ≡ status_of answer.now }
{
    match answer {
        Response::Page(_) => 200,
        Response::Upgrade(_) => 101,
        Response::Refusal(refusal) => refusal_status(*refusal),
    }
}

/// The status of a refusal.
fn refusal_status(refusal: ErrorStatus) -> u16
    ensures { result ≡ refusal_status refusal }
{
    match refusal {
        ErrorStatus::HeadTooLarge => 431,
        ErrorStatus::BadRequest => 400,
        ErrorStatus::MethodNotAllowed => 405,
        ErrorStatus::NotFound => 404,
        ErrorStatus::Forbidden => 403,
        ErrorStatus::UpgradeRequired => 426,
    }
}

/// The bytes of an answer, where the debugger listens on this port and the first script has this url.
pub fn text_of(
    alloc: Global,
    answer: &Response,
    port: u16,
    url: &str,
) -> Result<Vec<u8>, AllocError>
    ensures { IfOk result (λ text. text.items ≡ text_of port url.now answer.now) }
{
    match answer {
        Response::Page(page) => page_text(alloc, body_of(alloc, *page, port, url)?.as_str()),
        Response::Upgrade(accept) => upgrade_text(alloc, accept),
        Response::Refusal(refusal) => Vec::from_slice(alloc, refusal_text(*refusal).as_bytes()),
    }
}

/// The text of a page with this body.
fn page_text(alloc: Global, body: &str) -> Result<Vec<u8>, AllocError>
    ensures { IfOk result (λ text. text.items ≡ page_text body.now) }
{
    let length = body.len();
    let text = format!(in alloc;
        "HTTP/1.1 200 OK\r\nContent-Type: application/json; charset=UTF-8\r\nContent-Length: {length}\r\nConnection: close\r\n\r\n{body}"
    )?;
    Ok(text.into_bytes())
}

/// The body of a page.
fn body_of(alloc: Global, page: Page, port: u16, url: &str) -> Result<String, AllocError>
    ensures { IfOk result (λ body. string_bytes body ≡ body_of port url.now page) }
{
    match page {
        Page::Version => String::from_str(
            alloc,
            "{\"Browser\":\"debug_host\",\"Protocol-Version\":\"1.3\"}",
        ),
        Page::Scripts => list_text(alloc, port, quoted(alloc, url)?.as_str()),
    }
}

/// The list of what can be debugged, by the url in quotes.
fn list_text(alloc: Global, port: u16, url: &str) -> Result<String, AllocError>
    ensures { IfOk result (λ list. string_bytes list ≡ list_text port url.now) }
{
    format!(in alloc;
        "[{{\"description\":\"debug_host script\",\"id\":\"session\",\"title\":{url},\"type\":\"node\",\"url\":{url},\"webSocketDebuggerUrl\":\"ws://127.0.0.1:{port}/session\"}}]"
    )
}

/// A text in quotes, with its escapes.
fn quoted(alloc: Global, text: &str) -> Result<String, AllocError>
    ensures { IfOk result (λ quotation. string_bytes quotation ≡ quoted text.now) }
{
    match serde_json::to_string(alloc, &text) {
        Ok(quotation) => Ok(quotation),
        Err(_) => Err(AllocError),
    }
}

/// The text of an upgrade with this accept value.
fn upgrade_text(alloc: Global, accept: &[u8]) -> Result<Vec<u8>, AllocError>
    ensures { IfOk result (λ text. text.items ≡ upgrade_text accept.now) }
{
    let mut text = Vec::from_slice(
        alloc,
        "HTTP/1.1 101 Switching Protocols\r\nUpgrade: websocket\r\nConnection: Upgrade\r\nSec-WebSocket-Accept: ".as_bytes(),
    )?;
    text.extend_from_slice(accept)?;
    text.extend_from_slice("\r\n\r\n".as_bytes())?;
    Ok(text)
}

/// The text of a refusal.
fn refusal_text(refusal: ErrorStatus) -> &'static str
    ensures { result.now ≡ refusal_text refusal }
{
    match refusal {
        ErrorStatus::HeadTooLarge => {
            "HTTP/1.1 431 Request Header Fields Too Large\r\nContent-Length: 0\r\nConnection: close\r\n\r\n"
        }
        ErrorStatus::BadRequest =>
            "HTTP/1.1 400 Bad Request\r\nContent-Length: 0\r\nConnection: close\r\n\r\n",
        ErrorStatus::MethodNotAllowed => {
            "HTTP/1.1 405 Method Not Allowed\r\nContent-Length: 0\r\nConnection: close\r\n\r\n"
        }
        ErrorStatus::NotFound =>
            "HTTP/1.1 404 Not Found\r\nContent-Length: 0\r\nConnection: close\r\n\r\n",
        ErrorStatus::Forbidden =>
            "HTTP/1.1 403 Forbidden\r\nContent-Length: 0\r\nConnection: close\r\n\r\n",
        ErrorStatus::UpgradeRequired => {
            "HTTP/1.1 426 Upgrade Required\r\nContent-Length: 0\r\nConnection: close\r\nSec-WebSocket-Version: 13\r\n\r\n"
        }
    }
}
