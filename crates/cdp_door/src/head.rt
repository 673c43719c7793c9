//! The head of a request (RFC 9112), and the answer that is owed to the bytes read so far.

ghost use Rattle.std.specs.Prelude.{◌≡◌, ◌≤◌, length, IfOk};
ghost use Rattle.httparse.specs.Spans.{IsRequestWithin};
ghost use Rattle.cdp_door.specs.Answers.{answer_of as answer_of_asked};
ghost use Rattle.cdp_door.specs.Greetings.{Owes, answer_without_head};
ghost use Rattle.cdp_door.specs.Requests.{asked_at};

use crate::answer::{ErrorStatus, Response, answer_of};
use crate::fields::Fields;
use httparse::Status;
use httparse::spans::{HeaderSpan, RequestSpans, parse_request};
use std::alloc::{AllocError, Global};

/// The longest head that is read, in bytes.
pub const MOST_BYTES: usize = 8_192;

/// Room for more fields than a head of so many bytes can have.
pub const MOST_FIELDS: usize = 2_730;

/// The answer that is owed to these bytes; None where more are to be read.
#[tactic(auto, using(crate::proofs::HeadLemmas::heads))]
pub fn owed_answer(
    alloc: Global,
    bytes: &[u8],
    places: &mut [HeaderSpan],
) -> Result<Option<Response>, AllocError>
    requires short { length bytes.now ≤ 8_192 }
    requires room { length places.old ≡ 2_730 }
    ensures { IfOk result (Owes bytes.now) }
{
    match parse_request(bytes, places) {
        Ok(Status::Complete(spans)) => Ok(Some(answer_at(alloc, bytes, places, &spans)?)),
        Ok(Status::Partial) if bytes.len() < MOST_BYTES => Ok(None),
        Ok(Status::Partial) => Ok(Some(answer_without_head(bytes))),
        Err(_) => Ok(Some(answer_without_head(bytes))),
    }
}

/// The answer to the head whose parts lie there in the bytes.
fn answer_at(
    alloc: Global,
    bytes: &[u8],
    headers: &[HeaderSpan],
    spans: &RequestSpans,
) -> Result<Response, AllocError>
    requires { IsRequestWithin bytes.now headers.now spans.now }
    ensures { IfOk result (λ answer. answer ≡ answer_of_asked (asked_at bytes.now headers.now spans.now)) }
{
    let fields = Fields::new(bytes, &headers[..spans.headers]);
    answer_of(
        alloc,
        spans.version,
        spans.method.of(bytes),
        spans.path.of(bytes),
        &fields,
    )
}

/// The answer to bytes that are no head and will be none, or to too many of them.
fn answer_without_head(bytes: &[u8]) -> Response
    requires { length bytes.now ≤ 8_192 }
    ensures { result ≡ answer_without_head bytes.now }
{
    if bytes.len() == MOST_BYTES {
        Response::Refusal(ErrorStatus::HeadTooLarge)
    } else {
        Response::Refusal(ErrorStatus::BadRequest)
    }
}
