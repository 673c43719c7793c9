//! What a read of a WebSocket gives.

ghost use Rattle.cdp_edge_server.specs.Heard.{IsWithin};
ghost use Rattle.cdp_edge_sockets.specs.Received.{IsWithinLimit};

use cdp_edge_server::{MOST_BYTES, Recv};
use std::alloc::Global;
use std::io;
use std::io::ErrorKind;
use tungstenite::{CloseCode, CloseFrame, Error, Message, Utf8Bytes, WebSocketConfig};
use websocket::error::ProtocolError;

/// The bytes that one read of the stream asks for.
const READ_BYTES: usize = 16_384;

/// What a read gave.
#[derive(Drop)]
pub enum Received {
    /// What the link answers.
    Answer(Recv),
    /// A ping or a pong: more may have arrived.
    Control,
    /// Nothing more has arrived.
    Nothing,
    /// The peer broke the protocol, and is to be told so by this code.
    Broken(u16),
}

/// The limits of a served link: a longer message ends it before its bytes come.
pub fn served_limits() -> WebSocketConfig {
    WebSocketConfig::default()
        .read_buffer_size(READ_BYTES)
        .max_message_size(Some(MOST_BYTES))
        .max_frame_size(Some(MOST_BYTES))
}

/// The limits of a dialled link, which passes over a longer message and goes on.
pub fn dialled_limits() -> WebSocketConfig {
    WebSocketConfig::default()
        .read_buffer_size(READ_BYTES)
        .max_message_size(Some(64 * MOST_BYTES))
        .max_frame_size(Some(64 * MOST_BYTES))
}

/// The close with this code and no reason.
pub fn close_frame(code: u16) -> CloseFrame {
    CloseFrame {
        code: CloseCode::from(code),
        reason: Utf8Bytes::from_static(""),
    }
}

/// A text as an answer.
fn text_as(alloc: Global, text: &str) -> Recv
    ensures { IsWithin result }
{
    if text.len() > MOST_BYTES {
        return Recv::TooBig;
    }
    match String::from_str(alloc, text) {
        Ok(text) => Recv::Text(text),
        Err(_) => Recv::Memory,
    }
}

/// What a failure of the stream says.
fn failure_as(error: &io::Error) -> Received
    ensures { IsWithinLimit result }
{
    match error.kind() {
        ErrorKind::WouldBlock => Received::Nothing,
        ErrorKind::Interrupted => Received::Control,
        ErrorKind::ConnectionReset
        | ErrorKind::ConnectionAborted
        | ErrorKind::BrokenPipe
        | ErrorKind::TimedOut => Received::Answer(Recv::Closed),
        ErrorKind::OutOfMemory => Received::Answer(Recv::Memory),
        _ => Received::Answer(Recv::Failed),
    }
}

/// What an error of a read says.
fn error_as(error: &Error) -> Received
    ensures { IsWithinLimit result }
{
    match error {
        Error::ConnectionClosed | Error::AlreadyClosed => Received::Answer(Recv::Closed),
        Error::Io(error) => failure_as(error),
        Error::Capacity(_) => Received::Answer(Recv::TooBig),
        Error::OutOfMemory => Received::Answer(Recv::Memory),
        Error::Protocol(ProtocolError::ResetWithoutClosingHandshake) => {
            Received::Answer(Recv::Closed)
        }
        Error::Protocol(_) => Received::Broken(1002),
        Error::Utf8 => Received::Broken(1007),
        _ => Received::Answer(Recv::Failed),
    }
}

/// What a read gave. A message that the limits of the socket refused is too big.
pub fn read_as(alloc: Global, read: Result<Message, Error>) -> Received
    ensures { IsWithinLimit result }
{
    match read {
        Ok(Message::Text(text)) => Received::Answer(text_as(alloc, text.as_str())),
        Ok(Message::Binary(_)) => Received::Answer(Recv::Binary),
        Ok(Message::Ping(_) | Message::Pong(_)) => Received::Control,
        Ok(Message::Close(_)) => Received::Answer(Recv::Closed),
        Err(error) => error_as(&error),
    }
}
