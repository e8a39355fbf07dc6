//! The handshake of a WebSocket, and what one that fails is answered.
ghost use Rattle.std.specs.Prelude.{◌≡◌};
ghost use Rattle.dd_session.specs.Handshakes.{answer_text, answer_to};

use http::{HeaderMap, HeaderName, HeaderValue, Request, Response, StatusCode};
use std::alloc::Global;
use std::cell::Cell;
use std::io::{Read, Write};
use tungstenite::handshake::server;
use tungstenite::handshake::server::{Callback, ErrorResponse};
use tungstenite::{Error, HandshakeError, NoMask, WebSocket, WebSocketConfig};
use websocket::handshake::HandshakeError as HeadError;

/// The most bytes of a message, of a frame and of what waits to be sent.
const MOST_BYTES: usize = 65_536;

/// The bytes that are read or sent at once.
const BUFFER: usize = 4_096;

/// What a handshake that failed is answered.
#[derive(Clone, Copy, Debug, PartialEq, Eq)]
pub enum HandshakeAnswer {
    /// 400: it is a bad request.
    BadRequest,
    /// 426: it asks for no upgrade to a WebSocket of version 13.
    UpgradeRequired,
    /// It was answered before.
    Given,
    /// Nothing: its stream ended, or memory did.
    Nothing,
}

impl HandshakeAnswer {
    /// What is to be sent: a response of HTTP, if it isn't given.
    pub fn text(self) -> &'static str
        ensures { result.now ≡ answer_text self }
    {
        match self {
            HandshakeAnswer::BadRequest =>
                "HTTP/1.1 400 Bad Request\r\nConnection: close\r\nContent-Length: 0\r\n\r\n",
            HandshakeAnswer::UpgradeRequired =>
                "HTTP/1.1 426 Upgrade Required\r\nUpgrade: websocket\r\nConnection: Upgrade, close\r\nSec-WebSocket-Version: 13\r\nContent-Length: 0\r\n\r\n",
            HandshakeAnswer::Given | HandshakeAnswer::Nothing => "",
        }
    }
}

/// Notes whether a handshake has an `Origin`: a browser sends it for the page that asks. One without a `Host`, or with two, or
/// with two keys, is refused.
#[derive(Drop)]
struct HeadNote<'a> {
    alloc: Global,
    has_origin: &'a Cell<bool>,
}

impl<'a> Callback for HeadNote<'a> {
    fn on_request(
        self,
        request: &Request<()>,
        response: Response<()>,
    ) -> Result<Response<()>, ErrorResponse> {
        let headers = request.headers();
        self.has_origin.set(headers.contains_key("origin"));
        if has_one(headers, "host") && has_one(headers, "sec-websocket-key") {
            Ok(response)
        } else {
            Err(refusal(self.alloc))
        }
    }
}

// Does the header come just once?
fn has_one(headers: &HeaderMap<HeaderValue>, name: &str) -> bool {
    headers.get_all(name).iter().count() == 1
}

// The response 400.
fn refusal(alloc: Global) -> ErrorResponse {
    let mut response = Response::new(alloc, None);
    *response.status_mut() = StatusCode::BAD_REQUEST;
    let headers = response.headers_mut();
    // Without these it says as much.
    let _ = headers.insert(
        HeaderName::from_static("connection"),
        HeaderValue::from_static("close"),
    );
    let _ = headers.insert(
        HeaderName::from_static("content-length"),
        HeaderValue::from_static("0"),
    );
    response
}

/// Shakes hands, and tells whether the handshake has an `Origin`.
pub(crate) fn accept<S: Read + Write + Drop>(
    alloc: Global,
    stream: S,
) -> Result<(WebSocket<S, NoMask>, bool), HandshakeAnswer> {
    let has_origin = Cell::new(false);
    let note = HeadNote {
        alloc,
        has_origin: &has_origin,
    };
    match server::start(alloc, stream, note, Some(limits())).handshake() {
        Ok(socket) => Ok((socket, has_origin.get())),
        Err(HandshakeError::Failure(error)) => Err(answer_to(&error)),
        Err(HandshakeError::Interrupted(_)) => Err(HandshakeAnswer::Nothing),
    }
}

/// The limits of each socket.
fn limits() -> WebSocketConfig {
    WebSocketConfig {
        read_buffer_size: BUFFER,
        write_buffer_size: BUFFER,
        max_write_buffer_size: MOST_BYTES,
        max_message_size: Some(MOST_BYTES),
        max_frame_size: Some(MOST_BYTES),
        accept_unmasked_frames: false,
    }
}

/// What a handshake that failed so is answered.
fn answer_to(error: &Error) -> HandshakeAnswer
    ensures { result ≡ answer_to error.now }
{
    match error {
        Error::Handshake(HeadError::OutOfMemory) => HandshakeAnswer::Nothing,
        Error::Handshake(
            HeadError::MissingConnectionUpgradeHeader
            | HeadError::MissingUpgradeWebSocketHeader
            | HeadError::MissingSecWebSocketVersionHeader,
        ) => HandshakeAnswer::UpgradeRequired,
        Error::Handshake(_) | Error::JunkAfterRequest | Error::AttackAttempt | Error::Url => {
            HandshakeAnswer::BadRequest
        }
        Error::Refused(_) => HandshakeAnswer::Given,
        _ => HandshakeAnswer::Nothing,
    }
}
