//! What is wrong with what the peer of a WebSocket sends, and the close frame that tells it.
ghost use Rattle.std.specs.Prelude.{◌≡◌, [], Some, None};
ghost use Rattle.tungstenite.specs.Connection.{close_step};
ghost use Rattle.tungstenite.specs.Socket.{Writes};
ghost use Rattle.dd_session.specs.Breaches.{TellsBreach, close_code};

use crate::socket::SocketEnd;
use std::io::{Read, Write};
use tungstenite::{CloseCode, CloseFrame, Error, NoMask, Utf8Bytes, WebSocket};
use websocket::error::ProtocolError;

/// Tells the peer by a close frame what was wrong with what it sent, if that was wrong. It answers how the session ended.
pub(crate) fn tell_breach<S: Read + Write + Drop>(
    socket: &mut WebSocket<S, NoMask>,
    error: &Error,
) -> SocketEnd
    ensures { TellsBreach S.contents (close_code error.now) socket.old socket.new result }
{
    match close_code(error) {
        Some(code) => close_with(socket, code),
        None => SocketEnd::Read,
    }
}

// Sends a close frame with this code.
fn close_with<S: Read + Write + Drop>(
    socket: &mut WebSocket<S, NoMask>,
    code: CloseCode,
) -> SocketEnd
    ensures { TellsBreach S.contents (Some code) socket.old socket.new result }
{
    let reason = Utf8Bytes::from_static("");
    match socket.close(Some(CloseFrame { code, reason })) {
        Ok(()) => SocketEnd::Broken,
        Err(_) => SocketEnd::Read,
    }
}

/// The code that tells a peer what was wrong with what it sent. `None` where that was right.
fn close_code(error: &Error) -> Option<CloseCode>
    ensures { result ≡ close_code error.now }
{
    match error {
        Error::Protocol(ProtocolError::ResetWithoutClosingHandshake) => None,
        Error::Protocol(_) => Some(CloseCode::Protocol),
        Error::Capacity(_) => Some(CloseCode::Size),
        Error::Utf8 => Some(CloseCode::Invalid),
        _ => None,
    }
}
