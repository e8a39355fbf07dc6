//! Sessions over a WebSocket. What a client sends is by RFC 6455, with masks of zeros.
use crate::session::served::{Client, End, Served, Way, serve};
use dd_session::{HandshakeAnswer, SocketEnd};
use std::alloc::{AllocError, Global};
use std::sync::Wait;
use std::test::Fail;
use std::time::Clock;

// A handshake with these headers more.
fn handshake(alloc: Global, headers: &[u8]) -> Result<Vec<u8>, AllocError> {
    let mut more = Vec::from_slice(alloc, b"Host: a\r\n")?;
    more.extend_from_slice(headers)?;
    handshake_without_host(alloc, &more)
}

// A handshake with these headers and no others than it must have, but for the host.
fn handshake_without_host(alloc: Global, headers: &[u8]) -> Result<Vec<u8>, AllocError> {
    let mut head = Vec::from_slice(
        alloc,
        b"GET / HTTP/1.1\r\nUpgrade: websocket\r\nConnection: Upgrade\r\n",
    )?;
    head.extend_from_slice(
        b"Sec-WebSocket-Key: dGhlIHNhbXBsZSBub25jZQ==\r\nSec-WebSocket-Version: 13\r\n",
    )?;
    head.extend_from_slice(headers)?;
    head.extend_from_slice(b"\r\n")?;
    Ok(head)
}

// A frame with this first byte: the kind of the message. Its text has up to 125 bytes.
fn push_frame(sent: &mut Vec<u8>, kind: u8, text: &[u8]) -> Result<(), AllocError> {
    sent.push(kind)?;
    sent.push(0x80 | (text.len() & 0x7f) as u8)?;
    sent.extend_from_slice(&[0; 4])?;
    sent.extend_from_slice(text)
}

const TEXT: u8 = 0x81;

const BINARY: u8 = 0x82;

const PING: u8 = 0x89;

// A client that shakes hands in one piece and then sends frames: of a table, a ping, a fetch and a stop.
fn client(alloc: Global, headers: &[u8]) -> Result<Client, AllocError> {
    let mut sent = handshake(alloc, headers)?;
    let most = sent.len();
    push_frame(
        &mut sent,
        TEXT,
        br#"{"do":"table","deal":"N:A... K... Q... J..."}"#,
    )?;
    push_frame(&mut sent, PING, b"{}")?;
    push_frame(&mut sent, BINARY, br#"{"do":"fetch","job":1}"#)?;
    push_frame(&mut sent, TEXT, br#"{"do":"stop"}"#)?;
    Ok(Client {
        way: Way::Socket,
        sent,
        most,
        reads: usize::MAX,
        room: usize::MAX,
        events: 100,
        allow_stop: true,
        explain: false,
    })
}

// Did the session end so, with these frames at the end of what it wrote, and so many events? A job that is
// open at the end is cancelled, which is one too.
fn has_ended_so(served: &Option<Served>, end: SocketEnd, frames: &[u8], events: usize) -> bool {
    match served {
        Some(served) => {
            served.end == End::Socket(end)
                && served.written.ends_with(frames)
                && served.events == events
        }
        None => false,
    }
}

// The same when nothing more was read.
fn has_ended(served: &Option<Served>, frames: &[u8], events: usize) -> bool {
    has_ended_so(served, SocketEnd::Read, frames, events)
}

#[test]
fn each_message_has_its_reply(rt: HostRuntime) -> Result<(), Fail> {
    let client = client(rt.alloc(), b"")?;
    let served = serve(&rt, rt.alloc(), &client);
    let frames =
        b"\x81\x09{\"job\":1}\x8a\x02{}\x81\x1b{\"job\":1,\"state\":\"waiting\"}\x81\x10{\"closing\":true}";
    assert!(rt; has_ended(&served, frames, 4));
    Ok(())
}

#[test]
fn a_page_may_not_stop(rt: HostRuntime) -> Result<(), Fail> {
    let client = client(rt.alloc(), b"Origin: http://a\r\n")?;
    let served = serve(&rt, rt.alloc(), &client);
    assert!(rt;
        has_ended(
            &served,
            b"\x81\x1b{\"job\":1,\"state\":\"waiting\"}\x81\x0b{\"fault\":3}",
            3
        )
    );
    Ok(())
}

#[test]
fn a_peer_that_stops_inside_a_frame_has_no_reply_to_it(rt: HostRuntime) -> Result<(), Fail> {
    let mut client = client(rt.alloc(), b"")?;
    let _ = client.sent.pop();
    let served = serve(&rt, rt.alloc(), &client);
    assert!(rt; has_ended(&served, b"\x81\x1b{\"job\":1,\"state\":\"waiting\"}", 3));
    Ok(())
}

// How a session ends whose client sends this in one piece for a handshake, and whether what was written begins so.
fn fails<R: Wait + Clock>(
    rt: &R,
    alloc: Global,
    sent: Vec<u8>,
    answer: HandshakeAnswer,
    written: &[u8],
) -> Result<bool, AllocError> {
    let mut client = client(alloc, b"")?;
    client.most = sent.len();
    client.sent = sent;
    match serve(rt, alloc, &client) {
        Some(served) => Ok(
            served.end == End::Socket(SocketEnd::Handshake(answer))
                && served.events == 0
                && served.written.starts_with(written)
                && served.written.is_empty() == written.is_empty(),
        ),
        None => Ok(false),
    }
}

#[test]
fn a_handshake_that_fails_is_answered(rt: HostRuntime) -> Result<(), Fail> {
    let rows: [(&[u8], HandshakeAnswer); 6] = [
        (b"{\"do\":\"stop\"}\n", HandshakeAnswer::BadRequest),
        (
            b"GET / HTTP/1.1\r\nHost: a\r\n\r\n",
            HandshakeAnswer::UpgradeRequired,
        ),
        (
            b"GET / HTTP/1.1\r\nHost: a\r\nUpgrade: h2c\r\nConnection: Upgrade\r\n\r\n",
            HandshakeAnswer::UpgradeRequired,
        ),
        (
            b"GET / HTTP/1.1\r\nHost: a\r\nUpgrade: websocket\r\nConnection: Upgrade\r\nSec-WebSocket-Version: 12\r\n\r\n",
            HandshakeAnswer::UpgradeRequired,
        ),
        (
            b"POST / HTTP/1.1\r\nHost: a\r\nContent-Length: 2\r\n\r\n{}",
            HandshakeAnswer::BadRequest,
        ),
        (b"GET / HT", HandshakeAnswer::Nothing),
    ];
    let alloc = rt.alloc();
    let mut kept = true;
    for (sent, answer) in rows {
        kept = kept && fails(&rt, alloc, Vec::from_slice(alloc, sent)?, answer, b"")?;
    }
    assert!(rt; kept);
    Ok(())
}

#[test]
fn a_handshake_without_host_or_with_two_keys_is_refused(rt: HostRuntime) -> Result<(), Fail> {
    let alloc = rt.alloc();
    let rows = [
        handshake_without_host(alloc, b"")?,
        handshake(alloc, b"Host: b\r\n")?,
        handshake(alloc, b"Sec-WebSocket-Key: dGhlIHNhbXBsZSBub25jZQ==\r\n")?,
    ];
    let mut kept = true;
    for sent in rows {
        kept = kept
            && fails(
                &rt,
                alloc,
                sent,
                HandshakeAnswer::Given,
                b"HTTP/1.1 400 Bad Request\r\n",
            )?;
    }
    assert!(rt; kept);
    Ok(())
}

// A text message of so many blanks, whose length takes eight bytes.
fn blanks(alloc: Global, count: u64) -> Result<Vec<u8>, AllocError> {
    let mut frame = Vec::from_slice(alloc, &[TEXT, 0x80 | 127])?;
    frame.extend_from_slice(&count.to_be_bytes())?;
    frame.extend_from_slice(&[0; 4])?;
    for _ in 0..count {
        frame.push(b' ')?;
    }
    Ok(frame)
}

#[test]
fn a_message_against_the_protocol_is_told_its_code(rt: HostRuntime) -> Result<(), Fail> {
    let alloc = rt.alloc();
    let rows: [(Vec<u8>, SocketEnd, &[u8]); 4] = [
        (
            blanks(alloc, 65_536)?,
            SocketEnd::Read,
            b"\x81\x0b{\"fault\":2}",
        ),
        // Too big: 1009.
        (
            blanks(alloc, 65_537)?,
            SocketEnd::Broken,
            b"\r\n\r\n\x88\x02\x03\xf1",
        ),
        // Not masked: 1002.
        (
            Vec::from_slice(alloc, b"\x81\x0d{\"do\":\"stop\"}")?,
            SocketEnd::Broken,
            b"\r\n\r\n\x88\x02\x03\xea",
        ),
        // A text that is no UTF-8: 1007.
        (
            Vec::from_slice(alloc, b"\x81\x81\0\0\0\0\xff")?,
            SocketEnd::Broken,
            b"\r\n\r\n\x88\x02\x03\xef",
        ),
    ];
    let mut kept = true;
    for (frame, end, wanted) in rows {
        let mut client = client(alloc, b"")?;
        client.sent = handshake(alloc, b"")?;
        client.sent.extend_from_slice(&frame)?;
        kept = kept && has_ended_so(&serve(&rt, alloc, &client), end, wanted, 0);
    }
    assert!(rt; kept);
    Ok(())
}
