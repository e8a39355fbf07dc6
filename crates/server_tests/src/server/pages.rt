//! Clients of other protocols that send a line to a server of lines: a page of the web, and who shakes hands for TLS.
use crate::server::client::{Client, Way};
use crate::server::serving::{LINES, serve};
use dd_server::ServeFault;
use dd_work::NoGate;
use std::alloc::Global;
use std::io::{Read, Write};
use std::net::{Net, SocketAddr, TcpListener, TcpStream};
use std::sync::Wait;
use std::test::Fail;
use std::thread::Threads;
use std::time::Clock;
use std::{io, thread};

// What a browser sends for `fetch(url, {method: "POST", mode: "no-cors", body: '{"do":"stop"}\n'})`, in short.
const REQUEST: &[u8] =
    b"POST / HTTP/1.1\r\nHost: 127.0.0.1:4100\r\nContent-Length: 14\r\nContent-Type: text/plain;charset=UTF-8\r\n\r\n{\"do\":\"stop\"}\n";

// What a client of TLS says first, cut off within the session's name, which is another server's to choose (RFC 8446, section 4.1.2).
const HANDSHAKE: &[u8] =
    b"\x16\x03\x01\x00\x41\x01\x00\x00\x3d\x03\x03abcdefghijklmnopqrstuvwxyzabcdef\x20\n{\"do\":\"stop\"}\nabcdefghijklmnop";

const FETCH: &str = r#"{"do":"fetch","job":1}"#;

// How many bytes come of a stream until it ends.
fn bytes_of(mut stream: &TcpStream) -> io::Result<usize> {
    let mut piece = [0; 100];
    stream.read(&mut piece)
}

fn send(mut stream: &TcpStream, piece: &[u8]) -> io::Result<()> {
    stream.write_all(piece)
}

// A stranger sends so many bytes of its request and then the others, and is told nothing. A client of lines is served and stops
// the server.
fn converse<R: Clock + Net<Stream = TcpStream>>(
    rt: &R,
    alloc: Global,
    address: SocketAddr,
    request: &[u8],
    first: usize,
) -> io::Result<String> {
    let stranger = TcpStream::connect(rt, address)?;
    stranger.set_nodelay(true)?;
    send(&stranger, request.get(..first).unwrap_or(b""))?;
    // It may be closed by now.
    let _ = send(&stranger, request.get(first..).unwrap_or(b""));
    let told = bytes_of(&stranger).unwrap_or(0);
    let stream = TcpStream::connect(rt, address)?;
    let mut client = Client::new(alloc, Way::Lines, &stream)?;
    let fetched = client.ask(FETCH)?;
    let stopped = client.ask(r#"{"do":"stop"}"#)?;
    let (fetched, stopped) = (fetched.as_str(), stopped.as_str());
    Ok(format!(in alloc; "{told}\n{fetched}\n{stopped}\n")?)
}

// How the server ended beside such a stranger, and what the clients were told.
fn serve_beside<R>(
    rt: &R,
    alloc: Global,
    request: &[u8],
    first: usize,
) -> io::Result<(Option<Result<u64, ServeFault>>, Option<String>)>
where
    R: Threads + Wait + Clock + Eprint + Net<Listener = TcpListener, Stream = TcpStream> + Sync,
{
    let listener = TcpListener::bind(rt, "127.0.0.1:0")?;
    let address = listener.local_addr()?;
    Ok(thread::join(
        rt,
        || serve(rt, alloc, listener, LINES, &NoGate),
        || converse(rt, alloc, address, request, first).ok(),
    ))
}

// Nothing was told to the stranger, and the server ended by the client's stop.
const TOLD: &str = "0\n{\"fault\":16}\n{\"closing\":true}\n";

// A fetch, the shut, and the last claim of the worker.
const EVENTS: u64 = 3;

#[test]
fn a_page_is_told_nothing_and_stops_nothing(rt: HostRuntime) -> Result<(), Fail> {
    for first in [0usize, 2] {
        let (ended, told) = serve_beside(&rt, rt.alloc(), REQUEST, first)?;
        let told = told.expect(&rt, "what the clients are told");
        assert_eq!(rt; told.as_str(), TOLD);
        assert!(rt; ended == Some(Ok(EVENTS)));
    }
    Ok(())
}

#[test]
fn who_shakes_hands_for_tls_is_told_nothing_and_stops_nothing(rt: HostRuntime) -> Result<(), Fail> {
    for first in [0usize, 1] {
        let (ended, told) = serve_beside(&rt, rt.alloc(), HANDSHAKE, first)?;
        let told = told.expect(&rt, "what the clients are told");
        assert_eq!(rt; told.as_str(), TOLD);
        assert!(rt; ended == Some(Ok(EVENTS)));
    }
    Ok(())
}
