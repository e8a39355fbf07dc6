//! A client that sends at once what takes many reads, with a stop in the midst of it.
use crate::server::serving::{LINES, serve};
use dd_work::NoGate;
use std::alloc::{AllocError, Global};
use std::io::{Read, Write};
use std::net::{Net, Shutdown, SocketAddr, TcpListener, TcpStream};
use std::test::Fail;
use std::{io, thread};

// Lines with four faults, of which a fetch alone is a call; 85 bytes, so that pieces of 4,096 end at many of their places.
const REQUESTS: &str =
    "{}\n[\n{\"do\":\"fetch\",\"job\":9}\n{\"do\":\"table\",\"deal\":\"N:A2... K... Q... J...\"}\n";

const REPLIES: &str = "{\"fault\":3}\n{\"fault\":1}\n{\"fault\":16}\n{\"fault\":7}\n";

// How often they are sent, before the stop and behind it.
const TIMES: usize = 200;

// The text so many times, then another, and the first as often again.
fn around(alloc: Global, text: &str, middle: &str) -> Result<String, AllocError> {
    let mut whole = String::new(alloc);
    for _ in 0..TIMES {
        whole.push_str(text)?;
    }
    whole.push_str(middle)?;
    for _ in 0..TIMES {
        whole.push_str(text)?;
    }
    Ok(whole)
}

// All that the server sends to a client that sends this.
fn replies_to<R: Net<Stream = TcpStream>>(
    rt: &R,
    alloc: Global,
    address: SocketAddr,
    sent: &str,
) -> io::Result<String> {
    let stream = TcpStream::connect(rt, address)?;
    let mut client = &stream;
    client.write_all(sent.as_bytes())?;
    stream.shutdown(Shutdown::Write)?;
    let mut told = String::new(alloc);
    client.read_to_string(&mut told)?;
    Ok(told)
}

#[test]
fn each_piece_is_read_once_before_a_stop_and_behind_it(rt: HostRuntime) -> Result<(), Fail> {
    let alloc = rt.alloc();
    let listener = TcpListener::bind(&rt, "127.0.0.1:0")?;
    let address = listener.local_addr()?;
    let sent = around(alloc, REQUESTS, "{\"do\":\"stop\"}\n")?;
    let wanted = around(alloc, REPLIES, "{\"closing\":true}\n")?;
    let (ended, told) = thread::join(
        &rt,
        || serve(&rt, alloc, listener, LINES, &NoGate),
        || replies_to(&rt, alloc, address, sent.as_str()).ok(),
    );
    let told = told.expect(&rt, "replies");
    assert!(rt; told.as_str() == wanted.as_str());
    // The fetches, the shut, and the last claim of the worker.
    assert!(rt; ended == Some(Ok(402)));
    Ok(())
}
