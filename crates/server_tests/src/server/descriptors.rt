//! A server whose process has no descriptor left while a client is served.
use crate::server::client::{Client, Way};
use crate::server::serving::{LINES, serve};
use dd_work::NoGate;
use std::alloc::{AllocError, Global};
use std::net::{Net, SocketAddr, TcpListener, TcpStream};
use std::test::Fail;
use std::time::{Clock, Duration};
use std::{io, thread};

// More descriptors than Linux lets a process have, unless it is told otherwise.
const MOST: usize = 1_100_000;

const FETCH: &str = r#"{"do":"fetch","job":1}"#;

// As many handles of the stream as the process may have.
fn all_handles(alloc: Global, stream: &TcpStream) -> Result<Vec<TcpStream>, AllocError> {
    let mut handles = Vec::new(alloc);
    for _ in 0..MOST {
        match stream.try_clone() {
            Ok(handle) => handles.push(handle)?,
            Err(_) => break,
        }
    }
    Ok(handles)
}

// One client is served while all descriptors are in use, but for that of another which comes meanwhile; once they are free, the
// other and a third are served too. The first stops the server.
fn converse<R: Clock + Net<Stream = TcpStream>>(
    rt: &R,
    alloc: Global,
    address: SocketAddr,
) -> io::Result<String> {
    let streams = (
        TcpStream::connect(rt, address)?,
        TcpStream::connect(rt, address)?,
    );
    let mut first = Client::new(alloc, Way::Lines, &streams.0)?;
    let before = first.ask(FETCH)?;
    let mut handles = all_handles(alloc, &streams.1)?;
    let all = handles.len() < MOST && handles.pop().is_some();
    let stream = TcpStream::connect(rt, address)?;
    // The server comes to its next accept.
    thread::sleep(rt, Duration::from_millis(50));
    let during = first.ask(FETCH)?;
    drop(handles);
    let mut second = Client::new(alloc, Way::Lines, &stream)?;
    let after = second.ask(FETCH)?;
    let stream = TcpStream::connect(rt, address)?;
    let mut third = Client::new(alloc, Way::Lines, &stream)?;
    let last = third.ask(FETCH)?;
    let stopped = first.ask(r#"{"do":"stop"}"#)?;
    let (before, during, after) = (before.as_str(), during.as_str(), after.as_str());
    let (last, stopped) = (last.as_str(), stopped.as_str());
    Ok(format!(in alloc; "{all}\n{before}\n{during}\n{after}\n{last}\n{stopped}\n")?)
}

#[test]
fn a_lack_of_descriptors_ends_no_run(rt: HostRuntime) -> Result<(), Fail> {
    let alloc = rt.alloc();
    let listener = TcpListener::bind(&rt, "127.0.0.1:0")?;
    let address = listener.local_addr()?;
    let (ended, told) = thread::join(
        &rt,
        || serve(&rt, alloc, listener, LINES, &NoGate),
        || converse(&rt, alloc, address).ok(),
    );
    let told = told.expect(&rt, "the clients have their replies");
    let wanted =
        "true\n{\"fault\":16}\n{\"fault\":16}\n{\"fault\":16}\n{\"fault\":16}\n{\"closing\":true}\n";
    assert_eq!(rt; told.as_str(), wanted);
    // Four fetches, the shut, and the last claim of the worker.
    assert!(rt; ended == Some(Ok(6)));
    Ok(())
}
