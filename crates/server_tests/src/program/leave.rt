//! The program as a server that no client may stop.
use crate::program::asking::{converse, run_at};
use crate::program::devices::Outcome;
use crate::server::client::Way;
use dd_streams::Ending;
use std::alloc::{AllocError, Global};
use std::net::{Net, Shutdown, SocketAddr, TcpListener, TcpStream};
use std::os::fd::OwnedFd;
use std::test::Fail;
use std::{io, thread};

// Three cards are on the trick, and the ace is left.
const LAST_CARD: &str =
    r#"{"do":"solve","deal":"N:A... ... ... ...","trump":4,"first":1,"solutions":3,"played":[[0,13],[0,12],[0,11]]}"#;

// What a client is told that asks for a job, for its end and for a stop; and then no connection can be accepted any more.
fn converse_and_close<R: Net<Stream = TcpStream>>(
    rt: &R,
    alloc: Global,
    address: SocketAddr,
    way: Way,
    listener: &TcpStream,
) -> Option<String> {
    let told = converse(rt, alloc, address, way, LAST_CARD);
    let _ = listener.shutdown(Shutdown::Both);
    told.ok()
}

// Did the run tell its address, and end since its listener did?
fn has_ended(alloc: Global, outcome: &Outcome, address: SocketAddr) -> io::Result<bool> {
    let told = format!(in alloc; "listening on {address}\n")?;
    Ok(
        outcome.ending == Ending::ListenFailed
            && outcome.output.as_slice() == told.as_str().as_bytes()
            && outcome.errors.as_slice() == b"ddserve: listen failed\n".as_slice(),
    )
}

// The replies to a submit, a fetch and a stop, which has this fault.
fn wanted(alloc: Global, fault: &str) -> Result<String, AllocError> {
    let done =
        "{\"cards\":[{\"equals\":0,\"rank\":14,\"score\":1,\"suit\":0}],\"job\":1,\"state\":\"done\"}";
    format!(in alloc; "{{\"job\":1}}\n{done}\n{fault}\n")
}

#[test]
fn without_its_word_no_client_stops_the_program(rt: HostRuntime) -> Result<(), Fail> {
    let alloc = rt.alloc();
    let plain = "{\"fault\":3}";
    let explained =
        "{\"fault\":3,\"field\":\"do\",\"text\":\"a field is missing, unknown or of the wrong kind\"}";
    let rows = [
        (
            "ddserve serve --listen 127.0.0.1:0 --workers 1",
            Way::Lines,
            plain,
        ),
        (
            "ddserve serve --listen 127.0.0.1:0 --workers 1 --websocket",
            Way::Messages,
            plain,
        ),
        (
            "ddserve serve --listen 127.0.0.1:0 --workers 1 --explain",
            Way::Lines,
            explained,
        ),
    ];
    for (line, way, fault) in rows {
        let listener = TcpListener::bind(&rt, "127.0.0.1:0")?;
        let address = listener.local_addr()?;
        let handle = TcpStream::from(OwnedFd::from(listener.try_clone()?));
        let (outcome, told) = thread::join(
            &rt,
            || run_at(&rt, alloc, line, &listener),
            || converse_and_close(&rt, alloc, address, way, &handle),
        );
        let told = told.expect(&rt, "the client has its replies");
        let outcome = outcome.expect(&rt, "a run");
        assert_eq!(rt; told.as_str(), wanted(alloc, fault)?.as_str());
        assert!(rt; has_ended(alloc, &outcome, address)?);
    }
    Ok(())
}
