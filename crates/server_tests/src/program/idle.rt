//! The program as a server of a client that sends nothing.
use crate::program::asking::run_at;
use crate::server::client::{Client, Way};
use dd_streams::Ending;
use std::alloc::Global;
use std::net::{Net, SocketAddr, TcpListener, TcpStream};
use std::test::Fail;
use std::time::Duration;
use std::{io, thread};

// The most seconds that a client waits for the end of its connection.
const PATIENCE: u64 = 20;

// A client that sends nothing hears the end of its connection, and another stops the program.
fn be_silent<R: Net<Stream = TcpStream>>(
    rt: &R,
    alloc: Global,
    address: SocketAddr,
) -> io::Result<String> {
    let stream = TcpStream::connect(rt, address)?;
    stream.set_read_timeout(Some(Duration::from_secs(PATIENCE)))?;
    let mut silent = Client::new(alloc, Way::Lines, &stream)?;
    let heard = silent.hear();
    let other = TcpStream::connect(rt, address)?;
    let mut client = Client::new(alloc, Way::Lines, &other)?;
    let stopped = client.ask(r#"{"do":"stop"}"#)?;
    let (heard, stopped) = (heard?, stopped.as_str());
    let heard = heard.as_str();
    Ok(format!(in alloc; "{heard}\n{stopped}\n")?)
}

#[test]
fn a_silent_client_is_cut_off_after_as_many_seconds_as_the_words_ask(
    rt: HostRuntime,
) -> Result<(), Fail> {
    let alloc = rt.alloc();
    let line = "ddserve serve --listen 127.0.0.1:0 --workers 1 --idle 1 --allow-stop";
    let listener = TcpListener::bind(&rt, "127.0.0.1:0")?;
    let address = listener.local_addr()?;
    let (outcome, told) = thread::join(
        &rt,
        || run_at(&rt, alloc, line, &listener),
        || be_silent(&rt, alloc, address).ok(),
    );
    let told = told.expect(&rt, "the silent client hears the end of its connection");
    let outcome = outcome.expect(&rt, "a run");
    assert_eq!(rt; told.as_str(), "\n{\"closing\":true}\n");
    assert!(rt; outcome.ending == Ending::Closed);
    Ok(())
}
