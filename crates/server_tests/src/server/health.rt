//! Clients that ask how the run is, and nothing else.
use crate::server::client::{Client, Way};
use crate::server::serving::{LINES, Run, serve};
use dd_work::NoGate;
use std::alloc::Global;
use std::net::{Net, SocketAddr, TcpListener, TcpStream};
use std::test::Fail;
use std::{io, thread};

const HEALTH: &str = r#"{"do":"health"}"#;

// One pass of the run, one of its worker, and one of a client. The events are enough for a table of each of 64 connections that have
// asked nothing, beside the last quarter.
const FEW: Run = Run {
    passes: 3,
    events: 4_000,
    ..LINES
};

// Connections more than there are passes, each open until the end, or gone after it was told.
const MANY: usize = 20;

// What a client is told that asks how the run is.
fn ask_one<R: Net<Stream = TcpStream>>(
    rt: &R,
    alloc: Global,
    address: SocketAddr,
    way: Way,
) -> io::Result<String> {
    let stream = TcpStream::connect(rt, address)?;
    Client::new(alloc, way, &stream)?.ask(HEALTH)
}

// Silent connections that stay open, and clients that ask for health alone. Then one client has a pass for a fetch and a stop, and
// is told of the run between.
fn converse<R: Net<Stream = TcpStream>>(
    rt: &R,
    alloc: Global,
    address: SocketAddr,
    way: Way,
) -> io::Result<String> {
    let mut silent = Vec::new(alloc);
    for _ in 0..MANY {
        silent.push(TcpStream::connect(rt, address)?)?;
    }
    let mut asked = String::new(alloc);
    for _ in 0..MANY {
        asked = ask_one(rt, alloc, address, way)?;
    }
    let stream = TcpStream::connect(rt, address)?;
    let mut client = Client::new(alloc, way, &stream)?;
    let fetched = client.ask(r#"{"do":"fetch","job":1}"#)?;
    let health = client.ask(HEALTH)?;
    let stopped = client.ask(r#"{"do":"stop"}"#)?;
    let (asked, fetched) = (asked.as_str(), fetched.as_str());
    let (health, stopped) = (health.as_str(), stopped.as_str());
    Ok(format!(in alloc; "{asked}\n{fetched}\n{health}\n{stopped}\n")?)
}

#[test]
fn who_asks_for_health_or_nothing_takes_no_pass_and_makes_no_event(
    rt: HostRuntime,
) -> Result<(), Fail> {
    let alloc = rt.alloc();
    for (way, websocket) in [(Way::Lines, false), (Way::Messages, true)] {
        let listener = TcpListener::bind(&rt, "127.0.0.1:0")?;
        let address = listener.local_addr()?;
        let run = Run { websocket, ..FEW };
        let (ended, told) = thread::join(
            &rt,
            || serve(&rt, alloc, listener, run, &NoGate),
            || converse(&rt, alloc, address, way).ok(),
        );
        let told = told.expect(&rt, "what the clients are told");
        assert_eq!(rt;
            told.as_str(),
            "{\"events_left\":4000,\"jobs\":0,\"workers\":1}\n{\"fault\":16}\n{\"events_left\":3999,\"jobs\":0,\"workers\":1}\n{\"closing\":true}\n"
        );
        // A fetch, the shut, and the last claim of the worker.
        assert!(rt; ended == Some(Ok(3)));
    }
    Ok(())
}
