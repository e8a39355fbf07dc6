//! A run of the program over a listener of the test's, and a client that asks it for one job and for a stop.
use crate::program::devices::{Outcome, SOUND, run_line};
use crate::program::given::Given;
use crate::server::client::{Client, Way};
use std::alloc::Global;
use std::io;
use std::net::{Net, SocketAddr, TcpListener, TcpStream};
use std::sync::Wait;
use std::thread::Threads;
use std::time::Clock;

/// What a client is told that asks for a job, for its end and for a stop: three lines.
pub fn converse<R: Net<Stream = TcpStream>>(
    rt: &R,
    alloc: Global,
    address: SocketAddr,
    way: Way,
    request: &str,
) -> io::Result<String> {
    let stream = TcpStream::connect(rt, address)?;
    let mut client = Client::new(alloc, way, &stream)?;
    let submitted = client.ask(request)?;
    let fetched = client.fetch(r#"{"do":"fetch","job":1}"#)?;
    let stopped = client.ask(r#"{"do":"stop"}"#)?;
    let (submitted, state) = (submitted.as_str(), fetched.reply.as_str());
    let stopped = stopped.as_str();
    Ok(format!(in alloc; "{submitted}\n{state}\n{stopped}\n")?)
}

/// A run of the words of this line, over this listener in place of the address that they name.
pub fn run_at<
    W: Threads + Wait + Clock + Eprint + Net<Listener = TcpListener, Stream = TcpStream> + Sync,
>(rt: &W, alloc: Global, line: &str, listener: &TcpListener) -> Option<Outcome> {
    run_line(&Given { rt, listener }, alloc, line, "", SOUND).ok()
}
