//! Several clients of one server, and what stops it.
use crate::server::client::{Client, Way};
use crate::server::serving::{LINES, Run, serve};
use dd_server::ServeFault;
use dd_work::{Gate, NoGate};
use std::alloc::Global;
use std::net::{Net, Shutdown, SocketAddr, TcpListener, TcpStream};
use std::os::fd::OwnedFd;
use std::sync::Wait;
use std::sync::atomic::{AtomicBool, Ordering};
use std::test::Fail;
use std::thread::Threads;
use std::time::{Clock, Duration};
use std::{io, thread};

// The most turns, of about a millisecond, that a worker is held.
const TURNS: u32 = 60_000;

// Three cards are on the trick, and the ace is left: the search visits one position.
const LAST_CARD: &str =
    r#"{"do":"solve","deal":"N:A... ... ... ...","trump":4,"first":1,"solutions":3,"played":[[0,13],[0,12],[0,11]]}"#;

const FETCH: &str = r#"{"do":"fetch","job":1}"#;

const STOP: &str = r#"{"do":"stop"}"#;

// Writes a reply down, in a line.
fn note(told: &mut String, reply: &str) -> io::Result<()> {
    told.push_str(reply)?;
    told.push_str("\n")?;
    Ok(())
}

// One client asks for a job and for a stop. Another comes meanwhile and takes the last pass.
fn converse<R: Net<Stream = TcpStream>>(
    rt: &R,
    alloc: Global,
    address: SocketAddr,
) -> io::Result<String> {
    let mut told = String::new(alloc);
    let stream = TcpStream::connect(rt, address)?;
    let mut client = Client::new(alloc, Way::Lines, &stream)?;
    note(&mut told, client.ask(LAST_CARD)?.as_str())?;
    note(&mut told, client.fetch(FETCH)?.reply.as_str())?;
    let late = TcpStream::connect(rt, address)?;
    let mut other = Client::new(alloc, Way::Lines, &late)?;
    note(&mut told, other.ask(FETCH)?.as_str())?;
    note(&mut told, client.ask(STOP)?.as_str())?;
    note(
        &mut told,
        client.ask(r#"{"do":"cancel","job":1}"#)?.as_str(),
    )?;
    Ok(told)
}

// The same, and then no connection can be accepted any more.
fn converse_and_close<R: Net<Stream = TcpStream>>(
    rt: &R,
    alloc: Global,
    address: SocketAddr,
    listener: &TcpStream,
) -> Option<String> {
    let told = converse(rt, alloc, address);
    let _ = listener.shutdown(Shutdown::Both);
    told.ok()
}

#[test]
fn without_leave_no_client_stops_the_server(rt: HostRuntime) -> Result<(), Fail> {
    let listener = TcpListener::bind(&rt, "127.0.0.1:0")?;
    let address = listener.local_addr()?;
    let handle = TcpStream::from(OwnedFd::from(listener.try_clone()?));
    // One pass is the run's own, one the worker's, and one each client's.
    let run = Run {
        passes: 4,
        budget: Some(0),
        allow_stop: false,
        ..LINES
    };
    let (ended, told) = thread::join(
        &rt,
        || serve(&rt, rt.alloc(), listener, run, &NoGate),
        || converse_and_close(&rt, rt.alloc(), address, &handle),
    );
    let told = told.expect(&rt, "the clients have their replies");
    let wanted =
        "{\"job\":1}\n{\"job\":1,\"state\":\"spent\"}\n{\"fault\":16}\n{\"fault\":3}\n{\"fault\":17}\n";
    assert_eq!(rt; told.as_str(), wanted);
    assert!(rt; ended == Some(Err(ServeFault::Listen)));
    Ok(())
}

// Each search waits until it is released.
#[derive(Drop)]
struct HoldsEach<'a, R> {
    rt: &'a R,
    released: &'a AtomicBool,
}

impl<'a, R: Clock> Gate for HoldsEach<'a, R> {
    fn before(&self, _job: u64) {
        for _ in 0..TURNS {
            if self.released.load(Ordering::SeqCst) {
                return;
            }
            thread::sleep(self.rt, Duration::from_millis(1));
        }
    }

    fn after(&self, _job: u64) {}

    fn lets_others_work(&self) -> bool {
        false
    }
}

fn serve_held<R: Threads + Wait + Clock + Eprint + Sync>(
    rt: &R,
    alloc: Global,
    listener: TcpListener,
    released: &AtomicBool,
) -> Option<Result<u64, ServeFault>> {
    serve(rt, alloc, listener, LINES, &HoldsEach { rt, released })
}

// Three clients at once. The job of the first is held before its search, that of the second waits and is cancelled; the first
// stops the server.
fn converse_at_once<R: Net<Stream = TcpStream>>(
    rt: &R,
    alloc: Global,
    address: SocketAddr,
) -> io::Result<String> {
    let mut told = String::new(alloc);
    let streams = (
        TcpStream::connect(rt, address)?,
        TcpStream::connect(rt, address)?,
    );
    let mut first = Client::new(alloc, Way::Lines, &streams.0)?;
    let mut second = Client::new(alloc, Way::Lines, &streams.1)?;
    note(&mut told, first.ask(LAST_CARD)?.as_str())?;
    note(&mut told, second.ask(FETCH)?.as_str())?;
    note(
        &mut told,
        second.ask(r#"{"do":"cancel","job":1}"#)?.as_str(),
    )?;
    note(&mut told, second.ask(LAST_CARD)?.as_str())?;
    note(
        &mut told,
        second.ask(r#"{"do":"cancel","job":2}"#)?.as_str(),
    )?;
    let stream = TcpStream::connect(rt, address)?;
    let mut third = Client::new(alloc, Way::Lines, &stream)?;
    note(&mut told, third.ask(FETCH)?.as_str())?;
    note(&mut told, first.ask(STOP)?.as_str())?;
    Ok(told)
}

// The same, and then the job is searched.
fn converse_and_release<R: Net<Stream = TcpStream>>(
    rt: &R,
    alloc: Global,
    address: SocketAddr,
    released: &AtomicBool,
) -> Option<String> {
    let told = converse_at_once(rt, alloc, address);
    released.store(true, Ordering::SeqCst);
    told.ok()
}

// Beside seven calls of clients there are the claim of the first job, its finish, which was stopped, and its cancel, since it
// is open when its client is cut off. Where the cancel comes before the finish the worker claims once more.
#[test]
fn a_stop_ends_the_search_and_a_cancel_ends_its_job_alone(rt: HostRuntime) -> Result<(), Fail> {
    let listener = TcpListener::bind(&rt, "127.0.0.1:0")?;
    let address = listener.local_addr()?;
    let released = AtomicBool::new(false);
    let (ended, told) = thread::join(
        &rt,
        || serve_held(&rt, rt.alloc(), listener, &released),
        || converse_and_release(&rt, rt.alloc(), address, &released),
    );
    let told = told.expect(&rt, "the clients have their replies");
    let wanted =
        "{\"job\":1}\n{\"fault\":16}\n{\"fault\":16}\n{\"job\":2}\n{\"job\":2,\"state\":\"cancelled\"}\n{\"fault\":16}\n{\"closing\":true}\n";
    assert_eq!(rt; told.as_str(), wanted);
    assert!(rt; matches!(ended, Some(Ok(10 | 11))));
    Ok(())
}
