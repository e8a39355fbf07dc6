//! Clients that send nothing, with a job that is open and without one.
use crate::server::client::{Client, Way};
use crate::server::serving::{LINES, Run, serve};
use dd_server::ServeFault;
use dd_work::Gate;
use std::alloc::Global;
use std::net::{Net, SocketAddr, TcpListener, TcpStream};
use std::sync::Wait;
use std::sync::atomic::{AtomicBool, Ordering};
use std::test::Fail;
use std::thread::Threads;
use std::time::{Clock, Duration};
use std::{io, thread};

// For how many milliseconds a client may be silent here.
const IDLE: u64 = 300;

// The most seconds that a client waits for the end of its connection.
const PATIENCE: u64 = 20;

// The most turns, of about a millisecond, that a worker is held.
const TURNS: u32 = 10_000;

// Three cards are on the trick, and the ace is left: the search visits one position.
const SUBMIT: &str =
    r#"{"do":"solve","deal":"N:A... ... ... ...","trump":4,"first":1,"played":[[0,13],[0,12],[0,11]],"solutions":3}"#;

const FETCH: &str = r#"{"do":"fetch","job":1}"#;

const STOP: &str = r#"{"do":"stop"}"#;

// Each search waits until it is released.
#[derive(Drop)]
struct HoldsEach<'a, R> {
    rt: &'a R,
    released: &'a AtomicBool,
}

impl<'a, R: Clock> Gate for HoldsEach<'a, R> {
    fn before(&self, _job: u64) {
        for _ in 0..TURNS {
            if self.released.load(Ordering::SeqCst) {
                return;
            }
            thread::sleep(self.rt, Duration::from_millis(1));
        }
    }

    fn after(&self, _job: u64) {}

    fn lets_others_work(&self) -> bool {
        false
    }
}

fn serve_held<R: Threads + Wait + Clock + Eprint + Sync>(
    rt: &R,
    alloc: Global,
    listener: TcpListener,
    run: Run,
    released: &AtomicBool,
) -> Option<Result<u64, ServeFault>> {
    serve(rt, alloc, listener, run, &HoldsEach { rt, released })
}

// A client that gives up when nothing comes.
fn connect<R: Net<Stream = TcpStream>>(rt: &R, address: SocketAddr) -> io::Result<TcpStream> {
    let stream = TcpStream::connect(rt, address)?;
    stream.set_read_timeout(Some(Duration::from_secs(PATIENCE)))?;
    Ok(stream)
}

// Three clients fall silent, of which one has an open job: what the two others hear, and then the one. When its job is released
// it fetches that, and stops the server.
fn fall_silent<R: Net<Stream = TcpStream> + Clock>(
    rt: &R,
    alloc: Global,
    address: SocketAddr,
    way: Way,
    released: &AtomicBool,
) -> io::Result<String> {
    let streams = (
        connect(rt, address)?,
        connect(rt, address)?,
        connect(rt, address)?,
    );
    let mut first = Client::new(alloc, way, &streams.0)?;
    let mut second = Client::new(alloc, way, &streams.1)?;
    let mut third = Client::new(alloc, way, &streams.2)?;
    let submitted = third.ask(SUBMIT)?;
    let unknown = second.ask(FETCH)?;
    let ends = (first.hear()?, second.hear()?);
    thread::sleep(rt, Duration::from_millis(2 * IDLE));
    let open = third.ask(FETCH)?;
    released.store(true, Ordering::SeqCst);
    let done = third.fetch(FETCH)?;
    let stopped = third.ask(STOP)?;
    let (submitted, unknown) = (submitted.as_str(), unknown.as_str());
    let (one, two, open) = (ends.0.as_str(), ends.1.as_str(), open.as_str());
    let (done, stopped) = (done.reply.as_str(), stopped.as_str());
    Ok(format!(in alloc; "{submitted}\n{unknown}\n{one}\n{two}\n{open}\n{done}\n{stopped}\n")?)
}

#[test]
fn a_silent_client_is_cut_off_unless_it_has_an_open_job(rt: HostRuntime) -> Result<(), Fail> {
    let wanted =
        "{\"job\":1}\n{\"fault\":16}\n\n\n{\"job\":1,\"state\":\"running\"}\n{\"cards\":[{\"equals\":0,\"rank\":14,\"score\":1,\"suit\":0}],\"job\":1,\"state\":\"done\"}\n{\"closing\":true}\n";
    for (way, websocket) in [(Way::Lines, false), (Way::Messages, true)] {
        let listener = TcpListener::bind(&rt, "127.0.0.1:0")?;
        let address = listener.local_addr()?;
        let released = AtomicBool::new(false);
        let run = Run {
            websocket,
            idle: Some(IDLE),
            ..LINES
        };
        let (ended, told) = thread::join(
            &rt,
            || serve_held(&rt, rt.alloc(), listener, run, &released),
            || fall_silent(&rt, rt.alloc(), address, way, &released).ok(),
        );
        let told = told.expect(&rt, "the clients hear the end of their connections");
        assert_eq!(rt; told.as_str(), wanted);
        assert!(rt; matches!(ended, Some(Ok(_))));
    }
    Ok(())
}
