//! Clients whose replies wait for the end of a job, at a server whose worker is held.
use crate::server::client::{Client, Way};
use crate::server::serving::{LINES, Run, serve};
use dd_server::ServeFault;
use dd_work::Gate;
use std::alloc::Global;
use std::io::Write;
use std::net::{Net, SocketAddr, TcpListener, TcpStream};
use std::sync::Wait;
use std::sync::atomic::{AtomicBool, Ordering};
use std::test::Fail;
use std::thread::Threads;
use std::time::{Clock, Duration};
use std::{io, thread};

// The most turns, of about a millisecond, that a worker is held.
const TURNS: u32 = 10_000;

// How many milliseconds a line that waits has to come to its wait.
const COMES: u64 = 50;

// Three cards are on the trick, and the ace is left: the search visits one position.
const WAITS: &str =
    r#"{"do":"solve","deal":"N:A... ... ... ...","trump":4,"first":1,"solutions":3,"played":[[0,13],[0,12],[0,11]],"wait":60000}"#;

const SUBMIT: &str =
    r#"{"do":"solve","deal":"N:A... ... ... ...","trump":4,"first":1,"solutions":3,"played":[[0,13],[0,12],[0,11]]}"#;

const DONE: &str =
    r#"{"cards":[{"equals":0,"rank":14,"score":1,"suit":0}],"job":1,"state":"done"}"#;

const FETCH: &str = r#"{"do":"fetch","job":1}"#;

const FETCH_AND_WAIT: &str = r#"{"do":"fetch","job":1,"wait":60000}"#;

const STOP: &str = r#"{"do":"stop"}"#;

// Each search waits until it is released.
#[derive(Drop)]
struct HoldsEach<'a, R> {
    rt: &'a R,
    released: &'a AtomicBool,
}

impl<'a, R: Clock> Gate for HoldsEach<'a, R> {
    fn before(&self, _job: u64) {
        for _ in 0..TURNS {
            if self.released.load(Ordering::SeqCst) {
                return;
            }
            thread::sleep(self.rt, Duration::from_millis(1));
        }
    }

    fn after(&self, _job: u64) {}

    fn lets_others_work(&self) -> bool {
        false
    }
}

fn serve_held<R: Threads + Wait + Clock + Eprint + Sync>(
    rt: &R,
    alloc: Global,
    listener: TcpListener,
    run: Run,
    released: &AtomicBool,
) -> Option<Result<u64, ServeFault>> {
    serve(rt, alloc, listener, run, &HoldsEach { rt, released })
}

// Sends a line whose reply comes later, and gives it time to come to its wait.
fn send_ahead<R: Clock>(rt: &R, mut stream: &TcpStream, line: &str) -> io::Result<()> {
    stream.write_all(line.as_bytes())?;
    stream.write_all(b"\n")?;
    thread::sleep(rt, Duration::from_millis(COMES));
    Ok(())
}

// Fetches the job until it runs.
fn until_it_runs(client: &mut Client<'_>) -> io::Result<()> {
    for _ in 0..TURNS {
        if client.ask(FETCH)?.ends_with("\"running\"}") {
            break;
        }
    }
    Ok(())
}

// The reply to a submit that waits for a job which is released when it has waited, and the reply to a stop.
fn wait_for_a_job<R: Net<Stream = TcpStream> + Clock>(
    rt: &R,
    alloc: Global,
    address: SocketAddr,
    released: &AtomicBool,
) -> io::Result<(String, String)> {
    let stream = TcpStream::connect(rt, address)?;
    let mut client = Client::new(alloc, Way::Lines, &stream)?;
    send_ahead(rt, &stream, WAITS)?;
    released.store(true, Ordering::SeqCst);
    let told = client.hear()?;
    Ok((told, client.ask(STOP)?))
}

// The submit, the claim, the finish, one fetch, the shut and the worker's last claim.
#[test]
fn who_waits_is_told_when_the_job_is_done_by_one_event(rt: HostRuntime) -> Result<(), Fail> {
    let listener = TcpListener::bind(&rt, "127.0.0.1:0")?;
    let address = listener.local_addr()?;
    let released = AtomicBool::new(false);
    let (ended, told) = thread::join(
        &rt,
        || serve_held(&rt, rt.alloc(), listener, LINES, &released),
        || wait_for_a_job(&rt, rt.alloc(), address, &released).ok(),
    );
    let (told, stopped) = told.expect(&rt, "the client has its replies");
    assert_eq!(rt;
        (told.as_str(), stopped.as_str()),
        (DONE, "{\"closing\":true}")
    );
    assert!(rt; ended == Some(Ok(6)));
    Ok(())
}

// One client waits for its job, which is held, and another stops the server: the replies to both.
fn stop_who_waits<R: Net<Stream = TcpStream> + Clock>(
    rt: &R,
    alloc: Global,
    address: SocketAddr,
) -> io::Result<(String, String)> {
    let streams = (
        TcpStream::connect(rt, address)?,
        TcpStream::connect(rt, address)?,
    );
    let mut first = Client::new(alloc, Way::Lines, &streams.0)?;
    let mut second = Client::new(alloc, Way::Lines, &streams.1)?;
    first.ask(SUBMIT)?;
    until_it_runs(&mut first)?;
    send_ahead(rt, &streams.0, FETCH_AND_WAIT)?;
    let stopped = second.ask(STOP)?;
    Ok((first.hear()?, stopped))
}

// The same, and then the job is searched.
fn stop_and_release<R: Net<Stream = TcpStream> + Clock>(
    rt: &R,
    alloc: Global,
    address: SocketAddr,
    released: &AtomicBool,
) -> Option<(String, String)> {
    let told = stop_who_waits(rt, alloc, address);
    released.store(true, Ordering::SeqCst);
    told.ok()
}

#[test]
fn a_stop_wakes_who_waits(rt: HostRuntime) -> Result<(), Fail> {
    let listener = TcpListener::bind(&rt, "127.0.0.1:0")?;
    let address = listener.local_addr()?;
    let released = AtomicBool::new(false);
    let (ended, told) = thread::join(
        &rt,
        || serve_held(&rt, rt.alloc(), listener, LINES, &released),
        || stop_and_release(&rt, rt.alloc(), address, &released),
    );
    let (told, stopped) = told.expect(&rt, "the clients have their replies");
    let wanted = (r#"{"job":1,"state":"running"}"#, "{\"closing\":true}");
    assert_eq!(rt; (told.as_str(), stopped.as_str()), wanted);
    assert!(rt; matches!(ended, Some(Ok(_))));
    Ok(())
}

// One client waits for its job, which is held until another has made each event that was free: what the one is told, what the
// other, and the reply to a stop.
fn use_up_what_is_free<R: Net<Stream = TcpStream> + Clock>(
    rt: &R,
    alloc: Global,
    address: SocketAddr,
    released: &AtomicBool,
) -> io::Result<String> {
    let one = TcpStream::connect(rt, address)?;
    let mut first = Client::new(alloc, Way::Lines, &one)?;
    let submitted = first.ask(SUBMIT)?;
    let two = TcpStream::connect(rt, address)?;
    let mut second = Client::new(alloc, Way::Lines, &two)?;
    send_ahead(rt, &one, FETCH_AND_WAIT)?;
    let others = (second.ask(FETCH)?, second.ask(FETCH)?, second.ask(FETCH)?);
    released.store(true, Ordering::SeqCst);
    let told = first.hear()?;
    let stopped = second.ask(STOP)?;
    let (submitted, told, stopped) = (submitted.as_str(), told.as_str(), stopped.as_str());
    let (other, next, last) = (others.0.as_str(), others.1.as_str(), others.2.as_str());
    Ok(format!(in alloc; "{submitted}\n{other}\n{next}\n{last}\n{told}\n{stopped}\n")?)
}

// The same, and the job is searched whatever was told.
fn use_up_and_release<R: Net<Stream = TcpStream> + Clock>(
    rt: &R,
    alloc: Global,
    address: SocketAddr,
    released: &AtomicBool,
) -> Option<String> {
    let told = use_up_what_is_free(rt, alloc, address, released);
    released.store(true, Ordering::SeqCst);
    told.ok()
}

// Of seven events a claim, a finish, the fetch that waits and a shut are put by at the submit, and two are free.
#[test]
fn who_waits_is_told_the_end_where_no_event_is_free(rt: HostRuntime) -> Result<(), Fail> {
    let listener = TcpListener::bind(&rt, "127.0.0.1:0")?;
    let address = listener.local_addr()?;
    let released = AtomicBool::new(false);
    let run = Run { events: 7, ..LINES };
    let (ended, told) = thread::join(
        &rt,
        || serve_held(&rt, rt.alloc(), listener, run, &released),
        || use_up_and_release(&rt, rt.alloc(), address, &released),
    );
    let told = told.expect(&rt, "the clients have their replies");
    let wanted = format!(in rt.alloc();
        "{{\"job\":1}}\n{{\"fault\":16}}\n{{\"fault\":16}}\n{{\"fault\":15}}\n{DONE}\n{{\"closing\":true}}\n"
    )?;
    assert_eq!(rt; told.as_str(), wanted.as_str());
    assert!(rt; ended == Some(Ok(7)));
    Ok(())
}

// A client waits for its job, which is held, and is gone; another stops the server.
fn leave_while_it_waits<R: Net<Stream = TcpStream> + Clock>(
    rt: &R,
    alloc: Global,
    address: SocketAddr,
) -> io::Result<String> {
    let gone = TcpStream::connect(rt, address)?;
    send_ahead(rt, &gone, WAITS)?;
    drop(gone);
    let stream = TcpStream::connect(rt, address)?;
    let mut client = Client::new(alloc, Way::Lines, &stream)?;
    client.ask(STOP)
}

// The same, and then the job is searched.
fn leave_and_release<R: Net<Stream = TcpStream> + Clock>(
    rt: &R,
    alloc: Global,
    address: SocketAddr,
    released: &AtomicBool,
) -> Option<String> {
    let told = leave_while_it_waits(rt, alloc, address);
    released.store(true, Ordering::SeqCst);
    told.ok()
}

#[test]
fn who_leaves_while_it_waits_holds_no_stop_up(rt: HostRuntime) -> Result<(), Fail> {
    let listener = TcpListener::bind(&rt, "127.0.0.1:0")?;
    let address = listener.local_addr()?;
    let released = AtomicBool::new(false);
    let (ended, told) = thread::join(
        &rt,
        || serve_held(&rt, rt.alloc(), listener, LINES, &released),
        || leave_and_release(&rt, rt.alloc(), address, &released),
    );
    let told = told.expect(&rt, "the other client has its reply");
    assert_eq!(rt; told.as_str(), "{\"closing\":true}");
    assert!(rt; matches!(ended, Some(Ok(_))));
    Ok(())
}
