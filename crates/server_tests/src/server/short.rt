//! A short job, on which its session works itself while the only worker is held.
use crate::server::client::{Client, Fetched, Way};
use crate::server::serving::{LINES, Run, serve};
use dd_work::{Gate, NoGate};
use std::alloc::Global;
use std::net::{Net, SocketAddr, TcpListener, TcpStream};
use std::sync::Wait;
use std::sync::atomic::{AtomicBool, Ordering};
use std::test::Fail;
use std::thread::Threads;
use std::time::{Clock, Duration};
use std::{io, thread};

// The most turns, of about a millisecond, that a worker is held.
const TURNS: u32 = 20_000;

// Five tricks, which North's spades take.
const FIVE: &str =
    r#"{"do":"solve","deal":"N:AKQJT... 98765... .AKQJT.. ..AKQJT.","trump":4,"first":0,"solutions":3}"#;

const FIVE_ANSWER: &str =
    r#"{"cards":[{"equals":15360,"rank":14,"score":5,"suit":0}],"job":1,"state":"done"}"#;

// Four tricks, likewise.
const FOUR: &str =
    r#"{"do":"solve","deal":"N:AKQJ... 9876... .AKQJ.. ..AKQJ.","trump":4,"first":0,"solutions":3}"#;

const FOUR_ANSWER: &str =
    r#"{"cards":[{"equals":14336,"rank":14,"score":4,"suit":0}],"job":2,"state":"done"}"#;

const STOP: &str = r#"{"do":"stop"}"#;

// Holds who works on job 1 until who works on job 2 has handed it in.
#[derive(Drop)]
struct HoldsFirst<'a, R> {
    rt: &'a R,
    is_done: &'a AtomicBool,
    is_late: &'a AtomicBool,
}

impl<'a, R: Clock> Gate for HoldsFirst<'a, R> {
    fn before(&self, job: u64) {
        if job == 1 {
            hold(self.rt, self.is_done, self.is_late);
        }
    }

    fn after(&self, job: u64) {
        if job == 2 {
            self.is_done.store(true, Ordering::SeqCst);
        }
    }
}

// Holds until job 2 is done, or the turns are used up.
fn hold<R: Clock>(rt: &R, is_done: &AtomicBool, is_late: &AtomicBool) {
    for _ in 0..TURNS {
        if is_done.load(Ordering::SeqCst) {
            return;
        }
        thread::sleep(rt, Duration::from_millis(1));
    }
    is_late.store(true, Ordering::SeqCst);
}

fn serve_one<R: Threads + Wait + Clock + Eprint + Sync>(
    rt: &R,
    alloc: Global,
    listener: TcpListener,
    is_done: &AtomicBool,
    is_late: &AtomicBool,
) -> Option<u64> {
    let gate = HoldsFirst {
        rt,
        is_done,
        is_late,
    };
    serve(rt, alloc, listener, LINES, &gate)?.ok()
}

// What the client was told.
#[derive(Drop)]
struct Talk {
    long: String,
    running: String,
    short: String,
    second: Fetched,
    first: Fetched,
    stopped: String,
}

// Submits a long job, which is held, and then a short one; asks for both, and stops the server.
fn converse<R: Net<Stream = TcpStream>>(
    rt: &R,
    alloc: Global,
    address: SocketAddr,
) -> io::Result<Talk> {
    let stream = TcpStream::connect(rt, address)?;
    let mut client = Client::new(alloc, Way::Lines, &stream)?;
    Ok(Talk {
        long: client.ask(FIVE)?,
        running: until_it_runs(&mut client)?,
        short: client.ask(FOUR)?,
        second: client.fetch(r#"{"do":"fetch","job":2}"#)?,
        first: client.fetch(r#"{"do":"fetch","job":1}"#)?,
        stopped: client.ask(STOP)?,
    })
}

// Fetches the long job until it runs: the last reply.
fn until_it_runs(client: &mut Client<'_>) -> io::Result<String> {
    let mut reply = client.ask(r#"{"do":"fetch","job":1}"#)?;
    for _ in 0..TURNS {
        if !reply.ends_with("\"waiting\"}") {
            break;
        }
        reply = client.ask(r#"{"do":"fetch","job":1}"#)?;
    }
    Ok(reply)
}

#[test]
fn a_session_works_on_its_short_job_while_the_worker_is_held(rt: HostRuntime) -> Result<(), Fail> {
    let listener = TcpListener::bind(&rt, "127.0.0.1:0")?;
    let address = listener.local_addr()?;
    let is_done = AtomicBool::new(false);
    let is_late = AtomicBool::new(false);
    let (events, talk) = thread::join(
        &rt,
        || serve_one(&rt, rt.alloc(), listener, &is_done, &is_late),
        || converse(&rt, rt.alloc(), address).ok(),
    );
    let held_in_vain = is_late.load(Ordering::SeqCst);
    assert!(rt; !held_in_vain);
    let talk = talk.expect(&rt, "the client has its replies");
    assert_eq!(rt; talk.long.as_str(), "{\"job\":1}");
    assert_eq!(rt; talk.running.as_str(), "{\"job\":1,\"state\":\"running\"}");
    assert_eq!(rt; talk.short.as_str(), "{\"job\":2}");
    assert_eq!(rt; talk.second.reply.as_str(), FOUR_ANSWER);
    // It was done when it was told its number.
    assert_eq!(rt; talk.second.fetches, 1);
    assert_eq!(rt; talk.first.reply.as_str(), FIVE_ANSWER);
    assert_eq!(rt; talk.stopped.as_str(), "{\"closing\":true}");
    // Beside at least three fetches two submits, claims and finishes, the shut and the worker's last claim.
    assert!(rt; events >= Some(11));
    Ok(())
}

// Four tricks, and the client waits for its job.
const FOUR_WAITS: &str =
    r#"{"do":"solve","deal":"N:AKQJ... 9876... .AKQJ.. ..AKQJ.","trump":4,"first":0,"solutions":3,"wait":60000}"#;

const THREE_ANSWERS: &str =
    r#"{"cards":[{"equals":14336,"rank":14,"score":4,"suit":0}],"job":1,"state":"done"}
{"cards":[{"equals":14336,"rank":14,"score":4,"suit":0}],"job":2,"state":"done"}
{"cards":[{"equals":14336,"rank":14,"score":4,"suit":0}],"job":3,"state":"done"}
{"closing":true}
"#;

// Three clients, each of which asks for a short job while those before it are still there, and the first one for a stop.
fn ask_one_after_the_other<R: Net<Stream = TcpStream>>(
    rt: &R,
    alloc: Global,
    address: SocketAddr,
) -> io::Result<String> {
    let one = TcpStream::connect(rt, address)?;
    let mut first = Client::new(alloc, Way::Lines, &one)?;
    let told = first.ask(FOUR_WAITS)?;
    let two = TcpStream::connect(rt, address)?;
    let mut second = Client::new(alloc, Way::Lines, &two)?;
    let next = second.ask(FOUR_WAITS)?;
    let three = TcpStream::connect(rt, address)?;
    let mut third = Client::new(alloc, Way::Lines, &three)?;
    let last = third.ask(FOUR_WAITS)?;
    let stopped = first.ask(STOP)?;
    let (told, next) = (told.as_str(), next.as_str());
    let (last, stopped) = (last.as_str(), stopped.as_str());
    Ok(format!(in alloc; "{told}\n{next}\n{last}\n{stopped}\n")?)
}

// Of six passes the run and its worker have one each, and the first client two, of which one is that of a worker. Half of them are
// given then, so each other client has one. If the second had two, the next run would begin with the third. Each job is a submit, a
// claim, a finish and a fetch; then there are the shut and the worker's last claim.
#[test]
fn a_session_leaves_the_last_half_of_the_passes_to_others(rt: HostRuntime) -> Result<(), Fail> {
    let listener = TcpListener::bind(&rt, "127.0.0.1:0")?;
    let address = listener.local_addr()?;
    let run = Run { passes: 6, ..LINES };
    let (ended, told) = thread::join(
        &rt,
        || serve(&rt, rt.alloc(), listener, run, &NoGate),
        || ask_one_after_the_other(&rt, rt.alloc(), address).ok(),
    );
    let told = told.expect(&rt, "the clients have their replies");
    assert_eq!(rt; told.as_str(), THREE_ANSWERS);
    assert!(rt; ended == Some(Ok(14)));
    Ok(())
}
