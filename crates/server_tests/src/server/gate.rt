//! Two workers, of which one is held until the other has answered.
use crate::server::client::{Client, Fetched, Way};
use crate::server::serving::{LINES, Run, serve};
use dd_work::Gate;
use std::alloc::Global;
use std::net::{Net, SocketAddr, TcpListener, TcpStream};
use std::sync::Wait;
use std::sync::atomic::{AtomicBool, Ordering};
use std::test::Fail;
use std::thread::Threads;
use std::time::{Clock, Duration};
use std::{io, thread};

// The most turns, of about a millisecond, that a worker is held.
const TURNS: u32 = 60_000;

// A king behind ace and queen: North's side takes one trick.
const BEHIND: &str =
    r#"{"do":"solve","deal":"N:32... 65... AQ... K4...","trump":4,"first":0,"solutions":3}"#;

const BEHIND_ANSWER: &str =
    r#"{"cards":[{"equals":4,"rank":3,"score":1,"suit":0}],"job":1,"state":"done"}"#;

// The ace of spades is ruffed.
const RUFFED: &str =
    r#"{"do":"solve","deal":"N:A... .2.. 2... 3...","trump":1,"first":0,"solutions":3}"#;

const RUFFED_ANSWER: &str =
    r#"{"cards":[{"equals":0,"rank":14,"score":0,"suit":0}],"job":2,"state":"done"}"#;

// What the workers tell one another.
#[derive(Drop)]
struct Signs {
    // job 2 was answered
    answered: AtomicBool,
    // job 1 was held in vain
    late: AtomicBool,
}

// Job 1 begins once job 2 was answered.
#[derive(Drop)]
struct HoldsFirst<'a, R> {
    rt: &'a R,
    signs: &'a Signs,
}

impl<'a, R: Clock> Gate for HoldsFirst<'a, R> {
    fn before(&self, job: u64) {
        if job == 1 {
            hold(self.rt, self.signs);
        }
    }

    fn after(&self, job: u64) {
        if job == 2 {
            self.signs.answered.store(true, Ordering::SeqCst);
        }
    }

    fn lets_others_work(&self) -> bool {
        false
    }
}

// Holds until job 2 was answered, or the turns are used up.
fn hold<R: Clock>(rt: &R, signs: &Signs) {
    for _ in 0..TURNS {
        if signs.answered.load(Ordering::SeqCst) {
            return;
        }
        thread::sleep(rt, Duration::from_millis(1));
    }
    signs.late.store(true, Ordering::SeqCst);
}

fn serve_two<R: Threads + Wait + Clock + Eprint + Sync>(
    rt: &R,
    alloc: Global,
    listener: TcpListener,
    signs: &Signs,
) -> Option<u64> {
    let run = Run {
        workers: 2,
        ..LINES
    };
    serve(rt, alloc, listener, run, &HoldsFirst { rt, signs })?.ok()
}

// What the client was told.
#[derive(Drop)]
struct Talk {
    submitted: String,
    submitted_next: String,
    second: Fetched,
    first: Fetched,
    stopped: String,
}

// Submits both jobs, asks for the second until it is done and then for the first, and stops the
// server.
fn converse<R: Net<Stream = TcpStream>>(
    rt: &R,
    alloc: Global,
    address: SocketAddr,
) -> io::Result<Talk> {
    let stream = TcpStream::connect(rt, address)?;
    let mut client = Client::new(alloc, Way::Lines, &stream)?;
    Ok(Talk {
        submitted: client.ask(BEHIND)?,
        submitted_next: client.ask(RUFFED)?,
        second: client.fetch(r#"{"do":"fetch","job":2}"#)?,
        first: client.fetch(r#"{"do":"fetch","job":1}"#)?,
        stopped: client.ask(r#"{"do":"stop"}"#)?,
    })
}

#[test]
fn a_job_is_answered_while_another_is_held(rt: HostRuntime) -> Result<(), Fail> {
    let listener = TcpListener::bind(&rt, "127.0.0.1:0")?;
    let address = listener.local_addr()?;
    let signs = Signs {
        answered: AtomicBool::new(false),
        late: AtomicBool::new(false),
    };
    let (events, talk) = thread::join(
        &rt,
        || serve_two(&rt, rt.alloc(), listener, &signs),
        || converse(&rt, rt.alloc(), address).ok(),
    );
    let held_in_vain = signs.late.load(Ordering::SeqCst);
    assert!(rt; !held_in_vain);
    let talk = talk.expect(&rt, "the client has its replies");
    assert_eq!(rt; talk.submitted.as_str(), "{\"job\":1}");
    assert_eq!(rt; talk.submitted_next.as_str(), "{\"job\":2}");
    assert_eq!(rt; talk.second.reply.as_str(), RUFFED_ANSWER);
    assert_eq!(rt; talk.first.reply.as_str(), BEHIND_ANSWER);
    assert_eq!(rt; talk.stopped.as_str(), "{\"closing\":true}");
    // Beside the fetches two submits, claims and finishes, the shut and two last claims.
    let fetches = u64::from(talk.second.fetches) + u64::from(talk.first.fetches);
    assert_eq!(rt; events, fetches.checked_add(9));
    Ok(())
}
