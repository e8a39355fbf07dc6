//! One worker, and a client that asks for one job.
use crate::server::client::{Client, Fetched, Way};
use crate::server::serving::{LINES, Run, serve};
use dd_server::ServeFault;
use dd_work::NoGate;
use std::alloc::Global;
use std::net::{Net, SocketAddr, TcpListener, TcpStream};
use std::test::Fail;
use std::{io, thread};

// Two tricks, and three cards to lead, none like another.
const THREE_CARDS: &str =
    r#"{"do":"solve","deal":"N:A2.K.. K3.A.. Q4.Q.. J5.J..","trump":4,"first":0,"solutions":3}"#;

// Its answer, as job 1: a message of over 125 bytes.
const ANSWER: &str =
    r#"{"cards":[{"equals":0,"rank":13,"score":2,"suit":1},{"equals":0,"rank":14,"score":1,"suit":0},{"equals":0,"rank":2,"score":1,"suit":0}],"job":1,"state":"done"}"#;

// Three cards are on the trick, and the ace is left: the search visits one position.
const LAST_CARD: &str =
    r#"{"do":"solve","deal":"N:A... ... ... ...","trump":4,"first":1,"solutions":3,"played":[[0,13],[0,12],[0,11]],"wait":60000}"#;

// What the client was told.
#[derive(Drop)]
struct Talk {
    submitted: String,
    fetched: Fetched,
    stopped: String,
}

// Submits a job, asks for it until it is done or refused, and stops the server.
fn converse<R: Net<Stream = TcpStream>>(
    rt: &R,
    alloc: Global,
    address: SocketAddr,
    way: Way,
) -> io::Result<Talk> {
    let stream = TcpStream::connect(rt, address)?;
    let mut client = Client::new(alloc, way, &stream)?;
    Ok(Talk {
        submitted: client.ask(THREE_CARDS)?,
        fetched: client.fetch(r#"{"do":"fetch","job":1}"#)?,
        stopped: client.ask(r#"{"do":"stop"}"#)?,
    })
}

// Is each reply what is wanted, and is each call an event: beside the fetches a submit, a claim, a
// finish, the shut and the last claim?
fn is_whole(ended: Option<Result<u64, ServeFault>>, talk: &Option<Talk>) -> bool {
    let Some(talk) = talk else {
        return false;
    };
    talk.submitted.as_str() == "{\"job\":1}"
        && talk.fetched.reply.as_str() == ANSWER
        && talk.stopped.as_str() == "{\"closing\":true}"
        && ended == Some(Ok(u64::from(talk.fetched.fetches) + 5))
}

#[test]
fn each_line_of_a_client_and_each_call_of_a_worker_is_an_event(
    rt: HostRuntime,
) -> Result<(), Fail> {
    let listener = TcpListener::bind(&rt, "127.0.0.1:0")?;
    let address = listener.local_addr()?;
    let (ended, talk) = thread::join(
        &rt,
        || serve(&rt, rt.alloc(), listener, LINES, &NoGate),
        || converse(&rt, rt.alloc(), address, Way::Lines).ok(),
    );
    assert!(rt; is_whole(ended, &talk));
    Ok(())
}

#[test]
fn each_message_of_a_client_and_each_call_of_a_worker_is_an_event(
    rt: HostRuntime,
) -> Result<(), Fail> {
    let listener = TcpListener::bind(&rt, "127.0.0.1:0")?;
    let address = listener.local_addr()?;
    let run = Run {
        websocket: true,
        ..LINES
    };
    let (ended, talk) = thread::join(
        &rt,
        || serve(&rt, rt.alloc(), listener, run, &NoGate),
        || converse(&rt, rt.alloc(), address, Way::Messages).ok(),
    );
    assert!(rt; is_whole(ended, &talk));
    Ok(())
}

// Asks for a job by a line that waits, and for more than the journal has room for; then stops the server.
fn converse_to_the_last_event<R: Net<Stream = TcpStream>>(
    rt: &R,
    alloc: Global,
    address: SocketAddr,
) -> io::Result<String> {
    let stream = TcpStream::connect(rt, address)?;
    let mut client = Client::new(alloc, Way::Lines, &stream)?;
    let mut told = String::new(alloc);
    for line in [
        LAST_CARD,
        r#"{"do":"fetch","job":1}"#,
        r#"{"do":"fetch","job":1,"wait":60000}"#,
        r#"{"do":"cancel","job":1}"#,
        LAST_CARD,
        r#"{"do":"fetch","job":2}"#,
        r#"{"do":"stop"}"#,
    ] {
        told.push_str(client.ask(line)?.as_str())?;
        told.push_str("\n")?;
    }
    Ok(told)
}

// Of five events there are a submit, a claim, a finish, the fetch that tells the end, and the shut. The worker has left before it.
#[test]
fn a_full_journal_refuses_calls_and_a_stop_ends_the_server_all_the_same(
    rt: HostRuntime,
) -> Result<(), Fail> {
    let listener = TcpListener::bind(&rt, "127.0.0.1:0")?;
    let address = listener.local_addr()?;
    let run = Run { events: 5, ..LINES };
    let (ended, told) = thread::join(
        &rt,
        || serve(&rt, rt.alloc(), listener, run, &NoGate),
        || converse_to_the_last_event(&rt, rt.alloc(), address).ok(),
    );
    let told = told.expect(&rt, "the client has its replies");
    assert_eq!(rt;
        told.as_str(),
        "{\"cards\":[{\"equals\":0,\"rank\":14,\"score\":1,\"suit\":0}],\"job\":1,\"state\":\"done\"}\n{\"fault\":15}\n{\"fault\":15}\n{\"fault\":15}\n{\"fault\":15}\n{\"fault\":15}\n{\"closing\":true}\n"
    );
    assert!(rt; ended == Some(Ok(5)));
    Ok(())
}
